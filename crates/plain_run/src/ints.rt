//! Operations on ints.
ghost use Rattle.std.specs.Prelude.{◌≡◌, ◌+ℤ◌, ◌-ℤ◌, ◌*ℤ◌, neg_ℤ, IfOk, ℤ};
ghost use Rattle.op_model.specs.Rows.{GivesInt};
ghost use Rattle.op_model.specs.ValueRows.{Divides, Remains};
ghost use Rattle.plain_run.specs.Held.{world_of};
ghost use Rattle.plain_run.specs.Came.{IsGiven, WorldStays, came_of};

use crate::held::World;
use crate::world::{Came, panics};
use bal_base::Memory;
use std::alloc::Global;
use value_model::{PanicName, Value};

/// The int, or a panic where it is none.
fn gives_int(alloc: Global, world: &mut World, n: Option<i64>) -> Result<Came, Memory>
    ensures row { IfOk result (λ came. (z : ℤ) → IsGiven z n → GivesInt (world_of world.old) z (came_of came world.new)) }
    ensures stays { IfOk result (WorldStays world.old world.new) }
{
    match n {
        Some(n) => Ok(Came::Gave(Some(Value::Int(n)))),
        None => panics(alloc, world, PanicName::NumberOverflow),
    }
}

/// The sum, where it is an int.
fn sum(a: i64, b: i64) -> Option<i64>
    ensures { IsGiven (a +ℤ b) result }
{
    a.checked_add(b)
}

/// The difference, where it is an int.
fn difference(a: i64, b: i64) -> Option<i64>
    ensures { IsGiven (a -ℤ b) result }
{
    a.checked_sub(b)
}

/// The product, where it is an int.
fn product(a: i64, b: i64) -> Option<i64>
    ensures { IsGiven (a *ℤ b) result }
{
    a.checked_mul(b)
}

/// `a + b`
pub fn add(alloc: Global, world: &mut World, a: i64, b: i64) -> Result<Came, Memory>
    ensures row { IfOk result (λ came. GivesInt (world_of world.old) (a +ℤ b) (came_of came world.new)) }
    ensures stays { IfOk result (WorldStays world.old world.new) }
{
    gives_int(alloc, world, sum(a, b))
}

/// `a - b`
pub fn subtract(alloc: Global, world: &mut World, a: i64, b: i64) -> Result<Came, Memory>
    ensures row { IfOk result (λ came. GivesInt (world_of world.old) (a -ℤ b) (came_of came world.new)) }
    ensures stays { IfOk result (WorldStays world.old world.new) }
{
    gives_int(alloc, world, difference(a, b))
}

/// `a * b`
pub fn multiply(alloc: Global, world: &mut World, a: i64, b: i64) -> Result<Came, Memory>
    ensures row { IfOk result (λ came. GivesInt (world_of world.old) (a *ℤ b) (came_of came world.new)) }
    ensures stays { IfOk result (WorldStays world.old world.new) }
{
    gives_int(alloc, world, product(a, b))
}

/// `-a`
pub fn negate(alloc: Global, world: &mut World, a: i64) -> Result<Came, Memory>
    ensures row { IfOk result (λ came. GivesInt (world_of world.old) (neg_ℤ a) (came_of came world.new)) }
    ensures stays { IfOk result (WorldStays world.old world.new) }
{
    gives_int(alloc, world, a.checked_neg())
}

/// `a / b`
pub fn divide(alloc: Global, world: &mut World, a: i64, b: i64) -> Result<Came, Memory>
    ensures row { IfOk result (λ came. Divides (world_of world.old) a b (came_of came world.new)) }
    ensures stays { IfOk result (WorldStays world.old world.new) }
{
    if b == 0 {
        return panics(alloc, world, PanicName::DivisionByZero);
    }
    gives_int(alloc, world, a.checked_div(b))
}

/// `a % b`
pub fn remainder(alloc: Global, world: &mut World, a: i64, b: i64) -> Result<Came, Memory>
    ensures row { IfOk result (λ came. Remains (world_of world.old) a b (came_of came world.new)) }
    ensures stays { IfOk result (WorldStays world.old world.new) }
{
    if b == 0 {
        return panics(alloc, world, PanicName::DivisionByZero);
    }
    if b == -1 {
        return Ok(Came::Gave(Some(Value::Int(0))));
    }
    Ok(Came::Gave(Some(Value::Int(a % b))))
}
