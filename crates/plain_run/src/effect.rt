//! What an operation comes to.
ghost use Rattle.std.specs.Prelude.{◌≡◌, ◌∷◌, IfOk, true};
ghost use Rattle.value_model.specs.declared.value.Value.TheVariants as values;
ghost use Rattle.op_model.specs.Effects.{lifted as lifted_of};
ghost use Rattle.plain_run.specs.declared.facts.ProgramFacts.{ProgramFacts as FactsOf};
ghost use Rattle.plain_run.specs.declared.held.Caller.{Caller as CallerOf};
ghost use Rattle.plain_run.specs.declared.held.Common.{Common as CommonOf};
ghost use Rattle.plain_run.specs.declared.held.World.{World as WorldOf};
ghost use Rattle.plain_run.specs.declared.effect.Performed.TheVariants.{Done};
ghost use Rattle.plain_run.specs.Came.{WorldStays, came_of};
ghost use Rattle.plain_run.specs.Held.{common_of, with_world, world_of};
ghost use Rattle.plain_run.specs.Effects.{AreTwoInts, IntsRow, IsPerformed, Stays, effect_of, operation_on};

use crate::held::{Common, Need, Role, World};
use crate::ints;
use crate::world::Came;
use bal_base::{LimitKind, Memory};
use std::alloc::Global;
use value_model::Value;

/// A strand that is made: it begins with a unit, as a named worker or as none.
#[derive(Drop)]
pub struct Spawned {
    pub unit: u32,
    pub args: Vec<Value>,
    pub role: Option<Role>,
}

/// An effect of an operation.
#[derive(Drop)]
pub enum Effect {
    /// It gives nothing or one value, and all goes on.
    Gives(Option<Value>),
    /// It panics with this error.
    Fails(Value),
    /// It can't be done yet.
    Waits(Need),
    /// A unit is called with these arguments.
    Enters {
        unit: u32,
        args: Vec<Value>,
    },
    /// The frame ends with this value.
    Leaves(Value),
    /// Strands were made, which begin so; the frame is this worker from now on, and this is given.
    Spawns {
        spawned: Vec<Spawned>,
        role: Option<Role>,
        given: Option<Value>,
    },
    /// It needs a tick, and none is left.
    NoTick,
    /// It would pass a limit of the run.
    Beyond(LimitKind),
}

/// What is answered for an operation on operands.
#[derive(Drop)]
pub enum Performed {
    /// It had this effect.
    Done(Effect),
    /// It has none on these operands.
    Stuck,
    /// That is not told, since a question of types isn't decided.
    Undecided,
}

/// An operation on two ints.
#[derive(Clone, Copy)]
pub enum Ints {
    Add,
    Subtract,
    Multiply,
    Divide,
    Remainder,
}

/// Two ints, where the operands are such.
fn two_ints(operands: &[Value]) -> Option<(i64, i64)>
    ensures { AreTwoInts operands.now result }
{
    match operands {
        [Value::Int(a), Value::Int(b)] => Some((*a, *b)),
        _ => None,
    }
}

/// What it comes to on two ints.
fn on_ints(alloc: Global, op: Ints, a: i64, b: i64, world: &mut World) -> Result<Came, Memory>
    ensures row { IfOk result (λ came. IntsRow op a b (world_of world.old) (came_of came world.new)) }
    ensures stays { IfOk result (WorldStays world.old world.new) }
{
    match op {
        Ints::Add => ints::add(alloc, world, a, b),
        Ints::Subtract => ints::subtract(alloc, world, a, b),
        Ints::Multiply => ints::multiply(alloc, world, a, b),
        Ints::Divide => ints::divide(alloc, world, a, b),
        Ints::Remainder => ints::remainder(alloc, world, a, b),
    }
}

/// An effect on the world, as one on the run.
pub fn lifted(came: Came) -> Effect
    ensures row { (c : CommonOf) → effect_of result c ≡ lifted_of (common_of c) (came_of came c.world) }
    ensures stays { (old : CommonOf) (w : WorldOf) → WorldStays old.world w came → Stays old (with_world old w) (Done result) }
{
    match came {
        Came::Gave(v) => Effect::Gives(v),
        Came::Threw(e) => Effect::Fails(e),
        Came::PassesCells => Effect::Beyond(LimitKind::Cells),
    }
}

/// What an operation on two ints comes to.
pub fn perform_ints(
    alloc: Global,
    op: Ints,
    operands: &[Value],
    common: &mut Common,
) -> Result<Performed, Memory>
    ensures row { IfOk result (λ done. (facts : FactsOf) (caller : CallerOf) → IsPerformed facts (operation_on op) operands.now caller common.old common.new ⊥ done) }
    ensures stays { IfOk result (Stays common.old common.new) }
{
    match two_ints(operands) {
        None => Ok(Performed::Stuck),
        Some((a, b)) => {
            let came = on_ints(alloc, op, a, b, &mut common.world)?;
            Ok(Performed::Done(lifted(came)))
        }
    }
}
