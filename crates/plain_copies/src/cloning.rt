//! A copy of a value, and what `clone` and `cloneReadOnly` come to.
#![tactic(auto, using(crate::proofs::Giving::giving))]

ghost use Rattle.std.specs.Prelude.{◌≡◌, IfOk};
ghost use Rattle.op_model.specs.Copies as model;
ghost use Rattle.plain_run.specs.Came.{WorldStays, came_of};
ghost use Rattle.plain_run.specs.Held.{world_of};
ghost use Rattle.plain_copies.specs.Copied.{IsCopied, copy_given};

use crate::cells::{has_room_for_all, make_all};
use crate::copies::{copied_value, push_copies};
use crate::reaching::{has_cycle, reached_from};
use bal_base::Memory;
use plain_run::{Came, World, panics};
use std::alloc::Global;
use value_model::{PanicName, Value};

/// A copy of the value, whose structures are mutable or are not, where there is room for one.
pub fn copied(
    alloc: Global,
    world: &mut World,
    mutable: bool,
    v: &Value,
) -> Result<Option<Value>, Memory>
    ensures { IfOk result (IsCopied mutable (world_of world.old) v.now (world_of world.new)) }
{
    let numbers = reached_from(alloc, &world.heap, v)?;
    let first = world.heap.structures.len();
    let left = numbers.as_slice();
    let copy = copied_value(first, left, v)?;
    let mut made = Vec::new(alloc);
    push_copies(alloc, first, left, mutable, &world.heap, left, &mut made)?;
    if !has_room_for_all(&world.heap, made.as_slice()) {
        return Ok(None);
    }
    make_all(world, made)?;
    Ok(Some(copy))
}

/// A copy of the value is given, where there is room for one.
fn gives_copy(alloc: Global, world: &mut World, mutable: bool, v: &Value) -> Result<Came, Memory>
    ensures row { IfOk result (λ came. came_of came world.new ≡ copy_given mutable (world_of world.old) v.now) }
    ensures stays { IfOk result (WorldStays world.old world.new) }
{
    match copied(alloc, world, mutable, v)? {
        None => Ok(Came::PassesCells),
        Some(copy) => Ok(Came::Gave(Some(copy))),
    }
}

/// `v.clone()`: each mutable structure that is reached is copied once, and the others are shared.
pub fn clones(alloc: Global, world: &mut World, v: &Value) -> Result<Came, Memory>
    ensures row { IfOk result (λ came. came_of came world.new ≡ model.clones (world_of world.old) v.now) }
    ensures stays { IfOk result (WorldStays world.old world.new) }
{
    gives_copy(alloc, world, true, v)
}

/// Whether one of the mutable structures that the value reaches contains itself.
fn contains_itself(alloc: Global, world: &World, v: &Value) -> Result<bool, Memory>
    ensures { IfOk result (λ b. b ≡ model.has_cycle (world_of world.now).heap (model.reached_from (world_of world.now) v.now)) }
{
    let numbers = reached_from(alloc, &world.heap, v)?;
    has_cycle(alloc, &world.heap, numbers.as_slice())
}

/// `v.cloneReadOnly()`: the same, but the copies are immutable; it panics where one of those contains itself.
pub fn freezes(alloc: Global, world: &mut World, v: &Value) -> Result<Came, Memory>
    ensures row { IfOk result (λ came. came_of came world.new ≡ model.freezes (world_of world.old) v.now) }
    ensures stays { IfOk result (WorldStays world.old world.new) }
{
    if contains_itself(alloc, world, v)? {
        return panics(alloc, world, PanicName::CyclicValue);
    }
    gives_copy(alloc, world, false, v)
}
