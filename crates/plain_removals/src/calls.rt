//! The calls of the library (Ballerina's `lang.array` and `lang.map`).
ghost use Rattle.std.specs.Prelude.{IfOk};
ghost use Rattle.operations.specs.declared.library.LibraryCall.TheVariants as call;
ghost use Rattle.plain_run.specs.Held.{world_of};
ghost use Rattle.plain_structures.specs.Rows.{IsCalledBy, IsTried, TriedStays};
ghost use Rattle.plain_removals.specs.Removals.{IsItemBeyond, IsPopBeyond, IsEntryBeyond, IsRemoveItemBeyond, IsRemoveKeyBeyond, RemovesItem, RemovesEntry};

use crate::keys::mapping_removal;
use crate::place::Place;
use crate::places::list_removal;
use crate::storing::done;
use bal_base::{Memory, Text};
use plain_run::{ProgramFacts, World};
use plain_structures::{Tried, structure, structure_and_int, structure_and_text};
use std::alloc::Global;
use value_model::Value;

/// The item at a place of the list with this number is taken out.
fn removes_item(
    alloc: Global,
    facts: &ProgramFacts,
    n: u32,
    place: Place,
    world: &mut World,
) -> Result<Tried, Memory>
    ensures row { IfOk result (IsTried (RemovesItem facts.now (world_of world.old) n place) (IsItemBeyond facts.now world.old n place) world.new) }
    ensures stays { IfOk result (TriedStays world.old world.new) }
{
    match list_removal(alloc, facts, &world.heap, n, place)? {
        None => Ok(Tried::Stuck),
        Some(removal) => done(alloc, world, n, removal),
    }
}

/// The entry with a key of the mapping with this number is taken out.
fn removes_entry(
    alloc: Global,
    facts: &ProgramFacts,
    n: u32,
    key: &Text,
    world: &mut World,
) -> Result<Tried, Memory>
    ensures row { IfOk result (IsTried (RemovesEntry facts.now (world_of world.old) n key.now) (IsEntryBeyond facts.now world.old n key.now) world.new) }
    ensures stays { IfOk result (TriedStays world.old world.new) }
{
    match mapping_removal(alloc, facts, &world.heap, n, key)? {
        None => Ok(Tried::Stuck),
        Some(removal) => done(alloc, world, n, removal),
    }
}

/// `l.pop()`: the last item is taken out and given. It panics where the list has none, where it is immutable, and where its
/// inherent type doesn't allow what is left; and that may not be told.
pub fn pop(
    alloc: Global,
    facts: &ProgramFacts,
    operands: &[Value],
    world: &mut World,
) -> Result<Tried, Memory>
    ensures row { IfOk result (IsCalledBy facts.now call.Pop operands.now (IsPopBeyond facts.now world.old operands.now) world.old world.new) }
    ensures stays { IfOk result (TriedStays world.old world.new) }
{
    match structure(operands) {
        None => Ok(Tried::Stuck),
        Some(n) => removes_item(alloc, facts, n, Place::Last, world),
    }
}

/// `l.remove(i)` of lists: the item at the place is taken out and given. It panics where it isn't there, where the list is
/// immutable, and where its inherent type doesn't allow what is left; and that may not be told.
pub fn remove_item(
    alloc: Global,
    facts: &ProgramFacts,
    operands: &[Value],
    world: &mut World,
) -> Result<Tried, Memory>
    ensures row { IfOk result (IsCalledBy facts.now call.RemoveItem operands.now (IsRemoveItemBeyond facts.now world.old operands.now) world.old world.new) }
    ensures stays { IfOk result (TriedStays world.old world.new) }
{
    match structure_and_int(operands) {
        None => Ok(Tried::Stuck),
        Some((n, i)) => removes_item(alloc, facts, n, Place::At(i), world),
    }
}

/// `m.remove(k)` of mappings: the entry with the key is taken out, and its value is given. It panics where it isn't there, where
/// the mapping is immutable, and where its inherent type doesn't allow what is left; and that may not be told.
pub fn remove_key(
    alloc: Global,
    facts: &ProgramFacts,
    operands: &[Value],
    world: &mut World,
) -> Result<Tried, Memory>
    ensures row { IfOk result (IsCalledBy facts.now call.RemoveKey operands.now (IsRemoveKeyBeyond facts.now world.old operands.now) world.old world.new) }
    ensures stays { IfOk result (TriedStays world.old world.new) }
{
    match structure_and_text(operands) {
        None => Ok(Tried::Stuck),
        Some((n, key)) => removes_entry(alloc, facts, n, &key, world),
    }
}
