//! Removals of items.
ghost use Rattle.std.specs.Prelude.{◌≡◌, ◌<◌, IfOk, Some, length, remove};
ghost use Rattle.plain_run.specs.Held.{structure_of};
ghost use Rattle.plain_removals.specs.Removals as removals;
ghost use Rattle.plain_removals.specs.Removals.{IsItemRemoval, IsListRemoval, IsRemovalFrom};

use crate::allowing::allowed;
use crate::place::{Place, place_in};
use crate::removal::Removal;
use bal_base::Memory;
use plain_run::{Heap, Members, ProgramFacts, Structure, share_all};
use std::alloc::Global;
use value_model::{PanicName, Value};

/// The items without the one at a place.
fn items_without(alloc: Global, items: &[Value], place: usize) -> Result<Vec<Value>, Memory>
    requires { place < length items.now }
    ensures { IfOk result (λ left. left.items ≡ remove items.now place) }
{
    let mut left = share_all(alloc, items)?;
    let _ = left.remove(place);
    Ok(left)
}

/// What the removal of the item at a place comes to.
fn removed_at(
    alloc: Global,
    facts: &ProgramFacts,
    heap: &Heap,
    s: &Structure,
    items: &[Value],
    place: usize,
) -> Result<Removal, Memory>
    ensures { IfOk result (IsItemRemoval facts.now heap.now (structure_of s.now) items.now (Some place)) }
{
    if place >= items.len() {
        return Ok(Removal::Panics(PanicName::IndexOutOfRange));
    }
    if !s.mutable {
        return Ok(Removal::Panics(PanicName::InherentTypeViolation));
    }
    let left = items_without(alloc, items, place)?;
    allowed(
        alloc,
        facts,
        heap,
        s.atom,
        Members::Items(left),
        items[place].share(),
    )
}

/// What the removal of an item from the structure with these items comes to.
fn item_removal(
    alloc: Global,
    facts: &ProgramFacts,
    heap: &Heap,
    s: &Structure,
    items: &[Value],
    place: Place,
) -> Result<Removal, Memory>
    ensures { IfOk result (IsItemRemoval facts.now heap.now (structure_of s.now) items.now (removals.place_in place items.now)) }
{
    match place_in(place, items) {
        None => Ok(Removal::Panics(PanicName::IndexOutOfRange)),
        Some(k) => removed_at(alloc, facts, heap, s, items, k),
    }
}

/// What the removal of an item from a structure comes to, where it is a list.
fn removal_from(
    alloc: Global,
    facts: &ProgramFacts,
    heap: &Heap,
    s: &Structure,
    place: Place,
) -> Result<Option<Removal>, Memory>
    ensures { IfOk result (IsRemovalFrom facts.now heap.now (structure_of s.now) place) }
{
    match &s.members {
        Members::Items(items) => {
            let removal = item_removal(alloc, facts, heap, s, items.as_slice(), place)?;
            Ok(Some(removal))
        }
        Members::Entries(_) => Ok(None),
    }
}

/// What the removal of an item from the structure with this number comes to, where it is a list.
pub fn list_removal(
    alloc: Global,
    facts: &ProgramFacts,
    heap: &Heap,
    n: u32,
    place: Place,
) -> Result<Option<Removal>, Memory>
    ensures { IfOk result (IsListRemoval facts.now heap.now n place) }
{
    match heap.structures.get(n as usize) {
        None => Ok(None),
        Some(s) => removal_from(alloc, facts, heap, s, place),
    }
}
