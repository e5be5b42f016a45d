//! Removals of entries.
ghost use Rattle.std.specs.Prelude.{◌≡◌, ◌<◌, IfOk, length, remove};
ghost use Rattle.plain_run.specs.Held.{structure_of};
ghost use Rattle.plain_removals.specs.Removals.{IsKeyRemoval, IsKeyRemovalFrom, IsMappingRemoval};

use crate::allowing::allowed;
use crate::entries::place_of;
use crate::removal::Removal;
use bal_base::{Memory, Text};
use plain_run::{Entries, Heap, Members, ProgramFacts, Structure};
use std::alloc::Global;
use value_model::{PanicName, Value};

/// The same entries again.
fn share_entries(alloc: Global, entries: &[(Text, Value)]) -> Result<Vec<(Text, Value)>, Memory>
    ensures { IfOk result (λ shared. shared.items ≡ entries.now) }
{
    let mut shared = Vec::new(alloc);
    for e in entries {
        shared.push((e.0.share(), e.1.share()))?;
    }
    Ok(shared)
}

/// The entries without the one at a place.
fn entries_without(
    alloc: Global,
    entries: &[(Text, Value)],
    place: usize,
) -> Result<Entries, Memory>
    requires { place < length entries.now }
    ensures { IfOk result (λ left. left ≡ remove entries.now place) }
{
    let mut left = Entries::of(share_entries(alloc, entries)?);
    let _ = left.remove(place);
    Ok(left)
}

/// What the removal of the entry with a key from the structure with these entries comes to.
fn key_removal(
    alloc: Global,
    facts: &ProgramFacts,
    heap: &Heap,
    s: &Structure,
    entries: &[(Text, Value)],
    key: &Text,
) -> Result<Removal, Memory>
    ensures { IfOk result (IsKeyRemoval facts.now heap.now (structure_of s.now) entries.now key.now) }
{
    match place_of(entries, key) {
        None => Ok(Removal::Panics(PanicName::KeyNotFound)),
        Some(i) => {
            if !s.mutable {
                return Ok(Removal::Panics(PanicName::InherentTypeViolation));
            }
            let left = entries_without(alloc, entries, i)?;
            let given = entries[i].1.share();
            allowed(alloc, facts, heap, s.atom, Members::Entries(left), given)
        }
    }
}

/// What the removal of the entry with a key from a structure comes to, where it is a mapping.
fn removal_from(
    alloc: Global,
    facts: &ProgramFacts,
    heap: &Heap,
    s: &Structure,
    key: &Text,
) -> Result<Option<Removal>, Memory>
    ensures { IfOk result (IsKeyRemovalFrom facts.now heap.now (structure_of s.now) key.now) }
{
    match &s.members {
        Members::Items(_) => Ok(None),
        Members::Entries(entries) => {
            let removal = key_removal(alloc, facts, heap, s, entries.as_slice(), key)?;
            Ok(Some(removal))
        }
    }
}

/// What the removal of the entry with a key from the structure with this number comes to, where it is a mapping.
pub fn mapping_removal(
    alloc: Global,
    facts: &ProgramFacts,
    heap: &Heap,
    n: u32,
    key: &Text,
) -> Result<Option<Removal>, Memory>
    ensures { IfOk result (IsMappingRemoval facts.now heap.now n key.now) }
{
    match heap.structures.get(n as usize) {
        None => Ok(None),
        Some(s) => removal_from(alloc, facts, heap, s, key),
    }
}
