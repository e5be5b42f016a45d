//! What stands in the heap.
#![tactic(auto, using(crate::proofs::Standing::standing))]

ghost use Rattle.std.specs.Prelude.{◌≡◌, option_copied, option_map};
ghost use Rattle.value_model.specs.Heap.{entry_at};
ghost use Rattle.op_model.specs.StructureRows.{at_place};
ghost use Rattle.plain_run.specs.Held.{heap_of, members_of};
ghost use Rattle.plain_structures.specs.Lookups as lookups;

use bal_base::Text;
use plain_run::{Entries, Heap, Members};
use value_model::Value;

/// The items, where the members are those of a list.
fn items_in(members: &Members) -> Option<&Vec<Value>>
    ensures { option_map (λ vs. vs.items) (option_copied result) ≡ lookups.items_in (members_of members.now) }
{
    match members {
        Members::Items(items) => Some(items),
        Members::Entries(_) => None,
    }
}

/// The items of the list with this number, where it is one.
pub fn items_at(heap: &Heap, n: u32) -> Option<&Vec<Value>>
    ensures { option_map (λ vs. vs.items) (option_copied result) ≡ lookups.items_at (heap_of heap.now) n }
{
    match heap.structures.get(n as usize) {
        None => None,
        Some(s) => items_in(&s.members),
    }
}

/// The entries, where the members are those of a mapping.
fn entries_in(members: &Members) -> Option<&Entries>
    ensures { option_copied result ≡ lookups.entries_in (members_of members.now) }
{
    match members {
        Members::Items(_) => None,
        Members::Entries(entries) => Some(entries),
    }
}

/// The entries of the mapping with this number, where it is one.
pub fn entries_at(heap: &Heap, n: u32) -> Option<&Entries>
    ensures { option_copied result ≡ lookups.entries_at (heap_of heap.now) n }
{
    match heap.structures.get(n as usize) {
        None => None,
        Some(s) => entries_in(&s.members),
    }
}

/// The item at a place, where it is there.
pub fn item(items: &[Value], i: i64) -> Option<Value>
    ensures { result ≡ at_place items.now i }
{
    if i < 0 {
        return None;
    }
    match items.get(i as usize) {
        Some(v) => Some(v.share()),
        None => None,
    }
}

/// The value at a key, where it is there.
pub fn entry(entries: &Entries, key: &Text) -> Option<Value>
    ensures { result ≡ entry_at entries.now key.now }
{
    match entries.get(key) {
        Some(v) => Some(v.share()),
        None => None,
    }
}
