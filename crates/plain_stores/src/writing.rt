//! What a store changes.
ghost use Rattle.std.specs.Prelude.{◌≡◌, OnOk, map, max};
ghost use Rattle.op_model.specs.Stores as stores;
ghost use Rattle.plain_run.specs.Held.{members_of, structure_of};
ghost use Rattle.plain_stores.specs.Changes as changes;

use bal_base::{Memory, Text};
use plain_run::{Members, Structure, Structures, size_of};
use plain_structures::set_entry;
use std::alloc::Global;
use value_model::Value;

fn greater(a: u64, b: u64) -> u64
    ensures { result ≡ max a b }
{
    if a >= b { a } else { b }
}

// ---- items

/// The item at the place is this one; past the end it comes behind what fills the gap.
fn set_item(items: &mut Vec<Value>, place: usize, gap: Vec<Value>, v: Value) -> Result<(), Memory>
    ensures { OnOk result (items.new.items ≡ stores.set_item items.old.items place gap.items v) }
{
    if place < items.len() {
        items[place] = v;
        return Ok(());
    }
    let mut gap = gap;
    items.append(&mut gap)?;
    items.push(v)?;
    Ok(())
}

fn set_in_list(members: &mut Members, place: usize, gap: Vec<Value>, v: Value) -> Result<(), Memory>
    ensures { OnOk result (members_of members.new ≡ changes.with_item place gap.items v (members_of members.old)) }
{
    match members {
        Members::Items(items) => set_item(items, place, gap, v),
        Members::Entries(_) => Ok(()),
    }
}

fn set_in(s: &mut Structure, place: usize, gap: Vec<Value>, v: Value) -> Result<(), Memory>
    ensures { OnOk result (structure_of s.new ≡ changes.changed_by (changes.with_item place gap.items v) (structure_of s.old)) }
{
    set_in_list(&mut s.members, place, gap, v)?;
    s.greatest = greater(s.greatest, size_of(&s.members));
    Ok(())
}

/// The item at the place of the list with this number is this one, behind what fills the gap.
pub fn set_at(
    alloc: Global,
    structures: &mut Structures,
    n: u32,
    place: usize,
    gap: Vec<Value>,
    v: Value,
) -> Result<(), Memory>
    ensures { OnOk result (map structure_of structures.new ≡ changes.changed_at (changes.changed_by (changes.with_item place gap.items v)) (map structure_of structures.old) n) }
{
    let at = n as usize;
    if at >= structures.len() {
        return Ok(());
    }
    let mut s = structures.take(alloc, at);
    set_in(&mut s, place, gap, v)?;
    structures.put(at, s)
}

// ---- entries

fn set_in_mapping(members: &mut Members, key: &Text, v: &Value) -> Result<(), Memory>
    ensures { OnOk result (members_of members.new ≡ changes.with_entry key.now v.now (members_of members.old)) }
{
    match members {
        Members::Items(_) => Ok(()),
        Members::Entries(entries) => set_entry(entries, key, v),
    }
}

fn set_key_in(s: &mut Structure, key: &Text, v: &Value) -> Result<(), Memory>
    ensures { OnOk result (structure_of s.new ≡ changes.changed_by (changes.with_entry key.now v.now) (structure_of s.old)) }
{
    set_in_mapping(&mut s.members, key, v)?;
    s.greatest = greater(s.greatest, size_of(&s.members));
    Ok(())
}

/// The entry with the key of the mapping with this number gets this value; a new key comes last.
pub fn set_key_at(
    alloc: Global,
    structures: &mut Structures,
    n: u32,
    key: &Text,
    v: &Value,
) -> Result<(), Memory>
    ensures { OnOk result (map structure_of structures.new ≡ changes.changed_at (changes.changed_by (changes.with_entry key.now v.now)) (map structure_of structures.old) n) }
{
    let at = n as usize;
    if at >= structures.len() {
        return Ok(());
    }
    let mut s = structures.take(alloc, at);
    set_key_in(&mut s, key, v)?;
    structures.put(at, s)
}

// ---- an item that is taken back

fn drop_last(items: &mut Vec<Value>)
    ensures { items.new.items ≡ changes.all_but_last items.old.items }
{
    let _last = items.pop();
}

fn drop_in_list(members: &mut Members)
    ensures { members_of members.new ≡ changes.without_last (members_of members.old) }
{
    match members {
        Members::Items(items) => drop_last(items),
        Members::Entries(_) => {}
    }
}

fn drop_in(s: &mut Structure, greatest: u64)
    ensures { structure_of s.new ≡ changes.taken_back greatest (structure_of s.old) }
{
    drop_in_list(&mut s.members);
    s.greatest = greatest;
}

/// The list with this number loses its last item, and was so great before that came.
pub(crate) fn take_back(
    alloc: Global,
    structures: &mut Structures,
    n: u32,
    greatest: u64,
) -> Result<(), Memory>
    ensures { OnOk result (map structure_of structures.new ≡ changes.changed_at (changes.taken_back greatest) (map structure_of structures.old) n) }
{
    let at = n as usize;
    if at >= structures.len() {
        return Ok(());
    }
    let mut s = structures.take(alloc, at);
    drop_in(&mut s, greatest);
    structures.put(at, s)
}
