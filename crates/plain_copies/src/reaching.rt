//! What a copy of a value reaches.
#![tactic(auto, using(crate::proofs::Copying::copying))]

ghost use Rattle.std.specs.Prelude.{◌≡◌, ◌++◌, ◌==◌, ◌∷◌, [], IfOk, OnOk, flat_map, map, option_to_list, true};
ghost use Rattle.std.specs.List.{list_any};
ghost use Rattle.value_model.specs.declared.value.Value.TheVariants.{Struct};
ghost use Rattle.op_model.specs.Copies as model;
ghost use Rattle.op_model.specs.Levels.{distinct as distinct_of, levels};
ghost use Rattle.plain_run.specs.Held.{heap_of};
ghost use Rattle.plain_copies.specs.Copied.{reaches_itself as reaches_itself_of, second};

use bal_base::{Memory, Text};
use op_model::distinct;
use plain_run::{Heap, Members};
use std::alloc::Global;
use value_model::Value;

fn mutable_at(heap: &Heap, n: u32) -> Option<u32>
    ensures { result ≡ model.mutable_number (heap_of heap.now) (Struct n) }
{
    match heap.structures.get(n as usize) {
        None => None,
        Some(s) => { if s.mutable { Some(n) } else { None } }
    }
}

/// The number of the mutable structure, where the value is one.
fn mutable_number(heap: &Heap, v: &Value) -> Option<u32>
    ensures { result ≡ model.mutable_number (heap_of heap.now) v.now }
{
    match v {
        Value::Struct(n) => mutable_at(heap, *n),
        Value::Nil | Value::Bool(_) | Value::Int(_) | Value::Str(_) => None,
        Value::Error(_) | Value::Function(_) | Value::Future { .. } => None,
    }
}

/// The number behind the others, where there is one.
fn push_number(numbers: &mut Vec<u32>, n: Option<u32>) -> Result<(), Memory>
    ensures { OnOk result (numbers.new.items ≡ numbers.old.items ++ option_to_list n) }
{
    match n {
        None => Ok(()),
        Some(n) => {
            numbers.push(n)?;
            Ok(())
        }
    }
}

/// The mutable structures among the values, behind the others.
fn push_mutable(heap: &Heap, values: &[Value], numbers: &mut Vec<u32>) -> Result<(), Memory>
    ensures { OnOk result (numbers.new.items ≡ numbers.old.items ++ model.mutable_numbers (heap_of heap.now) values.now) }
{
    for v in values {
        push_number(numbers, mutable_number(heap, v))?;
    }
    Ok(())
}

fn push_mutable_entries(
    heap: &Heap,
    entries: &[(Text, Value)],
    numbers: &mut Vec<u32>,
) -> Result<(), Memory>
    ensures { OnOk result (numbers.new.items ≡ numbers.old.items ++ model.mutable_numbers (heap_of heap.now) (map second entries.now)) }
{
    for entry in entries {
        push_number(numbers, mutable_number(heap, &entry.1))?;
    }
    Ok(())
}

/// The mutable structures among the members of the structure with this number, behind the others.
fn push_members(heap: &Heap, n: u32, numbers: &mut Vec<u32>) -> Result<(), Memory>
    ensures { OnOk result (numbers.new.items ≡ numbers.old.items ++ model.mutable_members (heap_of heap.now) n) }
{
    match heap.structures.get(n as usize) {
        None => Ok(()),
        Some(s) => match &s.members {
            Members::Items(items) => push_mutable(heap, items.as_slice(), numbers),
            Members::Entries(entries) => push_mutable_entries(heap, entries.as_slice(), numbers),
        },
    }
}

/// Those of all these, behind the others.
fn push_all(heap: &Heap, found: &[u32], numbers: &mut Vec<u32>) -> Result<(), Memory>
    ensures { OnOk result (numbers.new.items ≡ numbers.old.items ++ flat_map (model.mutable_members (heap_of heap.now)) found.now) }
{
    for n in found {
        push_members(heap, *n, numbers)?;
    }
    Ok(())
}

/// The roots and what is among the members of those that were found, each where it comes first.
fn next_level(alloc: Global, heap: &Heap, roots: &[u32], found: &[u32]) -> Result<Vec<u32>, Memory>
    ensures { IfOk result (λ v. v.items ≡ distinct_of (roots.now ++ flat_map (model.mutable_members (heap_of heap.now)) found.now)) }
{
    let mut all = Vec::from_slice(alloc, roots)?;
    push_all(heap, found, &mut all)?;
    distinct(alloc, all.as_slice())
}

/// Whether they are the same numbers in the same order.
fn are_same(numbers: &[u32], others: &[u32]) -> bool
    ensures { result ≡ true → numbers.now ≡ others.now }
{
    numbers == others
}

/// The structures that are reached from these, for so many levels. A level like the one before it is the last one.
fn reached(alloc: Global, heap: &Heap, roots: &[u32], depth: usize) -> Result<Vec<u32>, Memory>
    ensures { IfOk result (λ v. v.items ≡ levels distinct_of (model.mutable_members (heap_of heap.now)) roots.now depth) }
{
    let mut found = Vec::new(alloc);
    for _level in 0..depth {
        let next = next_level(alloc, heap, roots, found.as_slice())?;
        if are_same(next.as_slice(), found.as_slice()) {
            return Ok(found);
        }
        found = next;
    }
    Ok(found)
}

/// The mutable structures that the value reaches.
pub(crate) fn reached_from(alloc: Global, heap: &Heap, v: &Value) -> Result<Vec<u32>, Memory>
    ensures { IfOk result (λ ns. ns.items ≡ model.reached (heap_of heap.now) (model.mutable_numbers (heap_of heap.now) (v.now ∷ []))) }
{
    let mut roots = Vec::new(alloc);
    push_number(&mut roots, mutable_number(heap, v))?;
    reached(alloc, heap, roots.as_slice(), heap.structures.len())
}

// ---- what contains itself

/// Whether the number is one of these.
fn has_number(numbers: &[u32], n: u32) -> bool
    ensures { result ≡ list_any (λ m. m == n) numbers.now }
{
    numbers.iter().any(|m| *m == n)
}

/// Whether the structure with this number is reached from its own members.
fn reaches_itself(alloc: Global, heap: &Heap, n: u32) -> Result<bool, Memory>
    ensures { IfOk result (λ b. b ≡ reaches_itself_of (heap_of heap.now) n) }
{
    let mut members = Vec::new(alloc);
    push_members(heap, n, &mut members)?;
    let found = reached(alloc, heap, members.as_slice(), heap.structures.len())?;
    Ok(has_number(found.as_slice(), n))
}

/// Whether one of these is reached from its own members.
pub(crate) fn has_cycle(alloc: Global, heap: &Heap, numbers: &[u32]) -> Result<bool, Memory>
    ensures { IfOk result (λ b. b ≡ model.has_cycle (heap_of heap.now) numbers.now) }
{
    for n in numbers {
        if reaches_itself(alloc, heap, *n)? {
            return Ok(true);
        }
    }
    Ok(false)
}
