//! The copies, where the first one gets this number, and these are copied.
#![tactic(auto, using(crate::proofs::Copying::copying))]

ghost use Rattle.std.specs.Prelude.{◌≡◌, ◌+◌, ◌++◌, IfOk, OnOk, map, option_map, option_to_list, position, slice_get};
ghost use Rattle.op_model.specs.Copies as model;
ghost use Rattle.plain_run.specs.Held.{heap_of, members_of, structure_of};
ghost use Rattle.plain_copies.specs.Copied.{copied_entry, is_number, structures_copied};

use bal_base::{Memory, Text};
use plain_run::{Entries, Heap, Members, Structure, new_structure};
use std::alloc::Global;
use value_model::Value;

/// The sum, where it is the number of a structure.
fn number_of(first: usize, place: usize) -> Result<u32, Memory>
    ensures { IfOk result (λ n. n ≡ first + place) }
{
    let most = u32::MAX as usize;
    if first > most || place > most - first {
        return Err(Memory);
    }
    Ok((first + place) as u32)
}

/// The place of the number among these.
fn place_of(numbers: &[u32], n: u32) -> Option<usize>
    ensures { result ≡ position (is_number n) numbers.now }
{
    numbers.iter().position(|m| *m == n)
}

/// The number of the copy, or of the structure itself where it isn't copied.
fn copied_number(first: usize, numbers: &[u32], n: u32) -> Result<u32, Memory>
    ensures { IfOk result (λ m. m ≡ model.copied_number first numbers.now n) }
{
    match place_of(numbers, n) {
        None => Ok(n),
        Some(place) => number_of(first, place),
    }
}

/// What stands for the value in a copy.
pub(crate) fn copied_value(first: usize, numbers: &[u32], v: &Value) -> Result<Value, Memory>
    ensures { IfOk result (λ c. c ≡ model.copied_value first numbers.now v.now) }
{
    match v {
        Value::Struct(n) => Ok(Value::Struct(copied_number(first, numbers, *n)?)),
        Value::Nil => Ok(Value::Nil),
        Value::Bool(b) => Ok(Value::Bool(*b)),
        Value::Int(n) => Ok(Value::Int(*n)),
        Value::Str(text) => Ok(Value::Str(text.share())),
        Value::Error(n) => Ok(Value::Error(*n)),
        Value::Function(n) => Ok(Value::Function(*n)),
        Value::Future { strand, unit } => Ok(Value::Future {
            strand: *strand,
            unit: *unit,
        }),
    }
}

fn push_values(
    first: usize,
    numbers: &[u32],
    values: &[Value],
    copies: &mut Vec<Value>,
) -> Result<(), Memory>
    ensures { OnOk result (copies.new.items ≡ copies.old.items ++ map (model.copied_value first numbers.now) values.now) }
{
    for v in values {
        copies.push(copied_value(first, numbers, v)?)?;
    }
    Ok(())
}

fn push_entries(
    first: usize,
    numbers: &[u32],
    entries: &[(Text, Value)],
    copies: &mut Entries,
) -> Result<(), Memory>
    ensures { OnOk result (copies.new ≡ copies.old ++ map (copied_entry first numbers.now) entries.now) }
{
    for entry in entries {
        let v = copied_value(first, numbers, &entry.1)?;
        copies.push(entry.0.share(), v)?;
    }
    Ok(())
}

fn copied_members(
    alloc: Global,
    first: usize,
    numbers: &[u32],
    members: &Members,
) -> Result<Members, Memory>
    ensures { IfOk result (λ m. members_of m ≡ model.copied_members first numbers.now (members_of members.now)) }
{
    match members {
        Members::Items(items) => {
            let mut copies = Vec::new(alloc);
            push_values(first, numbers, items.as_slice(), &mut copies)?;
            Ok(Members::Items(copies))
        }
        Members::Entries(entries) => {
            let mut copies = Entries::new(alloc);
            push_entries(first, numbers, entries.as_slice(), &mut copies)?;
            Ok(Members::Entries(copies))
        }
    }
}

/// The copy of a structure.
fn copied_structure(
    alloc: Global,
    first: usize,
    numbers: &[u32],
    mutable: bool,
    s: &Structure,
) -> Result<Structure, Memory>
    ensures { IfOk result (λ c. structure_of c ≡ model.copied_structure first numbers.now mutable (structure_of s.now)) }
{
    let members = copied_members(alloc, first, numbers, &s.members)?;
    Ok(new_structure(s.atom, mutable, members))
}

/// The copy of the structure with this number, where it is there.
fn copy_at(
    alloc: Global,
    first: usize,
    numbers: &[u32],
    mutable: bool,
    heap: &Heap,
    n: u32,
) -> Result<Option<Structure>, Memory>
    ensures { IfOk result (λ c. option_map structure_of c ≡ option_map (model.copied_structure first numbers.now mutable) (slice_get (heap_of heap.now).structures n)) }
{
    match heap.structures.get(n as usize) {
        None => Ok(None),
        Some(s) => Ok(Some(copied_structure(alloc, first, numbers, mutable, s)?)),
    }
}

/// The structure behind the others, where there is one.
fn push_made(copies: &mut Vec<Structure>, made: Option<Structure>) -> Result<(), Memory>
    ensures { OnOk result (map structure_of copies.new.items ≡ map structure_of copies.old.items ++ option_to_list (option_map structure_of made)) }
{
    match made {
        None => Ok(()),
        Some(made) => {
            copies.push(made)?;
            Ok(())
        }
    }
}

/// The copy of the structure with this number behind the others, where it is there.
fn push_copy(
    alloc: Global,
    first: usize,
    numbers: &[u32],
    mutable: bool,
    heap: &Heap,
    n: u32,
    copies: &mut Vec<Structure>,
) -> Result<(), Memory>
    ensures { OnOk result (map structure_of copies.new.items ≡ map structure_of copies.old.items ++ option_to_list (option_map (model.copied_structure first numbers.now mutable) (slice_get (heap_of heap.now).structures n))) }
{
    let made = copy_at(alloc, first, numbers, mutable, heap, n)?;
    push_made(copies, made)
}

/// The copies of these structures behind the others.
pub(crate) fn push_copies(
    alloc: Global,
    first: usize,
    numbers: &[u32],
    mutable: bool,
    heap: &Heap,
    left: &[u32],
    copies: &mut Vec<Structure>,
) -> Result<(), Memory>
    ensures { OnOk result (map structure_of copies.new.items ≡ map structure_of copies.old.items ++ structures_copied first numbers.now mutable (heap_of heap.now) left.now) }
{
    for n in left {
        push_copy(alloc, first, numbers, mutable, heap, *n, copies)?;
    }
    Ok(())
}
