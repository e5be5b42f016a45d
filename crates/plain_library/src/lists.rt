//! Lists.
ghost use Rattle.std.specs.Prelude.{◌≡◌, ◌<◌, ◌^◌, ◌∷◌, [], ℕ, IfOk, IfSome, length, option_map, reverse};
ghost use Rattle.operations.specs.declared.library.LibraryCall.TheVariants as call;
ghost use Rattle.value_model.specs.declared.value.Value.TheVariants.{Struct};
ghost use Rattle.op_model.specs.Rows.{GivesList};
ghost use Rattle.plain_run.specs.Came.{WorldStays, came_of};
ghost use Rattle.plain_run.specs.Held.{heap_of, world_of};
ghost use Rattle.plain_structures.specs.Lookups as lookups;
ghost use Rattle.plain_structures.specs.Rows.{RowStays};
ghost use Rattle.plain_library.specs.Calls.{IsCalled, IsMade};
ghost use Rattle.plain_library.specs.Parts as parts;

use crate::parts::{end_or, part};
use bal_base::Memory;
use plain_run::{
    Came, Heap, MOST_ITEMS, Members, World, gives_structure, new_structure, panics, share_all,
};
use plain_structures::items_at;
use std::alloc::Global;
use value_model::{PanicName, Value};

/// A new list, or a panic where it is too long.
pub fn gives_list(
    alloc: Global,
    world: &mut World,
    atom: u32,
    items: Vec<Value>,
) -> Result<Came, Memory>
    ensures row { IfOk result (λ came. GivesList (world_of world.old) atom items.items (came_of came world.new)) }
    ensures stays { IfOk result (WorldStays world.old world.new) }
{
    if items.len() > MOST_ITEMS {
        return panics(alloc, world, PanicName::TooLong);
    }
    let made = new_structure(Some(atom), true, Members::Items(items));
    gives_structure(world, made)
}

/// How many items the list with this number has, where it is one.
fn length_at(heap: &Heap, n: u32) -> Option<usize>
    ensures length { result ≡ option_map (λ vs. length vs) (lookups.items_at (heap_of heap.now) n) }
    ensures bound { IfSome result (λ k. k < 2 ^ 63) }
{
    match items_at(heap, n) {
        None => None,
        Some(items) => Some(items.len()),
    }
}

/// The length of the list with this number.
fn length_of(world: &World, n: u32) -> Result<Option<Came>, Memory>
    ensures { IfOk result (IsCalled call.ListLength (Struct n ∷ []) world.now world.now) }
{
    match length_at(&world.heap, n) {
        None => Ok(None),
        Some(length) => Ok(Some(Came::Gave(Some(Value::Int(length as i64))))),
    }
}

/// `l.length()`
pub fn list_length(operands: &[Value], world: &World) -> Result<Option<Came>, Memory>
    ensures { IfOk result (IsCalled call.ListLength operands.now world.now world.now) }
{
    match operands {
        [Value::Struct(n)] => length_of(world, *n),
        _ => Ok(None),
    }
}

/// The items of the list with this number in the other order, where it is one.
fn reversed(alloc: Global, heap: &Heap, n: u32) -> Result<Option<Vec<Value>>, Memory>
    ensures { IfOk result (λ vs. option_map (λ v. v.items) vs ≡ option_map reverse (lookups.items_at (heap_of heap.now) n)) }
{
    match items_at(heap, n) {
        None => Ok(None),
        Some(items) => {
            let mut all = share_all(alloc, items.as_slice())?;
            all.reverse();
            Ok(Some(all))
        }
    }
}

/// The list with this number in the other order.
fn reverse_of(alloc: Global, atom: u32, world: &mut World, n: u32) -> Result<Option<Came>, Memory>
    ensures row { IfOk result (IsMade call.Reverse atom (Struct n ∷ []) world.old world.new) }
    ensures stays { IfOk result (RowStays world.old world.new) }
{
    let all = reversed(alloc, &world.heap, n)?;
    match all {
        None => Ok(None),
        Some(items) => {
            let came = gives_list(alloc, world, atom, items)?;
            Ok(Some(came))
        }
    }
}

/// `l.reverse()`
pub fn reverse(
    alloc: Global,
    atom: u32,
    operands: &[Value],
    world: &mut World,
) -> Result<Option<Came>, Memory>
    ensures row { IfOk result (IsMade call.Reverse atom operands.now world.old world.new) }
    ensures stays { IfOk result (RowStays world.old world.new) }
{
    match operands {
        [Value::Struct(n)] => reverse_of(alloc, atom, world, *n),
        _ => Ok(None),
    }
}

/// The items between two places, where these are places of the list.
fn shared_part(
    alloc: Global,
    items: &[Value],
    start: i64,
    end: Option<i64>,
) -> Result<Option<Vec<Value>>, Memory>
    ensures { IfOk result (λ all. parts.IsPartOf items.now start (parts.end_or end (length items.now)) (option_map (λ v. v.items) all)) }
{
    match part(items, start, end_or(end, items.len())) {
        None => Ok(None),
        Some(part) => {
            let all = share_all(alloc, part)?;
            Ok(Some(all))
        }
    }
}

/// The same of the list with this number, where it is one.
fn part_at(
    alloc: Global,
    heap: &Heap,
    n: u32,
    start: i64,
    end: Option<i64>,
) -> Result<Option<Option<Vec<Value>>>, Memory>
    ensures { IfOk result (λ all. parts.IsPartAt (lookups.items_at (heap_of heap.now) n) start end (option_map (option_map (λ v. v.items)) all)) }
{
    match items_at(heap, n) {
        None => Ok(None),
        Some(items) => {
            let all = shared_part(alloc, items.as_slice(), start, end)?;
            Ok(Some(all))
        }
    }
}

/// A new list of a part of another one, or a panic where there is no such part.
fn gives_part(
    alloc: Global,
    atom: u32,
    world: &mut World,
    all: Option<Vec<Value>>,
) -> Result<Came, Memory>
    ensures row { IfOk result (λ came. parts.GivesPart (world_of world.old) atom (option_map (λ v. v.items) all) (came_of came world.new)) }
    ensures stays { IfOk result (WorldStays world.old world.new) }
{
    match all {
        None => panics(alloc, world, PanicName::IndexOutOfRange),
        Some(items) => gives_list(alloc, world, atom, items),
    }
}

/// A part of the list with this number.
fn slice_of(
    alloc: Global,
    atom: u32,
    world: &mut World,
    n: u32,
    start: i64,
    end: Option<i64>,
) -> Result<Option<Came>, Memory>
    ensures row { IfOk result (IsMade call.Slice atom (parts.bounded (Struct n) start end) world.old world.new) }
    ensures stays { IfOk result (RowStays world.old world.new) }
{
    let all = part_at(alloc, &world.heap, n, start, end)?;
    match all {
        None => Ok(None),
        Some(all) => {
            let came = gives_part(alloc, atom, world, all)?;
            Ok(Some(came))
        }
    }
}

/// `l.slice(i)` and `l.slice(i, j)`
pub fn slice(
    alloc: Global,
    atom: u32,
    operands: &[Value],
    world: &mut World,
) -> Result<Option<Came>, Memory>
    ensures row { IfOk result (IsMade call.Slice atom operands.now world.old world.new) }
    ensures stays { IfOk result (RowStays world.old world.new) }
{
    match operands {
        [Value::Struct(n), Value::Int(i)] => slice_of(alloc, atom, world, *n, *i, None),
        [Value::Struct(n), Value::Int(i), Value::Int(j)] => {
            slice_of(alloc, atom, world, *n, *i, Some(*j))
        }
        _ => Ok(None),
    }
}
