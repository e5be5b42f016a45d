//! Mappings.
ghost use Rattle.std.specs.Prelude.{◌≡◌, ◌<◌, ◌^◌, ◌∷◌, [], ℕ, IfOk, IfSome, length, map, option_map};
ghost use Rattle.operations.specs.declared.library.LibraryCall.TheVariants as call;
ghost use Rattle.value_model.specs.declared.value.Value.TheVariants.{Str, Struct};
ghost use Rattle.value_model.specs.Heap.{entry_at};
ghost use Rattle.plain_run.specs.Held.{heap_of};
ghost use Rattle.plain_structures.specs.Lookups as lookups;
ghost use Rattle.plain_structures.specs.Rows.{RowStays};
ghost use Rattle.plain_library.specs.Calls.{IsCalled, IsMade};

use crate::lists::gives_list;
use bal_base::{Memory, Text};
use plain_run::{Came, Heap, World};
use plain_structures::{entries_at, entry, found};
use std::alloc::Global;
use value_model::{PanicName, Value};

/// How many entries the mapping with this number has, where it is one.
fn length_at(heap: &Heap, n: u32) -> Option<usize>
    ensures length { result ≡ option_map (λ es. length es) (lookups.entries_at (heap_of heap.now) n) }
    ensures bound { IfSome result (λ k. k < 2 ^ 63) }
{
    match entries_at(heap, n) {
        None => None,
        Some(entries) => Some(entries.len()),
    }
}

/// The length of the mapping with this number.
fn length_of(world: &World, n: u32) -> Result<Option<Came>, Memory>
    ensures { IfOk result (IsCalled call.MappingLength (Struct n ∷ []) world.now world.now) }
{
    match length_at(&world.heap, n) {
        None => Ok(None),
        Some(length) => Ok(Some(Came::Gave(Some(Value::Int(length as i64))))),
    }
}

/// `m.length()`
pub fn mapping_length(operands: &[Value], world: &World) -> Result<Option<Came>, Memory>
    ensures { IfOk result (IsCalled call.MappingLength operands.now world.now world.now) }
{
    match operands {
        [Value::Struct(n)] => length_of(world, *n),
        _ => Ok(None),
    }
}

/// The keys, as strings.
fn keys_of(alloc: Global, entries: &[(Text, Value)]) -> Result<Vec<Value>, Memory>
    ensures { IfOk result (λ vs. vs.items ≡ map (λ e. Str e.0) entries.now) }
{
    let mut all = Vec::new(alloc);
    for e in entries {
        all.push(Value::Str(e.0.share()))?;
    }
    Ok(all)
}

/// The keys of the mapping with this number, where it is one.
fn keys_at(alloc: Global, heap: &Heap, n: u32) -> Result<Option<Vec<Value>>, Memory>
    ensures { IfOk result (λ vs. option_map (λ v. v.items) vs ≡ option_map (λ es. map (λ e. Str e.0) es) (lookups.entries_at (heap_of heap.now) n)) }
{
    match entries_at(heap, n) {
        None => Ok(None),
        Some(entries) => {
            let all = keys_of(alloc, entries.as_slice())?;
            Ok(Some(all))
        }
    }
}

/// The keys of the mapping with this number, as a list.
fn key_list(alloc: Global, atom: u32, world: &mut World, n: u32) -> Result<Option<Came>, Memory>
    ensures row { IfOk result (IsMade call.Keys atom (Struct n ∷ []) world.old world.new) }
    ensures stays { IfOk result (RowStays world.old world.new) }
{
    let all = keys_at(alloc, &world.heap, n)?;
    match all {
        None => Ok(None),
        Some(items) => {
            let came = gives_list(alloc, world, atom, items)?;
            Ok(Some(came))
        }
    }
}

/// `m.keys()`
pub fn keys(
    alloc: Global,
    atom: u32,
    operands: &[Value],
    world: &mut World,
) -> Result<Option<Came>, Memory>
    ensures row { IfOk result (IsMade call.Keys atom operands.now world.old world.new) }
    ensures stays { IfOk result (RowStays world.old world.new) }
{
    match operands {
        [Value::Struct(n)] => key_list(alloc, atom, world, *n),
        _ => Ok(None),
    }
}

/// The value at a key of the mapping with this number, where it is one.
fn value_at(heap: &Heap, n: u32, key: &Text) -> Option<Option<Value>>
    ensures { result ≡ option_map (λ es. entry_at es key.now) (lookups.entries_at (heap_of heap.now) n) }
{
    match entries_at(heap, n) {
        None => None,
        Some(entries) => Some(entry(entries, key)),
    }
}

/// Whether the mapping with this number has the key.
fn has_key_at(world: &World, n: u32, key: &Text) -> Result<Option<Came>, Memory>
    ensures { IfOk result (IsCalled call.HasKey (Struct n ∷ Str key.now ∷ []) world.now world.now) }
{
    match value_at(&world.heap, n, key) {
        None => Ok(None),
        Some(v) => Ok(Some(Came::Gave(Some(Value::Bool(v.is_some()))))),
    }
}

/// `m.hasKey(k)`
pub fn has_key(operands: &[Value], world: &World) -> Result<Option<Came>, Memory>
    ensures { IfOk result (IsCalled call.HasKey operands.now world.now world.now) }
{
    match operands {
        [Value::Struct(n), Value::Str(key)] => has_key_at(world, *n, key),
        _ => Ok(None),
    }
}

/// The value at a key of the mapping with this number.
fn get_at(alloc: Global, world: &mut World, n: u32, key: &Text) -> Result<Option<Came>, Memory>
    ensures row { IfOk result (IsCalled call.Get (Struct n ∷ Str key.now ∷ []) world.old world.new) }
    ensures stays { IfOk result (RowStays world.old world.new) }
{
    match value_at(&world.heap, n, key) {
        None => Ok(None),
        Some(v) => {
            let came = found(alloc, world, PanicName::KeyNotFound, v)?;
            Ok(Some(came))
        }
    }
}

/// `m.get(k)`
pub fn get(alloc: Global, operands: &[Value], world: &mut World) -> Result<Option<Came>, Memory>
    ensures row { IfOk result (IsCalled call.Get operands.now world.old world.new) }
    ensures stays { IfOk result (RowStays world.old world.new) }
{
    match operands {
        [Value::Struct(n), Value::Str(key)] => get_at(alloc, world, *n, key),
        _ => Ok(None),
    }
}
