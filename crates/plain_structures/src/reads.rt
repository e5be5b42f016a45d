//! Members of structures that are read.
ghost use Rattle.std.specs.Prelude.{◌≡◌, IfOk, option_and_then, option_map, true};
ghost use Rattle.operations.specs.declared.operation.Operation.TheVariants as operation;
ghost use Rattle.value_model.specs.Heap.{entry_at};
ghost use Rattle.op_model.specs.Rows as rows;
ghost use Rattle.op_model.specs.StructureRows as structures;
ghost use Rattle.plain_run.specs.declared.facts.ProgramFacts.{ProgramFacts as FactsOf};
ghost use Rattle.plain_run.specs.declared.held.Caller.{Caller as CallerOf};
ghost use Rattle.plain_run.specs.Came.{WorldStays, came_of};
ghost use Rattle.plain_run.specs.Effects.{IsPerformed, Stays};
ghost use Rattle.plain_run.specs.Held.{heap_of, world_of};
ghost use Rattle.plain_structures.specs.Lookups as lookups;
ghost use Rattle.plain_structures.specs.Rows.{IsRowOf, RowStays};

use crate::answer::performed;
use crate::lookup::{entries_at, entry, item, items_at};
use crate::operands::{structure, structure_and_int, structure_and_text};
use bal_base::{Memory, Text};
use plain_run::{Came, Common, Performed, World, panics};
use std::alloc::Global;
use value_model::{PanicName, Value};

/// A value that is there, or a panic with this name.
pub fn found(
    alloc: Global,
    world: &mut World,
    name: PanicName,
    v: Option<Value>,
) -> Result<Came, Memory>
    ensures row { IfOk result (λ came. came_of came world.new ≡ rows.found (world_of world.old) name v) }
    ensures stays { IfOk result (WorldStays world.old world.new) }
{
    match v {
        Some(v) => Ok(Came::Gave(Some(v))),
        None => panics(alloc, world, name),
    }
}

/// The item at a place of the list with this number, where it is one.
fn item_at(world: &World, n: u32, i: i64) -> Option<Option<Value>>
    ensures { result ≡ option_map (λ vs. structures.at_place vs i) (lookups.items_at (heap_of world.now.heap) n) }
{
    match items_at(&world.heap, n) {
        None => None,
        Some(items) => Some(item(items.as_slice(), i)),
    }
}

/// The value at a key of the mapping with this number, where it is one.
fn entry_of(world: &World, n: u32, key: &Text) -> Option<Option<Value>>
    ensures { result ≡ option_map (λ es. entry_at es key.now) (lookups.entries_at (heap_of world.now.heap) n) }
{
    match entries_at(&world.heap, n) {
        None => None,
        Some(entries) => Some(entry(entries, key)),
    }
}

/// `l[i]` of the list with this number
fn reads_item(alloc: Global, world: &mut World, n: u32, i: i64) -> Result<Option<Came>, Memory>
    ensures row { IfOk result (IsRowOf (structures.ReadsItem (world_of world.old) n i) world.new) }
    ensures stays { IfOk result (RowStays world.old world.new) }
{
    match item_at(world, n, i) {
        None => Ok(None),
        Some(item) => {
            let came = found(alloc, world, PanicName::IndexOutOfRange, item)?;
            Ok(Some(came))
        }
    }
}

/// The value, or nil where there is none.
fn or_nil(v: Option<Value>) -> Value
    ensures { result ≡ structures.or_nil v }
{
    match v {
        Some(v) => v,
        None => Value::Nil,
    }
}

/// `m[k]` of the mapping with this number
fn reads_key(world: &World, n: u32, key: &Text) -> Option<Came>
    ensures { IsRowOf (structures.ReadsKey (world_of world.now) n key.now) world.now result }
{
    match entry_of(world, n, key) {
        None => None,
        Some(v) => Some(Came::Gave(Some(or_nil(v)))),
    }
}

/// The member at a key of the mapping with this number, where there is one.
fn member_of(world: &World, n: u32, key: &Text) -> Option<Value>
    ensures { result ≡ option_and_then (λ es. entry_at es key.now) (lookups.entries_at (heap_of world.now.heap) n) }
{
    match entries_at(&world.heap, n) {
        None => None,
        Some(entries) => entry(entries, key),
    }
}

/// `m.f` of the mapping with this number
fn reads_field(world: &World, n: u32, name: &Text) -> Option<Came>
    ensures { IsRowOf (structures.ReadsField (world_of world.now) n name.now) world.now result }
{
    match member_of(world, n, name) {
        None => None,
        Some(v) => Some(Came::Gave(Some(v))),
    }
}

/// `m?.f`
fn reads_optional(world: &World, v: &Value, name: &Text) -> Option<Came>
    ensures { IsRowOf (structures.ReadsOptional (world_of world.now) v.now name.now) world.now result }
{
    match v {
        Value::Nil => Some(Came::Gave(Some(Value::Nil))),
        Value::Struct(n) => reads_key(world, *n, name),
        _ => None,
    }
}

/// `l[i]` of lists
pub fn perform_get_item(
    alloc: Global,
    operands: &[Value],
    common: &mut Common,
) -> Result<Performed, Memory>
    ensures row { IfOk result (λ done. (facts : FactsOf) (caller : CallerOf) → IsPerformed facts operation.GetItem operands.now caller common.old common.new ⊥ done) }
    ensures stays { IfOk result (Stays common.old common.new) }
{
    match structure_and_int(operands) {
        None => Ok(Performed::Stuck),
        Some((n, i)) => {
            let came = reads_item(alloc, &mut common.world, n, i)?;
            Ok(performed(came))
        }
    }
}

/// `m[k]` of mappings
pub fn perform_get_key(operands: &[Value], common: &Common) -> Performed
    ensures row { (facts : FactsOf) (caller : CallerOf) → IsPerformed facts operation.GetKey operands.now caller common.now common.now ⊥ result }
    ensures stays { Stays common.now common.now result }
{
    match structure_and_text(operands) {
        None => Performed::Stuck,
        Some((n, key)) => performed(reads_key(&common.world, n, &key)),
    }
}

/// `m.f`
pub fn perform_get_field(name: &Text, operands: &[Value], common: &Common) -> Performed
    ensures row { (facts : FactsOf) (caller : CallerOf) → IsPerformed facts (operation.GetField name.now) operands.now caller common.now common.now ⊥ result }
    ensures stays { Stays common.now common.now result }
{
    match structure(operands) {
        None => Performed::Stuck,
        Some(n) => performed(reads_field(&common.world, n, name)),
    }
}

/// `m?.f`
pub fn perform_get_optional(name: &Text, operands: &[Value], common: &Common) -> Performed
    ensures row { (facts : FactsOf) (caller : CallerOf) → IsPerformed facts (operation.GetOptional name.now) operands.now caller common.now common.now ⊥ result }
    ensures stays { Stays common.now common.now result }
{
    match operands {
        [v] => performed(reads_optional(&common.world, v, name)),
        _ => Performed::Stuck,
    }
}
