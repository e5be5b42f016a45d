//! `m[k] = v`.
ghost use Rattle.std.specs.Prelude.{◌≡◌, IfOk};
ghost use Rattle.operations.specs.declared.operation.Operation.TheVariants as operation;
ghost use Rattle.op_model.specs.ProgramFacts.{own_types};
ghost use Rattle.op_model.specs.StructureRows.{SetsKey};
ghost use Rattle.plain_run.specs.declared.held.Caller.{Caller as CallerOf};
ghost use Rattle.plain_run.specs.Effects.{IsPerformed, Stays};
ghost use Rattle.plain_run.specs.ProgramFacts.{facts_of};
ghost use Rattle.plain_run.specs.Held.{structure_of, world_of};
ghost use Rattle.plain_structures.specs.Rows.{IsRowOf, IsTried, RowStays, TriedStays};
ghost use Rattle.plain_stores.specs.Changes as changes;
ghost use Rattle.plain_stores.specs.Operands.{AreKeyOperands};
ghost use Rattle.store_tests.specs.Questions.{EntryIsBeyond};
ghost use Rattle.plain_stores.specs.Questions.{SetKeyIsBeyond};
ghost use Rattle.store_tests.specs.Tests as said;

use crate::items::tried_of;
use crate::room::has_room;
use crate::writing::set_key_at;
use bal_base::{Memory, Text};
use plain_run::{
    Came, Common, Entries, Members, Performed, ProgramFacts, Structure, World, panics,
};
use plain_structures::{Tried, answered, entry};
use std::alloc::Global;
use store_tests::{Test, tests_entry};
use value_model::Value;

/// How many entries there are behind a store at the key.
fn entries_behind(entries: &Entries, key: &Text) -> u64
    ensures { result ≡ changes.entries_behind entries.now key.now }
{
    let size = entries.len() as u64;
    match entry(entries, key) {
        Some(_) => size,
        None => size + 1,
    }
}

/// Whether there is room for the entry, where the structure is a mapping.
fn mapping_has_room(world: &World, s: &Structure, key: &Text) -> Option<bool>
    ensures { changes.MappingHasRoom (world_of world.now) (structure_of s.now) key.now result }
{
    match &s.members {
        Members::Items(_) => None,
        Members::Entries(entries) => {
            let size = entries_behind(entries, key);
            Some(has_room(&world.heap, s.greatest, size, 0))
        }
    }
}

/// The same of the mapping with this number.
fn entry_has_room(world: &World, n: u32, key: &Text) -> Option<bool>
    ensures { changes.EntryHasRoom (world_of world.now) n key.now result }
{
    match world.heap.structures.get(n as usize) {
        None => None,
        Some(s) => mapping_has_room(world, s, key),
    }
}

/// A store at a key of the mapping with this number, where all tests are passed.
fn stores(
    alloc: Global,
    world: &mut World,
    n: u32,
    key: &Text,
    v: &Value,
) -> Result<Option<Came>, Memory>
    ensures row { IfOk result (IsRowOf (said.EntryComes world.old n key.now v.now) world.new) }
    ensures stays { IfOk result (RowStays world.old world.new) }
{
    match entry_has_room(world, n, key) {
        None => Ok(None),
        Some(false) => Ok(Some(Came::PassesCells)),
        Some(true) => {
            set_key_at(alloc, &mut world.heap.structures, n, key, v)?;
            Ok(Some(Came::Gave(None)))
        }
    }
}

/// `m[k] = v` of the mapping with this number
fn sets_key(
    alloc: Global,
    facts: &ProgramFacts<'_>,
    world: &mut World,
    n: u32,
    key: &Text,
    v: &Value,
) -> Result<Tried, Memory>
    ensures row { IfOk result (IsTried (SetsKey (own_types (facts_of facts.now)) (facts_of facts.now).fillers (world_of world.old) n key.now v.now) (EntryIsBeyond facts.now world.old n key.now v.now) world.new) }
    ensures stays { IfOk result (TriedStays world.old world.new) }
{
    match tests_entry(alloc, facts, world, n, key, v)? {
        Test::Absent => Ok(Tried::Stuck),
        Test::Panics(name) => {
            let came = panics(alloc, world, name)?;
            Ok(Tried::Came(came))
        }
        Test::Undecided => Ok(Tried::Undecided),
        Test::Passed => {
            let came = stores(alloc, world, n, key, v)?;
            Ok(tried_of(came))
        }
    }
}

/// A structure, a string and a value, where the operands are such.
fn key_operands(operands: &[Value]) -> Option<(u32, Text, Value)>
    ensures { AreKeyOperands operands.now result }
{
    match operands {
        [Value::Struct(n), Value::Str(key), v] => Some((*n, key.share(), v.share())),
        _ => None,
    }
}

/// `m[k] = v` of mappings; a new key comes last. It panics where the mapping is immutable or the value does not belong to
/// the key; it is not told where `SetKeyIsBeyond` says so.
pub fn perform_set_key(
    alloc: Global,
    facts: &ProgramFacts<'_>,
    operands: &[Value],
    common: &mut Common,
) -> Result<Performed, Memory>
    ensures row { IfOk result (λ done. (caller : CallerOf) → IsPerformed facts.now operation.SetKey operands.now caller common.old common.new (SetKeyIsBeyond facts.now operands.now common.old.world) done) }
    ensures stays { IfOk result (Stays common.old common.new) }
{
    match key_operands(operands) {
        None => Ok(Performed::Stuck),
        Some((n, key, v)) => {
            let came = sets_key(alloc, facts, &mut common.world, n, &key, &v)?;
            Ok(answered(came))
        }
    }
}
