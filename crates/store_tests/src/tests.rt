//! The tests of a store, before anything is changed.
ghost use Rattle.std.specs.Prelude.{IfOk, Some, option_copied};
ghost use Rattle.value_model.specs.Heap.{Entries, Members};
ghost use Rattle.value_model.specs.World.{Came as CameOf, World as ModelWorld};
ghost use Rattle.op_model.specs.Rows.{Else};
ghost use Rattle.plain_run.specs.Held.{structure_of, world_of};
ghost use Rattle.store_tests.specs.Questions.{EntryIsBeyond, KeyIsBeyond, PlaceIsBeyond, StoreIsBeyond};
ghost use Rattle.store_tests.specs.Tests as said;

use crate::gaps::{are_there, fillers_of};
use crate::places::{entry_type, place_type};
use bal_base::{Memory, Text};
use plain_run::{Heap, MOST_ITEMS, Members, ProgramFacts, Structure, World};
use plain_tests::belongs_if;
use std::alloc::Global;
use type_model::Ty;
use value_model::{Filler, PanicName, Value};

/// What the tests of a store say.
#[derive(Drop)]
pub enum Test {
    /// There is no such list or mapping.
    Absent,
    /// This panic comes.
    Panics(PanicName),
    /// A question isn't told.
    Undecided,
    /// All are passed.
    Passed,
}

/// Whether a structure may hold the value where this type stands: it is mutable, and the value belongs to the type.
fn may_hold(
    alloc: Global,
    facts: &ProgramFacts<'_>,
    heap: &Heap,
    mutable: bool,
    wanted: Option<&Ty>,
    v: &Value,
) -> Result<Option<bool>, Memory>
    ensures { IfOk result (said.TellsHold facts.now heap.now mutable (option_copied wanted.entry) v.now) }
{
    if !mutable {
        return Ok(Some(false));
    }
    belongs_if(alloc, facts, heap, v, wanted)
}

// ---- at a place of a list

/// The tests of a gap.
fn tests_gap(fillers: &[Filler], size: usize, place: usize) -> Test
    ensures { (w : ModelWorld) (final : CameOf) → said.IsTested (said.GapRow w fillers.now size place final) (Else final) w ⊥ result }
{
    if place >= MOST_ITEMS {
        return Test::Panics(PanicName::TooLong);
    }
    if !are_there(fillers, size, place) {
        return Test::Panics(PanicName::NoFillerValue);
    }
    Test::Passed
}

/// The tests of a store at a place of a list of so many items.
fn tests_place(
    alloc: Global,
    facts: &ProgramFacts<'_>,
    world: &World,
    s: &Structure,
    size: usize,
    place: usize,
    v: &Value,
) -> Result<Test, Memory>
    ensures { IfOk result (λ test. (final : CameOf) → said.IsTested (said.PlaceRow facts.now world.now (structure_of s.now) size place v.now final) (Else final) (world_of world.now) (PlaceIsBeyond facts.now world.now (structure_of s.now) (Some place) v.now) test) }
{
    let wanted = place_type(facts, s.atom, place);
    match may_hold(alloc, facts, &world.heap, s.mutable, wanted, v)? {
        None => Ok(Test::Undecided),
        Some(false) => Ok(Test::Panics(PanicName::InherentTypeViolation)),
        Some(true) => Ok(tests_gap(fillers_of(facts, s.atom), size, place)),
    }
}

/// The same where the structure is a list.
fn tests_list(
    alloc: Global,
    facts: &ProgramFacts<'_>,
    world: &World,
    n: u32,
    s: &Structure,
    place: usize,
    v: &Value,
) -> Result<Test, Memory>
    ensures { IfOk result (said.IsTested (said.ListRow facts.now world.now n (structure_of s.now) place v.now) (said.ListComes facts.now world.now n (structure_of s.now) place v.now) (world_of world.now) (said.ListIsBeyond facts.now world.now (structure_of s.now) place v.now)) }
{
    match &s.members {
        Members::Items(items) => tests_place(alloc, facts, world, s, items.len(), place, v),
        Members::Entries(_) => Ok(Test::Absent),
    }
}

/// The tests of a store at a place of the list with this number.
pub fn tests_item(
    alloc: Global,
    facts: &ProgramFacts<'_>,
    world: &World,
    n: u32,
    place: usize,
    v: &Value,
) -> Result<Test, Memory>
    ensures { IfOk result (said.IsTested (said.StoresItem facts.now world.now n place v.now) (said.ItemComes facts.now world.now n place v.now) (world_of world.now) (StoreIsBeyond facts.now world.now n (Some place) v.now)) }
{
    match world.heap.structures.get(n as usize) {
        None => Ok(Test::Absent),
        Some(s) => tests_list(alloc, facts, world, n, s, place, v),
    }
}

// ---- at a key of a mapping

/// The tests of a store at a key of a mapping.
fn tests_key(
    alloc: Global,
    facts: &ProgramFacts<'_>,
    world: &World,
    s: &Structure,
    key: &Text,
    v: &Value,
) -> Result<Test, Memory>
    ensures { IfOk result (λ test. (final : CameOf) → said.IsTested (said.KeyRow facts.now world.now (structure_of s.now) key.now v.now final) (Else final) (world_of world.now) (KeyIsBeyond facts.now world.now (structure_of s.now) key.now v.now) test) }
{
    let wanted = entry_type(facts, s.atom, key);
    match may_hold(alloc, facts, &world.heap, s.mutable, wanted, v)? {
        None => Ok(Test::Undecided),
        Some(false) => Ok(Test::Panics(PanicName::InherentTypeViolation)),
        Some(true) => Ok(Test::Passed),
    }
}

/// The same where the structure is a mapping.
fn tests_mapping(
    alloc: Global,
    facts: &ProgramFacts<'_>,
    world: &World,
    n: u32,
    s: &Structure,
    key: &Text,
    v: &Value,
) -> Result<Test, Memory>
    ensures { IfOk result (said.IsTested (said.MappingRow facts.now world.now n (structure_of s.now) key.now v.now) (said.MappingComes world.now n (structure_of s.now) key.now v.now) (world_of world.now) (said.MappingIsBeyond facts.now world.now (structure_of s.now) key.now v.now)) }
{
    match &s.members {
        Members::Items(_) => Ok(Test::Absent),
        Members::Entries(_) => tests_key(alloc, facts, world, s, key, v),
    }
}

/// The tests of a store at a key of the mapping with this number.
pub fn tests_entry(
    alloc: Global,
    facts: &ProgramFacts<'_>,
    world: &World,
    n: u32,
    key: &Text,
    v: &Value,
) -> Result<Test, Memory>
    ensures { IfOk result (said.IsTested (said.StoresEntry facts.now world.now n key.now v.now) (said.EntryComes world.now n key.now v.now) (world_of world.now) (EntryIsBeyond facts.now world.now n key.now v.now)) }
{
    match world.heap.structures.get(n as usize) {
        None => Ok(Test::Absent),
        Some(s) => tests_mapping(alloc, facts, world, n, s, key, v),
    }
}
