//! `l[i] = v`.
ghost use Rattle.std.specs.Prelude.{◌≡◌, ◌++◌, IfOk, OnOk, Some, map};
ghost use Rattle.operations.specs.declared.operation.Operation.TheVariants as operation;
ghost use Rattle.value_model.specs.declared.panics.PanicName.TheVariants.{IndexOutOfRange};
ghost use Rattle.op_model.specs.ProgramFacts.{own_types};
ghost use Rattle.op_model.specs.Rows as rows;
ghost use Rattle.op_model.specs.StructureRows.{SetsItem};
ghost use Rattle.plain_run.specs.declared.held.Caller.{Caller as CallerOf};
ghost use Rattle.plain_run.specs.Effects.{IsPerformed, Stays};
ghost use Rattle.plain_run.specs.ProgramFacts.{facts_of};
ghost use Rattle.plain_run.specs.Held.{structure_of, world_of};
ghost use Rattle.plain_structures.specs.Rows.{IsRowOf, IsTried, RowStays, TriedStays};
ghost use Rattle.plain_stores.specs.Changes as changes;
ghost use Rattle.plain_stores.specs.Operands.{AreItemOperands};
ghost use Rattle.store_tests.specs.Questions.{StoreIsBeyond};
ghost use Rattle.plain_stores.specs.Questions.{SetItemIsBeyond};
ghost use Rattle.store_tests.specs.Tests as said;

use crate::making::{Making, Prepared, prepares};
use crate::writing::set_at;
use bal_base::Memory;
use plain_run::{Came, Common, Performed, ProgramFacts, World, panics};
use plain_structures::{Tried, answered, items_at};
use std::alloc::Global;
use store_tests::{Test, tests_item};
use value_model::{PanicName, Value};

/// Stores the item, behind what fills the gap, and holds the structures that are made.
fn puts(
    alloc: Global,
    world: &mut World,
    n: u32,
    place: usize,
    making: Making,
    v: &Value,
) -> Result<(), Memory>
    ensures { OnOk result (world_of world.new ≡ rows.with_structures (world_of world.old) (changes.changed_at (changes.changed_by (changes.with_item place making.gap.items v.now)) (map structure_of world.old.heap.structures) n ++ map structure_of making.more.items)) }
{
    let mut more = making.more;
    set_at(
        alloc,
        &mut world.heap.structures,
        n,
        place,
        making.gap,
        v.share(),
    )?;
    world.heap.structures.append(&mut more)?;
    Ok(())
}

/// A store at a place of the list with this number, where all tests are passed.
fn stores(
    alloc: Global,
    facts: &ProgramFacts<'_>,
    world: &mut World,
    n: u32,
    place: usize,
    v: &Value,
) -> Result<Option<Came>, Memory>
    ensures row { IfOk result (IsRowOf (said.ItemComes facts.now world.old n place v.now) world.new) }
    ensures stays { IfOk result (RowStays world.old world.new) }
{
    match prepares(alloc, facts, world, n, place)? {
        Prepared::Absent => Ok(None),
        Prepared::Passes => Ok(Some(Came::PassesCells)),
        Prepared::Makes(making) => {
            puts(alloc, world, n, place, making, v)?;
            Ok(Some(Came::Gave(None)))
        }
    }
}

/// What came of a row, as it is tried.
pub(crate) fn tried_of(came: Option<Came>) -> Tried
    ensures { result ≡ changes.tried_of came }
{
    match came {
        None => Tried::Stuck,
        Some(came) => Tried::Came(came),
    }
}

/// A store at a place of the list with this number.
pub(crate) fn stores_at(
    alloc: Global,
    facts: &ProgramFacts<'_>,
    world: &mut World,
    n: u32,
    place: usize,
    v: &Value,
) -> Result<Tried, Memory>
    ensures row { IfOk result (IsTried (said.StoresItem facts.now world.old n place v.now) (StoreIsBeyond facts.now world.old n (Some place) v.now) world.new) }
    ensures stays { IfOk result (TriedStays world.old world.new) }
{
    match tests_item(alloc, facts, world, n, place, v)? {
        Test::Absent => Ok(Tried::Stuck),
        Test::Panics(name) => {
            let came = panics(alloc, world, name)?;
            Ok(Tried::Came(came))
        }
        Test::Undecided => Ok(Tried::Undecided),
        Test::Passed => {
            let came = stores(alloc, facts, world, n, place, v)?;
            Ok(tried_of(came))
        }
    }
}

/// The place that an int names, where it names one.
fn place_of(i: i64) -> Option<usize>
    ensures { result ≡ rows.place_of i }
{
    if i < 0 {
        return None;
    }
    Some(i as usize)
}

fn is_list(world: &World, n: u32) -> bool
    ensures { changes.IsListAt (world_of world.now) n result }
{
    items_at(&world.heap, n).is_some()
}

/// The panic of an int that names no place of the list with this number, where it is one.
fn out_of_range(alloc: Global, world: &mut World, n: u32) -> Result<Tried, Memory>
    ensures row { IfOk result (IsTried (λ came. rows.ListAt (world_of world.old) n (λ s vs. came ≡ rows.panics (world_of world.old) IndexOutOfRange)) ⊥ world.new) }
    ensures stays { IfOk result (TriedStays world.old world.new) }
{
    if !is_list(world, n) {
        return Ok(Tried::Stuck);
    }
    let came = panics(alloc, world, PanicName::IndexOutOfRange)?;
    Ok(Tried::Came(came))
}

/// `l[i] = v` of the list with this number
fn sets_item(
    alloc: Global,
    facts: &ProgramFacts<'_>,
    world: &mut World,
    n: u32,
    i: i64,
    v: &Value,
) -> Result<Tried, Memory>
    ensures row { IfOk result (IsTried (SetsItem (own_types (facts_of facts.now)) (facts_of facts.now).fillers (world_of world.old) n i v.now) (StoreIsBeyond facts.now world.old n (rows.place_of i) v.now) world.new) }
    ensures stays { IfOk result (TriedStays world.old world.new) }
{
    match place_of(i) {
        None => out_of_range(alloc, world, n),
        Some(place) => stores_at(alloc, facts, world, n, place, v),
    }
}

/// A structure, an int and a value, where the operands are such.
fn item_operands(operands: &[Value]) -> Option<(u32, i64, Value)>
    ensures { AreItemOperands operands.now result }
{
    match operands {
        [Value::Struct(n), Value::Int(i), v] => Some((*n, *i, v.share())),
        _ => None,
    }
}

/// `l[i] = v` of lists. Past the end fillers come between. It panics where the int names no place, where the list is
/// immutable or the value does not belong to the place, where the list would be too long, and where a place has no filler;
/// it is not told where `SetItemIsBeyond` says so.
pub fn perform_set_item(
    alloc: Global,
    facts: &ProgramFacts<'_>,
    operands: &[Value],
    common: &mut Common,
) -> Result<Performed, Memory>
    ensures row { IfOk result (λ done. (caller : CallerOf) → IsPerformed facts.now operation.SetItem operands.now caller common.old common.new (SetItemIsBeyond facts.now operands.now common.old.world) done) }
    ensures stays { IfOk result (Stays common.old common.new) }
{
    match item_operands(operands) {
        None => Ok(Performed::Stuck),
        Some((n, i, v)) => {
            let came = sets_item(alloc, facts, &mut common.world, n, i, &v)?;
            Ok(answered(came))
        }
    }
}
