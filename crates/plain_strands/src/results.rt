//! The mapping that a multiple wait gives.
#![tactic(auto, using(crate::proofs::Resulting::resulting))]

ghost use Rattle.std.specs.Prelude.{◌≡◌, ◌++◌, ◌+◌, ◌∷◌, ◌≤◌, IfOk, OnOk, length, map, nat_le, zip};
ghost use Rattle.std.specs.List.{sum_by};
ghost use Rattle.value_model.specs.Heap.{cells};
ghost use Rattle.op_model.specs.Limits.{most_cells};
ghost use Rattle.op_model.specs.Waits as model;
ghost use Rattle.plain_run.specs.Came.{WorldStays, came_of};
ghost use Rattle.plain_run.specs.Held.{error_of, heap_of, structure_of, world_of};
ghost use Rattle.plain_copies.specs.Copied.{IsSum};
ghost use Rattle.plain_strands.specs.Results.{detail_of, details, error_from, errors_from, mapping_given, mapping_of, one_missing};

use crate::errors::future_taken;
use bal_base::{Memory, Text};
use plain_copies::{cells_of, make_all};
use plain_run::{
    Came, Entries, ErrorObject, Heap, Members, Structure, World, has_room_for, new_structure,
};
use std::alloc::Global;
use type_model::{AtomDef, FieldDef};
use value_model::Value;

/// The names of the fields, behind the others.
fn push_names(fields: &[FieldDef], names: &mut Vec<Text>) -> Result<(), Memory>
    ensures { OnOk result (names.new.items ≡ names.old.items ++ map (λ f. f.name) fields.now) }
{
    match fields {
        [] => Ok(()),
        [field, rest @ ..] => {
            names.push(field.name.share())?;
            push_names(rest, names)
        }
    }
}

/// The names of the fields of a mapping's atom.
pub(crate) fn field_names(alloc: Global, def: &AtomDef) -> Result<Vec<Text>, Memory>
    ensures { IfOk result (λ names. names.items ≡ model.field_names def.now) }
{
    let mut names = Vec::new(alloc);
    match def {
        AtomDef::Mapping { fields, .. } => {
            push_names(fields.as_slice(), &mut names)?;
            Ok(names)
        }
        AtomDef::List { .. } | AtomDef::Arrow { .. } => Ok(names),
        AtomDef::Error { .. } | AtomDef::Future { .. } => Ok(names),
    }
}

/// The number, where a `u32` has it.
fn short(n: usize) -> Result<u32, Memory>
    ensures { IfOk result (λ m. m ≡ n) }
{
    if n > u32::MAX as usize {
        return Err(Memory);
    }
    Ok(n as u32)
}

/// The names with the results, where errors with the numbers from this one on stand for what is missing, behind the others.
fn push_results(
    names: &[Text],
    results: &[Option<Value>],
    next: usize,
    entries: &mut Vec<(Text, Value)>,
) -> Result<(), Memory>
    ensures { OnOk result (entries.new.items ≡ entries.old.items ++ zip names.now (model.numbered next results.now)) }
{
    match names {
        [] => Ok(()),
        [name, left @ ..] => match results {
            [] => Ok(()),
            [Some(v), rest @ ..] => {
                entries.push((name.share(), v.share()))?;
                push_results(left, rest, next, entries)
            }
            [None, rest @ ..] => {
                let number = short(next)?;
                entries.push((name.share(), Value::Error(number)))?;
                push_results(left, rest, next + 1, entries)
            }
        },
    }
}

/// A detail, where the result is missing, behind the others.
fn push_detail(alloc: Global, v: &Option<Value>, made: &mut Vec<Structure>) -> Result<(), Memory>
    ensures { OnOk result (map structure_of made.new.items ≡ map structure_of made.old.items ++ detail_of v.now) }
{
    match v {
        Some(_) => Ok(()),
        None => {
            let members = Members::Entries(Entries::new(alloc));
            made.push(new_structure(None, false, members))?;
            Ok(())
        }
    }
}

/// A detail for each result that is missing, behind the others.
fn push_details(
    alloc: Global,
    results: &[Option<Value>],
    made: &mut Vec<Structure>,
) -> Result<(), Memory>
    ensures { OnOk result (map structure_of made.new.items ≡ map structure_of made.old.items ++ details results.now) }
{
    match results {
        [] => Ok(()),
        [v, rest @ ..] => {
            push_detail(alloc, v, made)?;
            push_details(alloc, rest, made)
        }
    }
}

/// An error with this detail, where the result is missing, behind the others; and the next detail.
fn push_error(
    alloc: Global,
    v: &Option<Value>,
    detail: usize,
    errors: &mut Vec<ErrorObject>,
) -> Result<usize, Memory>
    ensures next { IfOk result (λ next. next ≡ detail + one_missing v.now) }
    ensures errors { OnOk result (map error_of errors.new.items ≡ map error_of errors.old.items ++ error_from detail v.now) }
{
    match v {
        Some(_) => Ok(detail),
        None => {
            let number = short(detail)?;
            let message = future_taken(alloc)?;
            errors.push(ErrorObject {
                message,
                cause: None,
                detail: number,
            })?;
            Ok(detail + 1)
        }
    }
}

/// The errors that stand for what is missing, behind the others, where this is the first one's detail.
fn push_errors(
    alloc: Global,
    results: &[Option<Value>],
    first: usize,
    errors: &mut Vec<ErrorObject>,
) -> Result<(), Memory>
    ensures { OnOk result (map error_of errors.new.items ≡ map error_of errors.old.items ++ errors_from first results.now) }
{
    match results {
        [] => Ok(()),
        [v, rest @ ..] => {
            let next = push_error(alloc, v, first, errors)?;
            push_errors(alloc, rest, next, errors)
        }
    }
}

/// One, where the result is missing.
fn counted(v: &Option<Value>) -> u64
    ensures count { result ≡ one_missing v.now }
    ensures most { result ≤ 1 }
{
    match v {
        Some(_) => 0,
        None => 1,
    }
}

/// How many of the results are missing.
fn missing(results: &[Option<Value>]) -> u64
    ensures count { result ≡ model.missing results.now }
    ensures most { result ≤ length results.now }
{
    match results {
        [] => 0,
        [v, rest @ ..] => counted(v) + missing(rest),
    }
}

/// How many cells the structures take, and an error for each result that is missing.
fn cells_with_errors(made: &[Structure], results: &[Option<Value>]) -> Option<u64>
    ensures { IsSum (sum_by (λ s. s.greatest + 1) made.now + model.missing results.now) result }
{
    match cells_of(made) {
        None => None,
        Some(count) => count.checked_add(missing(results)),
    }
}

/// Whether there is room for the structures and the errors.
fn has_room(heap: &Heap, made: &[Structure], results: &[Option<Value>]) -> bool
    ensures { result ≡ nat_le (cells (heap_of heap.now) + (sum_by (λ s. s.greatest + 1) made.now + model.missing results.now)) most_cells }
{
    match cells_with_errors(made, results) {
        None => false,
        Some(count) => has_room_for(heap, count, 0),
    }
}

/// The mapping of the results, and the details of the errors that stand for what is missing.
fn structures_made(
    alloc: Global,
    atom: u32,
    names: &[Text],
    results: &[Option<Value>],
    next: usize,
) -> Result<Vec<Structure>, Memory>
    ensures { IfOk result (λ made. map structure_of made.items ≡ mapping_of atom next names.now results.now ∷ details results.now) }
{
    let mut entries = Vec::new(alloc);
    push_results(names, results, next, &mut entries)?;
    let mut made = Vec::new(alloc);
    made.push(new_structure(Some(atom), true, Members::Entries(Entries::of(entries))))?;
    push_details(alloc, results, &mut made)?;
    Ok(made)
}

/// The mapping of the results is made, and the errors that stand for what is missing.
pub(crate) fn gives_results(
    alloc: Global,
    world: &mut World,
    atom: u32,
    names: &[Text],
    results: &[Option<Value>],
) -> Result<Came, Memory>
    ensures row { IfOk result (λ came. came_of came world.new ≡ mapping_given (world_of world.old) atom names.now results.now) }
    ensures stays { IfOk result (WorldStays world.old world.new) }
{
    let next = world.heap.errors.len();
    let made = structures_made(alloc, atom, names, results, next)?;
    if !has_room(&world.heap, made.as_slice(), results) {
        return Ok(Came::PassesCells);
    }
    let there = world.heap.structures.len();
    let number = short(there)?;
    push_errors(alloc, results, there + 1, &mut world.heap.errors)?;
    make_all(world, made)?;
    Ok(Came::Gave(Some(Value::Struct(number))))
}
