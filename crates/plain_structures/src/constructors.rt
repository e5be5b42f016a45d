//! Constructors of mappings and errors.
ghost use Rattle.std.specs.Prelude.{◌≡◌, IfOk, true};
ghost use Rattle.operations.specs.declared.operation.Operation.TheVariants as operation;
ghost use Rattle.value_model.specs.declared.value.Value.TheVariants.{Error};
ghost use Rattle.op_model.specs.Operands as operand_rows;
ghost use Rattle.op_model.specs.Rows as rows;
ghost use Rattle.op_model.specs.StructureRows as structures;
ghost use Rattle.plain_run.specs.declared.facts.ProgramFacts.{ProgramFacts as FactsOf};
ghost use Rattle.plain_run.specs.declared.held.Caller.{Caller as CallerOf};
ghost use Rattle.plain_run.specs.Came.{WorldStays, came_of};
ghost use Rattle.plain_run.specs.Effects.{IsPerformed, Stays};
ghost use Rattle.plain_run.specs.Held.{world_of};
ghost use Rattle.plain_structures.specs.Entries.{MakesCaused, MakesNamed};
ghost use Rattle.plain_structures.specs.Rows.{IsRowOf, RowStays};

use crate::answer::performed;
use crate::entries::entries_of;
use bal_base::{Memory, Text};
use plain_run::{
    Came, Common, Entries, Members, Performed, World, gives_structure, make_error, new_structure,
};
use std::alloc::Global;
use value_model::Value;

/// A mapping of these keys and values in turn.
fn makes_mapping(
    alloc: Global,
    world: &mut World,
    atom: u32,
    immutable: bool,
    operands: &[Value],
) -> Result<Option<Came>, Memory>
    ensures row { IfOk result (IsRowOf (structures.MakesMapping (world_of world.old) atom immutable operands.now) world.new) }
    ensures stays { IfOk result (RowStays world.old world.new) }
{
    match entries_of(alloc, operands)? {
        None => Ok(None),
        Some(entries) => {
            let made = new_structure(Some(atom), !immutable, Members::Entries(entries));
            let came = gives_structure(world, made)?;
            Ok(Some(came))
        }
    }
}

/// A mapping of the operands.
pub fn perform_make_mapping(
    alloc: Global,
    atom: u32,
    immutable: bool,
    count: u64,
    operands: &[Value],
    common: &mut Common,
) -> Result<Performed, Memory>
    ensures row { IfOk result (λ done. (facts : FactsOf) (caller : CallerOf) → IsPerformed facts (operation.MakeMapping atom immutable count) operands.now caller common.old common.new ⊥ done) }
    ensures stays { IfOk result (Stays common.old common.new) }
{
    let came = makes_mapping(alloc, &mut common.world, atom, immutable, operands)?;
    Ok(performed(came))
}

/// Makes an error and gives it.
pub fn gives_error(
    world: &mut World,
    message: Text,
    cause: Option<u32>,
    details: Entries,
) -> Result<Came, Memory>
    ensures row { IfOk result (λ came. came_of came world.new ≡ rows.within (rows.gives (rows.makes_error (world_of world.old) message cause details) (Error (rows.next_error (world_of world.old))))) }
    ensures stays { IfOk result (WorldStays world.old world.new) }
{
    match make_error(world, message, cause, details)? {
        Some(number) => Ok(Came::Gave(Some(Value::Error(number)))),
        None => Ok(Came::PassesCells),
    }
}

/// The cause of an error, where the value may be one.
fn cause_of(v: &Value) -> Option<Option<u32>>
    ensures { result ≡ operand_rows.cause_of v.now }
{
    match v {
        Value::Nil => Some(None),
        Value::Error(n) => Some(Some(*n)),
        _ => None,
    }
}

/// An error with this cause and with details of these keys and values in turn.
fn makes_caused(
    alloc: Global,
    world: &mut World,
    message: &Text,
    cause: Option<u32>,
    details: &[Value],
) -> Result<Option<Came>, Memory>
    ensures row { IfOk result (IsRowOf (MakesCaused (world_of world.old) message.now cause details.now) world.new) }
    ensures stays { IfOk result (RowStays world.old world.new) }
{
    match entries_of(alloc, details)? {
        None => Ok(None),
        Some(entries) => {
            let came = gives_error(world, message.share(), cause, entries)?;
            Ok(Some(came))
        }
    }
}

/// An error with a value as its cause.
fn makes_error(
    alloc: Global,
    world: &mut World,
    message: &Text,
    cause: &Value,
    details: &[Value],
) -> Result<Option<Came>, Memory>
    ensures row { IfOk result (IsRowOf (structures.MakesError (world_of world.old) message.now cause.now details.now) world.new) }
    ensures stays { IfOk result (RowStays world.old world.new) }
{
    match cause_of(cause) {
        None => Ok(None),
        Some(cause) => makes_caused(alloc, world, message, cause, details),
    }
}

/// An error with a value as its message, where it is a string.
fn makes_named(
    alloc: Global,
    world: &mut World,
    message: &Value,
    cause: &Value,
    details: &[Value],
) -> Result<Option<Came>, Memory>
    ensures row { IfOk result (IsRowOf (MakesNamed (world_of world.old) message.now cause.now details.now) world.new) }
    ensures stays { IfOk result (RowStays world.old world.new) }
{
    match message {
        Value::Str(text) => makes_error(alloc, world, text, cause, details),
        _ => Ok(None),
    }
}

/// An error with the operands as its message, its cause and its details.
pub fn perform_make_error(
    alloc: Global,
    count: u64,
    operands: &[Value],
    common: &mut Common,
) -> Result<Performed, Memory>
    ensures row { IfOk result (λ done. (facts : FactsOf) (caller : CallerOf) → IsPerformed facts (operation.MakeError count) operands.now caller common.old common.new ⊥ done) }
    ensures stays { IfOk result (Stays common.old common.new) }
{
    match operands {
        [message, cause, details @ ..] => {
            let came = makes_named(alloc, &mut common.world, message, cause, details)?;
            Ok(performed(came))
        }
        _ => Ok(Performed::Stuck),
    }
}
