//! Operations that make structures, errors and functions, and those that read members and characters.
ghost use Rattle.std.specs.Prelude.{IfOk};
ghost use Rattle.plain_run.specs.Effects.{IsPerformed, Stays};
ghost use Rattle.held_operations.specs.Operation.{operation_of};
ghost use Rattle.plain_operations.specs.Parts.{IsBeforeStructures, part_of};

use crate::on_values::on_values;
use bal_base::Memory;
use held_operations::Op;
use plain_run::{
    Caller, Common, Performed, ProgramFacts, perform_make_function, perform_make_list,
};
use plain_structures::{
    perform_get_char, perform_get_field, perform_get_item, perform_get_key, perform_get_optional,
    perform_make_error, perform_make_mapping,
};
use std::alloc::Global;
use value_model::Value;

/// What an operation on structures comes to, or an operation of a later part.
pub fn on_structures(
    alloc: Global,
    facts: &ProgramFacts,
    op: Op,
    operands: &[Value],
    caller: &Caller,
    common: &mut Common,
) -> Result<Performed, Memory>
    ensures row { IfOk result (IsPerformed facts.now (operation_of op.entry) operands.now caller.now common.old common.new (IsBeforeStructures (part_of op.entry))) }
    ensures stays { IfOk result (Stays common.old common.new) }
{
    match op {
        Op::MakeList {
            atom,
            immutable,
            count,
        } => perform_make_list(alloc, atom, immutable, count, operands, common),
        Op::MakeMapping {
            atom,
            immutable,
            count,
        } => perform_make_mapping(alloc, atom, immutable, count, operands, common),
        Op::MakeError { count } => perform_make_error(alloc, count, operands, common),
        Op::MakeFunction { unit, count } => {
            perform_make_function(alloc, unit, count, operands, common)
        }
        Op::GetItem => perform_get_item(alloc, operands, common),
        Op::GetKey => Ok(perform_get_key(operands, common)),
        Op::GetChar => perform_get_char(alloc, operands, common),
        Op::GetField(name) => Ok(perform_get_field(name, operands, common)),
        Op::GetOptional(name) => Ok(perform_get_optional(name, operands, common)),
        _ => on_values(alloc, facts, op, operands, caller, common),
    }
}
