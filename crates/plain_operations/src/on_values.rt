//! Ints, booleans and strings, and what is the same.
ghost use Rattle.std.specs.Prelude.{IfOk};
ghost use Rattle.plain_run.specs.Effects.{IsPerformed, Stays};
ghost use Rattle.held_operations.specs.Operation.{operation_of};
ghost use Rattle.plain_operations.specs.Parts.{IsBeforeValues, part_of};

use crate::on_frames::on_frames;
use bal_base::Memory;
use held_operations::Op;
use plain_run::{
    Caller, Common, Comparison, Ints, Performed, ProgramFacts, perform_compare, perform_concat,
    perform_ints, perform_negate, perform_not, perform_same,
};
use std::alloc::Global;
use value_model::Value;

/// What an operation on simple values comes to, or an operation of a later part.
pub fn on_values(
    alloc: Global,
    facts: &ProgramFacts,
    op: Op,
    operands: &[Value],
    caller: &Caller,
    common: &mut Common,
) -> Result<Performed, Memory>
    ensures row { IfOk result (IsPerformed facts.now (operation_of op.entry) operands.now caller.now common.old common.new (IsBeforeValues (part_of op.entry))) }
    ensures stays { IfOk result (Stays common.old common.new) }
{
    match op {
        Op::Add => perform_ints(alloc, Ints::Add, operands, common),
        Op::Subtract => perform_ints(alloc, Ints::Subtract, operands, common),
        Op::Multiply => perform_ints(alloc, Ints::Multiply, operands, common),
        Op::Divide => perform_ints(alloc, Ints::Divide, operands, common),
        Op::Remainder => perform_ints(alloc, Ints::Remainder, operands, common),
        Op::Negate => perform_negate(alloc, operands, common),
        Op::Concat => perform_concat(alloc, operands, common),
        Op::Less => Ok(perform_compare(Comparison::Less, operands, common)),
        Op::LessEqual => Ok(perform_compare(Comparison::LessEqual, operands, common)),
        Op::Not => Ok(perform_not(operands, common)),
        Op::Same => Ok(perform_same(operands, common)),
        _ => on_frames(alloc, facts, op, operands, caller, common),
    }
}
