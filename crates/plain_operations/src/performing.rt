//! The table of operations, part by part: each part has its own operations, and asks the next one for all others.
ghost use Rattle.std.specs.Prelude.{IfOk};
ghost use Rattle.plain_run.specs.Effects.{IsPerformed, Stays};
ghost use Rattle.held_operations.specs.Operation.{operation_of};
ghost use Rattle.plain_operations.specs.Parts.{IsUndecided};

use crate::on_strands::on_strands;
use bal_base::Memory;
use held_operations::Op;
use plain_equality::perform_equal;
use plain_library::perform_library;
use plain_run::{Caller, Common, Performed, ProgramFacts};
use plain_stores::{perform_set_item, perform_set_key};
use plain_tests::{perform_cast, perform_test};
use std::alloc::Global;
use value_model::Value;

/// What an operation comes to on its operands, the first one first. `Undecided` comes only where a question of types that it
/// asks isn't decided: it passes a limit of the decider, or names an atom that isn't there. Then nothing is changed.
pub fn perform(
    alloc: Global,
    facts: &ProgramFacts,
    op: Op,
    operands: &[Value],
    caller: &Caller,
    common: &mut Common,
) -> Result<Performed, Memory>
    ensures row { IfOk result (IsPerformed facts.now (operation_of op.entry) operands.now caller.now common.old common.new (IsUndecided facts.now operands.now common.old op.entry)) }
    ensures stays { IfOk result (Stays common.old common.new) }
{
    match op {
        Op::Library { call, atom, count } => {
            perform_library(alloc, facts, call, atom, count, operands, common)
        }
        Op::Equal => perform_equal(alloc, operands, common),
        Op::Test(t) => perform_test(alloc, facts, t, operands, common),
        Op::Cast(t) => perform_cast(alloc, facts, t, operands, common),
        Op::SetItem => perform_set_item(alloc, facts, operands, common),
        Op::SetKey => perform_set_key(alloc, facts, operands, common),
        _ => on_strands(alloc, facts, op, operands, caller, common),
    }
}
