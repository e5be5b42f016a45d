//! Calls of function values, strands, workers, messages and waits.
ghost use Rattle.std.specs.Prelude.{IfOk};
ghost use Rattle.plain_run.specs.Effects.{IsPerformed, Stays};
ghost use Rattle.held_operations.specs.Operation.{operation_of};
ghost use Rattle.plain_operations.specs.Parts.{IsBeforeStrands, part_of};

use crate::on_structures::on_structures;
use bal_base::Memory;
use held_operations::Op;
use plain_calls::{perform_call_value, perform_start, perform_start_value, perform_workers};
use plain_messages::{perform_done, perform_flush, perform_post, perform_receive, perform_send};
use plain_run::{Caller, Common, Performed, ProgramFacts};
use plain_strands::{perform_wait_all, perform_wait_any, perform_wait_future, perform_wait_worker};
use std::alloc::Global;
use value_model::Value;

/// What an operation on strands comes to, or an operation of a later part.
pub fn on_strands(
    alloc: Global,
    facts: &ProgramFacts,
    op: Op,
    operands: &[Value],
    caller: &Caller,
    common: &mut Common,
) -> Result<Performed, Memory>
    ensures row { IfOk result (IsPerformed facts.now (operation_of op.entry) operands.now caller.now common.old common.new (IsBeforeStrands (part_of op.entry))) }
    ensures stays { IfOk result (Stays common.old common.new) }
{
    match op {
        Op::CallValue { count } => perform_call_value(alloc, facts, count, operands, common),
        Op::Start { unit, count } => perform_start(alloc, unit, count, operands, caller, common),
        Op::StartValue { count } => {
            perform_start_value(alloc, facts, count, operands, caller, common)
        }
        Op::Workers => perform_workers(alloc, facts, operands, caller, common),
        Op::Send(worker) => perform_send(alloc, worker, operands, caller, common),
        Op::Post(worker) => perform_post(alloc, worker, operands, caller, common),
        Op::Done(worker) => Ok(perform_done(worker, operands, caller, common)),
        Op::Receive(worker) => perform_receive(alloc, worker, operands, caller, common),
        Op::Flush(worker) => Ok(perform_flush(worker, operands, caller, common)),
        Op::WaitWorker(worker) => perform_wait_worker(alloc, worker, operands, caller, common),
        Op::WaitFuture => perform_wait_future(alloc, operands, common),
        Op::WaitAny(names) => perform_wait_any(alloc, names, operands, caller, common),
        Op::WaitAll { atom, awaited } => {
            perform_wait_all(alloc, facts, atom, awaited, operands, caller, common)
        }
        _ => on_structures(alloc, facts, op, operands, caller, common),
    }
}
