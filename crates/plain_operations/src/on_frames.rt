//! Slots, module variables, ticks, calls and the ends of frames.
ghost use Rattle.std.specs.Prelude.{IfOk};
ghost use Rattle.plain_run.specs.Effects.{IsPerformed, Stays};
ghost use Rattle.held_operations.specs.Operation.{operation_of};
ghost use Rattle.plain_operations.specs.Parts.{IsBeforeFrames, part_of};

use bal_base::Memory;
use held_operations::Op;
use plain_run::{
    Caller, Common, Performed, ProgramFacts, perform_call, perform_load, perform_load_module,
    perform_panic, perform_return, perform_store_module, perform_tick,
};
use std::alloc::Global;
use value_model::Value;

/// What an operation on frames comes to. This is the last part: an operation of an earlier one is not told.
pub fn on_frames(
    alloc: Global,
    facts: &ProgramFacts,
    op: Op,
    operands: &[Value],
    caller: &Caller,
    common: &mut Common,
) -> Result<Performed, Memory>
    ensures row { IfOk result (IsPerformed facts.now (operation_of op.entry) operands.now caller.now common.old common.new (IsBeforeFrames (part_of op.entry))) }
    ensures stays { IfOk result (Stays common.old common.new) }
{
    match op {
        // these a frame does by itself
        Op::Const(_) | Op::Nil | Op::Truth(_) | Op::Int(_) => Ok(Performed::Stuck),
        Op::Store(_) | Op::Pop => Ok(Performed::Stuck),
        Op::Load(slot) => perform_load(alloc, slot, operands, common),
        Op::LoadModule(variable) => perform_load_module(alloc, variable, operands, common),
        Op::StoreModule(variable) => Ok(perform_store_module(
            facts,
            caller.unit,
            variable,
            operands,
            common,
        )),
        Op::Tick => perform_tick(alloc, caller.depth, operands, common),
        Op::Call { unit, count } => perform_call(alloc, unit, count, operands, common),
        Op::Return => Ok(perform_return(operands, common)),
        Op::Panic => Ok(perform_panic(operands, common)),
        _ => Ok(Performed::Undecided),
    }
}
