//! The start of a unit's named workers, for which the call is taken off.
#![tactic(auto, using(crate::proofs::Calling::calling, crate::proofs::Answered::answering))]

ghost use Rattle.std.specs.Prelude.{◌≡◌, ◌+◌, ◌<◌, ◌^◌, [], IfOk, OnOk, length};
ghost use Rattle.operations.specs.declared.operation.Operation.TheVariants.{Workers};
ghost use Rattle.op_model.specs.Local.{captures};
ghost use Rattle.machine_model.specs.Machine.{Does, asks};
ghost use Rattle.stack_code.specs.CodeMachine.{standing};
ghost use Rattle.held_operations.specs.Operation.{operation_of};
ghost use Rattle.plain_operations.specs.Parts.{IsUndecided};
ghost use Rattle.plain_run.specs.Effects as effects;
ghost use Rattle.plain_run.specs.Effects.{IsPerformed};
ghost use Rattle.code_frames.specs.Asking.{last_values};
ghost use Rattle.code_frames.specs.Frames.{standing_of};
ghost use Rattle.code_frames.specs.Programs.{captured_in, machine_of};
ghost use Rattle.code_steps.specs.States.{call_of};
ghost use Rattle.code_steps.specs.Steps.{HasOperands, awaiting};
ghost use Rattle.code_steps.specs.Answered.{IsFinished, IsStepped, caller_over, over};

use crate::carrying::{Stepped, carry};
use crate::held::{Asking, Call, State};
use bal_base::Memory;
use code_frames::{Captures, Program, capture, operands};
use held_operations::Op;
use plain_operations::perform;
use plain_run::{Caller, Performed};
use std::alloc::Global;
use value_model::Value;

/// The operation is done on these operands, for the call over those of the state.
fn ask<'a>(
    alloc: Global,
    program: &Program<'a>,
    op: Op<'a>,
    operands: &[Value],
    call: &Call,
    state: &mut State,
) -> Result<Performed, Memory>
    requires { length state.old.calls.items + 1 < 2 ^ 64 }
    ensures row { IfOk result (IsPerformed program.now.facts (operation_of op.entry) operands.now (caller_over call.now state.new.calls.items) state.old.common state.new.common (IsUndecided program.now.facts operands.now state.old.common op.entry)) }
    ensures stays { IfOk result (effects.Stays state.old.common state.new.common) }
    ensures calls { OnOk result (state.new.calls ≡ state.old.calls) }
    ensures others { OnOk result (state.new.others ≡ state.old.others) }
{
    let caller = Caller {
        unit: call.unit,
        role: call.role,
        depth: state.calls.len() as u64 + 1,
    };
    perform(
        alloc,
        &program.facts,
        op,
        operands,
        &caller,
        &mut state.common,
    )
}

/// What was done makes of the state, in which this call asked for it.
fn finish<'a>(
    alloc: Global,
    program: &Program<'a>,
    asked: Asking,
    done: Performed,
    state: &mut State,
) -> Result<Stepped, Memory>
    requires { HasOperands asked }
    ensures { IfOk result (λ d. IsFinished program.now asked done state.old d state.new) }
{
    match done {
        Performed::Stuck => Ok(Stepped::Stuck),
        Performed::Undecided => Ok(Stepped::Undecided),
        Performed::Done(effect) => carry(alloc, program, asked, effect, state),
    }
}

/// The call asked for this operation on the last values that wait in it.
fn does<'a>(
    alloc: Global,
    program: &Program<'a>,
    op: Op<'a>,
    asked: Asking,
    state: &mut State,
) -> Result<Stepped, Memory>
    requires asks { (machine_of program.now).look asked.call.unit (standing_of asked.call.frame) ≡ Does (operation_of op) (last_values asked.count (standing_of asked.call.frame).local) (awaiting asked) }
    requires enough { HasOperands asked }
    requires running { asked.running ≡ state.old.common.running }
    requires room { length state.old.calls.items + 1 < 2 ^ 64 }
    ensures { IfOk result (λ d. IsStepped program.now (over (call_of asked.call) state.old) d state.new) }
{
    let values = operands(&asked.call.frame, asked.count);
    let done = ask(alloc, program, op, values, &asked.call, state)?;
    finish(alloc, program, asked, done, state)
}

/// The call asked for this operation on these operands, which don't wait in it.
fn does_on<'a>(
    alloc: Global,
    program: &Program<'a>,
    op: Op<'a>,
    operands: &[Value],
    asked: Asking,
    state: &mut State,
) -> Result<Stepped, Memory>
    requires asks { (machine_of program.now).look asked.call.unit (standing_of asked.call.frame) ≡ Does (operation_of op) operands.now (awaiting asked) }
    requires enough { HasOperands asked }
    requires running { asked.running ≡ state.old.common.running }
    requires room { length state.old.calls.items + 1 < 2 ^ 64 }
    ensures { IfOk result (λ d. IsStepped program.now (over (call_of asked.call) state.old) d state.new) }
{
    let done = ask(alloc, program, op, operands, &asked.call, state)?;
    finish(alloc, program, asked, done, state)
}

/// The slots that the named workers of the unit capture.
fn captured<'b>(program: &'b Program<'_>, unit: u32) -> &'b [u32]
    ensures { result.now ≡ captured_in program.now.units.items unit }
{
    match program.units.get(unit as usize) {
        None => &[],
        Some(found) => found.captured.as_slice(),
    }
}

/// The call asked for the start of its unit's named workers.
pub(crate) fn starts<'a>(
    alloc: Global,
    program: &Program<'a>,
    asked: Asking,
    state: &mut State,
) -> Result<Stepped, Memory>
    requires asks { (machine_of program.now).look asked.call.unit (standing_of asked.call.frame) ≡ asks (standing (asked.call.frame.place + 1) (standing_of asked.call.frame).traps) (captures Workers (standing_of asked.call.frame).local (captured_in program.now.units.items asked.call.unit) []) }
    requires none { asked.count ≡ 0 }
    requires running { asked.running ≡ state.old.common.running }
    requires room { length state.old.calls.items + 1 < 2 ^ 64 }
    ensures { IfOk result (λ d. IsStepped program.now (over (call_of asked.call) state.old) d state.new) }
{
    let slots = captured(program, asked.call.unit);
    match capture(alloc, slots, &asked.call.frame.local)? {
        Captures::Missing => Ok(Stepped::Stuck),
        Captures::Unset(slot) => does(alloc, program, Op::Load(slot as u64), asked, state),
        Captures::Values(values) => {
            does_on(alloc, program, Op::Workers, values.as_slice(), asked, state)
        }
    }
}
