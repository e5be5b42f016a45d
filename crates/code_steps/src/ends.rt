//! Calls that end: the running strand goes on with those below, begins its next unit, or ends.
#![tactic(auto, using(crate::proofs::Calling::calling))]

ghost use Rattle.std.specs.Prelude.{◌≡◌, ◌∷◌, [], IfOk, OnOk, None, length, option_map, slice_set};
ghost use Rattle.machine_model.specs.Machine as machine;
ghost use Rattle.machine_model.specs.Machine.{State as StateOf};
ghost use Rattle.stack_code.specs.CodeMachine.{Standing};
ghost use Rattle.op_model.specs.Common as model;
ghost use Rattle.op_model.specs.Strands.{settled, strand_ended, workers_ended};
ghost use Rattle.plain_run.specs.Held.{common_of, end_of};
ghost use Rattle.code_frames.specs.Programs.{machine_of};
ghost use Rattle.code_steps.specs.States.{calls_of, others_of};
ghost use Rattle.code_steps.specs.Steps.{came, next_of};
ghost use Rattle.code_steps.specs.Ends.{IsShorter, TakesUnit, Unwinds};

use crate::begins::begin;
use crate::calls::{push, take_last};
use crate::carrying::Next;
use crate::held::State;
use bal_base::Memory;
use code_frames::{Program, catch, resume};
use plain_run::{Common, End, ToRun, end_strand, end_worker, is_success, settle};
use std::alloc::Global;
use std::mem;
use value_model::Value;

/// The running strand stops with its calls.
pub(crate) fn stop(alloc: Global, running: u64, state: &mut State)
    ensures common { common_of state.new.common ≡ common_of state.old.common }
    ensures calls { calls_of state.new.calls.items ≡ [] }
    ensures others { others_of state.new ≡ slice_set (others_of state.old) running (calls_of state.old.calls.items) }
{
    let calls = mem::replace(&mut state.calls, Vec::new(alloc));
    if let Some(place) = state.others.get_mut(running as usize) {
        *place = calls;
    }
}

/// The next unit of strand 0, unless it ended with an error or a panic.
fn next_unit(common: &mut Common, end: &End) -> Option<ToRun>
    ensures { TakesUnit result (common_of common.old) (end_of end.now) (common_of common.new) }
{
    if common.running == 0 && is_success(end) && !common.to_run.is_empty() {
        Some(common.to_run.remove(0))
    } else {
        None
    }
}

/// The running strand, which has no call left, begins with this unit.
fn begins_next<'a>(
    alloc: Global,
    program: &Program<'a>,
    next: ToRun,
    state: &mut State,
) -> Result<Option<Next>, Memory>
    requires { calls_of state.old.calls.items ≡ [] }
    ensures { IfOk result (λ n. (s : StateOf Standing) → s.others ≡ others_of state.old → came n state.new ≡ option_map (λ f. machine.Moved (machine.put s (settled (common_of state.old.common)) (f ∷ []))) (machine.begun (machine_of program.now) next.unit next.args.items None)) }
{
    match begin(alloc, program, next.unit, next.args.as_slice(), None)? {
        None => Ok(None),
        Some(call) => {
            settle(alloc, &mut state.common)?;
            push(&mut state.calls, call)?;
            Ok(Some(Next::Moved))
        }
    }
}

/// The running strand has ended.
fn ends(alloc: Global, running: u64, end: End, state: &mut State) -> Result<Next, Memory>
    requires { calls_of state.old.calls.items ≡ [] }
    ensures { IfOk result (λ n. (s : StateOf Standing) → s.common.running ≡ running → s.others ≡ others_of state.old → next_of n state.new ≡ machine.Ended (machine.stopped s (settled (strand_ended (end_of end) (common_of state.old.common))) [])) }
{
    end_strand(&mut state.common, end)?;
    settle(alloc, &mut state.common)?;
    stop(alloc, running, state);
    Ok(Next::Ended)
}

/// The running strand has no call left, the last of which ended so.
fn leaves_strand<'a>(
    alloc: Global,
    program: &Program<'a>,
    running: u64,
    end: End,
    state: &mut State,
) -> Result<Option<Next>, Memory>
    requires { calls_of state.old.calls.items ≡ [] }
    ensures { IfOk result (λ n. (s : StateOf Standing) → s.common.running ≡ running → s.others ≡ others_of state.old → came n state.new ≡ machine.left_with (machine_of program.now) s (common_of state.old.common) (end_of end) (machine.next_units (common_of state.old.common) (end_of end))) }
{
    match next_unit(&mut state.common, &end) {
        Some(next) => begins_next(alloc, program, next, state),
        None => {
            let next = ends(alloc, running, end, state)?;
            Ok(Some(next))
        }
    }
}

/// The running strand goes on with its calls, now that the ones above them have ended so.
pub(crate) fn goes_on<'a>(
    alloc: Global,
    program: &Program<'a>,
    running: u64,
    end: End,
    state: &mut State,
) -> Result<Option<Next>, Memory>
    ensures { IfOk result (λ n. (s : StateOf Standing) → s.common.running ≡ running → s.others ≡ others_of state.old → came n state.new ≡ machine.goes_on (machine_of program.now) s (common_of state.old.common) (end_of end) (calls_of state.old.calls.items)) }
{
    if state.calls.is_empty() {
        leaves_strand(alloc, program, running, end, state)
    } else {
        settle(alloc, &mut state.common)?;
        Ok(Some(Next::Moved))
    }
}

/// The last call catches a panic with this error, or the panic ends it.
fn lands<'a>(program: &Program<'a>, error: &Value, state: &mut State) -> Result<bool, Memory>
    ensures calls { IfOk result (λ b. Unwinds (machine_of program.now) error.now b (calls_of state.old.calls.items) (common_of state.old.common) (calls_of state.new.calls.items) (common_of state.new.common)) }
    ensures others { OnOk result (others_of state.new ≡ others_of state.old) }
    ensures fewer { IfOk result (λ b. IsShorter b (length state.old.calls.items) (length state.new.calls.items)) }
{
    match take_last(&mut state.calls) {
        None => Ok(true),
        Some(call) => {
            let mut call = call;
            if catch(&mut call.frame, error.share())? {
                push(&mut state.calls, call)?;
                return Ok(true);
            }
            end_worker(&mut state.common, call.role, End::Panicked(error.share()));
            Ok(false)
        }
    }
}

/// A panic ends the calls that don't catch it, the last one first, and goes on in the one that does.
#[tactic(auto, using(crate::proofs::Calling::calling, crate::proofs::Unwinding::unwinding))]
pub(crate) fn unwind<'a>(
    program: &Program<'a>,
    error: &Value,
    state: &mut State,
) -> Result<(), Memory>
    ensures calls { OnOk result (calls_of state.new.calls.items ≡ machine.unwound (machine_of program.now) error.now (calls_of state.old.calls.items)) }
    ensures common { OnOk result (common_of state.new.common ≡ workers_ended (model.Panicked error.now) (machine.roles_left (machine_of program.now) error.now (calls_of state.old.calls.items)) (common_of state.old.common)) }
    ensures others { OnOk result (others_of state.new ≡ others_of state.old) }
{
    while !state.calls.is_empty() {
        if lands(program, error, state)? {
            return Ok(());
        }
    }
    Ok(())
}

/// The caller is given the value.
pub(crate) fn give<'a>(program: &Program<'a>, v: Value, state: &mut State) -> Result<(), Memory>
    ensures calls { OnOk result (calls_of state.new.calls.items ≡ machine.given (machine_of program.now) v (calls_of state.old.calls.items)) }
    ensures common { OnOk result (common_of state.new.common ≡ common_of state.old.common) }
    ensures others { OnOk result (others_of state.new ≡ others_of state.old) }
{
    match state.calls.last_mut() {
        None => Ok(()),
        Some(call) => resume(&mut call.frame, Some(v)),
    }
}
