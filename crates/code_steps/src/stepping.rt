//! One step of the running strand: its last call is changed where it stands, and is taken off only where it ends, stops or starts
//! strands.
#![tactic(auto, using(crate::proofs::Calling::calling))]

ghost use Rattle.std.specs.Prelude.{◌≡◌, ◌∷◌, [], IfOk, ℕ};
ghost use Rattle.held_operations.specs.declared.op.Op.TheVariants as ops;
ghost use Rattle.code_steps.specs.Answered.{IsStepped};
ghost use Rattle.code_steps.specs.inner.Lasts.{AsksLast, CapturesLast, EnoughLast, StepsFor, values_last};
ghost use Rattle.code_steps.specs.States.{calls_of, state_of};

use crate::calls::take_last;
use crate::carrying::{Next, Stepped, answered, carry, ends_with};
use crate::held::{Asking, State};
use crate::lasts::{ask_last, enters_last, gives_last, look_last, value_last};
use crate::workers::starts;
use bal_base::Memory;
use code_frames::{Asked, Frame, Held, Program};
use held_operations::Op;
use plain_run::{Effect, Performed};
use std::alloc::Global;
use value_model::Value;

/// What the effect makes of the state, where the last call is taken off.
fn carries_off<'a>(
    alloc: Global,
    program: &Program<'a>,
    count: usize,
    running: u64,
    effect: Effect,
    state: &mut State,
) -> Result<Stepped, Memory>
    requires { EnoughLast count (calls_of state.old.calls.items) }
    ensures { IfOk result (λ d. StepsFor program.now count running effect state.old d state.new) }
{
    match take_last(&mut state.calls) {
        None => Ok(Stepped::Stuck),
        Some(call) => {
            let asked = Asking {
                call,
                count,
                running,
            };
            carry(alloc, program, asked, effect, state)
        }
    }
}

/// What the effect makes of the state, in which the last call asked for the operation.
fn carries<'a>(
    alloc: Global,
    program: &Program<'a>,
    count: usize,
    running: u64,
    effect: Effect,
    state: &mut State,
) -> Result<Stepped, Memory>
    requires { EnoughLast count (calls_of state.old.calls.items) }
    ensures { IfOk result (λ d. StepsFor program.now count running effect state.old d state.new) }
{
    match effect {
        Effect::Gives(given) => {
            gives_last(count, given, &mut state.calls)?;
            Ok(Stepped::Did(Next::Moved))
        }
        other => carries_off(alloc, program, count, running, other, state),
    }
}

/// The last call asked for this operation on the last values that wait in it.
fn performs<'a>(
    alloc: Global,
    program: &Program<'a>,
    op: Op<'a>,
    count: usize,
    state: &mut State,
) -> Result<Stepped, Memory>
    requires { AsksLast program.now op count (calls_of state.old.calls.items) }
    ensures { IfOk result (λ d. IsStepped program.now (state_of state.old) d state.new) }
{
    let running = state.common.running;
    match ask_last(alloc, program, op, count, state)? {
        Performed::Stuck => Ok(Stepped::Stuck),
        Performed::Undecided => Ok(Stepped::Undecided),
        Performed::Done(effect) => carries(alloc, program, count, running, effect, state),
    }
}

/// The last call asked for a call of this unit.
fn enters<'a>(
    alloc: Global,
    program: &Program<'a>,
    unit: u32,
    count: usize,
    state: &mut State,
) -> Result<Stepped, Memory>
    requires { EnoughLast count (calls_of state.old.calls.items) }
    ensures { IfOk result (λ d. (k : ℕ) → AsksLast program.now (ops.Call unit k) count (calls_of state.old.calls.items) → IsStepped program.now (state_of state.old) d state.new) }
{
    let spare = state.spare.pop();
    if enters_last(alloc, program, unit, count, spare, &mut state.calls)? {
        Ok(Stepped::Did(Next::Moved))
    } else {
        Ok(Stepped::NoUnit)
    }
}

/// How many rooms of calls that are over are kept, at most.
const MOST_SPARE: usize = 64;

/// The room of a call that is over is kept for another one, while there are few.
fn keep(frame: Frame, spare: &mut Vec<Held>) -> Result<(), Memory> {
    if spare.len() >= MOST_SPARE {
        return Ok(());
    }
    let mut held = frame.local;
    held.slots.clear();
    held.stack.clear();
    spare.push(held)?;
    Ok(())
}

/// The last call ends with this value, which it asked with.
fn ends<'a>(
    alloc: Global,
    program: &Program<'a>,
    count: usize,
    v: Value,
    state: &mut State,
) -> Result<Stepped, Memory>
    ensures { IfOk result (λ d. AsksLast program.now ops.Return count (calls_of state.old.calls.items) → values_last count (calls_of state.old.calls.items) ≡ v ∷ [] → IsStepped program.now (state_of state.old) d state.new) }
{
    let running = state.common.running;
    match take_last(&mut state.calls) {
        None => Ok(Stepped::Stuck),
        Some(call) => {
            let role = call.role;
            keep(call.frame, &mut state.spare)?;
            Ok(answered(ends_with(alloc, program, role, running, v, state)?))
        }
    }
}

/// The last call asked to end.
fn goes_back<'a>(
    alloc: Global,
    program: &Program<'a>,
    count: usize,
    state: &mut State,
) -> Result<Stepped, Memory>
    requires { AsksLast program.now ops.Return count (calls_of state.old.calls.items) }
    ensures { IfOk result (λ d. IsStepped program.now (state_of state.old) d state.new) }
{
    match value_last(count, &state.calls) {
        None => performs(alloc, program, Op::Return, count, state),
        Some(v) => ends(alloc, program, count, v, state),
    }
}

/// The last call asked for this operation on the last values that wait in it.
fn does<'a>(
    alloc: Global,
    program: &Program<'a>,
    op: Op<'a>,
    count: usize,
    state: &mut State,
) -> Result<Stepped, Memory>
    requires { AsksLast program.now op count (calls_of state.old.calls.items) }
    ensures { IfOk result (λ d. IsStepped program.now (state_of state.old) d state.new) }
{
    match op {
        Op::Call { unit, .. } => enters(alloc, program, unit, count, state),
        Op::Return => goes_back(alloc, program, count, state),
        _ => performs(alloc, program, op, count, state),
    }
}

/// The named workers of the last call are to start.
fn starts_last<'a>(
    alloc: Global,
    program: &Program<'a>,
    state: &mut State,
) -> Result<Stepped, Memory>
    requires { CapturesLast program.now (calls_of state.old.calls.items) }
    ensures { IfOk result (λ d. IsStepped program.now (state_of state.old) d state.new) }
{
    let running = state.common.running;
    match take_last(&mut state.calls) {
        None => Ok(Stepped::Stuck),
        Some(call) => {
            let count = 0;
            let asked = Asking {
                call,
                count,
                running,
            };
            starts(alloc, program, asked, state)
        }
    }
}

/// One step of the running strand: the instruction at the place of its last call. It takes time that grows with the operands alone, but
/// where a unit is entered, a trap is opened, or strands end, stop or wake.
pub fn step<'a>(alloc: Global, program: &Program<'a>, state: &mut State) -> Result<Stepped, Memory>
    ensures { IfOk result (λ d. IsStepped program.now (state_of state.old) d state.new) }
{
    match look_last(alloc, program, &mut state.calls)? {
        Asked::On => Ok(Stepped::Did(Next::Moved)),
        Asked::Stuck => Ok(Stepped::Stuck),
        Asked::Does(op, count) => does(alloc, program, op, count, state),
        Asked::Captures => starts_last(alloc, program, state),
    }
}
