//! What the effect of an operation makes of a state.
#![tactic(auto, using(crate::proofs::Calling::calling, crate::proofs::Spawning::spawning))]

ghost use Rattle.std.specs.Prelude.{◌≡◌, ◌∷◌, ◌++◌, [], IfOk, None, OnOk, Some, map, option_map, option_to_list, ℕ};
ghost use Rattle.machine_model.specs.Machine as machine;
ghost use Rattle.machine_model.specs.Machine.{State as StateOf, carried, goes_to};
ghost use Rattle.op_model.specs.Common as model;
ghost use Rattle.op_model.specs.Effects as effects;
ghost use Rattle.stack_code.specs.CodeMachine.{Standing};
ghost use Rattle.plain_run.specs.Effects.{effect_of, spawned_of};
ghost use Rattle.plain_run.specs.Held.{common_of, need_of, role_of};
ghost use Rattle.code_frames.specs.Programs.{machine_of};
ghost use Rattle.code_steps.specs.States.{call_of, calls_of, others_of};
ghost use Rattle.code_steps.specs.Steps.{HasOperands, IsCarried, Stays, StopsSame, awaiting, awaiting_frame, came, if_all, next_of, resumed};
ghost use Rattle.code_steps.specs.declared.held.State.{State as StateHeld};

use crate::begins::begin;
use crate::calls::push;
use crate::ends::{give, goes_on, stop, unwind};
use crate::held::{Asking, Call, State};
use bal_base::{LimitKind, Memory};
use code_frames::{Program, resume, taken};
use plain_run::{Effect, End, Need, Role, Spawned, block, end_worker};
use std::alloc::Global;
use value_model::Value;

/// What a step of the running strand comes to.
#[derive(Drop)]
pub enum Next {
    Moved,
    /// The running strand stopped, since an action can't be done yet.
    Blocked,
    Ended,
}

/// What is answered for a step.
#[derive(Drop)]
pub enum Stepped {
    /// The step came to this.
    Did(Next),
    /// The step needs a tick, and none is left.
    NeedsTick,
    /// The step would pass a limit.
    Limit(LimitKind),
    /// The step would begin a unit that isn't there.
    NoUnit,
    /// There is no step: the frame can do nothing, or its operation comes to nothing on its operands.
    Stuck,
    /// What the operation comes to is not told, since a question of types isn't decided.
    Undecided,
}

/// The operation is done: its operands are gone, and the call awaits what it gives.
fn awaits(asked: Asking) -> Result<Call, Memory>
    requires { HasOperands asked }
    ensures { IfOk result (λ c. call_of c ≡ awaiting_frame asked) }
{
    let mut call = asked.call;
    taken(&mut call.frame, asked.count)?;
    Ok(call)
}

/// The call goes on with what the operation gave.
fn gives(asked: Asking, given: Option<Value>, state: &mut State) -> Result<(), Memory>
    requires { HasOperands asked }
    ensures calls { OnOk result (calls_of state.new.calls.items ≡ goes_to (call_of asked.call) (resumed (awaiting asked) (option_to_list given)) ∷ calls_of state.old.calls.items) }
    ensures common { OnOk result (common_of state.new.common ≡ common_of state.old.common) }
    ensures others { OnOk result (others_of state.new ≡ others_of state.old) }
{
    let mut call = awaits(asked)?;
    resume(&mut call.frame, given)?;
    push(&mut state.calls, call)
}

/// A panic with this error.
fn fails<'a>(
    alloc: Global,
    program: &Program<'a>,
    asked: Asking,
    error: Value,
    state: &mut State,
) -> Result<Option<Next>, Memory>
    requires { HasOperands asked }
    ensures { IfOk result (λ n. (s : StateOf Standing) → s.common.running ≡ asked.running → s.others ≡ others_of state.old → came n state.new ≡ machine.thrown (machine_of program.now) s (common_of state.old.common) error (awaiting_frame asked ∷ calls_of state.old.calls.items)) }
{
    let running = asked.running;
    let call = awaits(asked)?;
    push(&mut state.calls, call)?;
    unwind(program, &error, state)?;
    goes_on(alloc, program, running, End::Panicked(error), state)
}

/// The strand stops, since the operation can't be done yet: the call is as it was.
fn waits(alloc: Global, asked: Asking, need: Need, state: &mut State) -> Result<Next, Memory>
    ensures { IfOk result (λ n. (M : machine.Machine Standing) (s : StateOf Standing) → s.common.running ≡ asked.running → s.others ≡ others_of state.old → s.common ≡ common_of state.old.common → Some (next_of n state.new) ≡ carried M s (call_of asked.call) (awaiting asked) (calls_of state.old.calls.items) (effects.Waits (need_of need))) }
{
    push(&mut state.calls, asked.call)?;
    block(&mut state.common, need)?;
    stop(alloc, asked.running, state);
    Ok(Next::Blocked)
}

/// A unit is called.
fn enters<'a>(
    alloc: Global,
    program: &Program<'a>,
    asked: Asking,
    unit: u32,
    args: &[Value],
    state: &mut State,
) -> Result<Option<Next>, Memory>
    requires { HasOperands asked }
    ensures { IfOk result (λ n. (s : StateOf Standing) → s.others ≡ others_of state.old → came n state.new ≡ option_map (λ g. machine.Moved (machine.put s (common_of state.old.common) (g ∷ awaiting_frame asked ∷ calls_of state.old.calls.items))) (machine.begun (machine_of program.now) unit args.now None)) }
{
    match begin(alloc, program, unit, args, None)? {
        None => Ok(None),
        Some(called) => {
            let call = awaits(asked)?;
            push(&mut state.calls, call)?;
            push(&mut state.calls, called)?;
            Ok(Some(Next::Moved))
        }
    }
}

/// A call with this role, which is taken off, ends with the value.
pub(crate) fn ends_with<'a>(
    alloc: Global,
    program: &Program<'a>,
    role: Option<Role>,
    running: u64,
    v: Value,
    state: &mut State,
) -> Result<Option<Next>, Memory>
    ensures { IfOk result (λ n. (s : StateOf Standing) (unit : ℕ) (was k : Standing) → s.common.running ≡ running → s.others ≡ others_of state.old → s.common ≡ common_of state.old.common → came n state.new ≡ carried (machine_of program.now) s (record { unit = unit; role = option_map role_of role; control = was }) k (calls_of state.old.calls.items) (effects.Leaves v)) }
{
    end_worker(&mut state.common, role, End::Returned(v.share()));
    give(program, v.share(), state)?;
    goes_on(alloc, program, running, End::Returned(v), state)
}

/// The call ends with the value.
fn leaves<'a>(
    alloc: Global,
    program: &Program<'a>,
    asked: Asking,
    v: Value,
    state: &mut State,
) -> Result<Option<Next>, Memory>
    ensures { IfOk result (λ n. (s : StateOf Standing) → s.common.running ≡ asked.running → s.others ≡ others_of state.old → s.common ≡ common_of state.old.common → came n state.new ≡ carried (machine_of program.now) s (call_of asked.call) (awaiting asked) (calls_of state.old.calls.items) (effects.Leaves v)) }
{
    ends_with(alloc, program, asked.call.role, asked.running, v, state)
}

/// A strand with this call stands behind the others.
pub(crate) fn add_strand(
    alloc: Global,
    call: Call,
    others: &mut Vec<Vec<Call>>,
) -> Result<(), Memory>
    ensures { OnOk result (map (λ cs. calls_of cs.items) others.new.items ≡ map (λ cs. calls_of cs.items) others.old.items ++ (call_of call ∷ []) ∷ []) }
{
    let mut calls = Vec::new(alloc);
    push(&mut calls, call)?;
    others.push(calls)?;
    Ok(())
}

/// The frames of strands that are made stand behind those of the others, where there are all their units.
fn begin_all<'a>(
    alloc: Global,
    program: &Program<'a>,
    spawned: &[Spawned],
    others: &mut Vec<Vec<Call>>,
) -> Result<bool, Memory>
    ensures { IfOk result (λ all. option_map (λ more. map (λ cs. calls_of cs.items) others.old.items ++ more) (machine.all_begun (machine_of program.now) (map spawned_of spawned.now)) ≡ if_all all (map (λ cs. calls_of cs.items) others.new.items)) }
{
    for s in spawned {
        match begin(alloc, program, s.unit, s.args.as_slice(), s.role)? {
            None => return Ok(false),
            Some(call) => add_strand(alloc, call, others)?,
        }
    }
    Ok(true)
}

/// Strands were made; the call is this worker from now on, and is given this.
fn spawns<'a>(
    alloc: Global,
    program: &Program<'a>,
    asked: Asking,
    spawned: &[Spawned],
    given: Option<Value>,
    state: &mut State,
) -> Result<Option<Next>, Memory>
    requires { HasOperands asked }
    ensures { IfOk result (λ n. (s : StateOf Standing) (f : machine.Frame Standing) → f.unit ≡ asked.call.unit → s.others ≡ others_of state.old → came n state.new ≡ carried (machine_of program.now) s f (awaiting asked) (calls_of state.old.calls.items) (effects.Spawns (map spawned_of spawned.now) (option_map role_of asked.call.role) (option_to_list given) (common_of state.old.common))) }
{
    if !begin_all(alloc, program, spawned, &mut state.others)? {
        return Ok(None);
    }
    gives(asked, given, state)?;
    Ok(Some(Next::Moved))
}

/// The answer for what came.
pub(crate) fn answered(next: Option<Next>) -> Stepped
    ensures carries { (new : StateHeld) → IsCarried result new (came next new) }
    ensures stays { (old new : model.Common) → StopsSame result old new }
{
    match next {
        None => Stepped::NoUnit,
        Some(next) => Stepped::Did(next),
    }
}

/// What the effect of an operation makes of the state, in which this call asked for it.
pub fn carry<'a>(
    alloc: Global,
    program: &Program<'a>,
    asked: Asking,
    effect: Effect,
    state: &mut State,
) -> Result<Stepped, Memory>
    requires { HasOperands asked }
    ensures carries { IfOk result (λ d. (s : StateOf Standing) → s.common.running ≡ asked.running → s.others ≡ others_of state.old → Stays effect s.common (common_of state.old.common) → IsCarried d state.new (carried (machine_of program.now) s (call_of asked.call) (awaiting asked) (calls_of state.old.calls.items) (effect_of effect state.old.common))) }
    ensures stays { IfOk result (λ d. (c : model.Common) → Stays effect c (common_of state.old.common) → StopsSame d c (common_of state.new.common)) }
{
    match effect {
        Effect::Gives(given) => {
            gives(asked, given, state)?;
            Ok(Stepped::Did(Next::Moved))
        }
        Effect::Fails(error) => Ok(answered(fails(alloc, program, asked, error, state)?)),
        Effect::Waits(need) => Ok(Stepped::Did(waits(alloc, asked, need, state)?)),
        Effect::Enters { unit, args } => {
            let next = enters(alloc, program, asked, unit, args.as_slice(), state)?;
            Ok(answered(next))
        }
        Effect::Leaves(v) => Ok(answered(leaves(alloc, program, asked, v, state)?)),
        Effect::Spawns {
            spawned,
            role,
            given,
        } => {
            let mut asked = asked;
            asked.call.role = role;
            let made = spawned.as_slice();
            Ok(answered(spawns(alloc, program, asked, made, given, state)?))
        }
        Effect::NoTick => Ok(Stepped::NeedsTick),
        Effect::Beyond(limit) => Ok(Stepped::Limit(limit)),
    }
}
