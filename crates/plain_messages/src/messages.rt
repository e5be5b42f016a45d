//! Messages that are received, and flushes.
#![tactic(auto, using(crate::proofs::Receiving::receiving))]

ghost use Rattle.std.specs.Prelude.{◌≡◌, IfOk, None, Some};
ghost use Rattle.operations.specs.declared.operation.Operation.TheVariants as operation;
ghost use Rattle.op_model.specs.Messages as model;
ghost use Rattle.op_model.specs.Strands.{channel_at, worker_end as worker_end_of};
ghost use Rattle.plain_run.specs.declared.facts.ProgramFacts.{ProgramFacts as FactsOf};
ghost use Rattle.plain_run.specs.Effects.{EffectStays, IsPerformed, Stays, effect_of};
ghost use Rattle.plain_run.specs.Held.{common_of, end_of, role_of};
ghost use Rattle.plain_messages.specs.Channels.{first_of};

use crate::ends::{ended, share_end};
use crate::passing::{Passing, first_message, pass_on, received, sent};
use bal_base::Memory;
use plain_run::{Caller, Common, Effect, End, Need, Performed, Role, channel, settle, worker_end};
use std::alloc::Global;
use value_model::Value;

/// Not all of so many messages was received.
fn flush_ends(common: &Common, role: Role, to: u64, count: u64) -> Effect
    ensures row { effect_of result common.now ≡ model.flushes_end (common_of common.now) (role_of role) to count (worker_end_of (common_of common.now) role.activation to) }
    ensures stays { EffectStays common.now common.now result }
{
    match worker_end(common, role.activation, to) {
        None => Effect::Waits(Need::Received {
            activation: role.activation,
            from: role.worker,
            to,
            count,
        }),
        Some(end) => ended(end),
    }
}

/// All that was sent to the peer so far is to be received.
fn flushes(common: &Common, role: Role, to: u64) -> Effect
    ensures row { effect_of result common.now ≡ model.flushes (common_of common.now) (role_of role) to }
    ensures stays { EffectStays common.now common.now result }
{
    let x = channel(common, role.activation, role.worker, to);
    let count = sent(x);
    if count <= received(x) {
        return Effect::Gives(Some(Value::Nil));
    }
    flush_ends(common, role, to, count)
}

/// A flush of what was sent to a worker.
pub fn perform_flush(worker: u32, operands: &[Value], caller: &Caller, common: &Common) -> Performed
    ensures row { (facts : FactsOf) → IsPerformed facts (operation.Flush worker) operands.now caller.now common.now common.now ⊥ result }
    ensures stays { Stays common.now common.now result }
{
    match operands {
        [] => match caller.role {
            None => Performed::Stuck,
            Some(role) => Performed::Done(flushes(common, role, worker as u64)),
        },
        _ => Performed::Stuck,
    }
}

/// The second half of a send: what was sent is received.
pub fn perform_done(worker: u32, operands: &[Value], caller: &Caller, common: &Common) -> Performed
    ensures row { (facts : FactsOf) → IsPerformed facts (operation.Done worker) operands.now caller.now common.now common.now ⊥ result }
    ensures stays { Stays common.now common.now result }
{
    match operands {
        [] => match caller.role {
            None => Performed::Stuck,
            Some(role) => Performed::Done(flushes(common, role, worker as u64)),
        },
        _ => Performed::Stuck,
    }
}

/// No message is there, and the sender has ended so.
fn receives_after(
    alloc: Global,
    common: &mut Common,
    role: Role,
    from: u64,
    end: End,
) -> Result<Effect, Memory>
    requires { first_of (channel_at (common_of common.old) role.activation from role.worker).queue ≡ None }
    ensures row { IfOk result (λ e. effect_of e common.new ≡ model.receives_end (common_of common.old) (role_of role) from (Some (end_of end))) }
    ensures stays { IfOk result (EffectStays common.old common.new) }
{
    pass_on(
        common,
        role.activation,
        from,
        role.worker,
        Passing::Received,
    )?;
    match end {
        End::Returned(v) => {
            settle(alloc, common)?;
            Ok(Effect::Gives(Some(v)))
        }
        End::Panicked(e) => Ok(Effect::Fails(e)),
    }
}

/// No message is there.
fn receives_none(
    alloc: Global,
    common: &mut Common,
    role: Role,
    from: u64,
) -> Result<Effect, Memory>
    requires { first_of (channel_at (common_of common.old) role.activation from role.worker).queue ≡ None }
    ensures row { IfOk result (λ e. effect_of e common.new ≡ model.receives (common_of common.old) (role_of role) from) }
    ensures stays { IfOk result (EffectStays common.old common.new) }
{
    match share_end(worker_end(common, role.activation, from)) {
        None => Ok(Effect::Waits(Need::Message {
            activation: role.activation,
            from,
            to: role.worker,
        })),
        Some(end) => receives_after(alloc, common, role, from, end),
    }
}

/// This message is the first one.
fn receives_first(
    alloc: Global,
    common: &mut Common,
    role: Role,
    from: u64,
    v: Value,
) -> Result<Effect, Memory>
    requires { first_of (channel_at (common_of common.old) role.activation from role.worker).queue ≡ Some v }
    ensures row { IfOk result (λ e. effect_of e common.new ≡ model.receives (common_of common.old) (role_of role) from) }
    ensures stays { IfOk result (EffectStays common.old common.new) }
{
    pass_on(
        common,
        role.activation,
        from,
        role.worker,
        Passing::Received,
    )?;
    settle(alloc, common)?;
    Ok(Effect::Gives(Some(v)))
}

/// The first message of the sender is received.
fn receives(alloc: Global, common: &mut Common, role: Role, from: u64) -> Result<Effect, Memory>
    ensures row { IfOk result (λ e. effect_of e common.new ≡ model.receives (common_of common.old) (role_of role) from) }
    ensures stays { IfOk result (EffectStays common.old common.new) }
{
    match first_message(channel(common, role.activation, from, role.worker)) {
        None => receives_none(alloc, common, role, from),
        Some(v) => receives_first(alloc, common, role, from, v),
    }
}

/// A message of a worker is received.
pub fn perform_receive(
    alloc: Global,
    worker: u32,
    operands: &[Value],
    caller: &Caller,
    common: &mut Common,
) -> Result<Performed, Memory>
    ensures row { IfOk result (λ done. (facts : FactsOf) → IsPerformed facts (operation.Receive worker) operands.now caller.now common.old common.new ⊥ done) }
    ensures stays { IfOk result (Stays common.old common.new) }
{
    match operands {
        [] => match caller.role {
            None => Ok(Performed::Stuck),
            Some(role) => Ok(Performed::Done(receives(alloc, common, role, worker as u64)?)),
        },
        _ => Ok(Performed::Stuck),
    }
}
