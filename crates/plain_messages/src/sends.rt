//! Messages that are sent.
#![tactic(auto)]

ghost use Rattle.std.specs.Prelude.{◌≡◌, IfOk, option_to_list, true};
ghost use Rattle.operations.specs.declared.operation.Operation.TheVariants as operation;
ghost use Rattle.op_model.specs.Messages as model;
ghost use Rattle.plain_run.specs.declared.facts.ProgramFacts.{ProgramFacts as FactsOf};
ghost use Rattle.plain_run.specs.Effects.{EffectStays, IsPerformed, Stays, effect_of};
ghost use Rattle.plain_run.specs.Held.{common_of, role_of};

use crate::passing::{Passing, pass_on};
use bal_base::{LimitKind, Memory};
use plain_copies::copied;
use plain_run::{Caller, Common, Effect, Performed, Role, settle};
use std::alloc::Global;
use value_model::Value;

/// A copy of the value is the last message to the peer, and then this is given.
fn sends(
    alloc: Global,
    common: &mut Common,
    role: Role,
    to: u64,
    v: &Value,
    given: Option<Value>,
) -> Result<Effect, Memory>
    ensures row { IfOk result (λ e. effect_of e common.new ≡ model.sends (common_of common.old) (role_of role) to v.now (option_to_list given)) }
    ensures stays { IfOk result (EffectStays common.old common.new) }
{
    match copied(alloc, &mut common.world, true, v)? {
        None => Ok(Effect::Beyond(LimitKind::Cells)),
        Some(copy) => {
            let sent = Passing::Sent(copy);
            pass_on(common, role.activation, role.worker, to, sent)?;
            settle(alloc, common)?;
            Ok(Effect::Gives(given))
        }
    }
}

/// A value is sent to a worker, and nil is given.
pub fn perform_send(
    alloc: Global,
    worker: u32,
    operands: &[Value],
    caller: &Caller,
    common: &mut Common,
) -> Result<Performed, Memory>
    ensures row { IfOk result (λ done. (facts : FactsOf) → IsPerformed facts (operation.Send worker) operands.now caller.now common.old common.new ⊥ done) }
    ensures stays { IfOk result (Stays common.old common.new) }
{
    match operands {
        [v] => match caller.role {
            None => Ok(Performed::Stuck),
            Some(role) => {
                let given = Some(Value::Nil);
                let effect = sends(alloc, common, role, worker as u64, v, given)?;
                Ok(Performed::Done(effect))
            }
        },
        _ => Ok(Performed::Stuck),
    }
}

/// The first half of a send that waits: a value is sent to a worker.
pub fn perform_post(
    alloc: Global,
    worker: u32,
    operands: &[Value],
    caller: &Caller,
    common: &mut Common,
) -> Result<Performed, Memory>
    ensures row { IfOk result (λ done. (facts : FactsOf) → IsPerformed facts (operation.Post worker) operands.now caller.now common.old common.new ⊥ done) }
    ensures stays { IfOk result (Stays common.old common.new) }
{
    match operands {
        [v] => match caller.role {
            None => Ok(Performed::Stuck),
            Some(role) => {
                let effect = sends(alloc, common, role, worker as u64, v, None)?;
                Ok(Performed::Done(effect))
            }
        },
        _ => Ok(Performed::Stuck),
    }
}
