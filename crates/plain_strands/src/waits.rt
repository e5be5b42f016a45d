//! Waits for one strand.
#![tactic(auto, using(crate::proofs::Waiting::waiting))]

ghost use Rattle.std.specs.Prelude.{◌≡◌, [], IfOk, Some, option_map, true};
ghost use Rattle.operations.specs.declared.operation.Operation.TheVariants as operation;
ghost use Rattle.op_model.specs.Strands.{strand_at};
ghost use Rattle.op_model.specs.Waits as model;
ghost use Rattle.plain_run.specs.declared.facts.ProgramFacts.{ProgramFacts as FactsOf};
ghost use Rattle.plain_run.specs.declared.held.Caller.{Caller as CallerOf};
ghost use Rattle.plain_run.specs.Effects.{EffectStays, IsPerformed, Stays, effect_of};
ghost use Rattle.plain_run.specs.Held.{common_of, end_of, role_of};
ghost use Rattle.plain_strands.specs.Targets.{taken_given, target_of};

use crate::errors::{error_given, future_taken};
use bal_base::Memory;
use plain_messages::{ended, share_end};
use plain_run::{Caller, Common, Effect, End, Need, Performed, Role, lifted, strand_end};
use std::alloc::Global;
use value_model::Value;

/// A strand that is waited for, as a worker or as a future.
#[derive(Clone, Copy)]
pub struct Target {
    pub strand: u64,
    pub is_worker: bool,
}

/// The strand of a worker, where it is there.
pub(crate) fn worker_target(common: &Common, role: Role, worker: u64) -> Option<Target>
    ensures { option_map target_of result ≡ model.worker_target (common_of common.now) (role_of role) worker }
{
    match common.activations.get(role.activation as usize) {
        None => None,
        Some(a) => match a.strands.get(worker as usize) {
            None => None,
            Some(n) => Some(Target {
                strand: *n,
                is_worker: true,
            }),
        },
    }
}

/// The strand of a future.
pub(crate) fn future_target(strand: u32) -> Target
    ensures { target_of result ≡ model.future_target strand }
{
    Target {
        strand: strand as u64,
        is_worker: false,
    }
}

/// Whether the result of the strand was taken.
fn was_taken(common: &Common, n: u64) -> bool
    ensures { result ≡ (strand_at (common_of common.now) n).taken }
{
    match common.strands.get(n as usize) {
        None => false,
        Some(strand) => strand.taken,
    }
}

/// Whether its result was taken, where a result can be.
pub(crate) fn is_taken(common: &Common, t: Target) -> bool
    ensures { result ≡ model.is_taken (common_of common.now) (target_of t) }
{
    !t.is_worker && was_taken(common, t.strand)
}

/// Its result is taken, where a result can be.
pub(crate) fn take_result(common: &mut Common, t: Target)
    ensures { common_of common.new ≡ model.took (common_of common.old) (target_of t) }
{
    if !t.is_worker {
        common.strands.set_taken(t.strand, true);
    }
}

/// The result was taken before.
fn gives_taken(alloc: Global, common: &mut Common) -> Result<Effect, Memory>
    ensures row { IfOk result (λ e. effect_of e common.new ≡ taken_given (common_of common.old)) }
    ensures stays { IfOk result (EffectStays common.old common.new) }
{
    let message = future_taken(alloc)?;
    let came = error_given(alloc, &mut common.world, message)?;
    Ok(lifted(came))
}

/// What a strand that has ended so gives.
fn gives_end(alloc: Global, common: &mut Common, t: Target, end: End) -> Result<Effect, Memory>
    ensures row { IfOk result (λ e. effect_of e common.new ≡ model.gives_end (common_of common.old) (target_of t) (end_of end)) }
    ensures stays { IfOk result (EffectStays common.old common.new) }
{
    if is_taken(common, t) {
        return gives_taken(alloc, common);
    }
    take_result(common, t);
    Ok(ended(&end))
}

/// A wait for a strand.
pub(crate) fn waits(alloc: Global, common: &mut Common, t: Target) -> Result<Effect, Memory>
    ensures row { IfOk result (λ e. effect_of e common.new ≡ model.waits (common_of common.old) (target_of t)) }
    ensures stays { IfOk result (EffectStays common.old common.new) }
{
    match share_end(strand_end(common, t.strand)) {
        None => Ok(Effect::Waits(Need::AllEnded(vec![in alloc; t.strand]?))),
        Some(end) => gives_end(alloc, common, t, end),
    }
}

/// A wait for the worker, where it is there.
fn waits_worker(
    alloc: Global,
    common: &mut Common,
    role: Role,
    worker: u32,
) -> Result<Performed, Memory>
    ensures row { IfOk result (λ done. (facts : FactsOf) (caller : CallerOf) → caller.role ≡ Some role → IsPerformed facts (operation.WaitWorker worker) [] caller common.old common.new ⊥ done) }
    ensures stays { IfOk result (Stays common.old common.new) }
{
    match worker_target(common, role, worker as u64) {
        None => Ok(Performed::Stuck),
        Some(t) => Ok(Performed::Done(waits(alloc, common, t)?)),
    }
}

/// A wait for a worker.
pub fn perform_wait_worker(
    alloc: Global,
    worker: u32,
    operands: &[Value],
    caller: &Caller,
    common: &mut Common,
) -> Result<Performed, Memory>
    ensures row { IfOk result (λ done. (facts : FactsOf) → IsPerformed facts (operation.WaitWorker worker) operands.now caller.now common.old common.new ⊥ done) }
    ensures stays { IfOk result (Stays common.old common.new) }
{
    match operands {
        [] => match caller.role {
            None => Ok(Performed::Stuck),
            Some(role) => waits_worker(alloc, common, role, worker),
        },
        _ => Ok(Performed::Stuck),
    }
}

/// A wait for a future.
pub fn perform_wait_future(
    alloc: Global,
    operands: &[Value],
    common: &mut Common,
) -> Result<Performed, Memory>
    ensures row { IfOk result (λ done. (facts : FactsOf) (caller : CallerOf) → IsPerformed facts operation.WaitFuture operands.now caller common.old common.new ⊥ done) }
    ensures stays { IfOk result (Stays common.old common.new) }
{
    match operands {
        [Value::Future { strand, .. }] => {
            let t = future_target(*strand);
            Ok(Performed::Done(waits(alloc, common, t)?))
        }
        _ => Ok(Performed::Stuck),
    }
}
