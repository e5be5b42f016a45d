//! Alternate waits.
#![tactic(auto, using(crate::proofs::Choosing::choosing))]

ghost use Rattle.std.specs.Prelude.{◌≡◌, IfOk, filter, map, option_map};
ghost use Rattle.operations.specs.declared.operation.Operation.TheVariants as operation;
ghost use Rattle.op_model.specs.Waits as model;
ghost use Rattle.plain_run.specs.declared.facts.ProgramFacts.{ProgramFacts as FactsOf};
ghost use Rattle.plain_run.specs.Effects.{EffectStays, IsPerformed, Stays, effect_of};
ghost use Rattle.plain_run.specs.Held.{common_of, status_of};
ghost use Rattle.plain_strands.specs.Choices.{best_of, better_of, succeeded};
ghost use Rattle.plain_strands.specs.Targets.{target_of};

use crate::targets::{push_strands, targets};
use crate::waits::{Target, waits};
use bal_base::Memory;
use operations::Awaited;
use plain_run::{Caller, Common, Effect, Need, Performed, Status, has_success, is_met};
use std::alloc::Global;
use value_model::Value;

/// How many strands had ended before the strand.
fn place_in(status: &Status) -> u64
    ensures { result ≡ model.place_in (status_of status.now) }
{
    match status {
        Status::Active | Status::Blocked(_) => 0,
        Status::Ended(place, _) => *place,
    }
}

fn place_of_end(common: &Common, t: Target) -> u64
    ensures { result ≡ model.place_of_end (common_of common.now) (target_of t) }
{
    match common.strands.get(t.strand as usize) {
        None => 0,
        Some(strand) => place_in(&strand.status),
    }
}

fn earlier(common: &Common, t: Target, u: Target) -> Target
    ensures { target_of result ≡ model.earlier (common_of common.now) (target_of t) (target_of u) }
{
    if place_of_end(common, u) < place_of_end(common, t) {
        u
    } else {
        t
    }
}

fn later(common: &Common, t: Target, u: Target) -> Target
    ensures { target_of result ≡ model.later (common_of common.now) (target_of t) (target_of u) }
{
    if place_of_end(common, t) < place_of_end(common, u) {
        u
    } else {
        t
    }
}

fn earlier_of(common: &Common, best: Option<Target>, t: Target) -> Target
    ensures { target_of result ≡ better_of (model.earlier (common_of common.now)) (option_map target_of best) (target_of t) }
{
    match best {
        None => t,
        Some(best) => earlier(common, best, t),
    }
}

fn later_of(common: &Common, best: Option<Target>, t: Target) -> Target
    ensures { target_of result ≡ better_of (model.later (common_of common.now)) (option_map target_of best) (target_of t) }
{
    match best {
        None => t,
        Some(best) => later(common, best, t),
    }
}

/// The first one completed of those with a result that is no error and was not taken.
fn first_of(common: &Common, best: Option<Target>, targets: &[Target]) -> Option<Target>
    ensures { option_map target_of result ≡ best_of (model.earlier (common_of common.now)) (option_map target_of best) (filter (succeeded (common_of common.now)) (map target_of targets.now)) }
{
    match targets {
        [] => best,
        [t, rest @ ..] => {
            if has_success(common, t.strand) {
                first_of(common, Some(earlier_of(common, best, *t)), rest)
            } else {
                first_of(common, best, rest)
            }
        }
    }
}

/// The last one completed.
fn last_of(common: &Common, best: Option<Target>, targets: &[Target]) -> Option<Target>
    ensures { option_map target_of result ≡ best_of (model.later (common_of common.now)) (option_map target_of best) (map target_of targets.now) }
{
    match targets {
        [] => best,
        [t, rest @ ..] => last_of(common, Some(later_of(common, best, *t)), rest),
    }
}

/// The one that is chosen.
fn chosen(common: &Common, targets: &[Target]) -> Option<Target>
    ensures { option_map target_of result ≡ model.chosen (common_of common.now) (filter (succeeded (common_of common.now)) (map target_of targets.now)) (map target_of targets.now) }
{
    match first_of(common, None, targets) {
        Some(t) => Some(t),
        None => last_of(common, None, targets),
    }
}

/// What comes of the one that is chosen.
fn gives_chosen(alloc: Global, common: &mut Common, t: Option<Target>) -> Result<Effect, Memory>
    ensures row { IfOk result (λ e. effect_of e common.new ≡ model.gives_chosen (common_of common.old) (option_map target_of t)) }
    ensures stays { IfOk result (EffectStays common.old common.new) }
{
    match t {
        None => Ok(Effect::Waits(Need::AnyGiven(Vec::new(alloc)))),
        Some(t) => waits(alloc, common, t),
    }
}

/// An alternate wait for these.
fn waits_any(alloc: Global, common: &mut Common, targets: &[Target]) -> Result<Effect, Memory>
    ensures row { IfOk result (λ e. effect_of e common.new ≡ model.waits_any (common_of common.old) (map target_of targets.now)) }
    ensures stays { IfOk result (EffectStays common.old common.new) }
{
    let mut strands = Vec::new(alloc);
    push_strands(targets, &mut strands)?;
    let need = Need::AnyGiven(strands);
    if !is_met(common, &need) {
        return Ok(Effect::Waits(need));
    }
    let t = chosen(common, targets);
    gives_chosen(alloc, common, t)
}

/// A wait for any of what is named.
pub fn perform_wait_any(
    alloc: Global,
    names: &Awaited,
    operands: &[Value],
    caller: &Caller,
    common: &mut Common,
) -> Result<Performed, Memory>
    ensures row { IfOk result (λ done. (facts : FactsOf) → IsPerformed facts (operation.WaitAny names.now) operands.now caller.now common.old common.new ⊥ done) }
    ensures stays { IfOk result (Stays common.old common.new) }
{
    let mut found = Vec::new(alloc);
    if !targets(common, caller.role, names.as_slice(), operands, &mut found)? {
        return Ok(Performed::Stuck);
    }
    let effect = waits_any(alloc, common, found.as_slice())?;
    Ok(Performed::Done(effect))
}
