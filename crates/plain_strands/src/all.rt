//! Multiple waits.
#![tactic(auto, using(crate::proofs::Collecting::collecting))]

ghost use Rattle.std.specs.Prelude.{◌≡◌, false, IfOk, IfSome, map, option_map};
ghost use Rattle.operations.specs.declared.operation.Operation.TheVariants as operation;
ghost use Rattle.op_model.specs.Strands.{end_of as end_of_strand};
ghost use Rattle.op_model.specs.Waits as model;
ghost use Rattle.plain_run.specs.declared.held.Common.{Common as CommonOf};
ghost use Rattle.plain_run.specs.Effects.{EffectStays, IsPerformed, Stays, effect_of};
ghost use Rattle.plain_run.specs.Held.{common_of, end_of};
ghost use Rattle.plain_strands.specs.Results.{CommonStays, JustTook, effect_came, free_end, prefixed};
ghost use Rattle.plain_strands.specs.Targets.{target_of};

use crate::results::{field_names, gives_results};
use crate::targets::{push_strands, targets};
use crate::waits::{Target, is_taken, take_result};
use bal_base::{LimitKind, Memory, Text};
use operations::Awaited;
use plain_messages::share_end;
use plain_run::{
    Caller, Came, Common, Effect, End, Need, Performed, ProgramFacts, is_met, strand_end,
};
use std::alloc::Global;
use value_model::Value;

/// How the strand has ended, where its result was not taken.
fn untaken_end(common: &Common, t: Target) -> Option<End>
    ensures end { option_map end_of result ≡ free_end (model.is_taken (common_of common.now) (target_of t)) (end_of_strand (common_of common.now) t.strand) }
    ensures free { IfSome result (λ _end. model.is_taken (common_of common.now) (target_of t) ≡ false) }
{
    if is_taken(common, t) {
        None
    } else {
        share_end(strand_end(common, t.strand))
    }
}

/// The result, which was taken last, is not taken.
fn give_back(common: &mut Common, t: Target)
    ensures { (before : CommonOf) → model.is_taken (common_of before) (target_of t) ≡ false → common_of common.old ≡ model.took (common_of before) (target_of t) → common_of common.new ≡ common_of before }
{
    if !t.is_worker {
        common.strands.set_taken(t.strand, false);
    }
}

/// Where there is no room, the result is not taken.
fn give_back_without_room(common: &mut Common, t: Target, came: &Came)
    ensures row { effect_came came.now common.new ≡ effect_came came.now common.old }
    ensures stays { (before : CommonOf) → model.is_taken (common_of before) (target_of t) ≡ false → JustTook before (target_of t) common.old came.now → CommonStays before common.new came.now }
{
    match came {
        Came::Gave(_) | Came::Threw(_) => (),
        Came::PassesCells => give_back(common, t),
    }
}

/// The results of these strands are taken, and come behind the others in a mapping; or the first panic comes.
fn collects(
    alloc: Global,
    common: &mut Common,
    atom: u32,
    names: &[Text],
    targets: &[Target],
    results: &mut Vec<Option<Value>>,
) -> Result<Came, Memory>
    ensures row { IfOk result (λ came. effect_came came common.new ≡ model.gives_results atom names.now (prefixed results.old.items (model.collects (map target_of targets.now) (common_of common.old)))) }
    ensures stays { IfOk result (CommonStays common.old common.new) }
{
    match targets {
        [] => gives_results(alloc, &mut common.world, atom, names, results.as_slice()),
        [t, rest @ ..] => match untaken_end(common, *t) {
            None => {
                results.push(None)?;
                collects(alloc, common, atom, names, rest, results)
            }
            Some(End::Panicked(e)) => {
                take_result(common, *t);
                Ok(Came::Threw(e))
            }
            Some(End::Returned(v)) => {
                results.push(Some(v))?;
                take_result(common, *t);
                let came = collects(alloc, common, atom, names, rest, results)?;
                give_back_without_room(common, *t, &came);
                Ok(came)
            }
        },
    }
}

/// What came, as an effect.
fn effect(came: Came) -> Effect
    ensures row { (c : CommonOf) → effect_of result c ≡ effect_came came c }
    ensures stays { (old new : CommonOf) → CommonStays old new came → EffectStays old new result }
{
    match came {
        Came::Gave(v) => Effect::Gives(v),
        Came::Threw(e) => Effect::Fails(e),
        Came::PassesCells => Effect::Beyond(LimitKind::Cells),
    }
}

/// A multiple wait for these.
fn waits_all(
    alloc: Global,
    common: &mut Common,
    atom: u32,
    names: &[Text],
    targets: &[Target],
) -> Result<Effect, Memory>
    ensures row { IfOk result (λ e. effect_of e common.new ≡ model.waits_all (common_of common.old) atom names.now (map target_of targets.now)) }
    ensures stays { IfOk result (EffectStays common.old common.new) }
{
    let mut strands = Vec::new(alloc);
    push_strands(targets, &mut strands)?;
    let need = Need::AllEnded(strands);
    if !is_met(common, &need) {
        return Ok(Effect::Waits(need));
    }
    let mut results = Vec::new(alloc);
    let came = collects(alloc, common, atom, names, targets, &mut results)?;
    Ok(effect(came))
}

/// A wait for all of what is named, which gives a mapping with this atom.
pub fn perform_wait_all(
    alloc: Global,
    facts: &ProgramFacts,
    atom: u32,
    names: &Awaited,
    operands: &[Value],
    caller: &Caller,
    common: &mut Common,
) -> Result<Performed, Memory>
    ensures row { IfOk result (λ done. IsPerformed facts.now (operation.WaitAll atom names.now) operands.now caller.now common.old common.new ⊥ done) }
    ensures stays { IfOk result (Stays common.old common.new) }
{
    let mut found = Vec::new(alloc);
    if !targets(common, caller.role, names.as_slice(), operands, &mut found)? {
        return Ok(Performed::Stuck);
    }
    match facts.atoms.defs().get(atom as usize) {
        None => Ok(Performed::Stuck),
        Some(def) => {
            let fields = field_names(alloc, def)?;
            let effect = waits_all(alloc, common, atom, fields.as_slice(), found.as_slice())?;
            Ok(Performed::Done(effect))
        }
    }
}
