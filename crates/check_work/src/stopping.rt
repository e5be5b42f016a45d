//! Work that goes on until it stops.
#![tactic(auto)]

ghost use Rattle.std.specs.Prelude.{◌≡◌, IsSome, List, None, Ok as Given, OnOk, true, false};
ghost use Rattle.descriptors.specs.declared.names.Names.{Names as NamesOf};
ghost use Rattle.descriptors.specs.Steps.{AreNames};
ghost use Rattle.checks.specs.Checks.{Comes};
ghost use Rattle.needs.specs.Needs.{Going, Runs, answer as answer_of};
ghost use Rattle.type_model.specs.declared.atoms.AtomDef.{AtomDef as Atom};
ghost use Rattle.typed_tree.specs.Listed.{one};
ghost use Rattle.check_words.specs.Meets.{meets};
ghost use Rattle.check_words.specs.State.{State};
ghost use Rattle.expr_needs.specs.Needs.{Need};
ghost use Rattle.check_work.specs.Views.{Holds, going, state_of};
ghost use Rattle.check_words.specs.Stands.{Stands};

use crate::work::Work;
use bal_base::{Fault, Memory, Stop};
use descriptors::lift;
use type_model::Types;

/// Whether the work has stopped.
pub fn has_stopped(work: &Work<'_>) -> bool
    ensures stopped { result ≡ true → IsSome work.now.stop }
    ensures goes_on { result ≡ false → work.now.stop ≡ None }
{
    match &work.stop {
        Some(_) => true,
        None => false,
    }
}

/// Why a call stopped, if it did.
fn stop_of(answer: Result<(), Stop<Fault>>) -> Option<Stop<Fault>>
    ensures { answer_of result ≡ answer }
{
    match answer {
        Ok(()) => None,
        Err(stop) => Some(stop),
    }
}

fn set_stop(stop: &mut Option<Stop<Fault>>, to: Option<Stop<Fault>>)
    ensures { stop.new ≡ to }
{
    *stop = to;
}

/// Notes what a call answered, where the work went on before.
pub fn note<T: Types>(types: &T, work: &mut Work<'_>, answer: Result<(), Stop<Fault>>)
    ensures holds { (env : List Atom) (names : NamesOf) → T.atoms types.now ≡ env → OnOk answer (AreNames env names × Stands (state_of env work.old)) → Holds (T.atoms types.now) names work.new }
    ensures runs { (env : List Atom) (names : NamesOf) (need : Need) (old : Going State) → T.atoms types.now ≡ env → old.1 ≡ None → Comes (meets T.passes names need) old.0 answer (state_of env work.old) → Runs (meets T.passes names) (one need) old (going (T.atoms types.now) work.new) }
{
    set_stop(&mut work.stop, stop_of(answer));
}

/// Notes whether there was memory for what was made, where the work went on before.
pub fn note_made<T: Types>(types: &T, work: &mut Work<'_>, made: Result<(), Memory>)
    ensures holds { (env : List Atom) (names : NamesOf) → T.atoms types.now ≡ env → OnOk made (AreNames env names × Stands (state_of env work.old)) → Holds (T.atoms types.now) names work.new }
    ensures runs { (env : List Atom) (names : NamesOf) (need : Need) (old : Going State) → T.atoms types.now ≡ env → old.1 ≡ None → OnOk made (Comes (meets T.passes names need) old.0 (Given tt) (state_of env work.old)) → Runs (meets T.passes names) (one need) old (going (T.atoms types.now) work.new) }
{
    note(types, work, lift(made));
}
