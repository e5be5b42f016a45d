//! Counters: the variables of loops that go through ranges.
#![tactic(auto, using(check_work::proofs::Noting::meeting))]

ghost use Rattle.std.specs.Prelude.{◌≡◌, ◌++◌, ◌∷◌, [], IfSome, List, OnOk, Ok as Given, Some as There};
ghost use Rattle.std.specs.Option.{option_copied};
ghost use Rattle.checks.specs.Checks.{Comes};
ghost use Rattle.descriptors.specs.Steps.{AreOwnTypes};
ghost use Rattle.needs.specs.Needs.{Runs};
ghost use Rattle.type_model.specs.declared.atoms.AtomDef.{AtomDef as Atom};
ghost use Rattle.typed_tree.specs.Listed.{one};
ghost use Rattle.expr_needs.specs.Needs.{IsCounter, WantsCounter};
ghost use Rattle.check_words.specs.Branches.{is_counter as is_counter_of, wants_counter as wants_counter_of};
ghost use Rattle.check_words.specs.Meets.{meets};
ghost use Rattle.check_words.specs.Stands.{Stands};
ghost use Rattle.check_words.specs.State.{IsLast};
ghost use Rattle.check_work.specs.Views.{Holds, going, state_of};

use bal_base::{Fault, Memory, Place, Stop};
use check_kinds::kind_shared;
use check_work::{Checker, Work, has_stopped, last, note, note_made};
use checks::require_below;
use descriptors::OwnTypes;
use expr_needs::Kind;
use std::alloc::Global;
use type_model::Types;
use typed_tree::SharedTy;

/// The type that is wanted last, where one is.
pub(crate) fn wanted(wants: &[Option<SharedTy>]) -> Option<&SharedTy>
    ensures { IfSome (option_copied result) (λ t. IsLast wants.now (There t)) }
{
    match last(wants) {
        Some(Some(t)) => Some(t),
        Some(None) => None,
        None => None,
    }
}

/// An int becomes wanted.
fn want_counter(alloc: Global, own: &OwnTypes, work: &mut Work<'_>) -> Result<(), Memory>
    ensures stands { (env : List Atom) → AreOwnTypes env own.now → Stands (state_of env work.old) → OnOk result (Stands (state_of env work.new)) }
    ensures comes { (env : List Atom) → AreOwnTypes env own.now → OnOk result (Comes wants_counter_of (state_of env work.old) (Given tt) (state_of env work.new)) }
{
    let int = kind_shared(alloc, own, Kind::Integer)?;
    work.wants.push(Some(int))?;
    Ok(())
}

/// `foreach var a in 0 ..< n`: an int is wanted ("Foreach statement").
pub fn wants_counter<T: Types>(checker: &mut Checker<'_, T>)
    requires { Holds (T.atoms checker.old.types) checker.old.names.now checker.old.work }
    ensures holds { Holds (T.atoms checker.new.types) checker.new.names.now checker.new.work }
    ensures names { checker.new.names.now ≡ checker.old.names.now }
    ensures met { Runs (meets T.passes checker.old.names.now) (one WantsCounter) (going (T.atoms checker.old.types) checker.old.work) (going (T.atoms checker.new.types) checker.new.work) }
{
    if has_stopped(&checker.work) {
        return;
    }
    let made = want_counter(checker.alloc, &checker.names.own, &mut checker.work);
    note_made(&checker.types, &mut checker.work, made);
}

/// All ints are of the type that is wanted last.
fn require_counter<T: Types>(
    alloc: Global,
    types: &mut T,
    own: &OwnTypes,
    work: &Work<'_>,
    at: Place,
) -> Result<(), Stop<Fault>>
    requires own { AreOwnTypes (T.atoms types.old) own.now }
    requires stands { Stands (state_of (T.atoms types.old) work.now) }
    ensures atoms { T.atoms types.new ≡ T.atoms types.old }
    ensures comes { Comes (is_counter_of T.passes at) (state_of (T.atoms types.old) work.now) result (state_of (T.atoms types.new) work.now) }
{
    match wanted(work.wants.as_slice()) {
        Some(t) => counter_fits(alloc, types, own, work, t, at),
        None => Err(Stop::Memory),
    }
}

/// All ints are of this type, which is the one that is wanted last.
fn counter_fits<T: Types>(
    alloc: Global,
    types: &mut T,
    own: &OwnTypes,
    work: &Work<'_>,
    t: &SharedTy,
    at: Place,
) -> Result<(), Stop<Fault>>
    requires own { AreOwnTypes (T.atoms types.old) own.now }
    requires stands { Stands (state_of (T.atoms types.old) work.now) }
    requires last { IsLast work.now.wants.items (There t.now) }
    ensures atoms { T.atoms types.new ≡ T.atoms types.old }
    ensures comes { Comes (is_counter_of T.passes at) (state_of (T.atoms types.old) work.now) result (state_of (T.atoms types.new) work.now) }
{
    match kind_shared(alloc, own, Kind::Integer) {
        Ok(int) => require_below(alloc, types, &int.sem, &t.sem, Some(at)),
        Err(Memory) => Err(Stop::Memory),
    }
}

/// `foreach T a in 0 ..< n`: each int is of the type that is wanted ("Foreach statement"): else `NotSubtype` at the place, with an
/// int that shows it. One question of the decider; `TypeLimit` at the place where it is too large.
pub fn is_counter<T: Types>(checker: &mut Checker<'_, T>, at: Place)
    requires { Holds (T.atoms checker.old.types) checker.old.names.now checker.old.work }
    ensures holds { Holds (T.atoms checker.new.types) checker.new.names.now checker.new.work }
    ensures names { checker.new.names.now ≡ checker.old.names.now }
    ensures met { Runs (meets T.passes checker.old.names.now) (one (IsCounter at)) (going (T.atoms checker.old.types) checker.old.work) (going (T.atoms checker.new.types) checker.new.work) }
{
    if has_stopped(&checker.work) {
        return;
    }
    let answer = require_counter(
        checker.alloc,
        &mut checker.types,
        &checker.names.own,
        &checker.work,
        at,
    );
    note(&checker.types, &mut checker.work, answer);
}
