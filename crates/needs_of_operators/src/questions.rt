//! What is asked of the last part.
#![tactic(auto, using(check_work::proofs::Noting::meeting))]

ghost use Rattle.std.specs.Prelude.{◌≡◌};
ghost use Rattle.checks.specs.Checks.{Comes};
ghost use Rattle.descriptors.specs.Steps.{AreOwnTypes};
ghost use Rattle.needs.specs.Needs.{Runs};
ghost use Rattle.typed_tree.specs.Listed.{one};
ghost use Rattle.expr_needs.specs.Needs.{IsOf, IsSort};
ghost use Rattle.check_words.specs.Meets.{meets};
ghost use Rattle.check_words.specs.Stands.{Stands};
ghost use Rattle.check_words.specs.Values.{is_of_sort as is_of_sort_of};
ghost use Rattle.check_words.specs.Words.{is_of as is_of_of};
ghost use Rattle.check_work.specs.Views.{Holds, going, state_of};

use crate::operators::sort_kind;
use bal_base::{Fault, Place, Stop};
use check_kinds::require_kind;
use check_work::{Checker, Work, has_stopped, last, note};
use descriptors::OwnTypes;
use expr_needs::Kind;
use std::alloc::Global;
use type_model::Types;

/// The last part is of the kind.
fn require_of<T: Types>(
    alloc: Global,
    types: &mut T,
    own: &OwnTypes,
    work: &Work<'_>,
    kind: Kind,
    at: Place,
) -> Result<(), Stop<Fault>>
    requires own { AreOwnTypes (T.atoms types.old) own.now }
    requires stands { Stands (state_of (T.atoms types.old) work.now) }
    ensures atoms { T.atoms types.new ≡ T.atoms types.old }
    ensures comes { Comes (is_of_of T.passes kind at) (state_of (T.atoms types.old) work.now) result (state_of (T.atoms types.new) work.now) }
{
    match last(work.found.as_slice()) {
        Some(e) => require_kind(alloc, types, own, &e.ty().sem, kind, at),
        None => Err(Stop::Memory),
    }
}

/// The last part is of the kind: else `NotSubtype` at the place, with a shape that shows it. One question of the decider.
pub fn is_of<T: Types>(checker: &mut Checker<'_, T>, kind: Kind, at: Place)
    requires { Holds (T.atoms checker.old.types) checker.old.names.now checker.old.work }
    ensures holds { Holds (T.atoms checker.new.types) checker.new.names.now checker.new.work }
    ensures names { checker.new.names.now ≡ checker.old.names.now }
    ensures met { Runs (meets T.passes checker.old.names.now) (one (IsOf kind at)) (going (T.atoms checker.old.types) checker.old.work) (going (T.atoms checker.new.types) checker.new.work) }
{
    if has_stopped(&checker.work) {
        return;
    }
    let answer = require_of(
        checker.alloc,
        &mut checker.types,
        &checker.names.own,
        &checker.work,
        kind,
        at,
    );
    note(&checker.types, &mut checker.work, answer);
}

/// The last part is what the operator at hand works on.
fn require_sort<T: Types>(
    alloc: Global,
    types: &mut T,
    own: &OwnTypes,
    work: &Work<'_>,
    at: Place,
) -> Result<(), Stop<Fault>>
    requires own { AreOwnTypes (T.atoms types.old) own.now }
    requires stands { Stands (state_of (T.atoms types.old) work.now) }
    ensures atoms { T.atoms types.new ≡ T.atoms types.old }
    ensures comes { Comes (is_of_sort_of T.passes at) (state_of (T.atoms types.old) work.now) result (state_of (T.atoms types.new) work.now) }
{
    match last(work.sorts.as_slice()) {
        Some(ints) => require_of(alloc, types, own, work, sort_kind(*ints), at),
        None => Err(Stop::Memory),
    }
}

/// The last part is what the operator works on: else `NotSubtype` at the place, with a shape that shows it. One question of the
/// decider.
pub fn is_sort<T: Types>(checker: &mut Checker<'_, T>, at: Place)
    requires { Holds (T.atoms checker.old.types) checker.old.names.now checker.old.work }
    ensures holds { Holds (T.atoms checker.new.types) checker.new.names.now checker.new.work }
    ensures names { checker.new.names.now ≡ checker.old.names.now }
    ensures met { Runs (meets T.passes checker.old.names.now) (one (IsSort at)) (going (T.atoms checker.old.types) checker.old.work) (going (T.atoms checker.new.types) checker.new.work) }
{
    if has_stopped(&checker.work) {
        return;
    }
    let answer = require_sort(
        checker.alloc,
        &mut checker.types,
        &checker.names.own,
        &checker.work,
        at,
    );
    note(&checker.types, &mut checker.work, answer);
}
