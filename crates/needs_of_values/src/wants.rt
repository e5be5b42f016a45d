//! What is wanted of parts.
#![tactic(auto, using(check_work::proofs::Noting::meeting))]

ghost use Rattle.std.specs.Prelude.{◌≡◌, List, OnOk, Ok as Given, length};
ghost use Rattle.flow_narrowing.specs.Flows.{IfShared};
ghost use Rattle.type_model.specs.Defined.{TyBelow};
ghost use Rattle.checks.specs.Checks.{Comes};
ghost use Rattle.needs.specs.Needs.{Runs};
ghost use Rattle.type_model.specs.declared.atoms.AtomDef.{AtomDef as Atom};
ghost use Rattle.typed_tree.specs.Listed.{one};
ghost use Rattle.expr_needs.specs.Needs.{DropsWant, Fails, IsWanted, WantsResult};
ghost use Rattle.check_words.specs.Meets.{meets};
ghost use Rattle.check_words.specs.Stands.{PartBelow, Stands};
ghost use Rattle.check_words.specs.State.{State};
ghost use Rattle.check_words.specs.Values.{drops_want as drops_want_of, wants_result as wants_result_of};
ghost use Rattle.check_words.specs.Words.{below_if, fails as fails_of, is_wanted as is_wanted_of};
ghost use Rattle.check_work.specs.Views.{Holds, going, state_of};

use crate::shapes::{shapes_in, shapes_of};
use bal_base::{Fault, FaultCode, Kept, Memory, Place, Stop};
use check_work::{Checker, Work, at_hand, drop_last, has_stopped, last, note, note_made, shared};
use checks::require_below;
use std::alloc::Global;
use type_model::Types;
use typed_tree::{SharedTy, TypedExpr};

/// A fault at the place, which shows nothing.
fn refusal(code: FaultCode, at: Place) -> Result<(), Stop<Fault>>
    ensures { (s : State) → Comes (fails_of code at) s result s }
{
    Err(Stop::Fault(Fault {
        code,
        at: Some(at),
        kept: Kept::Nothing,
    }))
}

/// It is refused.
pub fn fails<T: Types>(checker: &mut Checker<'_, T>, code: FaultCode, at: Place)
    requires { Holds (T.atoms checker.old.types) checker.old.names.now checker.old.work }
    ensures holds { Holds (T.atoms checker.new.types) checker.new.names.now checker.new.work }
    ensures names { checker.new.names.now ≡ checker.old.names.now }
    ensures met { Runs (meets T.passes checker.old.names.now) (one (Fails code at)) (going (T.atoms checker.old.types) checker.old.work) (going (T.atoms checker.new.types) checker.new.work) }
{
    if has_stopped(&checker.work) {
        return;
    }
    let answer = refusal(code, at);
    note(&checker.types, &mut checker.work, answer);
}

/// What is wanted last goes.
fn drop_want(work: &mut Work<'_>)
    ensures stands { (env : List Atom) → Stands (state_of env work.old) → Stands (state_of env work.new) }
    ensures comes { (env : List Atom) → Comes drops_want_of (state_of env work.old) (Given tt) (state_of env work.new) }
{
    drop_last(&mut work.wants);
}

/// What is wanted last is wanted no more.
pub fn drops_want<T: Types>(checker: &mut Checker<'_, T>)
    requires { Holds (T.atoms checker.old.types) checker.old.names.now checker.old.work }
    ensures holds { Holds (T.atoms checker.new.types) checker.new.names.now checker.new.work }
    ensures names { checker.new.names.now ≡ checker.old.names.now }
    ensures met { Runs (meets T.passes checker.old.names.now) (one DropsWant) (going (T.atoms checker.old.types) checker.old.work) (going (T.atoms checker.new.types) checker.new.work) }
{
    if has_stopped(&checker.work) {
        return;
    }
    drop_want(&mut checker.work);
    note_made(&checker.types, &mut checker.work, Ok(()));
}

/// The result of the unit at hand is wanted.
fn want_result(work: &mut Work<'_>) -> Result<(), Memory>
    ensures stands { (env : List Atom) → Stands (state_of env work.old) → OnOk result (Stands (state_of env work.new)) }
    ensures comes { (env : List Atom) → OnOk result (Comes wants_result_of (state_of env work.old) (Given tt) (state_of env work.new)) }
{
    let t = shared(&at_hand(&work.unit)?.result)?;
    work.wants.push(Some(t))?;
    Ok(())
}

/// The result of the unit is wanted.
pub fn wants_result<T: Types>(checker: &mut Checker<'_, T>)
    requires { Holds (T.atoms checker.old.types) checker.old.names.now checker.old.work }
    ensures holds { Holds (T.atoms checker.new.types) checker.new.names.now checker.new.work }
    ensures names { checker.new.names.now ≡ checker.old.names.now }
    ensures met { Runs (meets T.passes checker.old.names.now) (one WantsResult) (going (T.atoms checker.old.types) checker.old.work) (going (T.atoms checker.new.types) checker.new.work) }
{
    if has_stopped(&checker.work) {
        return;
    }
    let made = want_result(&mut checker.work);
    note_made(&checker.types, &mut checker.work, made);
}

/// The part is below what is wanted, if something is.
fn fits<T: Types>(
    alloc: Global,
    types: &mut T,
    work: &Work<'_>,
    want: &Option<SharedTy>,
    e: &TypedExpr,
    at: Place,
) -> Result<(), Stop<Fault>>
    requires want { IfShared (TyBelow (length (T.atoms types.old))) want.now }
    requires part { PartBelow (length (T.atoms types.old)) e.now }
    ensures atoms { T.atoms types.new ≡ T.atoms types.old }
    ensures comes { Comes (below_if T.passes want.now e.now at) (state_of (T.atoms types.old) work.now) result (state_of (T.atoms types.new) work.now) }
{
    match want {
        Some(t) => {
            let part = shapes_of(e);
            let wanted = shapes_in(t);
            require_below(alloc, types, part, wanted, Some(at))
        }
        None => Ok(()),
    }
}

/// The last part is below the type that is wanted last, if there is one.
fn require_wanted<T: Types>(
    alloc: Global,
    types: &mut T,
    work: &Work<'_>,
    at: Place,
) -> Result<(), Stop<Fault>>
    requires { Stands (state_of (T.atoms types.old) work.now) }
    ensures atoms { T.atoms types.new ≡ T.atoms types.old }
    ensures comes { Comes (is_wanted_of T.passes at) (state_of (T.atoms types.old) work.now) result (state_of (T.atoms types.new) work.now) }
{
    let want = last(work.wants.as_slice());
    let part = last(work.found.as_slice());
    match want {
        Some(want) => match part {
            Some(e) => fits(alloc, types, work, want, e, at),
            None => Err(Stop::Memory),
        },
        None => Err(Stop::Memory),
    }
}

/// The last part is below the type that is wanted last, if there is one: else `NotSubtype` at the place, with a shape
/// that shows it. One question of the decider.
pub fn is_wanted<T: Types>(checker: &mut Checker<'_, T>, at: Place)
    requires { Holds (T.atoms checker.old.types) checker.old.names.now checker.old.work }
    ensures holds { Holds (T.atoms checker.new.types) checker.new.names.now checker.new.work }
    ensures names { checker.new.names.now ≡ checker.old.names.now }
    ensures met { Runs (meets T.passes checker.old.names.now) (one (IsWanted at)) (going (T.atoms checker.old.types) checker.old.work) (going (T.atoms checker.new.types) checker.new.work) }
{
    if has_stopped(&checker.work) {
        return;
    }
    let answer = require_wanted(checker.alloc, &mut checker.types, &checker.work, at);
    note(&checker.types, &mut checker.work, answer);
}
