//! Arguments of calls.
#![tactic(auto, using(check_work::proofs::Noting::meeting))]

ghost use Rattle.std.specs.Prelude.{◌≡◌, IfOk, List, OnOk, Ok as Given, length, map};
ghost use Rattle.checks.specs.Checks.{Comes};
ghost use Rattle.flow_narrowing.specs.Flows.{IfShared};
ghost use Rattle.needs.specs.Needs.{Runs};
ghost use Rattle.type_model.specs.declared.atoms.AtomDef.{AtomDef as Atom};
ghost use Rattle.type_model.specs.Defined.{TyBelow};
ghost use Rattle.typed_tree.specs.Listed.{one};
ghost use Rattle.expr_needs.specs.Needs.{IsArgument};
ghost use Rattle.check_kinds.specs.Over.{ComesOver};
ghost use Rattle.check_words.specs.Calls.{is_argument as is_argument_of, one_more};
ghost use Rattle.check_words.specs.Meets.{meets};
ghost use Rattle.check_words.specs.Stands.{PartBelow, Stands};
ghost use Rattle.check_words.specs.State.{CallAtWork, IsLast};
ghost use Rattle.check_words.specs.Words.{below_if};
ghost use Rattle.check_work.specs.Views.{Holds, call_of, going, state_of};
ghost use Rattle.needs_of_calls.specs.Arguments.{counts_argument};

use bal_base::{Fault, Memory, Place, Stop};
use check_work::{Call, Checker, Work, drop_last, has_stopped, last, last_taken, note};
use checks::require_below;
use std::alloc::Global;
use type_model::Types;
use typed_tree::{SharedTy, TypedExpr};

/// The part is below what is wanted, if something is.
fn fits<T: Types>(
    alloc: Global,
    types: &mut T,
    want: &Option<SharedTy>,
    e: &TypedExpr,
    at: Place,
) -> Result<(), Stop<Fault>>
    requires want { IfShared (TyBelow (length (T.atoms types.old))) want.now }
    requires part { PartBelow (length (T.atoms types.old)) e.now }
    ensures atoms { T.atoms types.new ≡ T.atoms types.old }
    ensures comes { ComesOver (below_if T.passes want.now e.now at) (T.atoms types.old) result (T.atoms types.new) }
{
    match want {
        Some(t) => require_below(alloc, types, &e.ty().sem, &t.sem, Some(at)),
        None => Ok(()),
    }
}

/// The call with one more argument.
fn counted<'a>(call: Call<'a>) -> Result<Call<'a>, Memory>
    ensures { IfOk result (λ more. call_of more ≡ one_more (call_of call.entry)) }
{
    let Some(args) = call.args.checked_add(1) else {
        return Err(Memory);
    };
    Ok(Call {
        callee: call.callee,
        args,
    })
}

/// One more argument of the call at hand was found, and its type is wanted no more.
fn next_argument(work: &mut Work<'_>) -> Result<(), Memory>
    ensures stands { (env : List Atom) → Stands (state_of env work.old) → OnOk result (Stands (state_of env work.new)) }
    ensures comes { (env : List Atom) (c : CallAtWork) → IsLast (map call_of work.old.calls.items) c → OnOk result (Comes (counts_argument c) (state_of env work.old) (Given tt) (state_of env work.new)) }
{
    let call = last_taken(&mut work.calls)?;
    let more = counted(call)?;
    work.calls.push(more)?;
    drop_last(&mut work.wants);
    Ok(())
}

/// The last part is the next argument of the call at hand.
fn take_argument<T: Types>(
    alloc: Global,
    types: &mut T,
    work: &mut Work<'_>,
    at: Place,
) -> Result<(), Stop<Fault>>
    requires { Stands (state_of (T.atoms types.old) work.old) }
    ensures atoms { T.atoms types.new ≡ T.atoms types.old }
    ensures stands { OnOk result (Stands (state_of (T.atoms types.old) work.new)) }
    ensures comes { Comes (is_argument_of T.passes at) (state_of (T.atoms types.old) work.old) result (state_of (T.atoms types.new) work.new) }
{
    let Some(_call) = last(work.calls.as_slice()) else {
        return Err(Stop::Memory);
    };
    let Some(want) = last(work.wants.as_slice()) else {
        return Err(Stop::Memory);
    };
    let Some(part) = last(work.found.as_slice()) else {
        return Err(Stop::Memory);
    };
    fits(alloc, types, want, part, at)?;
    next_argument(work)?;
    Ok(())
}

/// The last part is the next argument: it has to be below the type that is wanted last, if there is one. One question of the decider.
///
/// - `NotSubtype` at the place, with a shape that shows it.
/// - `TypeLimit` there: the question is too large.
pub fn is_argument<T: Types>(checker: &mut Checker<'_, T>, at: Place)
    requires { Holds (T.atoms checker.old.types) checker.old.names.now checker.old.work }
    ensures holds { Holds (T.atoms checker.new.types) checker.new.names.now checker.new.work }
    ensures names { checker.new.names.now ≡ checker.old.names.now }
    ensures met { Runs (meets T.passes checker.old.names.now) (one (IsArgument at)) (going (T.atoms checker.old.types) checker.old.work) (going (T.atoms checker.new.types) checker.new.work) }
{
    if has_stopped(&checker.work) {
        return;
    }
    let answer = take_argument(checker.alloc, &mut checker.types, &mut checker.work, at);
    note(&checker.types, &mut checker.work, answer);
}
