//! Calls as they are made.
#![tactic(auto, using(check_work::proofs::Noting::meeting))]

ghost use Rattle.std.specs.Prelude.{◌≡◌, List, OnOk, Ok as Given, length};
ghost use Rattle.checks.specs.Checks.{Comes};
ghost use Rattle.descriptors.specs.Described.{IsCopy, plain as plain_of};
ghost use Rattle.descriptors.specs.Steps.{AreOwnTypes, SignatureBelow};
ghost use Rattle.flow_narrowing.specs.Flows.{IfShared};
ghost use Rattle.needs.specs.Needs.{Runs};
ghost use Rattle.type_model.specs.declared.atoms.AtomDef.{AtomDef as Atom};
ghost use Rattle.type_model.specs.Calls.{KeepsTypes};
ghost use Rattle.type_model.specs.Defined.{IsDefined, TyBelow};
ghost use Rattle.typed_tree.specs.declared.form.Callee.TheVariants.{Value as ValueCallee};
ghost use Rattle.typed_tree.specs.declared.form.StrictForm.TheVariants.{Call as CallForm};
ghost use Rattle.typed_tree.specs.Listed.{one};
ghost use Rattle.expr_needs.specs.Needs.{MakesCall};
ghost use Rattle.check_words.specs.Calls.{callee_unit, makes_call as makes_call_of, makes_call_of as makes_call_by};
ghost use Rattle.check_words.specs.Library.{row_of};
ghost use Rattle.check_words.specs.Meets.{meets};
ghost use Rattle.check_words.specs.Stands.{CallBelow, Stands};
ghost use Rattle.check_words.specs.State.{OfLibrary, OfValue};
ghost use Rattle.check_words.specs.Words.{makes_strict};
ghost use Rattle.check_work.specs.Views.{Holds, call_of, called_of, going, state_of};
ghost use Rattle.needs_of_made_calls.specs.Making.{makes_so};

use crate::applied::apply_last;
use crate::library::{Made, make_library, parts_of};
use crate::makers::{callee_of, make_strict};
use bal_base::{Fault, Memory, Place, Stop};
use check_work::{Call, Callee, Checker, Work, has_stopped, last_taken, note};
use descriptors::{OwnTypes, Signature, copy, lift, plain};
use std::alloc::Global;
use type_model::{SemType, Types};
use typed_tree::{SharedTy, StrictForm};

/// A function is called by its name.
fn make_function(
    alloc: Global,
    work: &mut Work<'_>,
    f: &Signature,
    count: usize,
    at: Place,
) -> Result<(), Memory>
    ensures stands { (env : List Atom) → SignatureBelow (length env) f.now → Stands (state_of env work.old) → OnOk result (Stands (state_of env work.new)) }
    ensures comes { (env : List Atom) → OnOk result (Comes (makes_strict count (CallForm (callee_unit f.now)) (λ e. IsCopy f.now.result) at) (state_of env work.old) (Given tt) (state_of env work.new)) }
{
    let callee = callee_of(f)?;
    let ty = copy(alloc, &f.result)?;
    make_strict(alloc, work, StrictForm::Call(callee), count, ty, at)
}

/// A call of a function value is made, which gives this.
fn make_applied(
    alloc: Global,
    work: &mut Work<'_>,
    given: SemType,
    count: usize,
    at: Place,
) -> Result<(), Memory>
    ensures stands { (env : List Atom) → IsDefined env given → Stands (state_of env work.old) → OnOk result (Stands (state_of env work.new)) }
    ensures comes { (env : List Atom) → OnOk result (Comes (makes_so count (CallForm ValueCallee) (plain_of given) at) (state_of env work.old) (Given tt) (state_of env work.new)) }
{
    let form = StrictForm::Call(typed_tree::Callee::Value);
    make_strict(alloc, work, form, count, plain(alloc, given), at)
}

/// The function before so many arguments is called.
fn make_value<T: Types>(
    alloc: Global,
    types: &mut T,
    work: &mut Work<'_>,
    args: usize,
    at: Place,
) -> Result<(), Stop<Fault>>
    requires { Stands (state_of (T.atoms types.old) work.old) }
    ensures kept { KeepsTypes (T.atoms types.old) (T.atoms types.new) }
    ensures stands { OnOk result (Stands (state_of (T.atoms types.new) work.new)) }
    ensures comes { Comes (makes_call_by T.passes OfValue args at) (state_of (T.atoms types.old) work.old) result (state_of (T.atoms types.new) work.new) }
{
    let Some(count) = args.checked_add(1) else {
        return Err(Stop::Memory);
    };
    match apply_last(alloc, types, work.found.as_slice(), count, at) {
        Ok(given) => lift(make_applied(alloc, work, given, count, at)),
        Err(stop) => Err(stop),
    }
}

/// A call of the library is made with so many arguments.
fn make_row<T: Types>(
    alloc: Global,
    types: &mut T,
    own: &OwnTypes,
    work: &mut Work<'_>,
    receiver: &Option<SharedTy>,
    what: Made,
) -> Result<(), Stop<Fault>>
    requires own { AreOwnTypes (T.atoms types.old) own.now }
    requires stands { Stands (state_of (T.atoms types.old) work.old) }
    requires receiver { IfShared (TyBelow (length (T.atoms types.old))) receiver.now }
    ensures kept { KeepsTypes (T.atoms types.old) (T.atoms types.new) }
    ensures stands { OnOk result (Stands (state_of (T.atoms types.new) work.new)) }
    ensures comes { Comes (makes_call_by T.passes (OfLibrary (row_of what.call) receiver.now) what.count what.at) (state_of (T.atoms types.old) work.old) result (state_of (T.atoms types.new) work.new) }
{
    match parts_of(receiver, what.count) {
        Ok(count) => {
            let what = Made {
                call: what.call,
                count,
                at: what.at,
            };
            make_library(alloc, types, own, work, receiver, what)
        }
        Err(Memory) => Err(Stop::Memory),
    }
}

/// The call that was closed is made.
fn make_closed<T: Types>(
    alloc: Global,
    types: &mut T,
    own: &OwnTypes,
    work: &mut Work<'_>,
    call: &Call<'_>,
    at: Place,
) -> Result<(), Stop<Fault>>
    requires own { AreOwnTypes (T.atoms types.old) own.now }
    requires stands { Stands (state_of (T.atoms types.old) work.old) }
    requires call { CallBelow (length (T.atoms types.old)) (call_of call.now) }
    ensures kept { KeepsTypes (T.atoms types.old) (T.atoms types.new) }
    ensures stands { OnOk result (Stands (state_of (T.atoms types.new) work.new)) }
    ensures comes { Comes (makes_call_by T.passes (called_of call.now.callee) call.now.args at) (state_of (T.atoms types.old) work.old) result (state_of (T.atoms types.new) work.new) }
{
    let count = call.args;
    match &call.callee {
        Callee::Function(f) => lift(make_function(alloc, work, f, count, at)),
        Callee::Value => make_value(alloc, types, work, count, at),
        Callee::Library(row, receiver) => {
            let what = Made {
                call: *row,
                count,
                at,
            };
            make_row(alloc, types, own, work, receiver, what)
        }
    }
}

/// The call at hand is made.
fn make_call<T: Types>(
    alloc: Global,
    types: &mut T,
    own: &OwnTypes,
    work: &mut Work<'_>,
    at: Place,
) -> Result<(), Stop<Fault>>
    requires own { AreOwnTypes (T.atoms types.old) own.now }
    requires stands { Stands (state_of (T.atoms types.old) work.old) }
    ensures kept { KeepsTypes (T.atoms types.old) (T.atoms types.new) }
    ensures stands { OnOk result (Stands (state_of (T.atoms types.new) work.new)) }
    ensures comes { Comes (makes_call_of T.passes at) (state_of (T.atoms types.old) work.old) result (state_of (T.atoms types.new) work.new) }
{
    match last_taken(&mut work.calls) {
        Ok(call) => make_closed(alloc, types, own, work, &call, at),
        Err(Memory) => Err(Stop::Memory),
    }
}

/// The call at hand is made (Ballerina specification, "Function call expression", "Method call expression"): it gives what its function gives, or
/// what the library says. Where the library makes a list, and where a function value is called, an atom is added; a function value costs two
/// questions of the decider, a member of the receiver one.
///
/// - `NotSubtype` at the place: a function value doesn't take the arguments; with some that it doesn't take.
/// - `TypeLimit` there: a question is too large. `AtomLimit` there: there would be too many atoms.
pub fn makes_call<T: Types>(checker: &mut Checker<'_, T>, at: Place)
    requires { Holds (T.atoms checker.old.types) checker.old.names.now checker.old.work }
    ensures holds { Holds (T.atoms checker.new.types) checker.new.names.now checker.new.work }
    ensures names { checker.new.names.now ≡ checker.old.names.now }
    ensures met { Runs (meets T.passes checker.old.names.now) (one (MakesCall at)) (going (T.atoms checker.old.types) checker.old.work) (going (T.atoms checker.new.types) checker.new.work) }
{
    if has_stopped(&checker.work) {
        return;
    }
    let answer = make_call(
        checker.alloc,
        &mut checker.types,
        &checker.names.own,
        &mut checker.work,
        at,
    );
    note(&checker.types, &mut checker.work, answer);
}
