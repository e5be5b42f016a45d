//! Calls as they are started: a future of what they give.
#![tactic(auto, using(check_work::proofs::Noting::meeting))]

ghost use Rattle.std.specs.Prelude.{◌≡◌, ◌<◌, ℕ, IfOk, List, OnOk, Ok as Given, Some as There, length};
ghost use Rattle.checks.specs.Checks.{Comes};
ghost use Rattle.checks.specs.Questions.{adds};
ghost use Rattle.descriptors.specs.Described.{plain as plain_of};
ghost use Rattle.descriptors.specs.Steps.{SignatureBelow};
ghost use Rattle.needs.specs.Needs.{Runs};
ghost use Rattle.type_model.specs.declared.atoms.AtomDef.{AtomDef as AtomOf};
ghost use Rattle.type_model.specs.declared.basic.SemType.{Atom};
ghost use Rattle.type_model.specs.Calls.{KeepsTypes};
ghost use Rattle.type_model.specs.Defined.{DefBelow, IsDefined, NamesBelow};
ghost use Rattle.type_model.specs.Places.{HasDistinctFields};
ghost use Rattle.typed_tree.specs.declared.form.Callee.TheVariants.{Value as ValueCallee};
ghost use Rattle.typed_tree.specs.declared.form.StrictForm.TheVariants.{Start as StartForm};
ghost use Rattle.typed_tree.specs.Listed.{one};
ghost use Rattle.expr_needs.specs.Needs.{Starts};
ghost use Rattle.check_words.specs.Calls.{IsFutureAtom, callee_unit, starts as starts_of, starts_of as starts_by};
ghost use Rattle.check_words.specs.Meets.{meets};
ghost use Rattle.check_words.specs.Stands.{CallBelow, Stands};
ghost use Rattle.check_words.specs.State.{OfValue};
ghost use Rattle.check_work.specs.Views.{Holds, call_of, called_of, going, state_of};
ghost use Rattle.needs_of_made_calls.specs.Making.{IsFutureDef, makes_so, starts_given};

use crate::applied::apply_last;
use crate::makers::{callee_of, make_strict};
use bal_base::{Fault, Memory, Place, Stop};
use check_work::{Call, Callee, Checker, Work, has_stopped, last_taken, note};
use descriptors::{Signature, lift, plain};
use made_atoms::add_one;
use std::alloc::Global;
use type_model::{AtomDef, SemType, Types};
use typed_tree::StrictForm;

/// A call is started, which gives a future of the atom.
fn start_as(
    alloc: Global,
    work: &mut Work<'_>,
    callee: typed_tree::Callee,
    count: usize,
    future: u32,
    at: Place,
) -> Result<(), Memory>
    ensures stands { (env : List AtomOf) → future < length env → Stands (state_of env work.old) → OnOk result (Stands (state_of env work.new)) }
    ensures comes { (env : List AtomOf) → OnOk result (Comes (makes_so count (StartForm callee) (plain_of (Atom future)) at) (state_of env work.old) (Given tt) (state_of env work.new)) }
{
    let ty = plain(alloc, SemType::Atom(future));
    make_strict(alloc, work, StrictForm::Start(callee), count, ty, at)
}

/// A call by name is started.
fn start_function(
    alloc: Global,
    work: &mut Work<'_>,
    f: &Signature,
    count: usize,
    at: Place,
) -> Result<(), Memory>
    ensures stands { (env : List AtomOf) → SignatureBelow (length env) f.now → Stands (state_of env work.old) → OnOk result (Stands (state_of env work.new)) }
    ensures comes { (env : List AtomOf) → OnOk result (Comes (makes_so count (StartForm (callee_unit f.now)) (plain_of (Atom f.now.future)) at) (state_of env work.old) (Given tt) (state_of env work.new)) }
{
    let callee = callee_of(f)?;
    start_as(alloc, work, callee, count, f.future, at)
}

/// The futures of such results.
fn future_def(alloc: Global, given: &SemType) -> Result<AtomDef, Memory>
    ensures is { IfOk result (λ def. IsFutureDef given.now def) }
    ensures below { (n : ℕ) → NamesBelow n given.now → IfOk result (DefBelow n) }
    ensures distinct { IfOk result HasDistinctFields }
{
    Ok(AtomDef::Future {
        result: given.copy(alloc)?,
    })
}

/// The atom of the futures of such results is added.
fn add_futures<T: Types>(
    alloc: Global,
    types: &mut T,
    given: &SemType,
    at: Place,
) -> Result<u32, Stop<Fault>>
    requires { IsDefined (T.atoms types.old) given.now }
    ensures kept { KeepsTypes (T.atoms types.old) (T.atoms types.new) }
    ensures there { IfOk result (λ atom. atom < length (T.atoms types.new)) }
    ensures comes { Comes (adds (λ env. IsFutureAtom T.passes given.now) (There at)) (T.atoms types.old) result (T.atoms types.new) }
{
    match future_def(alloc, given) {
        Ok(def) => add_one(alloc, types, def, at),
        Err(Memory) => Err(Stop::Memory),
    }
}

/// A call of a function value is started, which gives this.
fn start_given<T: Types>(
    alloc: Global,
    types: &mut T,
    work: &mut Work<'_>,
    given: SemType,
    count: usize,
    at: Place,
) -> Result<(), Stop<Fault>>
    requires stands { Stands (state_of (T.atoms types.old) work.old) }
    requires given { IsDefined (T.atoms types.old) given }
    ensures kept { KeepsTypes (T.atoms types.old) (T.atoms types.new) }
    ensures stands { OnOk result (Stands (state_of (T.atoms types.new) work.new)) }
    ensures comes { Comes (starts_given T.passes count given at) (state_of (T.atoms types.old) work.old) result (state_of (T.atoms types.new) work.new) }
{
    match add_futures(alloc, types, &given, at) {
        Ok(atom) => {
            let callee = typed_tree::Callee::Value;
            lift(start_as(alloc, work, callee, count, atom, at))
        }
        Err(stop) => Err(stop),
    }
}

/// The call of the function before so many arguments is started. `here`: the place of the call.
fn start_value<T: Types>(
    alloc: Global,
    types: &mut T,
    work: &mut Work<'_>,
    args: usize,
    here: Place,
    at: Place,
) -> Result<(), Stop<Fault>>
    requires { Stands (state_of (T.atoms types.old) work.old) }
    ensures kept { KeepsTypes (T.atoms types.old) (T.atoms types.new) }
    ensures stands { OnOk result (Stands (state_of (T.atoms types.new) work.new)) }
    ensures comes { Comes (starts_by T.passes OfValue args here at) (state_of (T.atoms types.old) work.old) result (state_of (T.atoms types.new) work.new) }
{
    let Some(count) = args.checked_add(1) else {
        return Err(Stop::Memory);
    };
    match apply_last(alloc, types, work.found.as_slice(), count, here) {
        Ok(given) => start_given(alloc, types, work, given, count, at),
        Err(stop) => Err(stop),
    }
}

/// The call that was closed is started.
fn start_closed<T: Types>(
    alloc: Global,
    types: &mut T,
    work: &mut Work<'_>,
    call: &Call<'_>,
    here: Place,
    at: Place,
) -> Result<(), Stop<Fault>>
    requires stands { Stands (state_of (T.atoms types.old) work.old) }
    requires call { CallBelow (length (T.atoms types.old)) (call_of call.now) }
    ensures kept { KeepsTypes (T.atoms types.old) (T.atoms types.new) }
    ensures stands { OnOk result (Stands (state_of (T.atoms types.new) work.new)) }
    ensures comes { Comes (starts_by T.passes (called_of call.now.callee) call.now.args here at) (state_of (T.atoms types.old) work.old) result (state_of (T.atoms types.new) work.new) }
{
    let count = call.args;
    match &call.callee {
        Callee::Function(f) => lift(start_function(alloc, work, f, count, at)),
        Callee::Value => start_value(alloc, types, work, count, here, at),
        Callee::Library(_, _) => Err(Stop::Memory),
    }
}

/// The call at hand is started.
fn start<T: Types>(
    alloc: Global,
    types: &mut T,
    work: &mut Work<'_>,
    here: Place,
    at: Place,
) -> Result<(), Stop<Fault>>
    requires { Stands (state_of (T.atoms types.old) work.old) }
    ensures kept { KeepsTypes (T.atoms types.old) (T.atoms types.new) }
    ensures stands { OnOk result (Stands (state_of (T.atoms types.new) work.new)) }
    ensures comes { Comes (starts_of T.passes here at) (state_of (T.atoms types.old) work.old) result (state_of (T.atoms types.new) work.new) }
{
    match last_taken(&mut work.calls) {
        Ok(call) => start_closed(alloc, types, work, &call, here, at),
        Err(Memory) => Err(Stop::Memory),
    }
}

/// The call at the first place is started (Ballerina specification, "Start action"): it gives a future of what the call gives. A call of a function
/// value adds two atoms, that of its arguments and that of its futures, and costs two questions of the decider.
///
/// - `NotSubtype` at the first place: a function value doesn't take the arguments; with some that it doesn't take.
/// - `TypeLimit` there: a question is too large. `AtomLimit` at the first place or the second one: there would be too many atoms.
pub fn starts<T: Types>(checker: &mut Checker<'_, T>, here: Place, at: Place)
    requires { Holds (T.atoms checker.old.types) checker.old.names.now checker.old.work }
    ensures holds { Holds (T.atoms checker.new.types) checker.new.names.now checker.new.work }
    ensures names { checker.new.names.now ≡ checker.old.names.now }
    ensures met { Runs (meets T.passes checker.old.names.now) (one (Starts here at)) (going (T.atoms checker.old.types) checker.old.work) (going (T.atoms checker.new.types) checker.new.work) }
{
    if has_stopped(&checker.work) {
        return;
    }
    let answer = start(
        checker.alloc,
        &mut checker.types,
        &mut checker.work,
        here,
        at,
    );
    note(&checker.types, &mut checker.work, answer);
}
