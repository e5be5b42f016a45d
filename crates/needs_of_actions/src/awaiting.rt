//! Names in waits.
#![tactic(auto, using(check_kinds::proofs::Over::overs, check_work::proofs::Noting::meeting))]

ghost use Rattle.std.specs.Prelude.{◌≡◌, IfErr, IfOk, List, OnOk, Ok as Given, Some as There, length, slice_get};
ghost use Rattle.checks.specs.Checks.{Comes};
ghost use Rattle.descriptors.specs.Steps.{AreNames, AreOwnTypes};
ghost use Rattle.needs.specs.Needs.{Runs};
ghost use Rattle.operations.specs.Kinds.{IsError};
ghost use Rattle.type_model.specs.declared.atoms.AtomDef.{AtomDef as Atom};
ghost use Rattle.type_model.specs.Defined.{IsDefined};
ghost use Rattle.typed_tree.specs.Listed.{one};
ghost use Rattle.typed_tree.specs.SharedTypes.{Shared};
ghost use Rattle.expr_needs.specs.Needs.{Awaits};
ghost use Rattle.check_kinds.specs.Over.{ComesOver};
ghost use Rattle.check_words.specs.Sharing.{SameShared};
ghost use Rattle.check_words.specs.Words.{EitherOf, wants};
ghost use Rattle.check_words.specs.Actions.{awaits as awaits_of, awaits_by, awaits_future};
ghost use Rattle.check_words.specs.Meets.{meets};
ghost use Rattle.check_words.specs.Stands.{PartBelow, SharedBelow, Stands};
ghost use Rattle.check_work.specs.Views.{Holds, going, state_of};
ghost use Rattle.needs_of_actions.specs.Failing.{IsToldOf};
ghost use Rattle.needs_of_actions.specs.Futures.{IsResultOf, gives_given, wants_given, wants_part, wants_result_of};

use crate::peers::result_of;
use crate::wanted::worker_named;
use bal_base::{Fault, Memory, Place, Stop};
use bal_tree::QualifiedName;
use check_kinds::{either_of, require_kind};
use check_work::{Checker, Site, Work, has_stopped, last, note, shared};
use checks::member;
use descriptors::{Names, OwnTypes, lift};
use expr_needs::Kind;
use seen_names::give_named;
use std::alloc::Global;
use std::rc::Rc;
use type_model::{BasicSet, Keys, SemType, Types};
use typed_tree::{SharedTy, TypedExpr};

/// The shapes of the type, or an error, to be shared.
fn with_errors<T: Types>(alloc: Global, types: &mut T, t: &SemType) -> Result<SharedTy, Memory>
    requires { IsDefined (T.atoms types.old) t.now }
    ensures atoms { T.atoms types.new ≡ T.atoms types.old }
    ensures below { IfOk result (SharedBelow (length (T.atoms types.old))) }
    ensures is { IfOk result (λ u. EitherOf t.now IsError (T.atoms types.old) u.value) }
{
    let ty = either_of(alloc, types, t, BasicSet::ErrorAll)?;
    Ok(Rc::new(alloc, ty)?)
}

/// What a future gives, or an error where it was taken before. `TypeLimit` at the place where that question is too large.
fn given_by<T: Types>(
    alloc: Global,
    types: &mut T,
    part: &TypedExpr,
    at: Place,
) -> Result<SharedTy, Stop<Fault>>
    requires { PartBelow (length (T.atoms types.old)) part.now }
    ensures atoms { T.atoms types.new ≡ T.atoms types.old }
    ensures below { IfOk result (SharedBelow (length (T.atoms types.old))) }
    ensures comes { ComesOver (gives_given T.passes part.now at) (T.atoms types.old) result (T.atoms types.new) }
{
    match member(alloc, types, &part.ty().sem, &Keys::Results, Some(at)) {
        Ok(results) => lift(with_errors(alloc, types, &results)),
        Err(stop) => Err(stop),
    }
}

/// The type is wanted.
fn want(work: &mut Work<'_>, t: SharedTy) -> Result<(), Memory>
    ensures stands { (env : List Atom) → SharedBelow (length env) t → Stands (state_of env work.old) → OnOk result (Stands (state_of env work.new)) }
    ensures comes { (env : List Atom) (u : Shared) → SameShared u t → OnOk result (Comes (wants (There u)) (state_of env work.old) (Given tt) (state_of env work.new)) }
{
    work.wants.push(Some(t))?;
    Ok(())
}

/// What the last part gives is wanted.
fn want_given<T: Types>(
    alloc: Global,
    types: &mut T,
    work: &mut Work<'_>,
    at: Place,
) -> Result<(), Stop<Fault>>
    requires { Stands (state_of (T.atoms types.old) work.old) }
    ensures atoms { T.atoms types.new ≡ T.atoms types.old }
    ensures stands { OnOk result (Stands (state_of (T.atoms types.old) work.new)) }
    ensures comes { Comes (wants_part T.passes at) (state_of (T.atoms types.old) work.old) result (state_of (T.atoms types.old) work.new) }
{
    let Some(part) = last(work.found.as_slice()) else {
        return Err(Stop::Memory);
    };
    match given_by(alloc, types, part, at) {
        Ok(t) => lift(want(work, t)),
        Err(stop) => Err(stop),
    }
}

/// The last part is a future, and what it gives is wanted.
fn expect_given<T: Types>(
    alloc: Global,
    types: &mut T,
    own: &OwnTypes,
    work: &mut Work<'_>,
    at: Place,
) -> Result<(), Stop<Fault>>
    requires own { AreOwnTypes (T.atoms types.old) own.now }
    requires stands { Stands (state_of (T.atoms types.old) work.old) }
    ensures atoms { T.atoms types.new ≡ T.atoms types.old }
    ensures stands { OnOk result (Stands (state_of (T.atoms types.old) work.new)) }
    ensures comes { Comes (wants_given T.passes at) (state_of (T.atoms types.old) work.old) result (state_of (T.atoms types.old) work.new) }
{
    let Some(part) = last(work.found.as_slice()) else {
        return Err(Stop::Memory);
    };
    match require_kind(alloc, types, own, &part.ty().sem, Kind::AnyFuture, at) {
        Ok(()) => want_given(alloc, types, work, at),
        Err(stop) => Err(stop),
    }
}

/// What the name stands for is a future, and what it gives is wanted.
fn await_future<T: Types>(
    alloc: Global,
    types: &mut T,
    names: &Names,
    work: &mut Work<'_>,
    q: &QualifiedName,
) -> Result<(), Stop<Fault>>
    requires names { AreNames (T.atoms types.old) names.now }
    requires stands { Stands (state_of (T.atoms types.old) work.old) }
    ensures atoms { T.atoms types.new ≡ T.atoms types.old }
    ensures stands { OnOk result (Stands (state_of (T.atoms types.old) work.new)) }
    ensures comes { Comes (awaits_future T.passes names.now q.now) (state_of (T.atoms types.old) work.old) result (state_of (T.atoms types.old) work.new) }
{
    match give_named(alloc, names, work, q) {
        Ok(()) => expect_given(alloc, types, &names.own, work, q.at),
        Err(stop) => Err(stop),
    }
}

/// What a worker gives, by another handle.
fn known(site: &Site, worker: u32) -> Result<SharedTy, Stop<Fault>>
    ensures found { IfOk result (IsResultOf (slice_get site.now.results.items worker)) }
    ensures refused { IfErr result (IsToldOf (slice_get site.now.results.items worker)) }
{
    match result_of(site, worker) {
        Ok(t) => lift(shared(t)),
        Err(stop) => Err(stop),
    }
}

/// What the worker gives is wanted.
fn await_worker(work: &mut Work<'_>, worker: u32) -> Result<(), Stop<Fault>>
    ensures stands { (env : List Atom) → Stands (state_of env work.old) → OnOk result (Stands (state_of env work.new)) }
    ensures comes { (env : List Atom) → Comes (wants_result_of worker) (state_of env work.old) result (state_of env work.new) }
{
    match known(&work.site, worker) {
        Ok(t) => lift(want(work, t)),
        Err(stop) => Err(stop),
    }
}

/// What is known of the name is wanted: of a worker, or of a future where it is none.
fn await_known<T: Types>(
    alloc: Global,
    types: &mut T,
    names: &Names,
    work: &mut Work<'_>,
    q: &QualifiedName,
    worker: Option<u32>,
) -> Result<(), Stop<Fault>>
    requires names { AreNames (T.atoms types.old) names.now }
    requires stands { Stands (state_of (T.atoms types.old) work.old) }
    ensures atoms { T.atoms types.new ≡ T.atoms types.old }
    ensures stands { OnOk result (Stands (state_of (T.atoms types.old) work.new)) }
    ensures comes { Comes (awaits_by T.passes names.now q.now worker) (state_of (T.atoms types.old) work.old) result (state_of (T.atoms types.old) work.new) }
{
    match worker {
        Some(worker) => await_worker(work, worker),
        None => await_future(alloc, types, names, work, q),
    }
}

/// The name stands in a wait.
fn await_name<T: Types>(
    alloc: Global,
    types: &mut T,
    names: &Names,
    work: &mut Work<'_>,
    q: &QualifiedName,
) -> Result<(), Stop<Fault>>
    requires names { AreNames (T.atoms types.old) names.now }
    requires stands { Stands (state_of (T.atoms types.old) work.old) }
    ensures atoms { T.atoms types.new ≡ T.atoms types.old }
    ensures stands { OnOk result (Stands (state_of (T.atoms types.old) work.new)) }
    ensures comes { Comes (awaits_of T.passes names.now q.now) (state_of (T.atoms types.old) work.old) result (state_of (T.atoms types.old) work.new) }
{
    match worker_named(work.site.workers.as_slice(), q) {
        Ok(worker) => await_known(alloc, types, names, work, q, worker),
        Err(Memory) => Err(Stop::Memory),
    }
}

/// The name stands in a wait, and what is known of it is wanted: what a worker of the function gives, or what a future gives, or an error
/// where it was taken before (Ballerina specification, "Single wait action"). It is refused as the name would be as an expression, with
/// `NotSubtype` at its place where that is no future, and with the fault of the descriptor of the worker's result.
pub fn awaits<T: Types>(checker: &mut Checker<'_, T>, name: &QualifiedName)
    requires { Holds (T.atoms checker.old.types) checker.old.names.now checker.old.work }
    ensures holds { Holds (T.atoms checker.new.types) checker.new.names.now checker.new.work }
    ensures names { checker.new.names.now ≡ checker.old.names.now }
    ensures met { Runs (meets T.passes checker.old.names.now) (one (Awaits name.now)) (going (T.atoms checker.old.types) checker.old.work) (going (T.atoms checker.new.types) checker.new.work) }
{
    if has_stopped(&checker.work) {
        return;
    }
    let answer = await_name(
        checker.alloc,
        &mut checker.types,
        checker.names,
        &mut checker.work,
        name,
    );
    note(&checker.types, &mut checker.work, answer);
}
