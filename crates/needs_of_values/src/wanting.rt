//! What is wanted of parts to come.
#![tactic(auto, using(check_work::proofs::Noting::meeting))]

ghost use Rattle.std.specs.Prelude.{◌≡◌, ◌++◌, ◌∷◌, [], IfOk, List, OnOk, Ok as Given, Option, length};
ghost use Rattle.checks.specs.Checks.{Comes};
ghost use Rattle.descriptors.specs.Described.{described_whole};
ghost use Rattle.descriptors.specs.Descriptors.{descriptor_of};
ghost use Rattle.descriptors.specs.Steps.{AreNames, AreOwnTypes, scope_of};
ghost use Rattle.flow_narrowing.specs.Flows.{IfShared};
ghost use Rattle.needs.specs.Needs.{Runs};
ghost use Rattle.operations.specs.Kinds.{IsError};
ghost use Rattle.type_model.specs.Calls.{KeepsTypes};
ghost use Rattle.type_model.specs.Defined.{TyBelow};
ghost use Rattle.typed_tree.specs.Listed.{one};
ghost use Rattle.typed_tree.specs.SharedTypes.{Shared, sem_of};
ghost use Rattle.expr_needs.specs.Needs.{Describes, WantsErrorToo, Widens};
ghost use Rattle.check_words.specs.Meets.{meets};
ghost use Rattle.check_words.specs.Stands.{SharedBelow, Stands};
ghost use Rattle.check_words.specs.State.{State};
ghost use Rattle.check_words.specs.Values.{describes as describes_of, wants_beside_error, wants_error_too as wants_error_too_of, widens as widens_of};
ghost use Rattle.check_words.specs.Words.{EitherOf};
ghost use Rattle.check_work.specs.Views.{Holds, going, state_of};

use crate::shapes::shapes_in;
use bal_base::{Fault, Memory, Place, Stop};
use bal_tree::TypeTree;
use check_kinds::{either_of, widened};
use check_work::{Checker, Work, has_stopped, last, note, note_made, shared};
use descriptors::{Names, OwnTypes, Scope, describe};
use std::alloc::Global;
use std::rc::Rc;
use type_model::{BasicSet, Ty, Types};
use typed_tree::SharedTy;

/// The type or an error.
fn or_error<T: Types>(alloc: Global, types: &mut T, t: &SharedTy) -> Result<SharedTy, Memory>
    requires { SharedBelow (length (T.atoms types.old)) t.now }
    ensures atoms { T.atoms types.new ≡ T.atoms types.old }
    ensures below { IfOk result (SharedBelow (length (T.atoms types.old))) }
    ensures is { IfOk result (λ u. EitherOf (sem_of t.now) IsError (T.atoms types.old) u.value) }
{
    let shapes = shapes_in(t);
    let ty = either_of(alloc, types, shapes, BasicSet::ErrorAll)?;
    Ok(Rc::new(alloc, ty)?)
}

/// What is wanted or an error, where something is wanted.
fn beside_error<T: Types>(
    alloc: Global,
    types: &mut T,
    want: &Option<SharedTy>,
) -> Result<Option<SharedTy>, Memory>
    requires { IfShared (TyBelow (length (T.atoms types.old))) want.now }
    ensures atoms { T.atoms types.new ≡ T.atoms types.old }
    ensures below { IfOk result (IfShared (TyBelow (length (T.atoms types.old)))) }
    ensures comes { (s : State) (ws : List (Option Shared)) → s.atoms ≡ T.atoms types.old → IfOk result (λ w. ws ≡ s.wants ++ w ∷ [] → Comes (wants_beside_error want.now) s (Given tt) (record s { wants = ws })) }
{
    match want {
        Some(t) => {
            let either = or_error(alloc, types, t)?;
            Ok(Some(either))
        }
        None => Ok(None),
    }
}

/// What is wanted last is wanted beside an error.
fn want_error_too<T: Types>(alloc: Global, types: &mut T, work: &mut Work<'_>) -> Result<(), Memory>
    requires { Stands (state_of (T.atoms types.old) work.old) }
    ensures atoms { T.atoms types.new ≡ T.atoms types.old }
    ensures stands { OnOk result (Stands (state_of (T.atoms types.old) work.new)) }
    ensures comes { OnOk result (Comes wants_error_too_of (state_of (T.atoms types.old) work.old) (Given tt) (state_of (T.atoms types.old) work.new)) }
{
    let Some(want) = last(work.wants.as_slice()) else {
        return Err(Memory);
    };
    let want = beside_error(alloc, types, want)?;
    work.wants.push(want)?;
    Ok(())
}

/// What is wanted last, or an error, is wanted beside it. It costs a type that is written anew.
pub fn wants_error_too<T: Types>(checker: &mut Checker<'_, T>)
    requires { Holds (T.atoms checker.old.types) checker.old.names.now checker.old.work }
    ensures holds { Holds (T.atoms checker.new.types) checker.new.names.now checker.new.work }
    ensures names { checker.new.names.now ≡ checker.old.names.now }
    ensures met { Runs (meets T.passes checker.old.names.now) (one WantsErrorToo) (going (T.atoms checker.old.types) checker.old.work) (going (T.atoms checker.new.types) checker.new.work) }
{
    if has_stopped(&checker.work) {
        return;
    }
    let made = want_error_too(checker.alloc, &mut checker.types, &mut checker.work);
    note_made(&checker.types, &mut checker.work, made);
}

/// The number, if it isn't too large.
fn small(n: usize) -> Result<u32, Memory>
    ensures { IfOk result (λ m. m ≡ n) }
{
    if n > u32::MAX as usize {
        return Err(Memory);
    }
    Ok(n as u32)
}

/// The number, where there is one.
fn small_if(n: Option<usize>) -> Result<Option<u32>, Memory>
    ensures { IfOk result (λ m. m ≡ n) }
{
    match n {
        Some(n) => Ok(Some(small(n)?)),
        None => Ok(None),
    }
}

/// The numbers of a module and of its file.
fn numbers(scope: Scope) -> Result<(u32, Option<u32>), Memory>
    ensures { IfOk result (λ numbers. scope_of numbers.0 numbers.1 ≡ scope) }
{
    let home = small(scope.module)?;
    let file = small_if(scope.file)?;
    Ok((home, file))
}

/// The type of the descriptor, as it stands there.
fn described<T: Types>(
    alloc: Global,
    types: &mut T,
    names: &Names,
    scope: Scope,
    tree: &TypeTree,
) -> Result<Ty, Stop<Fault>>
    requires { AreNames (T.atoms types.old) names.now }
    ensures comes { Comes (described_whole names.now scope (descriptor_of tree.now)) (T.atoms types.old) result (T.atoms types.new) }
    ensures defined { IfOk result (TyBelow (length (T.atoms types.new))) }
    ensures kept { KeepsTypes (T.atoms types.old) (T.atoms types.new) }
    ensures names { AreNames (T.atoms types.new) names.now }
{
    match numbers(scope) {
        Ok((home, file)) => describe(alloc, types, names, home, file, tree),
        Err(Memory) => Err(Stop::Memory),
    }
}

/// The type of the descriptor is wanted.
fn want_described<T: Types>(
    alloc: Global,
    types: &mut T,
    names: &Names,
    work: &mut Work<'_>,
    tree: &TypeTree,
) -> Result<(), Stop<Fault>>
    requires names { AreNames (T.atoms types.old) names.now }
    requires stands { Stands (state_of (T.atoms types.old) work.old) }
    ensures names { OnOk result (AreNames (T.atoms types.new) names.now) }
    ensures stands { OnOk result (Stands (state_of (T.atoms types.new) work.new)) }
    ensures comes { Comes (describes_of names.now tree.now) (state_of (T.atoms types.old) work.old) result (state_of (T.atoms types.new) work.new) }
{
    let ty = described(alloc, types, names, work.site.scope, tree)?;
    let ty = Rc::new(alloc, ty)?;
    work.wants.push(Some(ty))?;
    Ok(())
}

/// The type of the descriptor is wanted (Ballerina specification, section 5). Refusals and cost are those of `describe`.
pub fn describes<T: Types>(checker: &mut Checker<'_, T>, tree: &TypeTree)
    requires { Holds (T.atoms checker.old.types) checker.old.names.now checker.old.work }
    ensures holds { Holds (T.atoms checker.new.types) checker.new.names.now checker.new.work }
    ensures names { checker.new.names.now ≡ checker.old.names.now }
    ensures met { Runs (meets T.passes checker.old.names.now) (one (Describes tree.now)) (going (T.atoms checker.old.types) checker.old.work) (going (T.atoms checker.new.types) checker.new.work) }
{
    if has_stopped(&checker.work) {
        return;
    }
    let answer = want_described(
        checker.alloc,
        &mut checker.types,
        checker.names,
        &mut checker.work,
        tree,
    );
    note(&checker.types, &mut checker.work, answer);
}

/// The type of the last part is wanted, or the wider one.
fn want_widened<T: Types>(
    alloc: Global,
    types: &mut T,
    own: &OwnTypes,
    work: &mut Work<'_>,
    at: Place,
) -> Result<(), Stop<Fault>>
    requires own { AreOwnTypes (T.atoms types.old) own.now }
    requires stands { Stands (state_of (T.atoms types.old) work.old) }
    ensures atoms { T.atoms types.new ≡ T.atoms types.old }
    ensures stands { OnOk result (Stands (state_of (T.atoms types.old) work.new)) }
    ensures comes { Comes (widens_of T.passes at) (state_of (T.atoms types.old) work.old) result (state_of (T.atoms types.old) work.new) }
{
    let Some(e) = last(work.found.as_slice()) else {
        return Err(Stop::Memory);
    };
    let ty = shared(e.ty())?;
    let wider = widened(alloc, types, own, ty, at)?;
    work.wants.push(Some(wider))?;
    Ok(())
}

/// The type of the last part is wanted, and where it is below int, string or boolean that type. Three questions of the decider at most;
/// `TypeLimit` at the place where one is too large.
pub fn widens<T: Types>(checker: &mut Checker<'_, T>, at: Place)
    requires { Holds (T.atoms checker.old.types) checker.old.names.now checker.old.work }
    ensures holds { Holds (T.atoms checker.new.types) checker.new.names.now checker.new.work }
    ensures names { checker.new.names.now ≡ checker.old.names.now }
    ensures met { Runs (meets T.passes checker.old.names.now) (one (Widens at)) (going (T.atoms checker.old.types) checker.old.work) (going (T.atoms checker.new.types) checker.new.work) }
{
    if has_stopped(&checker.work) {
        return;
    }
    let answer = want_widened(
        checker.alloc,
        &mut checker.types,
        &checker.names.own,
        &mut checker.work,
        at,
    );
    note(&checker.types, &mut checker.work, answer);
}
