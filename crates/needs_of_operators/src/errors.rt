//! Casts, and errors that are told from other values.
#![tactic(auto, using(check_kinds::proofs::Over::overs, check_work::proofs::Noting::meeting))]

ghost use Rattle.std.specs.Prelude.{◌≡◌, ◌++◌, ◌∷◌, [], IfOk, OnOk, Ok as Given, Some as There, length, true};
ghost use Rattle.checks.specs.Checks.{Comes};
ghost use Rattle.needs.specs.Needs.{Runs};
ghost use Rattle.type_model.specs.Defined.{TyBelow};
ghost use Rattle.typed_tree.specs.Listed.{one};
ghost use Rattle.typed_tree.specs.SharedTypes.{sem_of};
ghost use Rattle.typed_tree.specs.Views.{IsCheck, IsTrap};
ghost use Rattle.expr_needs.specs.Needs.{Casts, Checks, ChecksPanicking, Traps};
ghost use Rattle.operations.specs.Kinds.{IsError};
ghost use Rattle.check_kinds.specs.Over.{ComesOver};
ghost use Rattle.check_words.specs.Meets.{meets};
ghost use Rattle.check_words.specs.Stands.{PartBelow, SharedBelow, Stands};
ghost use Rattle.check_words.specs.Values.{casts as casts_of, checked as checked_of, checks as checks_of, traps as traps_of};
ghost use Rattle.check_words.specs.Words.{EitherOf, PartOf, SharedOf, sem};
ghost use Rattle.check_work.specs.Views.{Holds, going, state_of};
ghost use Rattle.needs_of_operators.specs.Checked.{Became, IsSlotMore, errors_fit};

use bal_base::{Fault, Memory, Place, Stop};
use check_kinds::{either_of, part_of, rest_of, shared_of};
use check_words::{check, trap};
use check_work::{
    Checker, Unit, Work, at_hand, gather, has_stopped, last, last_taken, note, note_made, shared,
    take_one, taken,
};
use checks::require_below;
use descriptors::lift;
use std::alloc::Global;
use std::rc::Rc;
use type_model::{BasicSet, Ty, Types};
use typed_tree::{SharedTy, StrictForm, TypedExpr};

/// The type of a part, or an error, to be shared.
fn with_errors<T: Types>(alloc: Global, types: &mut T, part: &TypedExpr) -> Result<SharedTy, Memory>
    requires { PartBelow (length (T.atoms types.old)) part.now }
    ensures atoms { T.atoms types.new ≡ T.atoms types.old }
    ensures below { IfOk result (SharedBelow (length (T.atoms types.old))) }
    ensures is { IfOk result (λ t. EitherOf (sem part.now) IsError (T.atoms types.old) t.value) }
{
    let shapes = either_of(alloc, types, &part.ty().sem, BasicSet::ErrorAll)?;
    Ok(Rc::new(alloc, shapes)?)
}

/// What a part may be that is no error, to be shared.
fn without_errors<T: Types>(
    alloc: Global,
    types: &mut T,
    part: &TypedExpr,
) -> Result<SharedTy, Memory>
    requires { PartBelow (length (T.atoms types.old)) part.now }
    ensures atoms { T.atoms types.new ≡ T.atoms types.old }
    ensures below { IfOk result (SharedBelow (length (T.atoms types.old))) }
    ensures is { IfOk result (λ t. PartOf (sem part.now) (λ x. ¬ IsError x) (T.atoms types.old) t.value) }
{
    let shapes = rest_of(alloc, types, &part.ty().sem, BasicSet::ErrorAll)?;
    Ok(Rc::new(alloc, shapes)?)
}

/// The errors that a part may be.
fn errors_of<T: Types>(alloc: Global, types: &mut T, part: &TypedExpr) -> Result<Ty, Memory>
    requires { PartBelow (length (T.atoms types.old)) part.now }
    ensures atoms { T.atoms types.new ≡ T.atoms types.old }
    ensures below { IfOk result (TyBelow (length (T.atoms types.old))) }
    ensures is { IfOk result (PartOf (sem part.now) IsError (T.atoms types.old)) }
{
    part_of(alloc, types, &part.ty().sem, BasicSet::ErrorAll)
}

/// What a part may be that is of the type too, to be shared.
fn within<T: Types>(
    alloc: Global,
    types: &mut T,
    part: &TypedExpr,
    t: &SharedTy,
) -> Result<SharedTy, Memory>
    requires part { PartBelow (length (T.atoms types.old)) part.now }
    requires wanted { SharedBelow (length (T.atoms types.old)) t.now }
    ensures atoms { T.atoms types.new ≡ T.atoms types.old }
    ensures below { IfOk result (SharedBelow (length (T.atoms types.old))) }
    ensures is { IfOk result (λ r. SharedOf (sem part.now) (sem_of t.now) (T.atoms types.old) r.value) }
{
    let shapes = shared_of(alloc, types, &part.ty().sem, &t.sem)?;
    Ok(Rc::new(alloc, shapes)?)
}

/// The last part becomes the operand of a `trap` of this type.
fn put_trap(
    alloc: Global,
    found: &mut Vec<TypedExpr>,
    ty: SharedTy,
    at: Place,
) -> Result<(), Memory>
    ensures { OnOk result (Became (λ a. IsTrap a ty at) found.old.items found.new.items) }
{
    let part = take_one(found)?;
    let whole = trap(alloc, part, ty, at)?;
    found.push(whole)?;
    Ok(())
}

/// The last part becomes the operand of `trap`.
fn trap_part<T: Types>(
    alloc: Global,
    types: &mut T,
    work: &mut Work<'_>,
    at: Place,
) -> Result<(), Memory>
    requires { Stands (state_of (T.atoms types.old) work.old) }
    ensures atoms { T.atoms types.new ≡ T.atoms types.old }
    ensures stands { OnOk result (Stands (state_of (T.atoms types.old) work.new)) }
    ensures comes { OnOk result (Comes (traps_of at) (state_of (T.atoms types.old) work.old) (Given tt) (state_of (T.atoms types.old) work.new)) }
{
    let Some(part) = last(work.found.as_slice()) else {
        return Err(Memory);
    };
    let ty = with_errors(alloc, types, part)?;
    put_trap(alloc, &mut work.found, ty, at)?;
    work.ways = None;
    Ok(())
}

/// The last part is the operand of `trap`: its value, or the error of a panic (Ballerina specification, "Trap expression"). A type is written anew.
pub fn traps<T: Types>(checker: &mut Checker<'_, T>, at: Place)
    requires { Holds (T.atoms checker.old.types) checker.old.names.now checker.old.work }
    ensures holds { Holds (T.atoms checker.new.types) checker.new.names.now checker.new.work }
    ensures names { checker.new.names.now ≡ checker.old.names.now }
    ensures met { Runs (meets T.passes checker.old.names.now) (one (Traps at)) (going (T.atoms checker.old.types) checker.old.work) (going (T.atoms checker.new.types) checker.new.work) }
{
    if has_stopped(&checker.work) {
        return;
    }
    let made = trap_part(checker.alloc, &mut checker.types, &mut checker.work, at);
    note_made(&checker.types, &mut checker.work, made);
}

/// A slot more of the unit at hand, of this declared type; gives its number.
fn add_slot(unit: &mut Option<Unit>, ty: SharedTy) -> Result<u32, Memory>
    ensures { IfOk result (IsSlotMore ty unit.old unit.new) }
{
    let mut held = taken(unit)?;
    let slot = held.new_slot(ty)?;
    *unit = Some(held);
    Ok(slot)
}

/// The last part becomes the operand of a `check` or `checkpanic` of this type, which keeps its value in the slot.
fn put_check(
    alloc: Global,
    found: &mut Vec<TypedExpr>,
    panics: bool,
    own: u32,
    ty: SharedTy,
    at: Place,
) -> Result<(), Memory>
    ensures { OnOk result (Became (λ a. IsCheck panics own a ty at) found.old.items found.new.items) }
{
    let part = take_one(found)?;
    let whole = check(alloc, panics, own, part, ty, at)?;
    found.push(whole)?;
    Ok(())
}

/// The last part becomes the operand of `check`, or of `checkpanic`.
fn check_part<T: Types>(
    alloc: Global,
    types: &mut T,
    work: &mut Work<'_>,
    panics: bool,
    at: Place,
) -> Result<(), Memory>
    requires { Stands (state_of (T.atoms types.old) work.old) }
    ensures atoms { T.atoms types.new ≡ T.atoms types.old }
    ensures stands { OnOk result (Stands (state_of (T.atoms types.old) work.new)) }
    ensures comes { OnOk result (Comes (checked_of panics at) (state_of (T.atoms types.old) work.old) (Given tt) (state_of (T.atoms types.old) work.new)) }
{
    let Some(part) = last(work.found.as_slice()) else {
        return Err(Memory);
    };
    let kept = shared(part.ty())?;
    let ty = without_errors(alloc, types, part)?;
    let own = add_slot(&mut work.unit, kept)?;
    put_check(alloc, &mut work.found, panics, own, ty, at)?;
    work.ways = None;
    Ok(())
}

/// The last part is the operand of `checkpanic`, which panics with an error (Ballerina specification, "Checking expression"). A type is written
/// anew.
pub fn checks_panicking<T: Types>(checker: &mut Checker<'_, T>, at: Place)
    requires { Holds (T.atoms checker.old.types) checker.old.names.now checker.old.work }
    ensures holds { Holds (T.atoms checker.new.types) checker.new.names.now checker.new.work }
    ensures names { checker.new.names.now ≡ checker.old.names.now }
    ensures met { Runs (meets T.passes checker.old.names.now) (one (ChecksPanicking at)) (going (T.atoms checker.old.types) checker.old.work) (going (T.atoms checker.new.types) checker.new.work) }
{
    if has_stopped(&checker.work) {
        return;
    }
    let made = check_part(
        checker.alloc,
        &mut checker.types,
        &mut checker.work,
        true,
        at,
    );
    note_made(&checker.types, &mut checker.work, made);
}

/// The errors that a part may be are below the result.
fn errors_below<T: Types>(
    alloc: Global,
    types: &mut T,
    part: &TypedExpr,
    given: &SharedTy,
    at: Place,
) -> Result<(), Stop<Fault>>
    requires part { PartBelow (length (T.atoms types.old)) part.now }
    requires wanted { SharedBelow (length (T.atoms types.old)) given.now }
    ensures atoms { T.atoms types.new ≡ T.atoms types.old }
    ensures comes { ComesOver (errors_fit T.passes part.now given.now at) (T.atoms types.old) result (T.atoms types.new) }
{
    match errors_of(alloc, types, part) {
        Ok(errors) => require_below(alloc, types, &errors.sem, &given.sem, Some(at)),
        Err(Memory) => Err(Stop::Memory),
    }
}

/// The errors of the last part are below the result of the unit at hand, and it becomes the operand of `check`.
fn check_result<T: Types>(
    alloc: Global,
    types: &mut T,
    work: &mut Work<'_>,
    at: Place,
) -> Result<(), Stop<Fault>>
    requires { Stands (state_of (T.atoms types.old) work.old) }
    ensures atoms { T.atoms types.new ≡ T.atoms types.old }
    ensures stands { OnOk result (Stands (state_of (T.atoms types.old) work.new)) }
    ensures comes { Comes (checks_of T.passes at) (state_of (T.atoms types.old) work.old) result (state_of (T.atoms types.old) work.new) }
{
    let unit = at_hand(&work.unit)?;
    let Some(part) = last(work.found.as_slice()) else {
        return Err(Stop::Memory);
    };
    match errors_below(alloc, types, part, &unit.result, at) {
        Ok(()) => lift(check_part(alloc, types, work, false, at)),
        Err(stop) => Err(stop),
    }
}

/// The last part is the operand of `check`, which returns an error (Ballerina specification, "Checking expression"): `NotSubtype` at the place
/// where an error of it isn't of the unit's result, with the shape that shows it; `TypeLimit` where that question is too large. Two
/// types are written anew, and one question is asked.
pub fn checks<T: Types>(checker: &mut Checker<'_, T>, at: Place)
    requires { Holds (T.atoms checker.old.types) checker.old.names.now checker.old.work }
    ensures holds { Holds (T.atoms checker.new.types) checker.new.names.now checker.new.work }
    ensures names { checker.new.names.now ≡ checker.old.names.now }
    ensures met { Runs (meets T.passes checker.old.names.now) (one (Checks at)) (going (T.atoms checker.old.types) checker.old.work) (going (T.atoms checker.new.types) checker.new.work) }
{
    if has_stopped(&checker.work) {
        return;
    }
    let answer = check_result(checker.alloc, &mut checker.types, &mut checker.work, at);
    note(&checker.types, &mut checker.work, answer);
}

/// The type that is wanted last is taken.
fn take_known(wants: &mut Vec<Option<SharedTy>>) -> Result<SharedTy, Memory>
    ensures { IfOk result (λ t. wants.old.items ≡ wants.new.items ++ There t ∷ []) }
{
    let mut want = last_taken(wants)?;
    let t = taken(&mut want)?;
    Ok(t)
}

/// The last part is cast to what is wanted.
fn cast<T: Types>(
    alloc: Global,
    types: &mut T,
    work: &mut Work<'_>,
    at: Place,
) -> Result<(), Memory>
    requires { Stands (state_of (T.atoms types.old) work.old) }
    ensures atoms { T.atoms types.new ≡ T.atoms types.old }
    ensures stands { OnOk result (Stands (state_of (T.atoms types.old) work.new)) }
    ensures comes { OnOk result (Comes (casts_of at) (state_of (T.atoms types.old) work.old) (Given tt) (state_of (T.atoms types.old) work.new)) }
{
    let t = take_known(&mut work.wants)?;
    let Some(part) = last(work.found.as_slice()) else {
        return Err(Memory);
    };
    let ty = within(alloc, types, part, &t)?;
    gather(&mut work.found, StrictForm::Cast(t), 1, ty, at)?;
    work.ways = None;
    Ok(())
}

/// The last part is cast to the type that is wanted, which is wanted no more (Ballerina specification, "Type cast expression"). A type is written
/// anew.
pub fn casts<T: Types>(checker: &mut Checker<'_, T>, at: Place)
    requires { Holds (T.atoms checker.old.types) checker.old.names.now checker.old.work }
    ensures holds { Holds (T.atoms checker.new.types) checker.new.names.now checker.new.work }
    ensures names { checker.new.names.now ≡ checker.old.names.now }
    ensures met { Runs (meets T.passes checker.old.names.now) (one (Casts at)) (going (T.atoms checker.old.types) checker.old.work) (going (T.atoms checker.new.types) checker.new.work) }
{
    if has_stopped(&checker.work) {
        return;
    }
    let made = cast(checker.alloc, &mut checker.types, &mut checker.work, at);
    note_made(&checker.types, &mut checker.work, made);
}
