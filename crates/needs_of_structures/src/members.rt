//! Members that were found.
#![tactic(auto, using(check_work::proofs::Noting::meeting))]

ghost use Rattle.std.specs.Prelude.{◌≡◌, IfOk, IfSome, List, None as Absent, OnOk, length, map};
ghost use Rattle.bal_base.specs.declared.fault.FaultCode.TheVariants.{ReadOnlyHolds};
ghost use Rattle.checks.specs.Checks.{Comes};
ghost use Rattle.needs.specs.Needs.{Runs};
ghost use Rattle.descriptors.specs.Steps.{AreOwnTypes};
ghost use Rattle.flow_narrowing.specs.Flows.{IfShared};
ghost use Rattle.type_model.specs.declared.atoms.AtomDef.{AtomDef as Atom};
ghost use Rattle.type_model.specs.Calls.{KeepsTypes};
ghost use Rattle.type_model.specs.Defined.{TyBelow};
ghost use Rattle.typed_tree.specs.Listed.{one};
ghost use Rattle.expr_needs.specs.Needs.{IsDetail, IsItem};
ghost use Rattle.check_kinds.specs.Over.{ComesOver};
ghost use Rattle.check_words.specs.Constructors.{is_detail as is_detail_of, is_frozen as is_frozen_of, is_item as is_item_of, may_stand, with_member};
ghost use Rattle.check_words.specs.Meets.{meets};
ghost use Rattle.check_words.specs.Stands.{PartBelow, Stands};
ghost use Rattle.check_words.specs.State.{IsLast};
ghost use Rattle.check_words.specs.Values.{widened as widened_of};
ghost use Rattle.check_words.specs.Words.{below_if, unless};
ghost use Rattle.check_work.specs.Views.{Holds, constructor_of, going, state_of};
ghost use Rattle.needs_of_structures.specs.Changed.{IsChanged};
ghost use Rattle.needs_of_structures.specs.Fitting.{IsTaken, added_copy, copied, fits_detail as fits_detail_of, fits_item as fits_item_of, fits_so, frozen_so, stands_so};

use crate::keys::refused;
use bal_base::{Fault, FaultCode, Memory, Place, Stop};
use check_kinds::{is_frozen, widened};
use check_work::{
    Checker, Constructor, Work, drop_last, has_stopped, last, last_taken, note, shared,
};
use checks::require_below;
use descriptors::{OwnTypes, copy, lift};
use std::alloc::Global;
use type_model::{Ty, Types};
use typed_tree::{SharedTy, TypedExpr};

// ---- what is asked

/// The member is below what is wanted, if something is: else `NotSubtype` at the place, or `TypeLimit` where the question is too large. It is
/// one question of the decider.
pub fn below_want<T: Types>(
    alloc: Global,
    types: &mut T,
    want: &Option<SharedTy>,
    e: &TypedExpr,
    at: Place,
) -> Result<(), Stop<Fault>>
    requires want { IfShared (TyBelow (length (T.atoms types.old))) want.now }
    requires part { PartBelow (length (T.atoms types.old)) e.now }
    ensures atoms { T.atoms types.new ≡ T.atoms types.old }
    ensures comes { ComesOver (below_if T.passes want.now e.now at) (T.atoms types.old) result (T.atoms types.new) }
{
    match want {
        Some(t) => require_below(alloc, types, &e.ty().sem, &t.sem, Some(at)),
        None => Ok(()),
    }
}

/// `ReadOnlyHolds` at the place, unless so.
fn frozen_unless(so: bool, at: Place) -> Result<(), Stop<Fault>>
    ensures { (env : List Atom) → ComesOver (unless so ReadOnlyHolds at) env result env }
{
    match so {
        true => Ok(()),
        false => refused(FaultCode::ReadOnlyHolds, at),
    }
}

/// The member is immutable anydata: else `ReadOnlyHolds` at the place.
fn require_frozen<T: Types>(
    alloc: Global,
    types: &mut T,
    e: &TypedExpr,
    at: Place,
) -> Result<(), Stop<Fault>>
    requires { PartBelow (length (T.atoms types.old)) e.now }
    ensures atoms { T.atoms types.new ≡ T.atoms types.old }
    ensures comes { ComesOver (is_frozen_of T.passes e.now at) (T.atoms types.old) result (T.atoms types.new) }
{
    match is_frozen(alloc, types, &e.ty().sem, at) {
        Ok(so) => frozen_unless(so, at),
        Err(stop) => Err(stop),
    }
}

/// The member may stand in the structure.
fn allowed<T: Types>(
    alloc: Global,
    types: &mut T,
    c: &Constructor,
    e: &TypedExpr,
    at: Place,
) -> Result<(), Stop<Fault>>
    requires { PartBelow (length (T.atoms types.old)) e.now }
    ensures atoms { T.atoms types.new ≡ T.atoms types.old }
    ensures comes { ComesOver (may_stand T.passes (constructor_of c.now) e.now at) (T.atoms types.old) result (T.atoms types.new) }
{
    match c.immutable {
        true => require_frozen(alloc, types, e, at),
        false => Ok(()),
    }
}

/// A copy of the type, which is widened.
fn wide<T: Types>(
    alloc: Global,
    types: &mut T,
    own: &OwnTypes,
    t: SharedTy,
    at: Place,
) -> Result<Ty, Stop<Fault>>
    requires own { AreOwnTypes (T.atoms types.old) own.now }
    requires below { TyBelow (length (T.atoms types.old)) t.value }
    ensures atoms { T.atoms types.new ≡ T.atoms types.old }
    ensures below { IfOk result (TyBelow (length (T.atoms types.old))) }
    ensures comes { ComesOver (copied (widened_of T.passes t at)) (T.atoms types.old) result (T.atoms types.new) }
{
    match widened(alloc, types, own, t, at) {
        Ok(t) => lift(copy(alloc, &t)),
        Err(stop) => Err(stop),
    }
}

/// The type of the member, which is widened.
fn widened_copy<T: Types>(
    alloc: Global,
    types: &mut T,
    own: &OwnTypes,
    e: &TypedExpr,
    at: Place,
) -> Result<Ty, Stop<Fault>>
    requires own { AreOwnTypes (T.atoms types.old) own.now }
    requires part { PartBelow (length (T.atoms types.old)) e.now }
    ensures atoms { T.atoms types.new ≡ T.atoms types.old }
    ensures below { IfOk result (TyBelow (length (T.atoms types.old))) }
    ensures comes { ComesOver (added_copy T.passes Absent e.now at) (T.atoms types.old) result (T.atoms types.new) }
{
    match shared(e.ty()) {
        Ok(t) => wide(alloc, types, own, t, at),
        Err(Memory) => Err(Stop::Memory),
    }
}

/// The type that the member adds to those of the construct: where nothing was chosen it is widened.
fn added<T: Types>(
    alloc: Global,
    types: &mut T,
    own: &OwnTypes,
    choice: Option<u32>,
    e: &TypedExpr,
    at: Place,
) -> Result<Ty, Stop<Fault>>
    requires own { AreOwnTypes (T.atoms types.old) own.now }
    requires part { PartBelow (length (T.atoms types.old)) e.now }
    ensures atoms { T.atoms types.new ≡ T.atoms types.old }
    ensures below { IfOk result (TyBelow (length (T.atoms types.old))) }
    ensures comes { ComesOver (added_copy T.passes choice e.now at) (T.atoms types.old) result (T.atoms types.new) }
{
    match choice {
        Some(_) => lift(copy(alloc, e.ty())),
        None => widened_copy(alloc, types, own, e, at),
    }
}

/// The type that the member adds to those of the construct, where it may stand in the structure: where nothing was chosen it is widened.
/// Some four questions at most, and a copy of the type.
///
/// - `ReadOnlyHolds` at the place: the structure is immutable, and the member isn't immutable data.
/// - `TypeLimit` at the place: a question is too large.
pub fn stood<T: Types>(
    alloc: Global,
    types: &mut T,
    own: &OwnTypes,
    c: &Constructor,
    e: &TypedExpr,
    at: Place,
) -> Result<Ty, Stop<Fault>>
    requires own { AreOwnTypes (T.atoms types.old) own.now }
    requires part { PartBelow (length (T.atoms types.old)) e.now }
    ensures atoms { T.atoms types.new ≡ T.atoms types.old }
    ensures below { IfOk result (TyBelow (length (T.atoms types.old))) }
    ensures comes { ComesOver (stands_so T.passes (constructor_of c.now) e.now at) (T.atoms types.old) result (T.atoms types.new) }
{
    match allowed(alloc, types, c, e, at) {
        Ok(()) => added(alloc, types, own, c.choice, e, at),
        Err(stop) => Err(stop),
    }
}

/// A member that was found: the constructor, the part, and what was expected of it.
#[derive(Clone, Copy)]
pub struct Found<'a> {
    pub constructor: &'a Constructor,
    pub part: &'a TypedExpr,
    pub want: &'a Option<SharedTy>,
}

/// The last constructor, part and want, where there are all three. It costs the same however many there are.
pub fn last_member<'a>(work: &'a Work<'_>) -> Option<Found<'a>>
    ensures constructor { IfSome result (λ f. IsLast (map constructor_of work.now.constructors.items) (constructor_of f.constructor.now)) }
    ensures part { IfSome result (λ f. IsLast work.now.found.items f.part.now) }
    ensures want { IfSome result (λ f. IsLast work.now.wants.items f.want.now) }
{
    let constructor = last(work.constructors.as_slice())?;
    let part = last(work.found.as_slice())?;
    let want = last(work.wants.as_slice())?;
    Some(Found {
        constructor,
        part,
        want,
    })
}

/// The type that the item adds, where it is what it has to be.
fn fitted<T: Types>(
    alloc: Global,
    types: &mut T,
    own: &OwnTypes,
    item: Found<'_>,
    at: Place,
) -> Result<Ty, Stop<Fault>>
    requires own { AreOwnTypes (T.atoms types.old) own.now }
    requires want { IfShared (TyBelow (length (T.atoms types.old))) item.want.now }
    requires part { PartBelow (length (T.atoms types.old)) item.part.now }
    ensures atoms { T.atoms types.new ≡ T.atoms types.old }
    ensures below { IfOk result (TyBelow (length (T.atoms types.old))) }
    ensures comes { ComesOver (fits_so T.passes (constructor_of item.entry.constructor.now) item.entry.part.now item.entry.want.now at) (T.atoms types.old) result (T.atoms types.new) }
{
    match below_want(alloc, types, item.want, item.part, at) {
        Ok(()) => stood(alloc, types, own, item.constructor, item.part, at),
        Err(stop) => Err(stop),
    }
}

/// The type that the item at hand adds.
fn item_added<T: Types>(
    alloc: Global,
    types: &mut T,
    own: &OwnTypes,
    work: &Work<'_>,
    at: Place,
) -> Result<Ty, Stop<Fault>>
    requires own { AreOwnTypes (T.atoms types.old) own.now }
    requires stands { Stands (state_of (T.atoms types.old) work.now) }
    ensures atoms { T.atoms types.new ≡ T.atoms types.old }
    ensures below { IfOk result (TyBelow (length (T.atoms types.old))) }
    ensures comes { Comes (fits_item_of T.passes at) (state_of (T.atoms types.old) work.now) result (state_of (T.atoms types.new) work.now) }
{
    match last_member(work) {
        Some(item) => fitted(alloc, types, own, item, at),
        None => Err(Stop::Memory),
    }
}

// ---- what changes

/// A member more, of this type. Where no constructor is open it is as if memory were wanted.
fn add_member(constructors: &mut Vec<Constructor>, ty: Ty) -> Result<(), Memory>
    ensures { OnOk result (IsChanged (with_member ty) (map constructor_of constructors.old.items) (map constructor_of constructors.new.items)) }
{
    let mut c = last_taken(constructors)?;
    c.types.push(ty)?;
    constructors.push(c)?;
    Ok(())
}

/// A member more of the constructor at hand, of this type; nothing is expected of it any more. Where no constructor is open it is as if
/// memory were wanted.
pub fn take_member(work: &mut Work<'_>, ty: Ty) -> Result<(), Memory>
    ensures { (env : List Atom) → OnOk result (IsTaken ty (state_of env work.old) (state_of env work.new)) }
{
    add_member(&mut work.constructors, ty)?;
    drop_last(&mut work.wants);
    Ok(())
}

/// The last part is an item of the constructor at hand.
fn take_item<T: Types>(
    alloc: Global,
    types: &mut T,
    own: &OwnTypes,
    work: &mut Work<'_>,
    at: Place,
) -> Result<(), Stop<Fault>>
    requires own { AreOwnTypes (T.atoms types.old) own.now }
    requires stands { Stands (state_of (T.atoms types.old) work.old) }
    ensures kept { KeepsTypes (T.atoms types.old) (T.atoms types.new) }
    ensures stands { OnOk result (Stands (state_of (T.atoms types.new) work.new)) }
    ensures comes { Comes (is_item_of T.passes at) (state_of (T.atoms types.old) work.old) result (state_of (T.atoms types.new) work.new) }
{
    match item_added(alloc, types, own, work, at) {
        Ok(ty) => lift(take_member(work, ty)),
        Err(stop) => Err(stop),
    }
}

/// The last part is an item: what is expected of it is expected no more. Its type is that which the construct has for it, and is widened
/// where nothing was chosen. It costs some five questions of the decider at most (Ballerina specification, "List constructor").
///
/// - `NotSubtype` at the place: it isn't of the type that is expected, and a shape shows it.
/// - `ReadOnlyHolds` at the place: the list is immutable, and the item isn't immutable data.
/// - `TypeLimit` at the place: a question is too large.
pub fn is_item<T: Types>(checker: &mut Checker<'_, T>, at: Place)
    requires { Holds (T.atoms checker.old.types) checker.old.names.now checker.old.work }
    ensures holds { Holds (T.atoms checker.new.types) checker.new.names.now checker.new.work }
    ensures names { checker.new.names.now ≡ checker.old.names.now }
    ensures met { Runs (meets T.passes checker.old.names.now) (one (IsItem at)) (going (T.atoms checker.old.types) checker.old.work) (going (T.atoms checker.new.types) checker.new.work) }
{
    if has_stopped(&checker.work) {
        return;
    }
    let answer = take_item(
        checker.alloc,
        &mut checker.types,
        &checker.names.own,
        &mut checker.work,
        at,
    );
    note(&checker.types, &mut checker.work, answer);
}

// ---- details of errors

/// The type of the detail, where it is immutable.
fn frozen_copy<T: Types>(
    alloc: Global,
    types: &mut T,
    e: &TypedExpr,
    at: Place,
) -> Result<Ty, Stop<Fault>>
    requires { PartBelow (length (T.atoms types.old)) e.now }
    ensures atoms { T.atoms types.new ≡ T.atoms types.old }
    ensures below { IfOk result (TyBelow (length (T.atoms types.old))) }
    ensures comes { ComesOver (frozen_so T.passes e.now at) (T.atoms types.old) result (T.atoms types.new) }
{
    match require_frozen(alloc, types, e, at) {
        Ok(()) => lift(copy(alloc, e.ty())),
        Err(stop) => Err(stop),
    }
}

/// The type that the detail at hand adds.
fn detail_added<T: Types>(
    alloc: Global,
    types: &mut T,
    work: &Work<'_>,
    at: Place,
) -> Result<Ty, Stop<Fault>>
    requires { Stands (state_of (T.atoms types.old) work.now) }
    ensures atoms { T.atoms types.new ≡ T.atoms types.old }
    ensures below { IfOk result (TyBelow (length (T.atoms types.old))) }
    ensures comes { Comes (fits_detail_of T.passes at) (state_of (T.atoms types.old) work.now) result (state_of (T.atoms types.new) work.now) }
{
    match last(work.constructors.as_slice()) {
        Some(_) => match last(work.found.as_slice()) {
            Some(e) => frozen_copy(alloc, types, e, at),
            None => Err(Stop::Memory),
        },
        None => Err(Stop::Memory),
    }
}

/// The last part is a detail of the error at hand.
fn take_detail<T: Types>(
    alloc: Global,
    types: &mut T,
    work: &mut Work<'_>,
    at: Place,
) -> Result<(), Stop<Fault>>
    requires { Stands (state_of (T.atoms types.old) work.old) }
    ensures kept { KeepsTypes (T.atoms types.old) (T.atoms types.new) }
    ensures stands { OnOk result (Stands (state_of (T.atoms types.new) work.new)) }
    ensures comes { Comes (is_detail_of T.passes at) (state_of (T.atoms types.old) work.old) result (state_of (T.atoms types.new) work.new) }
{
    match detail_added(alloc, types, work, at) {
        Ok(ty) => lift(add_member(&mut work.constructors, ty)),
        Err(stop) => Err(stop),
    }
}

/// The last part is a detail of an error. One question of the decider (Ballerina specification, "Error constructor").
///
/// - `ReadOnlyHolds` at the place: it isn't immutable data.
/// - `TypeLimit` at the place: the question is too large.
pub fn is_detail<T: Types>(checker: &mut Checker<'_, T>, at: Place)
    requires { Holds (T.atoms checker.old.types) checker.old.names.now checker.old.work }
    ensures holds { Holds (T.atoms checker.new.types) checker.new.names.now checker.new.work }
    ensures names { checker.new.names.now ≡ checker.old.names.now }
    ensures met { Runs (meets T.passes checker.old.names.now) (one (IsDetail at)) (going (T.atoms checker.old.types) checker.old.work) (going (T.atoms checker.new.types) checker.new.work) }
{
    if has_stopped(&checker.work) {
        return;
    }
    let answer = take_detail(checker.alloc, &mut checker.types, &mut checker.work, at);
    note(&checker.types, &mut checker.work, answer);
}
