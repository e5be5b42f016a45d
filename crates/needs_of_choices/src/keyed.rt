//! Members of mappings that were found.
#![tactic(auto, using(check_work::proofs::Noting::meeting))]

ghost use Rattle.std.specs.Prelude.{◌≡◌, IfOk, OnOk, length};
ghost use Rattle.checks.specs.Checks.{Comes};
ghost use Rattle.needs.specs.Needs.{Runs};
ghost use Rattle.descriptors.specs.Steps.{AreOwnTypes};
ghost use Rattle.flow_narrowing.specs.Flows.{IfShared};
ghost use Rattle.type_model.specs.Calls.{KeepsTypes};
ghost use Rattle.type_model.specs.Defined.{TyBelow};
ghost use Rattle.typed_tree.specs.Listed.{one};
ghost use Rattle.expr_needs.specs.Needs.{IsMember};
ghost use Rattle.check_words.specs.Constructors.{is_member as is_member_of};
ghost use Rattle.check_words.specs.Meets.{meets};
ghost use Rattle.check_words.specs.Stands.{PartBelow, Stands};
ghost use Rattle.check_work.specs.Views.{Holds, constructor_of, going, state_of};
ghost use Rattle.needs_of_choices.specs.ByKeys.{fits_member as fits_member_of, keyed_so, member_so};

use crate::fields::has_right_key;
use bal_base::{Fault, Place, Stop};
use check_work::{Checker, Work, has_stopped, note};
use descriptors::{OwnTypes, lift};
use needs_of_structures::{Found, below_want, last_member, stood, take_member};
use std::alloc::Global;
use type_model::{Ty, Types};

/// The type that the member adds, where its key is right and it may stand in the mapping.
fn keyed<T: Types>(
    alloc: Global,
    types: &mut T,
    own: &OwnTypes,
    work: &Work<'_>,
    member: Found<'_>,
    at: Place,
) -> Result<Ty, Stop<Fault>>
    requires own { AreOwnTypes (T.atoms types.old) own.now }
    requires stands { Stands (state_of (T.atoms types.old) work.now) }
    requires part { PartBelow (length (T.atoms types.old)) member.part.now }
    ensures atoms { T.atoms types.new ≡ T.atoms types.old }
    ensures below { IfOk result (TyBelow (length (T.atoms types.old))) }
    ensures comes { Comes (keyed_so T.passes (constructor_of member.entry.constructor.now) member.entry.part.now at) (state_of (T.atoms types.old) work.now) result (state_of (T.atoms types.new) work.now) }
{
    match has_right_key(alloc, types, work, member.constructor, at) {
        Ok(()) => stood(alloc, types, own, member.constructor, member.part, at),
        Err(stop) => Err(stop),
    }
}

/// The type that the member adds, where it is what it has to be.
fn member_fitted<T: Types>(
    alloc: Global,
    types: &mut T,
    own: &OwnTypes,
    work: &Work<'_>,
    member: Found<'_>,
    at: Place,
) -> Result<Ty, Stop<Fault>>
    requires own { AreOwnTypes (T.atoms types.old) own.now }
    requires stands { Stands (state_of (T.atoms types.old) work.now) }
    requires want { IfShared (TyBelow (length (T.atoms types.old))) member.want.now }
    requires part { PartBelow (length (T.atoms types.old)) member.part.now }
    ensures atoms { T.atoms types.new ≡ T.atoms types.old }
    ensures below { IfOk result (TyBelow (length (T.atoms types.old))) }
    ensures comes { Comes (member_so T.passes (constructor_of member.entry.constructor.now) member.entry.part.now member.entry.want.now at) (state_of (T.atoms types.old) work.now) result (state_of (T.atoms types.new) work.now) }
{
    match below_want(alloc, types, member.want, member.part, at) {
        Ok(()) => keyed(alloc, types, own, work, member, at),
        Err(stop) => Err(stop),
    }
}

/// The type that the member at hand adds.
fn member_added<T: Types>(
    alloc: Global,
    types: &mut T,
    own: &OwnTypes,
    work: &Work<'_>,
    at: Place,
) -> Result<Ty, Stop<Fault>>
    requires own { AreOwnTypes (T.atoms types.old) own.now }
    requires stands { Stands (state_of (T.atoms types.old) work.now) }
    ensures atoms { T.atoms types.new ≡ T.atoms types.old }
    ensures below { IfOk result (TyBelow (length (T.atoms types.old))) }
    ensures comes { Comes (fits_member_of T.passes at) (state_of (T.atoms types.old) work.now) result (state_of (T.atoms types.new) work.now) }
{
    match last_member(work) {
        Some(member) => member_fitted(alloc, types, own, work, member, at),
        None => Err(Stop::Memory),
    }
}

/// The last part is a member of the constructor at hand.
fn take_keyed<T: Types>(
    alloc: Global,
    types: &mut T,
    own: &OwnTypes,
    work: &mut Work<'_>,
    at: Place,
) -> Result<(), Stop<Fault>>
    requires own { AreOwnTypes (T.atoms types.old) own.now }
    requires stands { Stands (state_of (T.atoms types.old) work.old) }
    ensures kept { KeepsTypes (T.atoms types.old) (T.atoms types.new) }
    ensures stands { OnOk result (Stands (state_of (T.atoms types.new) work.new)) }
    ensures comes { Comes (is_member_of T.passes at) (state_of (T.atoms types.old) work.old) result (state_of (T.atoms types.new) work.new) }
{
    match member_added(alloc, types, own, work, at) {
        Ok(ty) => lift(take_member(work, ty)),
        Err(stop) => Err(stop),
    }
}

/// The last part is a member of a mapping: what is expected of it is expected no more. Its type is that which the construct has for it,
/// and is widened where nothing was chosen. It costs some five questions of the decider at most, and where its key is computed one more for
/// each field whose name the key may be (Ballerina specification, "Mapping constructor").
///
/// - `NotSubtype` at the place: it isn't of the type that is expected, or of that of such a field, and a shape shows it.
/// - `ReadOnlyHolds` at the place: the mapping is immutable, and the member isn't immutable data.
/// - `TypeLimit` at the place: a question is too large.
pub fn is_member<T: Types>(checker: &mut Checker<'_, T>, at: Place)
    requires { Holds (T.atoms checker.old.types) checker.old.names.now checker.old.work }
    ensures holds { Holds (T.atoms checker.new.types) checker.new.names.now checker.new.work }
    ensures names { checker.new.names.now ≡ checker.old.names.now }
    ensures met { Runs (meets T.passes checker.old.names.now) (one (IsMember at)) (going (T.atoms checker.old.types) checker.old.work) (going (T.atoms checker.new.types) checker.new.work) }
{
    if has_stopped(&checker.work) {
        return;
    }
    let answer = take_keyed(
        checker.alloc,
        &mut checker.types,
        &checker.names.own,
        &mut checker.work,
        at,
    );
    note(&checker.types, &mut checker.work, answer);
}
