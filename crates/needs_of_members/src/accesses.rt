//! What a member is taken of, and by which index or key.
#![tactic(auto, using(check_work::proofs::Noting::meeting))]

ghost use Rattle.std.specs.Prelude.{◌≡◌, ◌++◌, ◌∷◌, [], OnOk, true};
ghost use Rattle.checks.specs.Checks.{Comes};
ghost use Rattle.descriptors.specs.Steps.{AreOwnTypes};
ghost use Rattle.needs.specs.Needs.{Runs};
ghost use Rattle.type_model.specs.Basic.{InBasic};
ghost use Rattle.typed_tree.specs.Listed.{one};
ghost use Rattle.expr_needs.specs.Needs.{IsAccessed, IsIndex};
ghost use Rattle.check_words.specs.Meets.{meets};
ghost use Rattle.check_words.specs.Members.{has_part as has_part_of, is_accessed as is_accessed_of, is_accessed_as as is_accessed_as_of, is_index as is_index_of, is_structure as is_structure_of};
ghost use Rattle.check_words.specs.Stands.{Stands};
ghost use Rattle.check_words.specs.Words.{is_of as is_of_of};
ghost use Rattle.check_work.specs.Views.{Holds, going, state_of};

use crate::sides::shapes_of;
use bal_base::{Fault, Memory, Place, Stop};
use check_kinds::{has_part, require_kind};
use check_members::{container_kind, index_kind};
use check_words::Access;
use check_work::{Checker, Work, has_stopped, last, note};
use descriptors::{OwnTypes, lift};
use expr_needs::Kind;
use std::alloc::Global;
use type_model::{BasicSet, Types};

/// The last part is of the kind.
fn require_last<T: Types>(
    alloc: Global,
    types: &mut T,
    own: &OwnTypes,
    work: &Work<'_>,
    kind: Kind,
    at: Place,
) -> Result<(), Stop<Fault>>
    requires own { AreOwnTypes (T.atoms types.old) own.now }
    requires stands { Stands (state_of (T.atoms types.old) work.now) }
    ensures atoms { T.atoms types.new ≡ T.atoms types.old }
    ensures comes { Comes (is_of_of T.passes kind at) (state_of (T.atoms types.old) work.now) result (state_of (T.atoms types.new) work.now) }
{
    match last(work.found.as_slice()) {
        Some(e) => require_kind(alloc, types, own, shapes_of(e), kind, at),
        None => Err(Stop::Memory),
    }
}

/// Whether the last part has a shape of the set.
fn has_shapes<T: Types>(
    alloc: Global,
    types: &mut T,
    work: &Work<'_>,
    set: BasicSet,
    at: Place,
) -> Result<bool, Stop<Fault>>
    requires { Stands (state_of (T.atoms types.old) work.now) }
    ensures atoms { T.atoms types.new ≡ T.atoms types.old }
    ensures comes { Comes (has_part_of T.passes (λ x. InBasic x set) at) (state_of (T.atoms types.old) work.now) result (state_of (T.atoms types.new) work.now) }
{
    match last(work.found.as_slice()) {
        Some(e) => has_part(alloc, types, shapes_of(e), set, at),
        None => Err(Stop::Memory),
    }
}

/// One more member waits for its index.
fn add_access(accesses: &mut Vec<Access>, access: Access) -> Result<(), Memory>
    ensures { OnOk result (accesses.new.items ≡ accesses.old.items ++ access ∷ []) }
{
    accesses.push(access)?;
    Ok(())
}

/// The last part is what a member is taken of so.
fn require_container<T: Types>(
    alloc: Global,
    types: &mut T,
    own: &OwnTypes,
    work: &mut Work<'_>,
    access: Access,
    at: Place,
) -> Result<(), Stop<Fault>>
    requires own { AreOwnTypes (T.atoms types.old) own.now }
    requires stands { Stands (state_of (T.atoms types.old) work.old) }
    ensures atoms { T.atoms types.new ≡ T.atoms types.old }
    ensures stands { OnOk result (Stands (state_of (T.atoms types.old) work.new)) }
    ensures comes { Comes (is_accessed_as_of T.passes access at) (state_of (T.atoms types.old) work.old) result (state_of (T.atoms types.new) work.new) }
{
    match require_last(alloc, types, own, work, container_kind(access), at) {
        Ok(()) => lift(add_access(&mut work.accesses, access)),
        Err(stop) => Err(stop),
    }
}

/// The last part is a list, where it may be one, and else a mapping.
fn require_structure<T: Types>(
    alloc: Global,
    types: &mut T,
    own: &OwnTypes,
    work: &mut Work<'_>,
    at: Place,
) -> Result<(), Stop<Fault>>
    requires own { AreOwnTypes (T.atoms types.old) own.now }
    requires stands { Stands (state_of (T.atoms types.old) work.old) }
    ensures atoms { T.atoms types.new ≡ T.atoms types.old }
    ensures stands { OnOk result (Stands (state_of (T.atoms types.old) work.new)) }
    ensures comes { Comes (is_structure_of T.passes at) (state_of (T.atoms types.old) work.old) result (state_of (T.atoms types.new) work.new) }
{
    match has_shapes(alloc, types, work, BasicSet::ListAll, at) {
        Ok(lists) => match lists {
            true => require_container(alloc, types, own, work, Access::Item, at),
            false => require_container(alloc, types, own, work, Access::Key, at),
        },
        Err(stop) => Err(stop),
    }
}

/// The last part is a string, where it may be one, and else a structure.
fn require_text<T: Types>(
    alloc: Global,
    types: &mut T,
    own: &OwnTypes,
    work: &mut Work<'_>,
    at: Place,
) -> Result<(), Stop<Fault>>
    requires own { AreOwnTypes (T.atoms types.old) own.now }
    requires stands { Stands (state_of (T.atoms types.old) work.old) }
    ensures atoms { T.atoms types.new ≡ T.atoms types.old }
    ensures stands { OnOk result (Stands (state_of (T.atoms types.old) work.new)) }
    ensures comes { Comes (is_accessed_of T.passes true at) (state_of (T.atoms types.old) work.old) result (state_of (T.atoms types.new) work.new) }
{
    match has_shapes(alloc, types, work, BasicSet::StringAll, at) {
        Ok(texts) => match texts {
            true => require_container(alloc, types, own, work, Access::Char, at),
            false => require_structure(alloc, types, own, work, at),
        },
        Err(stop) => Err(stop),
    }
}

/// The last part has members.
fn require_accessed<T: Types>(
    alloc: Global,
    types: &mut T,
    own: &OwnTypes,
    work: &mut Work<'_>,
    texts: bool,
    at: Place,
) -> Result<(), Stop<Fault>>
    requires own { AreOwnTypes (T.atoms types.old) own.now }
    requires stands { Stands (state_of (T.atoms types.old) work.old) }
    ensures atoms { T.atoms types.new ≡ T.atoms types.old }
    ensures stands { OnOk result (Stands (state_of (T.atoms types.old) work.new)) }
    ensures comes { Comes (is_accessed_of T.passes texts at) (state_of (T.atoms types.old) work.old) result (state_of (T.atoms types.new) work.new) }
{
    match texts {
        true => require_text(alloc, types, own, work, at),
        false => require_structure(alloc, types, own, work, at),
    }
}

/// A member of the last part is taken: of a string, where it may be one and `texts` says so, of a list, where it may be one, and
/// else of a mapping ("Member access expression"). Three questions of the decider at most.
///
/// - `NotSubtype` at the place, with a shape that shows it: the last part isn't only such.
/// - `TypeLimit` at the place: a question is too large.
pub fn is_accessed<T: Types>(checker: &mut Checker<'_, T>, texts: bool, at: Place)
    requires { Holds (T.atoms checker.old.types) checker.old.names.now checker.old.work }
    ensures holds { Holds (T.atoms checker.new.types) checker.new.names.now checker.new.work }
    ensures names { checker.new.names.now ≡ checker.old.names.now }
    ensures met { Runs (meets T.passes checker.old.names.now) (one (IsAccessed texts at)) (going (T.atoms checker.old.types) checker.old.work) (going (T.atoms checker.new.types) checker.new.work) }
{
    if has_stopped(&checker.work) {
        return;
    }
    let answer = require_accessed(
        checker.alloc,
        &mut checker.types,
        &checker.names.own,
        &mut checker.work,
        texts,
        at,
    );
    note(&checker.types, &mut checker.work, answer);
}

/// The last part is the index or key of the member at hand.
fn require_index<T: Types>(
    alloc: Global,
    types: &mut T,
    own: &OwnTypes,
    work: &Work<'_>,
    at: Place,
) -> Result<(), Stop<Fault>>
    requires own { AreOwnTypes (T.atoms types.old) own.now }
    requires stands { Stands (state_of (T.atoms types.old) work.now) }
    ensures atoms { T.atoms types.new ≡ T.atoms types.old }
    ensures comes { Comes (is_index_of T.passes at) (state_of (T.atoms types.old) work.now) result (state_of (T.atoms types.new) work.now) }
{
    match last(work.accesses.as_slice()) {
        Some(access) => require_last(alloc, types, own, work, index_kind(*access), at),
        None => Err(Stop::Memory),
    }
}

/// The last part is the index of a string or list, which is an int, or the key of a mapping, which is a string ("Member access
/// expression"). One question of the decider.
///
/// - `NotSubtype` at the place, with a shape that shows it: it isn't.
/// - `TypeLimit` at the place: the question is too large.
pub fn is_index<T: Types>(checker: &mut Checker<'_, T>, at: Place)
    requires { Holds (T.atoms checker.old.types) checker.old.names.now checker.old.work }
    ensures holds { Holds (T.atoms checker.new.types) checker.new.names.now checker.new.work }
    ensures names { checker.new.names.now ≡ checker.old.names.now }
    ensures met { Runs (meets T.passes checker.old.names.now) (one (IsIndex at)) (going (T.atoms checker.old.types) checker.old.work) (going (T.atoms checker.new.types) checker.new.work) }
{
    if has_stopped(&checker.work) {
        return;
    }
    let answer = require_index(
        checker.alloc,
        &mut checker.types,
        &checker.names.own,
        &checker.work,
        at,
    );
    note(&checker.types, &mut checker.work, answer);
}
