//! Types of members, by what names them.
#![tactic(auto, using(check_kinds::proofs::Over::overs))]

ghost use Rattle.std.specs.Prelude.{◌≡◌, IfOk, List, length};
ghost use Rattle.descriptors.specs.Described.{plain as plain_of};
ghost use Rattle.descriptors.specs.Steps.{AreOwnTypes};
ghost use Rattle.operations.specs.Kinds.{IsNil};
ghost use Rattle.type_model.specs.declared.answers.Keys.TheVariants.{Field as FieldKeys};
ghost use Rattle.type_model.specs.declared.atoms.AtomDef.{AtomDef as Atom};
ghost use Rattle.type_model.specs.Calls.{KeepsTypes};
ghost use Rattle.type_model.specs.Defined.{IsDefined, TyBelow};
ghost use Rattle.expr_needs.specs.declared.kind.Kind.TheVariants.{Text as TextKind};
ghost use Rattle.check_kinds.specs.Over.{ComesOver};
ghost use Rattle.check_words.specs.Members.{IsStored, stored_type as stored_type_of};
ghost use Rattle.check_words.specs.declared.access.Access.TheVariants.{Item as ItemAccess, Key as KeyAccess};
ghost use Rattle.check_words.specs.Words.{EitherOf, OfKind};
ghost use Rattle.needs_of_members.specs.Fronts.{field_read as field_read_of, item_at as item_at_of, key_at as key_at_of, optional_read as optional_read_of, read_type as read_type_of, some_item_at as some_item_at_of, stored_at as stored_at_of, stored_by as stored_by_of};

use bal_base::{Fault, Memory, Place, Stop, Text};
use check_kinds::{kind_type, optional};
use check_members::{field_type, member_at, names_members, some_member_at, stored_type};
use check_words::Access;
use descriptors::{OwnTypes, lift, plain};
use expr_needs::Kind;
use std::alloc::Global;
use std::rc::Rc;
use type_model::{Keys, SemType, Ty, Types};
use typed_tree::SharedTy;

/// The type of a container, and that of an index or a key of it as a set of shapes.
#[derive(Clone, Copy)]
pub(crate) struct Sides<'a> {
    pub(crate) container: &'a Ty,
    pub(crate) key: &'a SemType,
}

/// The type with these shapes, without choices.
fn plain_shared(alloc: Global, member: SemType) -> Result<SharedTy, Memory>
    ensures { IfOk result (λ t. t.value ≡ plain_of member) }
{
    Ok(Rc::new(alloc, plain(alloc, member))?)
}

/// The type with these shapes and nil.
fn optional_shared<T: Types>(
    alloc: Global,
    types: &mut T,
    member: &SemType,
) -> Result<SharedTy, Memory>
    requires { IsDefined (T.atoms types.old) member.now }
    ensures atoms { T.atoms types.new ≡ T.atoms types.old }
    ensures below { IfOk result (λ t. TyBelow (length (T.atoms types.old)) t.value) }
    ensures is { IfOk result (λ t. EitherOf member.now IsNil (T.atoms types.old) t.value) }
{
    let ty = optional(alloc, types, member)?;
    Ok(Rc::new(alloc, ty)?)
}

/// A type of strings.
fn text_shared(alloc: Global, own: &OwnTypes) -> Result<SharedTy, Memory>
    ensures is { IfOk result (λ t. (env : List Atom) → AreOwnTypes env own.now → OfKind TextKind env t.value) }
    ensures below { IfOk result (λ t. (env : List Atom) → AreOwnTypes env own.now → TyBelow (length env) t.value) }
{
    let ty = kind_type(alloc, own, Kind::Text)?;
    Ok(Rc::new(alloc, ty)?)
}

/// The type of the item, which has to be there.
fn some_item_at<T: Types>(
    alloc: Global,
    types: &mut T,
    list: &SemType,
    keys: &Keys,
    at: Place,
) -> Result<SharedTy, Stop<Fault>>
    requires { IsDefined (T.atoms types.old) list.now }
    ensures atoms { T.atoms types.new ≡ T.atoms types.old }
    ensures below { IfOk result (λ t. TyBelow (length (T.atoms types.old)) t.value) }
    ensures comes { ComesOver (some_item_at_of T.passes list.now keys.now at) (T.atoms types.old) result (T.atoms types.new) }
{
    match some_member_at(alloc, types, list, keys, at) {
        Ok(member) => lift(plain_shared(alloc, member)),
        Err(stop) => Err(stop),
    }
}

/// The type of the item, which may be absent.
fn item_at<T: Types>(
    alloc: Global,
    types: &mut T,
    list: &SemType,
    keys: &Keys,
    at: Place,
) -> Result<SharedTy, Stop<Fault>>
    requires { IsDefined (T.atoms types.old) list.now }
    ensures atoms { T.atoms types.new ≡ T.atoms types.old }
    ensures below { IfOk result (λ t. TyBelow (length (T.atoms types.old)) t.value) }
    ensures comes { ComesOver (item_at_of T.passes list.now keys.now at) (T.atoms types.old) result (T.atoms types.new) }
{
    match member_at(alloc, types, list, keys, at) {
        Ok(member) => lift(plain_shared(alloc, member)),
        Err(stop) => Err(stop),
    }
}

/// The type of the member of a mapping, and nil.
fn key_at<T: Types>(
    alloc: Global,
    types: &mut T,
    mapping: &SemType,
    keys: &Keys,
    at: Place,
) -> Result<SharedTy, Stop<Fault>>
    requires { IsDefined (T.atoms types.old) mapping.now }
    ensures atoms { T.atoms types.new ≡ T.atoms types.old }
    ensures below { IfOk result (λ t. TyBelow (length (T.atoms types.old)) t.value) }
    ensures comes { ComesOver (key_at_of T.passes mapping.now keys.now at) (T.atoms types.old) result (T.atoms types.new) }
{
    match member_at(alloc, types, mapping, keys, at) {
        Ok(member) => lift(optional_shared(alloc, types, &member)),
        Err(stop) => Err(stop),
    }
}

/// The type of an item that is read.
fn item_type<T: Types>(
    alloc: Global,
    types: &mut T,
    sides: Sides<'_>,
    at: Place,
) -> Result<SharedTy, Stop<Fault>>
    requires container { IsDefined (T.atoms types.old) sides.container.now.sem }
    requires key { IsDefined (T.atoms types.old) sides.key.now }
    ensures atoms { T.atoms types.new ≡ T.atoms types.old }
    ensures below { IfOk result (λ t. TyBelow (length (T.atoms types.old)) t.value) }
    ensures comes { ComesOver (read_type_of T.passes ItemAccess sides.entry.container.now.sem sides.entry.key.now at) (T.atoms types.old) result (T.atoms types.new) }
{
    match names_members(alloc, types, Access::Item, sides.key, at) {
        Ok(keys) => some_item_at(alloc, types, &sides.container.sem, &keys, at),
        Err(stop) => Err(stop),
    }
}

/// The type of an item that is read before it is stored.
fn item_before<T: Types>(
    alloc: Global,
    types: &mut T,
    sides: Sides<'_>,
    at: Place,
) -> Result<SharedTy, Stop<Fault>>
    requires container { IsDefined (T.atoms types.old) sides.container.now.sem }
    requires key { IsDefined (T.atoms types.old) sides.key.now }
    ensures atoms { T.atoms types.new ≡ T.atoms types.old }
    ensures below { IfOk result (λ t. TyBelow (length (T.atoms types.old)) t.value) }
    ensures comes { ComesOver (stored_type_of T.passes ItemAccess sides.entry.container.now.sem sides.entry.key.now at) (T.atoms types.old) result (T.atoms types.new) }
{
    match names_members(alloc, types, Access::Item, sides.key, at) {
        Ok(keys) => item_at(alloc, types, &sides.container.sem, &keys, at),
        Err(stop) => Err(stop),
    }
}

/// The type of a member of a mapping that is read by a key.
fn member_type<T: Types>(
    alloc: Global,
    types: &mut T,
    sides: Sides<'_>,
    at: Place,
) -> Result<SharedTy, Stop<Fault>>
    requires container { IsDefined (T.atoms types.old) sides.container.now.sem }
    requires key { IsDefined (T.atoms types.old) sides.key.now }
    ensures atoms { T.atoms types.new ≡ T.atoms types.old }
    ensures below { IfOk result (λ t. TyBelow (length (T.atoms types.old)) t.value) }
    ensures comes { ComesOver (read_type_of T.passes KeyAccess sides.entry.container.now.sem sides.entry.key.now at) (T.atoms types.old) result (T.atoms types.new) }
{
    match names_members(alloc, types, Access::Key, sides.key, at) {
        Ok(keys) => key_at(alloc, types, &sides.container.sem, &keys, at),
        Err(stop) => Err(stop),
    }
}

/// The type of what is read of the container by its index or key. Three questions of the decider at most.
pub(crate) fn read_type<T: Types>(
    alloc: Global,
    types: &mut T,
    own: &OwnTypes,
    access: Access,
    sides: Sides<'_>,
    at: Place,
) -> Result<SharedTy, Stop<Fault>>
    requires own { AreOwnTypes (T.atoms types.old) own.now }
    requires container { IsDefined (T.atoms types.old) sides.container.now.sem }
    requires key { IsDefined (T.atoms types.old) sides.key.now }
    ensures atoms { T.atoms types.new ≡ T.atoms types.old }
    ensures below { IfOk result (λ t. TyBelow (length (T.atoms types.old)) t.value) }
    ensures comes { ComesOver (read_type_of T.passes access sides.entry.container.now.sem sides.entry.key.now at) (T.atoms types.old) result (T.atoms types.new) }
{
    match access {
        Access::Char => lift(text_shared(alloc, own)),
        Access::Item => item_type(alloc, types, sides, at),
        Access::Key => member_type(alloc, types, sides, at),
    }
}

/// The type of what is read there before it is stored. Two questions of the decider at most.
pub(crate) fn type_before<T: Types>(
    alloc: Global,
    types: &mut T,
    own: &OwnTypes,
    access: Access,
    sides: Sides<'_>,
    at: Place,
) -> Result<SharedTy, Stop<Fault>>
    requires own { AreOwnTypes (T.atoms types.old) own.now }
    requires container { IsDefined (T.atoms types.old) sides.container.now.sem }
    requires key { IsDefined (T.atoms types.old) sides.key.now }
    ensures atoms { T.atoms types.new ≡ T.atoms types.old }
    ensures below { IfOk result (λ t. TyBelow (length (T.atoms types.old)) t.value) }
    ensures comes { ComesOver (stored_type_of T.passes access sides.entry.container.now.sem sides.entry.key.now at) (T.atoms types.old) result (T.atoms types.new) }
{
    match access {
        Access::Char => lift(text_shared(alloc, own)),
        Access::Item => item_before(alloc, types, sides, at),
        Access::Key => member_type(alloc, types, sides, at),
    }
}

/// The type of a field that each value of the container has. It adds an atom, and asks two questions.
pub(crate) fn field_read<T: Types>(
    alloc: Global,
    types: &mut T,
    name: &Text,
    container: &SemType,
    at: Place,
) -> Result<SharedTy, Stop<Fault>>
    requires { IsDefined (T.atoms types.old) container.now }
    ensures kept { KeepsTypes (T.atoms types.old) (T.atoms types.new) }
    ensures below { IfOk result (λ t. TyBelow (length (T.atoms types.new)) t.value) }
    ensures comes { ComesOver (field_read_of T.passes name.now container.now at) (T.atoms types.old) result (T.atoms types.new) }
{
    match field_type(alloc, types, name, container, at) {
        Ok(member) => lift(plain_shared(alloc, member)),
        Err(stop) => Err(stop),
    }
}

/// The type of a field that a value of the container may have, and nil. Two questions of the decider.
pub(crate) fn optional_read<T: Types>(
    alloc: Global,
    types: &mut T,
    name: &Text,
    container: &SemType,
    at: Place,
) -> Result<SharedTy, Stop<Fault>>
    requires { IsDefined (T.atoms types.old) container.now }
    ensures atoms { T.atoms types.new ≡ T.atoms types.old }
    ensures below { IfOk result (λ t. TyBelow (length (T.atoms types.old)) t.value) }
    ensures comes { ComesOver (optional_read_of T.passes container.now (FieldKeys name.now) at) (T.atoms types.old) result (T.atoms types.new) }
{
    let keys = Keys::Field(name.share());
    optional_at(alloc, types, container, &keys, at)
}

/// The type of the members at these keys, one of which has to be there, and nil.
fn optional_at<T: Types>(
    alloc: Global,
    types: &mut T,
    container: &SemType,
    keys: &Keys,
    at: Place,
) -> Result<SharedTy, Stop<Fault>>
    requires { IsDefined (T.atoms types.old) container.now }
    ensures atoms { T.atoms types.new ≡ T.atoms types.old }
    ensures below { IfOk result (λ t. TyBelow (length (T.atoms types.old)) t.value) }
    ensures comes { ComesOver (optional_read_of T.passes container.now keys.now at) (T.atoms types.old) result (T.atoms types.new) }
{
    match some_member_at(alloc, types, container, keys, at) {
        Ok(member) => lift(optional_shared(alloc, types, &member)),
        Err(stop) => Err(stop),
    }
}

/// A type of what is stored at these keys, where members have these shapes.
fn stored_shared<T: Types>(
    alloc: Global,
    types: &T,
    container: &Ty,
    keys: &Keys,
    member: SemType,
) -> Result<SharedTy, Memory>
    requires { IsDefined (T.atoms types.now) member }
    ensures below { IfOk result (λ t. TyBelow (length (T.atoms types.now)) t.value) }
    ensures is { IfOk result (λ t. IsStored container.now keys.now member (T.atoms types.now) t.value) }
{
    let ty = stored_type(alloc, types, container, keys, member)?;
    Ok(Rc::new(alloc, ty)?)
}

/// A type of what is stored at these keys, where members have to be.
fn stored_at<T: Types>(
    alloc: Global,
    types: &mut T,
    container: &Ty,
    keys: &Keys,
    at: Place,
) -> Result<SharedTy, Stop<Fault>>
    requires { IsDefined (T.atoms types.old) container.now.sem }
    ensures atoms { T.atoms types.new ≡ T.atoms types.old }
    ensures below { IfOk result (λ t. TyBelow (length (T.atoms types.old)) t.value) }
    ensures comes { ComesOver (stored_at_of T.passes container.now keys.now at) (T.atoms types.old) result (T.atoms types.new) }
{
    match some_member_at(alloc, types, &container.sem, keys, at) {
        Ok(member) => lift(stored_shared(alloc, types, container, keys, member)),
        Err(stop) => Err(stop),
    }
}

/// A type of what is stored in the container by this index or key. Three questions of the decider at most.
pub(crate) fn stored_by<T: Types>(
    alloc: Global,
    types: &mut T,
    access: Access,
    sides: Sides<'_>,
    at: Place,
) -> Result<SharedTy, Stop<Fault>>
    requires container { IsDefined (T.atoms types.old) sides.container.now.sem }
    requires key { IsDefined (T.atoms types.old) sides.key.now }
    ensures atoms { T.atoms types.new ≡ T.atoms types.old }
    ensures below { IfOk result (λ t. TyBelow (length (T.atoms types.old)) t.value) }
    ensures comes { ComesOver (stored_by_of T.passes access sides.entry.container.now sides.entry.key.now at) (T.atoms types.old) result (T.atoms types.new) }
{
    match names_members(alloc, types, access, sides.key, at) {
        Ok(keys) => stored_at(alloc, types, sides.container, &keys, at),
        Err(stop) => Err(stop),
    }
}
