//! What calls of the library give.
#![tactic(auto, using(check_work::proofs::Noting::meeting))]

ghost use Rattle.std.specs.Prelude.{◌≡◌, ◌+◌, ◌<◌, ◌⊎◌, [], IfOk, List, None as Nobody, OnOk, Ok as Given, Some as There, length};
ghost use Rattle.checks.specs.Checks.{Comes};
ghost use Rattle.descriptors.specs.Described.{IsPlain, plain as plain_of};
ghost use Rattle.descriptors.specs.Steps.{AreOwnTypes};
ghost use Rattle.flow_narrowing.specs.Flows.{IfShared};
ghost use Rattle.operations.specs.Kinds.{IsDetail, IsError, IsInteger, IsReadonly};
ghost use Rattle.type_model.specs.declared.atoms.AtomDef.{AtomDef as Atom};
ghost use Rattle.type_model.specs.declared.atoms.AtomDef.TheVariants.{List as ListAtom};
ghost use Rattle.type_model.specs.declared.basic.SemType.{Atom as OfAtom};
ghost use Rattle.type_model.specs.Calls.{KeepsTypes};
ghost use Rattle.type_model.specs.Defined.{TyBelow};
ghost use Rattle.typed_tree.specs.declared.form.StrictForm.TheVariants.{Library as LibraryForm};
ghost use Rattle.typed_tree.specs.SharedTypes.{sem_of};
ghost use Rattle.check_calls.specs.Results.{made_by, result_of as result_in};
ghost use Rattle.check_words.specs.Calls.{clones_readonly, gives_by, lists_by};
ghost use Rattle.check_words.specs.Stands.{SharedBelow, Stands};
ghost use Rattle.check_words.specs.Words.{OfKind, PartOf, makes_typed};
ghost use Rattle.check_work.specs.Views.{state_of};
ghost use Rattle.operations.specs.declared.library.LibraryCall.TheVariants.{CloneReadOnly};
ghost use Rattle.needs_of_made_calls.specs.Making.{gives_member, gives_so, lists_members, lists_so, makes_so, receivers_of};

use crate::makers::make_strict;
use bal_base::{Fault, Memory, Place, Stop};
use check_calls::{LibraryResult, result_of};
use check_kinds::{detail_type, int_or_error, kind_type, part_of};
use check_members::member_at;
use check_work::{Work, gather, shared};
use descriptors::{OwnTypes, lift, plain};
use expr_needs::Kind;
use made_atoms::add_one;
use operations::LibraryCall;
use std::alloc::Global;
use std::rc::Rc;
use type_model::{AtomDef, BasicSet, Keys, SemType, Ty, TyList, Types};
use typed_tree::{SharedTy, StrictForm};

/// A call of the library that is made: of so many parts, the receiver among them.
#[derive(Clone, Copy)]
pub(crate) struct Made {
    pub(crate) call: LibraryCall,
    pub(crate) count: usize,
    pub(crate) at: Place,
}

/// How many parts a call has. Where there are more than a program has it is as if memory were wanted.
pub(crate) fn parts_of(receiver: &Option<SharedTy>, args: usize) -> Result<usize, Memory>
    ensures { IfOk result (λ count. count ≡ receivers_of receiver.now + args) }
{
    match receiver {
        None => Ok(args),
        Some(_) => match args.checked_add(1) {
            Some(count) => Ok(count),
            None => Err(Memory),
        },
    }
}

/// The call, which neither makes a list nor casts.
fn form_of(call: LibraryCall) -> StrictForm
    ensures { result ≡ LibraryForm call Nobody Nobody }
{
    StrictForm::Library {
        call,
        atom: None,
        cast: None,
    }
}

// ---- values

/// The call gives a value of the type.
fn give(alloc: Global, work: &mut Work<'_>, what: Made, ty: Ty) -> Result<(), Memory>
    ensures stands { (env : List Atom) → TyBelow (length env) ty → Stands (state_of env work.old) → OnOk result (Stands (state_of env work.new)) }
    ensures comes { (env : List Atom) → OnOk result (Comes (gives_so what.count what.call ty what.at) (state_of env work.old) (Given tt) (state_of env work.new)) }
{
    make_strict(alloc, work, form_of(what.call), what.count, ty, what.at)
}

/// The call gives a value of the kind.
fn give_kind(
    alloc: Global,
    own: &OwnTypes,
    work: &mut Work<'_>,
    what: Made,
    kind: Kind,
) -> Result<(), Memory>
    ensures stands { (env : List Atom) → AreOwnTypes env own.now → Stands (state_of env work.old) → OnOk result (Stands (state_of env work.new)) }
    ensures comes { (env : List Atom) → AreOwnTypes env own.now → OnOk result (Comes (gives_by what.count what.call (OfKind kind) what.at) (state_of env work.old) (Given tt) (state_of env work.new)) }
{
    match kind_type(alloc, own, kind) {
        Ok(ty) => give(alloc, work, what, ty),
        Err(Memory) => Err(Memory),
    }
}

/// The call gives an int or an error.
fn give_int_or_error(alloc: Global, work: &mut Work<'_>, what: Made) -> Result<(), Memory>
    ensures stands { (env : List Atom) → Stands (state_of env work.old) → OnOk result (Stands (state_of env work.new)) }
    ensures comes { (env : List Atom) → OnOk result (Comes (gives_by what.count what.call (λ e. IsPlain (λ x. IsInteger x ⊎ IsError x) e) what.at) (state_of env work.old) (Given tt) (state_of env work.new)) }
{
    match int_or_error(alloc) {
        Ok(ty) => give(alloc, work, what, ty),
        Err(Memory) => Err(Memory),
    }
}

/// The call gives the detail of an error.
fn give_detail(alloc: Global, work: &mut Work<'_>, what: Made) -> Result<(), Memory>
    ensures stands { (env : List Atom) → Stands (state_of env work.old) → OnOk result (Stands (state_of env work.new)) }
    ensures comes { (env : List Atom) → OnOk result (Comes (gives_by what.count what.call (λ e. IsPlain IsDetail e) what.at) (state_of env work.old) (Given tt) (state_of env work.new)) }
{
    match detail_type(alloc) {
        Ok(ty) => give(alloc, work, what, ty),
        Err(Memory) => Err(Memory),
    }
}

/// The call gives what its receiver is.
fn give_receiver(work: &mut Work<'_>, what: Made, receiver: &SharedTy) -> Result<(), Memory>
    ensures stands { (env : List Atom) → SharedBelow (length env) receiver.now → Stands (state_of env work.old) → OnOk result (Stands (state_of env work.new)) }
    ensures comes { (env : List Atom) → OnOk result (Comes (makes_typed what.count (LibraryForm what.call Nobody Nobody) receiver.now what.at) (state_of env work.old) (Given tt) (state_of env work.new)) }
{
    let ty = shared(receiver)?;
    gather(&mut work.found, form_of(what.call), what.count, ty, what.at)?;
    work.ways = None;
    Ok(())
}

/// The shapes of the type that are immutable, to be shared.
fn frozen<T: Types>(alloc: Global, types: &mut T, t: &SharedTy) -> Result<SharedTy, Memory>
    requires { SharedBelow (length (T.atoms types.old)) t.now }
    ensures atoms { T.atoms types.new ≡ T.atoms types.old }
    ensures below { IfOk result (SharedBelow (length (T.atoms types.old))) }
    ensures is { IfOk result (λ u. PartOf (sem_of t.now) IsReadonly (T.atoms types.old) u.value) }
{
    let ty = part_of(alloc, types, &t.sem, BasicSet::Readonly)?;
    Ok(Rc::new(alloc, ty)?)
}

/// The clone is cast to the type.
fn give_cast(work: &mut Work<'_>, what: Made, cast: SharedTy) -> Result<(), Memory>
    ensures stands { (env : List Atom) → SharedBelow (length env) cast → Stands (state_of env work.old) → OnOk result (Stands (state_of env work.new)) }
    ensures comes { (env : List Atom) → OnOk result (Comes (makes_typed what.count (LibraryForm CloneReadOnly Nobody (There cast)) cast what.at) (state_of env work.old) (Given tt) (state_of env work.new)) }
{
    let ty = shared(&cast)?;
    let form = StrictForm::Library {
        call: LibraryCall::CloneReadOnly,
        atom: None,
        cast: Some(cast),
    };
    gather(&mut work.found, form, what.count, ty, what.at)?;
    work.ways = None;
    Ok(())
}

/// The call gives what its receiver is, made immutable.
fn give_frozen<T: Types>(
    alloc: Global,
    types: &mut T,
    work: &mut Work<'_>,
    what: Made,
    receiver: &SharedTy,
) -> Result<(), Memory>
    requires stands { Stands (state_of (T.atoms types.old) work.old) }
    requires receiver { SharedBelow (length (T.atoms types.old)) receiver.now }
    ensures atoms { T.atoms types.new ≡ T.atoms types.old }
    ensures stands { OnOk result (Stands (state_of (T.atoms types.new) work.new)) }
    ensures comes { OnOk result (Comes (clones_readonly what.count receiver.now what.at) (state_of (T.atoms types.old) work.old) (Given tt) (state_of (T.atoms types.new) work.new)) }
{
    match frozen(alloc, types, receiver) {
        Ok(cast) => give_cast(work, what, cast),
        Err(Memory) => Err(Memory),
    }
}

// ---- new lists

/// Lists of any number of values of the type.
fn list_of(alloc: Global, ty: Ty) -> AtomDef
    ensures { result ≡ ListAtom [] (There ty) }
{
    AtomDef::List {
        fixed: TyList::of(Vec::new(alloc)),
        rest: Some(ty),
    }
}

/// The call gives a list of the atom.
fn give_new(alloc: Global, work: &mut Work<'_>, what: Made, atom: u32) -> Result<(), Memory>
    ensures stands { (env : List Atom) → atom < length env → Stands (state_of env work.old) → OnOk result (Stands (state_of env work.new)) }
    ensures comes { (env : List Atom) → OnOk result (Comes (makes_so what.count (LibraryForm what.call (There atom) Nobody) (plain_of (OfAtom atom)) what.at) (state_of env work.old) (Given tt) (state_of env work.new)) }
{
    let form = StrictForm::Library {
        call: what.call,
        atom: Some(atom),
        cast: None,
    };
    let ty = plain(alloc, SemType::Atom(atom));
    make_strict(alloc, work, form, what.count, ty, what.at)
}

/// The call gives a new list of values of the type. It adds an atom.
fn give_list<T: Types>(
    alloc: Global,
    types: &mut T,
    work: &mut Work<'_>,
    what: Made,
    ty: Ty,
) -> Result<(), Stop<Fault>>
    requires stands { Stands (state_of (T.atoms types.old) work.old) }
    requires below { TyBelow (length (T.atoms types.old)) ty }
    ensures kept { KeepsTypes (T.atoms types.old) (T.atoms types.new) }
    ensures stands { OnOk result (Stands (state_of (T.atoms types.new) work.new)) }
    ensures comes { Comes (lists_so what.count what.call ty what.at) (state_of (T.atoms types.old) work.old) result (state_of (T.atoms types.new) work.new) }
{
    match add_one(alloc, types, list_of(alloc, ty), what.at) {
        Ok(atom) => lift(give_new(alloc, work, what, atom)),
        Err(stop) => Err(stop),
    }
}

/// The call gives a new list of values of the kind.
fn list_kind<T: Types>(
    alloc: Global,
    types: &mut T,
    own: &OwnTypes,
    work: &mut Work<'_>,
    what: Made,
    kind: Kind,
) -> Result<(), Stop<Fault>>
    requires own { AreOwnTypes (T.atoms types.old) own.now }
    requires stands { Stands (state_of (T.atoms types.old) work.old) }
    ensures kept { KeepsTypes (T.atoms types.old) (T.atoms types.new) }
    ensures stands { OnOk result (Stands (state_of (T.atoms types.new) work.new)) }
    ensures comes { Comes (lists_by what.count what.call (OfKind kind) what.at) (state_of (T.atoms types.old) work.old) result (state_of (T.atoms types.new) work.new) }
{
    match kind_type(alloc, own, kind) {
        Ok(ty) => give_list(alloc, types, work, what, ty),
        Err(Memory) => Err(Stop::Memory),
    }
}

// ---- members of the receiver

/// The call gives a member of its receiver.
fn give_member<T: Types>(
    alloc: Global,
    types: &mut T,
    work: &mut Work<'_>,
    what: Made,
    receiver: &SharedTy,
    keys: Keys,
) -> Result<(), Stop<Fault>>
    requires stands { Stands (state_of (T.atoms types.old) work.old) }
    requires receiver { SharedBelow (length (T.atoms types.old)) receiver.now }
    ensures atoms { T.atoms types.new ≡ T.atoms types.old }
    ensures stands { OnOk result (Stands (state_of (T.atoms types.new) work.new)) }
    ensures comes { Comes (gives_member T.passes keys what.count what.call receiver.now what.at) (state_of (T.atoms types.old) work.old) result (state_of (T.atoms types.new) work.new) }
{
    match member_at(alloc, types, &receiver.sem, &keys, what.at) {
        Ok(member) => lift(give(alloc, work, what, plain(alloc, member))),
        Err(stop) => Err(stop),
    }
}

/// The call gives a new list of items of its receiver.
fn give_items<T: Types>(
    alloc: Global,
    types: &mut T,
    work: &mut Work<'_>,
    what: Made,
    receiver: &SharedTy,
) -> Result<(), Stop<Fault>>
    requires stands { Stands (state_of (T.atoms types.old) work.old) }
    requires receiver { SharedBelow (length (T.atoms types.old)) receiver.now }
    ensures kept { KeepsTypes (T.atoms types.old) (T.atoms types.new) }
    ensures stands { OnOk result (Stands (state_of (T.atoms types.new) work.new)) }
    ensures comes { Comes (lists_members T.passes what.count what.call receiver.now what.at) (state_of (T.atoms types.old) work.old) result (state_of (T.atoms types.new) work.new) }
{
    let keys = Keys::AnyIndex;
    match member_at(alloc, types, &receiver.sem, &keys, what.at) {
        Ok(member) => give_list(alloc, types, work, what, plain(alloc, member)),
        Err(stop) => Err(stop),
    }
}

// ---- all calls

/// The call is made, where its receiver tells what it gives.
fn make_from<T: Types>(
    alloc: Global,
    types: &mut T,
    work: &mut Work<'_>,
    receiver: &SharedTy,
    what: Made,
) -> Result<(), Stop<Fault>>
    requires stands { Stands (state_of (T.atoms types.old) work.old) }
    requires receiver { SharedBelow (length (T.atoms types.old)) receiver.now }
    ensures kept { KeepsTypes (T.atoms types.old) (T.atoms types.new) }
    ensures stands { OnOk result (Stands (state_of (T.atoms types.new) work.new)) }
    ensures comes { Comes (made_by T.passes (result_in what.call) what.call (There receiver.now) what.count what.at) (state_of (T.atoms types.old) work.old) result (state_of (T.atoms types.new) work.new) }
{
    match result_of(what.call) {
        LibraryResult::Receiver => lift(give_receiver(work, what, receiver)),
        LibraryResult::Frozen => lift(give_frozen(alloc, types, work, what, receiver)),
        LibraryResult::Item => give_member(alloc, types, work, what, receiver, Keys::AnyIndex),
        LibraryResult::Field => give_member(alloc, types, work, what, receiver, Keys::AnyField),
        LibraryResult::ListOfItems => give_items(alloc, types, work, what, receiver),
        LibraryResult::Of(_) | LibraryResult::IntOrError => Err(Stop::Memory),
        LibraryResult::Details | LibraryResult::ListOf(_) => Err(Stop::Memory),
    }
}

/// The call is made, where its receiver, if there is one, tells what it gives.
fn make_from_if<T: Types>(
    alloc: Global,
    types: &mut T,
    work: &mut Work<'_>,
    receiver: &Option<SharedTy>,
    what: Made,
) -> Result<(), Stop<Fault>>
    requires stands { Stands (state_of (T.atoms types.old) work.old) }
    requires receiver { IfShared (TyBelow (length (T.atoms types.old))) receiver.now }
    ensures kept { KeepsTypes (T.atoms types.old) (T.atoms types.new) }
    ensures stands { OnOk result (Stands (state_of (T.atoms types.new) work.new)) }
    ensures comes { Comes (made_by T.passes (result_in what.call) what.call receiver.now what.count what.at) (state_of (T.atoms types.old) work.old) result (state_of (T.atoms types.new) work.new) }
{
    match receiver {
        Some(receiver) => make_from(alloc, types, work, receiver, what),
        None => Err(Stop::Memory),
    }
}

/// A call of the library is made: what it gives is told by the call alone, or by its receiver.
pub(crate) fn make_library<T: Types>(
    alloc: Global,
    types: &mut T,
    own: &OwnTypes,
    work: &mut Work<'_>,
    receiver: &Option<SharedTy>,
    what: Made,
) -> Result<(), Stop<Fault>>
    requires own { AreOwnTypes (T.atoms types.old) own.now }
    requires stands { Stands (state_of (T.atoms types.old) work.old) }
    requires receiver { IfShared (TyBelow (length (T.atoms types.old))) receiver.now }
    ensures kept { KeepsTypes (T.atoms types.old) (T.atoms types.new) }
    ensures stands { OnOk result (Stands (state_of (T.atoms types.new) work.new)) }
    ensures comes { Comes (made_by T.passes (result_in what.call) what.call receiver.now what.count what.at) (state_of (T.atoms types.old) work.old) result (state_of (T.atoms types.new) work.new) }
{
    match result_of(what.call) {
        LibraryResult::Of(kind) => lift(give_kind(alloc, own, work, what, kind)),
        LibraryResult::IntOrError => lift(give_int_or_error(alloc, work, what)),
        LibraryResult::Details => lift(give_detail(alloc, work, what)),
        LibraryResult::ListOf(kind) => list_kind(alloc, types, own, work, what, kind),
        LibraryResult::Receiver | LibraryResult::Frozen | LibraryResult::Item => {
            make_from_if(alloc, types, work, receiver, what)
        }
        LibraryResult::Field | LibraryResult::ListOfItems => {
            make_from_if(alloc, types, work, receiver, what)
        }
    }
}
