//! What arguments of calls have to be.
#![tactic(auto, using(check_work::proofs::Noting::meeting, crate::proofs::Expecting::expecting))]

ghost use Rattle.std.specs.Prelude.{◌≡◌, ◌++◌, ◌∷◌, [], ℕ, IfOk, List, OnOk, Some as There, length};
ghost use Rattle.checks.specs.Checks.{Comes};
ghost use Rattle.descriptors.specs.Described.{IsCopy};
ghost use Rattle.descriptors.specs.Steps.{AreOwnTypes, SignatureBelow};
ghost use Rattle.flow_narrowing.specs.Flows.{IfShared};
ghost use Rattle.needs.specs.Needs.{Runs};
ghost use Rattle.type_model.specs.declared.atoms.AtomDef.{AtomDef as Atom};
ghost use Rattle.type_model.specs.declared.answers.Keys.TheVariants.{AnyIndex};
ghost use Rattle.type_model.specs.Defined.{IsDefined, TyBelow};
ghost use Rattle.typed_tree.specs.Listed.{one};
ghost use Rattle.expr_needs.specs.Needs.{ExpectsArgument};
ghost use Rattle.check_words.specs.Calls.{expects_argument as expects_argument_of, expects_by, expects_of_library, expects_pushed, parameter_of, wants_copy, wants_kind};
ghost use Rattle.check_words.specs.Library.{argument_of, row_of};
ghost use Rattle.check_words.specs.Meets.{meets};
ghost use Rattle.check_words.specs.Members.{IsStored};
ghost use Rattle.check_words.specs.Stands.{CallBelow, SharedBelow, Stands};
ghost use Rattle.check_words.specs.Words.{OfKind, wants_some};
ghost use Rattle.check_work.specs.Views.{Holds, call_of, called_of, going, state_of};
ghost use Rattle.needs_of_made_calls.specs.Expected.{WantsOver};

use bal_base::{Fault, Memory, Place, Stop};
use check_calls::{is_push, parameter};
use check_kinds::kind_shared;
use check_library::argument;
use check_members::{member_at, stored_type};
use check_work::{Call, Callee, Checker, Work, has_stopped, last, note};
use descriptors::{OwnTypes, Signature, copy, lift};
use expr_needs::Kind;
use operations::LibraryCall;
use std::alloc::Global;
use std::rc::Rc;
use type_model::{Keys, SemType, Ty, Types};
use typed_tree::SharedTy;

/// The same type, to be shared.
fn copied(alloc: Global, t: &Ty) -> Result<SharedTy, Memory>
    ensures is { IfOk result (λ u. IsCopy t.now u.value) }
    ensures below { (n : ℕ) → TyBelow n t.now → IfOk result (SharedBelow n) }
{
    let t = copy(alloc, t)?;
    Ok(Rc::new(alloc, t)?)
}

/// The type of the parameter with this number.
fn of_function(alloc: Global, f: &Signature, number: usize) -> Result<Option<SharedTy>, Stop<Fault>>
    ensures below { (n : ℕ) → SignatureBelow n f.now → IfOk result (IfShared (TyBelow n)) }
    ensures wants { (env : List Atom) → WantsOver (wants_copy (parameter_of f.now number)) env result env }
{
    let Some(t) = parameter(f, number) else {
        return Err(Stop::Memory);
    };
    let t = copied(alloc, t)?;
    Ok(Some(t))
}

/// The type of the kind.
fn of_known(alloc: Global, own: &OwnTypes, kind: Kind) -> Result<Option<SharedTy>, Stop<Fault>>
    ensures below { (env : List Atom) → AreOwnTypes env own.now → IfOk result (IfShared (TyBelow (length env))) }
    ensures wants { (env : List Atom) → AreOwnTypes env own.now → WantsOver (wants_some (OfKind kind)) env result env }
{
    let t = kind_shared(alloc, own, kind)?;
    Ok(Some(t))
}

/// The type of the kind, if there is one.
fn of_kind(
    alloc: Global,
    own: &OwnTypes,
    kind: Option<Kind>,
) -> Result<Option<SharedTy>, Stop<Fault>>
    ensures below { (env : List Atom) → AreOwnTypes env own.now → IfOk result (IfShared (TyBelow (length env))) }
    ensures wants { (env : List Atom) → AreOwnTypes env own.now → WantsOver (wants_kind kind) env result env }
{
    match kind {
        Some(kind) => of_known(alloc, own, kind),
        None => Ok(None),
    }
}

/// The type of what is stored into the list, where this is what its items are.
fn of_items<T: Types>(
    alloc: Global,
    types: &T,
    container: &SharedTy,
    member: SemType,
) -> Result<Option<SharedTy>, Stop<Fault>>
    requires { IsDefined (T.atoms types.now) member }
    ensures below { IfOk result (IfShared (TyBelow (length (T.atoms types.now)))) }
    ensures wants { WantsOver (wants_some (IsStored container.now.value AnyIndex member)) (T.atoms types.now) result (T.atoms types.now) }
{
    let keys = Keys::AnyIndex;
    let t = stored_type(alloc, types, container, &keys, member)?;
    let t = Rc::new(alloc, t)?;
    Ok(Some(t))
}

/// The type of what is stored into the list.
fn stored<T: Types>(
    alloc: Global,
    types: &mut T,
    container: &SharedTy,
    at: Place,
) -> Result<Option<SharedTy>, Stop<Fault>>
    requires { SharedBelow (length (T.atoms types.old)) container.now }
    ensures atoms { T.atoms types.new ≡ T.atoms types.old }
    ensures below { IfOk result (IfShared (TyBelow (length (T.atoms types.old)))) }
    ensures wants { WantsOver (expects_pushed T.passes (There container.now) at) (T.atoms types.old) result (T.atoms types.new) }
{
    let keys = Keys::AnyIndex;
    match member_at(alloc, types, &container.sem, &keys, at) {
        Ok(member) => of_items(alloc, types, container, member),
        Err(stop) => Err(stop),
    }
}

/// The type of what is stored into the receiver.
fn of_push<T: Types>(
    alloc: Global,
    types: &mut T,
    receiver: &Option<SharedTy>,
    at: Place,
) -> Result<Option<SharedTy>, Stop<Fault>>
    requires { IfShared (TyBelow (length (T.atoms types.old))) receiver.now }
    ensures atoms { T.atoms types.new ≡ T.atoms types.old }
    ensures below { IfOk result (IfShared (TyBelow (length (T.atoms types.old)))) }
    ensures wants { WantsOver (expects_pushed T.passes receiver.now at) (T.atoms types.old) result (T.atoms types.new) }
{
    match receiver {
        Some(container) => stored(alloc, types, container, at),
        None => Err(Stop::Memory),
    }
}

/// A call of the library, and its arguments so far.
#[derive(Clone, Copy)]
struct Argument {
    call: LibraryCall,
    number: usize,
    at: Place,
}

/// What an argument of a call of the library has to be.
fn of_library<T: Types>(
    alloc: Global,
    types: &mut T,
    own: &OwnTypes,
    receiver: &Option<SharedTy>,
    what: Argument,
) -> Result<Option<SharedTy>, Stop<Fault>>
    requires own { AreOwnTypes (T.atoms types.old) own.now }
    requires receiver { IfShared (TyBelow (length (T.atoms types.old))) receiver.now }
    ensures atoms { T.atoms types.new ≡ T.atoms types.old }
    ensures below { IfOk result (IfShared (TyBelow (length (T.atoms types.old)))) }
    ensures wants { WantsOver (expects_of_library T.passes what.call receiver.now (argument_of (row_of what.call) what.number) what.at) (T.atoms types.old) result (T.atoms types.new) }
{
    if is_push(what.call) {
        return of_push(alloc, types, receiver, what.at);
    }
    of_kind(alloc, own, argument(what.call, what.number))
}

/// What the next argument of the call has to be: `None` where nothing is known.
fn expected<T: Types>(
    alloc: Global,
    types: &mut T,
    own: &OwnTypes,
    call: &Call<'_>,
    at: Place,
) -> Result<Option<SharedTy>, Stop<Fault>>
    requires own { AreOwnTypes (T.atoms types.old) own.now }
    requires call { CallBelow (length (T.atoms types.old)) (call_of call.now) }
    ensures atoms { T.atoms types.new ≡ T.atoms types.old }
    ensures below { IfOk result (IfShared (TyBelow (length (T.atoms types.old)))) }
    ensures wants { WantsOver (expects_by T.passes (called_of call.now.callee) call.now.args at) (T.atoms types.old) result (T.atoms types.new) }
{
    match &call.callee {
        Callee::Function(f) => of_function(alloc, f, call.args),
        Callee::Value => Ok(None),
        Callee::Library(row, receiver) => {
            let what = Argument {
                call: *row,
                number: call.args,
                at,
            };
            of_library(alloc, types, own, receiver, what)
        }
    }
}

/// The type is wanted, or none is known.
fn push_want(wants: &mut Vec<Option<SharedTy>>, want: Option<SharedTy>) -> Result<(), Memory>
    ensures { OnOk result (wants.new.items ≡ wants.old.items ++ want ∷ []) }
{
    wants.push(want)?;
    Ok(())
}

/// What the next argument of the call at hand has to be is wanted.
fn expect_argument<T: Types>(
    alloc: Global,
    types: &mut T,
    own: &OwnTypes,
    work: &mut Work<'_>,
    at: Place,
) -> Result<(), Stop<Fault>>
    requires own { AreOwnTypes (T.atoms types.old) own.now }
    requires stands { Stands (state_of (T.atoms types.old) work.old) }
    ensures atoms { T.atoms types.new ≡ T.atoms types.old }
    ensures stands { OnOk result (Stands (state_of (T.atoms types.old) work.new)) }
    ensures comes { Comes (expects_argument_of T.passes at) (state_of (T.atoms types.old) work.old) result (state_of (T.atoms types.new) work.new) }
{
    let Some(call) = last(work.calls.as_slice()) else {
        return Err(Stop::Memory);
    };
    match expected(alloc, types, own, call, at) {
        Ok(want) => lift(push_want(&mut work.wants, want)),
        Err(stop) => Err(stop),
    }
}

/// What the next argument of the call has to be is wanted: the type of its parameter, which is copied, or what the library says. Of a function
/// value nothing is wanted of one argument alone. Where it is stored into the receiver (`push`) a question asks for the type of its
/// members: `TypeLimit` at the place where that is too large.
pub fn expects_argument<T: Types>(checker: &mut Checker<'_, T>, at: Place)
    requires { Holds (T.atoms checker.old.types) checker.old.names.now checker.old.work }
    ensures holds { Holds (T.atoms checker.new.types) checker.new.names.now checker.new.work }
    ensures names { checker.new.names.now ≡ checker.old.names.now }
    ensures met { Runs (meets T.passes checker.old.names.now) (one (ExpectsArgument at)) (going (T.atoms checker.old.types) checker.old.work) (going (T.atoms checker.new.types) checker.new.work) }
{
    if has_stopped(&checker.work) {
        return;
    }
    let answer = expect_argument(
        checker.alloc,
        &mut checker.types,
        &checker.names.own,
        &mut checker.work,
        at,
    );
    note(&checker.types, &mut checker.work, answer);
}
