//! What is called: a value, or a method of one.
#![tactic(auto, using(check_work::proofs::Noting::meeting))]

ghost use Rattle.std.specs.Prelude.{◌≡◌, ◌++◌, ◌∷◌, [], List, OnOk, Ok as Given, length, map};
ghost use Rattle.checks.specs.Checks.{Comes};
ghost use Rattle.descriptors.specs.Steps.{AreOwnTypes, SignatureBelow};
ghost use Rattle.flow_narrowing.specs.Flows.{IfShared};
ghost use Rattle.needs.specs.Needs.{Runs};
ghost use Rattle.type_model.specs.declared.atoms.AtomDef.{AtomDef as Atom};
ghost use Rattle.type_model.specs.Defined.{TyBelow};
ghost use Rattle.typed_tree.specs.Listed.{one};
ghost use Rattle.expr_needs.specs.Needs.{CallsMethod, CallsValue};
ghost use Rattle.check_words.specs.Calls.{calls, calls_function, calls_library, calls_method as calls_method_of};
ghost use Rattle.check_words.specs.Library.{row_of};
ghost use Rattle.check_words.specs.Meets.{meets};
ghost use Rattle.check_words.specs.Stands.{Stands};
ghost use Rattle.check_words.specs.State.{OfValue};
ghost use Rattle.check_work.specs.Views.{Holds, call_of, called_of, going, state_of};
ghost use Rattle.needs_of_calls.specs.Opened.{opened};

use crate::refusing::require;
use bal_base::{Fault, FaultCode, Memory, Place, Stop};
use bal_tree::Word;
use check_calls::{function_takes, pick};
use check_library::takes_so_many;
use check_work::{Call, Callee, Checker, Work, has_stopped, last, note, note_made, shared};
use descriptors::{OwnTypes, Signature};
use operations::LibraryCall;
use std::alloc::Global;
use type_model::Types;
use typed_tree::SharedTy;

/// A call is opened, of which no argument is found yet.
pub(crate) fn open<'a>(calls: &mut Vec<Call<'a>>, callee: Callee<'a>) -> Result<(), Memory>
    ensures { OnOk result (map call_of calls.new.items ≡ map call_of calls.old.items ++ opened (called_of callee.entry) ∷ []) }
{
    calls.push(Call { callee, args: 0 })?;
    Ok(())
}

/// The last part is called.
fn call_value(work: &mut Work<'_>) -> Result<(), Memory>
    ensures stands { (env : List Atom) → Stands (state_of env work.old) → OnOk result (Stands (state_of env work.new)) }
    ensures comes { (env : List Atom) → OnOk result (Comes (calls OfValue) (state_of env work.old) (Given tt) (state_of env work.new)) }
{
    open(&mut work.calls, Callee::Value)?;
    Ok(())
}

/// The last part is called (Ballerina specification, "Function call expression").
pub fn calls_value<T: Types>(checker: &mut Checker<'_, T>)
    requires { Holds (T.atoms checker.old.types) checker.old.names.now checker.old.work }
    ensures holds { Holds (T.atoms checker.new.types) checker.new.names.now checker.new.work }
    ensures names { checker.new.names.now ≡ checker.old.names.now }
    ensures met { Runs (meets T.passes checker.old.names.now) (one CallsValue) (going (T.atoms checker.old.types) checker.old.work) (going (T.atoms checker.new.types) checker.new.work) }
{
    if has_stopped(&checker.work) {
        return;
    }
    let made = call_value(&mut checker.work);
    note_made(&checker.types, &mut checker.work, made);
}

/// A function is called with so many arguments.
pub(crate) fn open_function<'a>(
    work: &mut Work<'a>,
    f: &'a Signature,
    count: usize,
    at: Place,
) -> Result<(), Stop<Fault>>
    ensures stands { (env : List Atom) → SignatureBelow (length env) f.now → Stands (state_of env work.old) → OnOk result (Stands (state_of env work.new)) }
    ensures comes { (env : List Atom) → Comes (calls_function f.now count at) (state_of env work.old) result (state_of env work.new) }
{
    require(function_takes(f, count), FaultCode::Arity, at)?;
    open(&mut work.calls, Callee::Function(f))?;
    Ok(())
}

/// A call of the library is opened with so many arguments.
pub(crate) fn open_library(
    work: &mut Work<'_>,
    call: LibraryCall,
    receiver: Option<SharedTy>,
    count: usize,
    at: Place,
) -> Result<(), Stop<Fault>>
    ensures stands { (env : List Atom) → IfShared (TyBelow (length env)) receiver → Stands (state_of env work.old) → OnOk result (Stands (state_of env work.new)) }
    ensures comes { (env : List Atom) → Comes (calls_library (row_of call) receiver count at) (state_of env work.old) result (state_of env work.new) }
{
    require(takes_so_many(call, count), FaultCode::Arity, at)?;
    open(&mut work.calls, Callee::Library(call, receiver))?;
    Ok(())
}

/// How many arguments a call has, and its place.
#[derive(Clone, Copy)]
struct Counted {
    count: usize,
    at: Place,
}

/// A method of the last part is called.
fn call_method<T: Types>(
    alloc: Global,
    types: &mut T,
    own: &OwnTypes,
    work: &mut Work<'_>,
    method: &Word,
    given: Counted,
) -> Result<(), Stop<Fault>>
    requires own { AreOwnTypes (T.atoms types.old) own.now }
    requires stands { Stands (state_of (T.atoms types.old) work.old) }
    ensures atoms { T.atoms types.new ≡ T.atoms types.old }
    ensures stands { OnOk result (Stands (state_of (T.atoms types.old) work.new)) }
    ensures comes { Comes (calls_method_of T.passes method.now given.count given.at) (state_of (T.atoms types.old) work.old) result (state_of (T.atoms types.new) work.new) }
{
    let Some(part) = last(work.found.as_slice()) else {
        return Err(Stop::Memory);
    };
    let call = pick(alloc, types, own, &part.ty().sem, &method.name, given.at)?;
    let receiver = shared(part.ty())?;
    open_library(work, call, Some(receiver), given.count, given.at)
}

/// A method of the last part is called with so many arguments (Ballerina specification, "Method call expression"). Of the methods of this name the
/// first one is meant whose kind the receiver is of: a question of the decider for each at most.
///
/// - `NoField` at the place: none has this name, or the receiver is of the kind of none.
/// - `Arity` there: it takes another number of arguments.
/// - `TypeLimit` there: a question is too large.
pub fn calls_method<T: Types>(checker: &mut Checker<'_, T>, method: &Word, count: usize, at: Place)
    requires { Holds (T.atoms checker.old.types) checker.old.names.now checker.old.work }
    ensures holds { Holds (T.atoms checker.new.types) checker.new.names.now checker.new.work }
    ensures names { checker.new.names.now ≡ checker.old.names.now }
    ensures met { Runs (meets T.passes checker.old.names.now) (one (CallsMethod method.now count at)) (going (T.atoms checker.old.types) checker.old.work) (going (T.atoms checker.new.types) checker.new.work) }
{
    if has_stopped(&checker.work) {
        return;
    }
    let given = Counted { count, at };
    let answer = call_method(
        checker.alloc,
        &mut checker.types,
        &checker.names.own,
        &mut checker.work,
        method,
        given,
    );
    note(&checker.types, &mut checker.work, answer);
}
