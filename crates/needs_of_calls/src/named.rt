//! Calls by name.
#![tactic(auto, using(check_work::proofs::Noting::meeting))]

ghost use Rattle.std.specs.Prelude.{◌≡◌, ℕ, IfOk, List, Ok as Given, OnOk, length};
ghost use Rattle.checks.specs.Checks.{Comes};
ghost use Rattle.descriptors.specs.Steps.{AreNames, AreOwnTypes, MeaningBelow};
ghost use Rattle.needs.specs.Needs.{Runs};
ghost use Rattle.type_model.specs.declared.atoms.AtomDef.{AtomDef as Atom};
ghost use Rattle.typed_tree.specs.Listed.{one};
ghost use Rattle.expr_needs.specs.Needs.{CallsNamed};
ghost use Rattle.check_words.specs.Calls.{calls_named as calls_named_of};
ghost use Rattle.check_words.specs.Library.{row_of};
ghost use Rattle.check_words.specs.Meets.{meets};
ghost use Rattle.check_words.specs.Stands.{PartBelow, Stands};
ghost use Rattle.check_work.specs.Views.{Holds, going, state_of};
ghost use Rattle.seen_names.specs.Given.{SeenBelow, with_part};
ghost use Rattle.seen_names.specs.Views.{seen_of};
ghost use Rattle.needs_of_calls.specs.Callables.{CallableBelow, IsCallable, IsLibrary, IsMeant, IsRefused, IsValued, ComesOf, calls_part};

use crate::callees::{open, open_function, open_library};
use bal_base::{Fault, FaultCode, Kept, Memory, Place, Stop};
use bal_tree::QualifiedName;
use check_kinds::require_kind;
use check_work::{Callee, Checker, Work, at_hand, has_stopped, last, note};
use descriptors::{Meaning, Names, OwnTypes, Signature};
use expr_needs::Kind;
use operations::LibraryCall;
use seen_names::{Seen, part_of_seen, seen_as};
use std::alloc::Global;
use type_model::Types;
use typed_tree::TypedExpr;

/// What a name is called as: a function, one of the library, or a value, which is the part that the name gives.
#[derive(Drop)]
pub(crate) enum Callable<'n> {
    Function(&'n Signature),
    Library(LibraryCall),
    Value(TypedExpr),
}

/// It isn't called.
fn refused<'n>(code: FaultCode, at: Place) -> Result<Callable<'n>, Stop<Fault>>
    ensures { IsRefused code at result }
{
    Err(Stop::Fault(Fault {
        code,
        at: Some(at),
        kept: Kept::Nothing,
    }))
}

/// The name gives a value, which is called.
fn valued<'n>(alloc: Global, seen: Seen<'n, '_>, at: Place) -> Result<Callable<'n>, Stop<Fault>>
    ensures is { IsValued (seen_of seen.entry) at result }
    ensures below { (n : ℕ) → SeenBelow n (seen_of seen.entry) → IfOk result (CallableBelow n) }
{
    match part_of_seen(alloc, seen, at) {
        Ok(part) => Ok(Callable::Value(part)),
        Err(stop) => Err(stop),
    }
}

/// A function of the library, which can't be started.
fn of_library<'n>(call: LibraryCall, started: bool, at: Place) -> Result<Callable<'n>, Stop<Fault>>
    ensures is { IsLibrary started (row_of call) at result }
    ensures below { (n : ℕ) → IfOk result (CallableBelow n) }
{
    if started {
        return refused(FaultCode::Unknown, at);
    }
    Ok(Callable::Library(call))
}

/// What a module defines.
fn meant<'n>(alloc: Global, meaning: &'n Meaning, at: Place) -> Result<Callable<'n>, Stop<Fault>>
    ensures is { IsMeant meaning.now at result }
    ensures below { (n : ℕ) → MeaningBelow n meaning.now → IfOk result (CallableBelow n) }
{
    match meaning {
        Meaning::Function(f) => return Ok(Callable::Function(f)),
        Meaning::TypeName(_) => return refused(FaultCode::Unknown, at),
        Meaning::Constant(_) | Meaning::Variable { .. } => {
            return valued(alloc, Seen::Meaning(meaning), at);
        }
    }
}

/// What the name is called as, or why it isn't.
fn called_as<'n>(
    alloc: Global,
    seen: Seen<'n, '_>,
    started: bool,
    at: Place,
) -> Result<Callable<'n>, Stop<Fault>>
    ensures is { IsCallable started (seen_of seen.entry) at result }
    ensures below { (n : ℕ) → SeenBelow n (seen_of seen.entry) → IfOk result (CallableBelow n) }
{
    match seen {
        Seen::Variable(v) => return valued(alloc, Seen::Variable(v), at),
        Seen::Worker(_) => return refused(FaultCode::NameAsValue, at),
        Seen::Constant(value) => return valued(alloc, Seen::Constant(value), at),
        Seen::Library(call) => return of_library(call, started, at),
        Seen::Meaning(meaning) => return meant(alloc, meaning, at),
        Seen::Nothing(code) => return refused(code, at),
    }
}

/// A call: how many arguments it has, the place of the name, and its own.
#[derive(Clone, Copy)]
struct Calling {
    count: usize,
    name: Place,
    at: Place,
}

/// A part more, which says nothing of variables.
fn put(work: &mut Work<'_>, part: TypedExpr) -> Result<(), Memory>
    ensures stands { (env : List Atom) → PartBelow (length env) part → Stands (state_of env work.old) → OnOk result (Stands (state_of env work.new)) }
    ensures is { (env : List Atom) → OnOk result (state_of env work.new ≡ with_part (state_of env work.old) (Given part)) }
{
    work.found.push(part)?;
    work.ways = None;
    Ok(())
}

/// The last part, which has to be a function, is called.
fn call_last<T: Types>(
    alloc: Global,
    types: &mut T,
    own: &OwnTypes,
    work: &mut Work<'_>,
    at: Place,
) -> Result<(), Stop<Fault>>
    requires own { AreOwnTypes (T.atoms types.old) own.now }
    requires stands { Stands (state_of (T.atoms types.old) work.old) }
    ensures atoms { T.atoms types.new ≡ T.atoms types.old }
    ensures stands { OnOk result (Stands (state_of (T.atoms types.old) work.new)) }
    ensures comes { Comes (calls_part T.passes at) (state_of (T.atoms types.old) work.old) result (state_of (T.atoms types.new) work.new) }
{
    let Some(part) = last(work.found.as_slice()) else {
        return Err(Stop::Memory);
    };
    require_kind(alloc, types, own, &part.ty().sem, Kind::AnyFunction, at)?;
    open(&mut work.calls, Callee::Value)?;
    Ok(())
}

/// A part more, which has to be a function, is called.
fn call_part<T: Types>(
    alloc: Global,
    types: &mut T,
    own: &OwnTypes,
    work: &mut Work<'_>,
    part: TypedExpr,
    at: Place,
) -> Result<(), Stop<Fault>>
    requires own { AreOwnTypes (T.atoms types.old) own.now }
    requires stands { Stands (state_of (T.atoms types.old) work.old) }
    requires part { PartBelow (length (T.atoms types.old)) part }
    ensures atoms { T.atoms types.new ≡ T.atoms types.old }
    ensures stands { OnOk result (Stands (state_of (T.atoms types.old) work.new)) }
    ensures comes { Comes (calls_part T.passes at) (with_part (state_of (T.atoms types.old) work.old) (Given part)) result (state_of (T.atoms types.new) work.new) }
{
    put(work, part)?;
    call_last(alloc, types, own, work, at)
}

/// It is called.
fn call<'n, T: Types>(
    alloc: Global,
    types: &mut T,
    own: &OwnTypes,
    work: &mut Work<'n>,
    what: Callable<'n>,
    calling: Calling,
) -> Result<(), Stop<Fault>>
    requires own { AreOwnTypes (T.atoms types.old) own.now }
    requires stands { Stands (state_of (T.atoms types.old) work.old) }
    requires below { CallableBelow (length (T.atoms types.old)) what }
    ensures atoms { T.atoms types.new ≡ T.atoms types.old }
    ensures stands { OnOk result (Stands (state_of (T.atoms types.old) work.new)) }
    ensures comes { ComesOf T.passes what.entry calling.count calling.name calling.at (state_of (T.atoms types.old) work.old) result (state_of (T.atoms types.new) work.new) }
{
    match what {
        Callable::Function(f) => open_function(work, f, calling.count, calling.at),
        Callable::Library(call) => { open_library(work, call, None, calling.count, calling.at) }
        Callable::Value(part) => call_part(alloc, types, own, work, part, calling.name),
    }
}

/// A call by name: whether it is started, how many arguments it has, and its place.
#[derive(Clone, Copy)]
struct Named {
    started: bool,
    count: usize,
    at: Place,
}

/// What the name stands for is called.
fn call_named<'n, T: Types>(
    alloc: Global,
    types: &mut T,
    names: &'n Names,
    work: &mut Work<'n>,
    name: &QualifiedName,
    named: Named,
) -> Result<(), Stop<Fault>>
    requires names { AreNames (T.atoms types.old) names.now }
    requires stands { Stands (state_of (T.atoms types.old) work.old) }
    ensures atoms { T.atoms types.new ≡ T.atoms types.old }
    ensures stands { OnOk result (Stands (state_of (T.atoms types.old) work.new)) }
    ensures comes { Comes (calls_named_of T.passes names.now named.started name.now named.count named.at) (state_of (T.atoms types.old) work.old) result (state_of (T.atoms types.new) work.new) }
{
    let unit = at_hand(&work.unit)?;
    let variables = unit.here.variables.as_slice();
    let seen = seen_as(names, &work.site, variables, name);
    let what = called_as(alloc, seen, named.started, name.at)?;
    let calling = Calling {
        count: named.count,
        name: name.at,
        at: named.at,
    };
    call(alloc, types, &names.own, work, what, calling)
}

/// What the name stands for is called with so many arguments, or the call is started (Ballerina specification, "Function call expression",
/// "Start action"). A value has to be a function, which costs a question of the decider. It looks through the variables that are seen.
///
/// - `Unknown` at the name: it stands for nothing or for a type, or a function of the library is started. `NotPublic` there: it is another
///   module's and isn't public. `NameAsValue` there: it is a worker. `Captured` there: it is a variable that is captured and assigned
///   behind its declaration.
/// - `NotSubtype` at the name: its value is no function, with a shape that shows it. `TypeLimit` there: the question is too large.
/// - `Arity` at the place: the function takes another number of arguments.
pub fn calls_named<T: Types>(
    checker: &mut Checker<'_, T>,
    started: bool,
    name: &QualifiedName,
    count: usize,
    at: Place,
)
    requires { Holds (T.atoms checker.old.types) checker.old.names.now checker.old.work }
    ensures holds { Holds (T.atoms checker.new.types) checker.new.names.now checker.new.work }
    ensures names { checker.new.names.now ≡ checker.old.names.now }
    ensures met { Runs (meets T.passes checker.old.names.now) (one (CallsNamed started name.now count at)) (going (T.atoms checker.old.types) checker.old.work) (going (T.atoms checker.new.types) checker.new.work) }
{
    if has_stopped(&checker.work) {
        return;
    }
    let named = Named { started, count, at };
    let answer = call_named(
        checker.alloc,
        &mut checker.types,
        checker.names,
        &mut checker.work,
        name,
        named,
    );
    note(&checker.types, &mut checker.work, answer);
}
