//! Packages, accepted.
#![tactic(auto)]

ghost use Rattle.std.specs.Prelude.{IfOk, length};
ghost use Rattle.bal_base.specs.Stops.{IfFault};
ghost use Rattle.checks.specs.Checks.{Comes};
ghost use Rattle.compile_front.specs.Codes.{IsFrontCode};
ghost use Rattle.compile_front.specs.Front.{checked_over, front_of, isolated_over, named_over, planned_over};
ghost use Rattle.compile_front.specs.Told.{IsTold};
ghost use Rattle.descriptors.specs.Steps.{AreNames};
ghost use Rattle.isolation_check.specs.Isolated.{IsIsolated};
ghost use Rattle.isolation_check.specs.Typed.{AreTyped};

use crate::codes::is_front_code;
use crate::mains::{has_main, no_main};
use bal_base::{Fault, Stop};
use bal_tree::Package;
use descriptors::Names;
use isolation_check::check_isolated;
use package_plans::{PackagePlans, plan_package};
use std::alloc::Global;
use stmt_checker::{Checked, check_package};
use type_builder::build;
use type_model::Types;
use typed_tree::TypedPackage;

/// A package without fault: what its names stand for, its bodies, typed, and the plans of its functions.
#[derive(Drop)]
pub struct Accepted {
    pub names: Names,
    pub package: TypedPackage,
    pub plans: PackagePlans,
}

/// What came of a package: the types, which are given back, and what was accepted or why not.
pub struct Answered<T> {
    pub types: T,
    pub answer: Result<Accepted, Stop<Fault>>,
}

/// Whether a package is one of the language (Ballerina specification, sections 5 to 8): what its names stand for, its typed package, that
/// its isolated functions keep their promises, and the plans of its functions, by which no workers wait for one another. It takes the
/// types, to which atoms are added, and gives them back.
///
/// The first fault is refused, in this order:
///
/// - `NoMain`: the default module has no public function `main`.
/// - of names and definitions, in text order: `Duplicate`, `Unknown`, `NotPublic`, `IllFounded`, `BadMain` and `TypeLimit` of its question;
///   then `AtomLimit`, as `build` gives them.
/// - of bodies, in text order, as `check_package` gives them: `NotSubtype`, `Arity`, `NoField`, `AssignFinal`, `Captured`,
///   `MissingReturn`, `BadBreak`, `Ignored`, `ReadOnlyHolds`, `NoChoice`, `NeedsType`, `NameAsValue`, and `Duplicate`, `Unknown`,
///   `NotPublic`, `TypeLimit` and `AtomLimit` in bodies.
/// - of isolation: `NotIsolated`, or `TypeLimit` of a question of it, as `check_isolated` gives them.
/// - of messages, of the first function in text order that has one, as `plan_package` gives them: `WorkerLimit`, `NoPeer`, `Conditional`,
///   `Unpaired`, `SuccessBefore`, `BadMessage`, `TypeLimit` of its questions, and `WaitCycle`.
///
/// It costs what the four cost, one after another. A fault with another code would be want of memory: none of them gives one.
pub fn accept<T: Types>(alloc: Global, types: T, package: &Package) -> Answered<T>
    ensures comes { Comes (front_of T.passes «package».now) (T.atoms types) result.answer (T.atoms result.types) }
    ensures codes { IfFault result.answer (λ f. IsFrontCode f.code) }
    ensures names { IfOk result.answer (λ a. AreNames (T.atoms result.types) a.names) }
    ensures typed { IfOk result.answer (λ a. AreTyped (length (T.atoms result.types)) a.«package») }
    ensures isolated { IfOk result.answer (λ a. IsIsolated a.«package» a.names.own (T.atoms result.types)) }
{
    let Answered { types, answer } = all_steps(alloc, types, package);
    Answered {
        types,
        answer: told(answer),
    }
}

/// An answer as it is told.
fn told(answer: Result<Accepted, Stop<Fault>>) -> Result<Accepted, Stop<Fault>>
    ensures same { IsTold answer result }
    ensures codes { IfFault result (λ f. IsFrontCode f.code) }
{
    match answer {
        Ok(accepted) => Ok(accepted),
        Err(Stop::Fault(fault)) => {
            if is_front_code(fault.code) {
                Err(Stop::Fault(fault))
            } else {
                Err(Stop::Memory)
            }
        }
        Err(Stop::Memory) => Err(Stop::Memory),
    }
}

/// The same, whatever codes faults have.
fn all_steps<T: Types>(alloc: Global, types: T, package: &Package) -> Answered<T>
    ensures comes { Comes (front_of T.passes «package».now) (T.atoms types) result.answer (T.atoms result.types) }
    ensures names { IfOk result.answer (λ a. AreNames (T.atoms result.types) a.names) }
    ensures typed { IfOk result.answer (λ a. AreTyped (length (T.atoms result.types)) a.«package») }
    ensures isolated { IfOk result.answer (λ a. IsIsolated a.«package» a.names.own (T.atoms result.types)) }
{
    if !has_main(package) {
        return Answered {
            types,
            answer: Err(Stop::Fault(no_main())),
        };
    }
    named(alloc, types, package)
}

/// The same behind the question whether there is a `main`.
fn named<T: Types>(alloc: Global, types: T, package: &Package) -> Answered<T>
    ensures comes { Comes (named_over T.passes «package».now) (T.atoms types) result.answer (T.atoms result.types) }
    ensures names { IfOk result.answer (λ a. AreNames (T.atoms result.types) a.names) }
    ensures typed { IfOk result.answer (λ a. AreTyped (length (T.atoms result.types)) a.«package») }
    ensures isolated { IfOk result.answer (λ a. IsIsolated a.«package» a.names.own (T.atoms result.types)) }
{
    let mut types = types;
    match build(alloc, &mut types, package) {
        Ok(names) => checked(alloc, types, names, package),
        Err(stop) => Answered {
            types,
            answer: Err(stop),
        },
    }
}

/// The same behind what names stand for.
fn checked<T: Types>(alloc: Global, types: T, names: Names, package: &Package) -> Answered<T>
    requires { AreNames (T.atoms types) names }
    ensures comes { Comes (checked_over T.passes «package».now names) (T.atoms types) result.answer (T.atoms result.types) }
    ensures names { IfOk result.answer (λ a. AreNames (T.atoms result.types) a.names) }
    ensures typed { IfOk result.answer (λ a. AreTyped (length (T.atoms result.types)) a.«package») }
    ensures isolated { IfOk result.answer (λ a. IsIsolated a.«package» a.names.own (T.atoms result.types)) }
{
    let Checked { types, answer } = check_package(alloc, types, &names, package);
    match answer {
        Ok(typed) => isolated(alloc, types, names, typed),
        Err(stop) => Answered {
            types,
            answer: Err(stop),
        },
    }
}

/// The same behind the typed package.
fn isolated<T: Types>(alloc: Global, types: T, names: Names, package: TypedPackage) -> Answered<T>
    requires names { AreNames (T.atoms types) names }
    requires typed { AreTyped (length (T.atoms types)) «package» }
    ensures comes { Comes (isolated_over T.passes names «package») (T.atoms types) result.answer (T.atoms result.types) }
    ensures names { IfOk result.answer (λ a. AreNames (T.atoms result.types) a.names) }
    ensures typed { IfOk result.answer (λ a. AreTyped (length (T.atoms result.types)) a.«package») }
    ensures isolated { IfOk result.answer (λ a. IsIsolated a.«package» a.names.own (T.atoms result.types)) }
{
    let mut types = types;
    match check_isolated(alloc, &mut types, &names.own, &package) {
        Ok(()) => planned(alloc, types, names, package),
        Err(stop) => Answered {
            types,
            answer: Err(stop),
        },
    }
}

/// The same of a package that keeps its promises of isolation.
fn planned<T: Types>(alloc: Global, types: T, names: Names, package: TypedPackage) -> Answered<T>
    requires names { AreNames (T.atoms types) names }
    requires typed { AreTyped (length (T.atoms types)) «package» }
    requires isolated { IsIsolated «package» names.own (T.atoms types) }
    ensures comes { Comes (planned_over T.passes names «package») (T.atoms types) result.answer (T.atoms result.types) }
    ensures names { IfOk result.answer (λ a. AreNames (T.atoms result.types) a.names) }
    ensures typed { IfOk result.answer (λ a. AreTyped (length (T.atoms result.types)) a.«package») }
    ensures isolated { IfOk result.answer (λ a. IsIsolated a.«package» a.names.own (T.atoms result.types)) }
{
    let mut types = types;
    match plan_package(alloc, &mut types, &package) {
        Ok(plans) => Answered {
            types,
            answer: Ok(Accepted {
                names,
                package,
                plans,
            }),
        },
        Err(stop) => Answered {
            types,
            answer: Err(stop),
        },
    }
}
