//! Plans, one function after another.
#![tactic(auto)]

ghost use Rattle.std.specs.Prelude.{◌≡◌};
ghost use Rattle.checks.specs.Checks.{Comes};
ghost use Rattle.package_plans.specs.Planned.{function_plans, package_plans};
ghost use Rattle.package_plans.specs.inner.InTurn.{given};
ghost use Rattle.package_plans.specs.Planned.{all_give};

use crate::defined::is_defined;
use bal_base::{Fault, Memory, Stop};
use std::alloc::Global;
use type_model::Types;
use typed_tree::{Plan, TypedFunction, TypedPackage};
use worker_plans::plan;

/// The plan of each function, at the number of its unit.
#[derive(Drop)]
pub struct PackagePlans {
    pub functions: Vec<Plan>,
}

/// The plan of a function. A type that names an atom that isn't there is want of memory: no checked package has one.
fn plan_function<T: Types>(
    alloc: Global,
    types: &mut T,
    f: &TypedFunction,
) -> Result<Plan, Stop<Fault>>
    ensures atoms { T.atoms types.new ≡ T.atoms types.old }
    ensures comes { Comes (function_plans T.passes f.now) (T.atoms types.old) result (T.atoms types.new) }
{
    match is_defined(alloc, f, types.env().defs().len()) {
        Ok(true) => plan(alloc, types, f),
        Ok(false) | Err(Memory) => Err(Stop::Memory),
    }
}

/// The plans of these functions.
fn plan_all<T: Types>(
    alloc: Global,
    types: &mut T,
    functions: &[TypedFunction],
) -> Result<Vec<Plan>, Stop<Fault>>
    ensures atoms { T.atoms types.new ≡ T.atoms types.old }
    ensures comes { Comes (all_give (function_plans T.passes) functions.now) (T.atoms types.old) (given result) (T.atoms types.new) }
{
    let mut plans = Vec::new(alloc);
    for f in functions {
        let plan = plan_function(alloc, types, f)?;
        plans.push(plan)?;
    }
    Ok(plans)
}

/// The plan of each function of a package: the pairs of its messages, and a rank for each of its events; or the first fault of the
/// first function in text order that has one, as `plan` gives it: `WorkerLimit`, `NoPeer`, `Conditional`, `Unpaired`, `SuccessBefore`,
/// `BadMessage`, `TypeLimit` and `WaitCycle` ("Async send action", "Single receive action", "Wait action"). The atoms stay as they are.
/// It costs what the plans of the functions cost, one after another.
pub fn plan_package<T: Types>(
    alloc: Global,
    types: &mut T,
    package: &TypedPackage,
) -> Result<PackagePlans, Stop<Fault>>
    ensures atoms { T.atoms types.new ≡ T.atoms types.old }
    ensures comes { Comes (package_plans T.passes «package».now) (T.atoms types.old) result (T.atoms types.new) }
{
    match plan_all(alloc, types, package.functions.as_slice()) {
        Ok(functions) => Ok(PackagePlans { functions }),
        Err(stop) => Err(stop),
    }
}
