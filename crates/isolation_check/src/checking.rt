//! The check of a package.
#![tactic(auto)]

ghost use Rattle.std.specs.Prelude.{◌≡◌, ◌<◌, ◌∷◌, [], ℕ, All, IfOk, List, None, false, length, map, replicate};
ghost use Rattle.bal_base.specs.Stops.{IfFault};
ghost use Rattle.bal_base.specs.declared.fault.FaultCode.TheVariants.{NotIsolated};
ghost use Rattle.checks.specs.Checks.{Comes, Outcome};
ghost use Rattle.descriptors.specs.Steps.{AreOwnTypes};
ghost use Rattle.isolation_check.specs.Alone.{IsOnly};
ghost use Rattle.isolation_check.specs.Isolated.{IsIsolated, own_parts, promises as promises_of};
ghost use Rattle.isolation_check.specs.Parts.{function_parts};
ghost use Rattle.isolation_check.specs.inner.Opened.{AreBelow, open_of};
ghost use Rattle.isolation_check.specs.inner.Views.{parts_of};
ghost use Rattle.isolation_check.specs.Typed.{AreTyped, PartBelow};
ghost use Rattle.isolation_check.specs.Walk.{isolated};
ghost use Rattle.type_model.specs.declared.atoms.AtomDef.{AtomDef as Atom};

use crate::gathering::{Gathered, gather};
use crate::walk::{Bodies, OpenBody, Walk};
use bal_base::{Fault, Memory, Stop};
use descriptors::OwnTypes;
use std::alloc::Global;
use type_model::Types;
use typed_tree::TypedPackage;

/// No function was entered yet.
fn unentered(alloc: Global, count: usize) -> Result<Vec<bool>, Memory>
    ensures { IfOk result (λ bs. bs.items ≡ replicate count false) }
{
    let mut entered = Vec::new(alloc);
    for _ in 0..count {
        entered.push(false)?;
    }
    Ok(entered)
}

/// The walk from all promises.
fn first<'p, 'a>(alloc: Global, all: &'p Gathered<'a>) -> Result<Walk<'p, 'a>, Memory>
    ensures entered { IfOk result (λ w. w.entered.items ≡ replicate (length all.now.bodies.items) false) }
    ensures stack { IfOk result (λ w. map open_of w.stack.items ≡ record { name = None; left = parts_of all.now.promises.items } ∷ []) }
    ensures below { IfOk result (λ w. (n : ℕ) → All (PartBelow n) (parts_of all.now.promises.items) → AreBelow n w.stack.items) }
{
    let entered = unentered(alloc, all.bodies.len())?;
    let mut stack = Vec::new(alloc);
    stack.push(OpenBody {
        name: None,
        parts: all.promises.as_slice(),
        done: 0,
    })?;
    Ok(Walk { stack, entered })
}

/// The walk over what was gathered.
fn walked<'p, 'a, T: Types>(
    alloc: Global,
    types: &mut T,
    own: &'p OwnTypes,
    package: &'a TypedPackage,
    all: &'p Gathered<'a>,
) -> Result<(), Stop<Fault>>
    requires own { own.now.isolated < length (T.atoms types.old) }
    requires typed { AreTyped (length (T.atoms types.old)) «package».now }
    requires bodies { map (λ v. parts_of v.items) all.now.bodies.items ≡ map (λ f. own_parts (function_parts f)) «package».now.functions.items }
    requires promises { parts_of all.now.promises.items ≡ promises_of «package».now }
    ensures atoms { T.atoms types.new ≡ T.atoms types.old }
    ensures comes { Comes (isolated T.passes own.now «package».now) (T.atoms types.old) result (T.atoms types.new) }
{
    let bodies = Bodies {
        own,
        package,
        parts: &all.bodies,
    };
    first(alloc, all)?.run(alloc, types, bodies)
}

/// Whether each body that is declared isolated keeps its promise, and each body that such a one reaches by calls by name: it reads only
/// constants and final module variables of immutable types, assigns no module variable, and calls values of isolated function types
/// alone; an isolated anonymous function captures variables of immutable types alone ("Isolated functions").
///
/// - `NotIsolated` at the place where a promise is broken, with the names of the functions whose calls lead there: the first one, where
///   calls are followed in depth first, in the order of the text.
/// - `TypeLimit` at the place of a question that is too large.
///
/// Nothing else can be the case, but for a question that is too large: one package has one answer, and one path.
///
/// It costs by the nodes of the tree, and a question for each part that needs one. `own`: the language's own types, of whose atoms it
/// needs that of all isolated functions.
pub fn check_isolated<T: Types>(
    alloc: Global,
    types: &mut T,
    own: &OwnTypes,
    package: &TypedPackage,
) -> Result<(), Stop<Fault>>
    requires own { AreOwnTypes (T.atoms types.old) own.now }
    requires typed { AreTyped (length (T.atoms types.old)) «package».now }
    ensures atoms { T.atoms types.new ≡ T.atoms types.old }
    ensures comes { Comes (isolated T.passes own.now «package».now) (T.atoms types.old) result (T.atoms types.new) }
    ensures only { (o : Outcome (Unit {0})) (other : List Atom) → isolated T.passes own.now «package».now (T.atoms types.old) o other → IsOnly result o }
    ensures right { IfOk result (λ u. IsIsolated «package».now own.now (T.atoms types.old)) }
    ensures wrong { IfFault result (λ f. f.code ≡ NotIsolated → ¬ IsIsolated «package».now own.now (T.atoms types.old)) }
{
    let all = gather(alloc, package)?;
    walked(alloc, types, own, package, &all)
}
