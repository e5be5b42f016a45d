//! Whether a part keeps the promise of isolation.
#![tactic(auto)]

ghost use Rattle.std.specs.Prelude.{◌≡◌, ◌<◌, All, List, Some as Given, length, slice_get};
ghost use Rattle.bal_base.specs.declared.text.Name.{Name as NameOf};
ghost use Rattle.type_model.specs.Defined.{IsDefined, TyBelow};
ghost use Rattle.type_model.specs.declared.basic.BasicSet.TheVariants.{Readonly};
ghost use Rattle.type_model.specs.declared.basic.SemType.{Atom, Basic};
ghost use Rattle.typed_tree.specs.SharedTypes.{sem_of};
ghost use Rattle.isolation_check.specs.inner.Judging.{Judged, VariablesBelow};
ghost use Rattle.isolation_check.specs.Typed.{PartBelow};
ghost use Rattle.isolation_check.specs.inner.Views.{does_of, part_of};
ghost use Rattle.isolation_check.specs.Walk.{are_readonly as are_readonly_of, has_to_be as has_to_be_of, is_steady as is_steady_of, keeps as keeps_of};

use crate::parts::{Deed, HeldPart};
use bal_base::{Fault, Place, Stop};
use checks::is_below;
use descriptors::OwnTypes;
use std::alloc::Global;
use type_model::{BasicSet, SemType, Types};
use typed_tree::{Captured, ModuleVariable, SharedTy, TypedPackage};

/// Whether a type is below another one. One question.
fn has_to_be<T: Types>(
    alloc: Global,
    types: &mut T,
    s: &SemType,
    t: &SemType,
    at: Place,
) -> Result<bool, Stop<Fault>>
    requires left { IsDefined (T.atoms types.old) s.now }
    requires right { IsDefined (T.atoms types.old) t.now }
    ensures atoms { T.atoms types.new ≡ T.atoms types.old }
    ensures judged { (names : List NameOf) → Judged (has_to_be_of T.passes s.now t.now names at) names at (T.atoms types.old) result }
{
    is_below(alloc, types, s, t, Some(at))
}

/// Whether all shapes of a type are immutable.
fn is_readonly<T: Types>(
    alloc: Global,
    types: &mut T,
    t: &SharedTy,
    at: Place,
) -> Result<bool, Stop<Fault>>
    requires { TyBelow (length (T.atoms types.old)) t.now.value }
    ensures atoms { T.atoms types.new ≡ T.atoms types.old }
    ensures judged { (names : List NameOf) → Judged (has_to_be_of T.passes (sem_of t.now) (Basic Readonly) names at) names at (T.atoms types.old) result }
{
    has_to_be(
        alloc,
        types,
        &t.sem,
        &SemType::Basic(BasicSet::Readonly),
        at,
    )
}

/// Whether the captured variables are all of immutable types.
fn are_readonly<T: Types>(
    alloc: Global,
    types: &mut T,
    captured: &[Captured],
    at: Place,
) -> Result<bool, Stop<Fault>>
    requires { All (λ c. TyBelow (length (T.atoms types.old)) c.ty.value) captured.now }
    ensures atoms { T.atoms types.new ≡ T.atoms types.old }
    ensures judged { (names : List NameOf) → Judged (are_readonly_of T.passes captured.now names at) names at (T.atoms types.old) result }
{
    for c in captured {
        if !is_readonly(alloc, types, &c.ty, at)? {
            return Ok(false);
        }
    }
    Ok(true)
}

/// Whether a module variable is final and of an immutable type.
fn is_steady<T: Types>(
    alloc: Global,
    types: &mut T,
    variable: &ModuleVariable,
    at: Place,
) -> Result<bool, Stop<Fault>>
    requires { TyBelow (length (T.atoms types.old)) «variable».now.ty.value }
    ensures atoms { T.atoms types.new ≡ T.atoms types.old }
    ensures judged { (names : List NameOf) → Judged (is_steady_of T.passes (Given «variable».now) names at) names at (T.atoms types.old) result }
{
    if !variable.is_final {
        return Ok(false);
    }
    is_readonly(alloc, types, &variable.ty, at)
}

/// The same of the variable with a number.
fn is_steady_at<T: Types>(
    alloc: Global,
    types: &mut T,
    variables: &[ModuleVariable],
    number: u32,
    at: Place,
) -> Result<bool, Stop<Fault>>
    requires { All (λ v. TyBelow (length (T.atoms types.old)) v.ty.value) variables.now }
    ensures atoms { T.atoms types.new ≡ T.atoms types.old }
    ensures judged { (names : List NameOf) → Judged (is_steady_of T.passes (slice_get variables.now number) names at) names at (T.atoms types.old) result }
{
    match variables.get(number as usize) {
        Some(v) => is_steady(alloc, types, v, at),
        None => Err(Stop::Memory),
    }
}

/// Whether the values of a type are all isolated functions.
fn is_isolated<T: Types>(
    alloc: Global,
    types: &mut T,
    own: &OwnTypes,
    t: &SharedTy,
    at: Place,
) -> Result<bool, Stop<Fault>>
    requires isolated { own.now.isolated < length (T.atoms types.old) }
    requires below { TyBelow (length (T.atoms types.old)) t.now.value }
    ensures atoms { T.atoms types.new ≡ T.atoms types.old }
    ensures judged { (names : List NameOf) → Judged (has_to_be_of T.passes (sem_of t.now) (Atom own.now.isolated) names at) names at (T.atoms types.old) result }
{
    has_to_be(alloc, types, &t.sem, &SemType::Atom(own.isolated), at)
}

/// Whether a part keeps the promise. `TypeLimit` at its place where a question is too large.
pub(crate) fn keeps<T: Types>(
    alloc: Global,
    types: &mut T,
    own: &OwnTypes,
    package: &TypedPackage,
    part: HeldPart<'_>,
) -> Result<bool, Stop<Fault>>
    requires isolated { own.now.isolated < length (T.atoms types.old) }
    requires variables { VariablesBelow (length (T.atoms types.old)) «package».now }
    requires part { PartBelow (length (T.atoms types.old)) (part_of part) }
    ensures atoms { T.atoms types.new ≡ T.atoms types.old }
    ensures judged { (names : List NameOf) → Judged (keeps_of T.passes own.now «package».now (does_of part.entry.deed) names part.entry.at) names part.entry.at (T.atoms types.old) result }
{
    match part.deed {
        Deed::Reads(number) => is_steady_at(alloc, types, &package.variables, number, part.at),
        Deed::Stores => Ok(false),
        Deed::Calls(_) => Ok(true),
        Deed::CallsValue(t) => is_isolated(alloc, types, own, t, part.at),
        Deed::Captures(captured) => are_readonly(alloc, types, captured, part.at),
    }
}
