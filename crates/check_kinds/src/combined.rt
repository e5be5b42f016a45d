//! Types that are put together of two.
ghost use Rattle.std.specs.Prelude.{◌⊎◌, ◌↔◌, IfOk, ℕ, List};
ghost use Rattle.bal_base.specs.declared.shape.Shape.{Shape};
ghost use Rattle.type_model.specs.declared.atoms.AtomDef.{AtomDef as Atom};
ghost use Rattle.type_model.specs.Basic.{InBasic};
ghost use Rattle.type_model.specs.Defined.{NamesBelow};
ghost use Rattle.type_model.specs.Membership.{In};
ghost use Rattle.type_model.specs.SameType.{IsSameType};

use bal_base::Memory;
use std::alloc::Global;
use type_model::{BasicSet, SemType};

/// The same type, in a box.
fn copied(alloc: Global, t: &SemType) -> Result<Box<SemType>, Memory>
    ensures { IfOk result (λ b. IsSameType t.now b.value) }
{
    Ok(Box::new(alloc, t.copy(alloc)?)?)
}

/// The shapes of one of the two types or of both.
pub(crate) fn either(alloc: Global, s: &SemType, t: &SemType) -> Result<SemType, Memory>
    ensures shapes { IfOk result (λ u. (env : List Atom) (x : Shape) → In env x u ↔ (In env x s.now ⊎ In env x t.now)) }
    ensures defined { IfOk result (λ u. (n : ℕ) → NamesBelow n s.now → NamesBelow n t.now → NamesBelow n u) }
{
    let left = copied(alloc, s)?;
    let right = copied(alloc, t)?;
    Ok(SemType::Or(left, right))
}

/// The shapes of both types.
pub(crate) fn both(alloc: Global, s: &SemType, t: &SemType) -> Result<SemType, Memory>
    ensures shapes { IfOk result (λ u. (env : List Atom) (x : Shape) → In env x u ↔ (In env x s.now × In env x t.now)) }
    ensures defined { IfOk result (λ u. (n : ℕ) → NamesBelow n s.now → NamesBelow n t.now → NamesBelow n u) }
{
    let left = copied(alloc, s)?;
    let right = copied(alloc, t)?;
    Ok(SemType::And(left, right))
}

/// The shapes of the type, and all of the set.
pub(crate) fn with_set(alloc: Global, t: SemType, set: BasicSet) -> Result<SemType, Memory>
    ensures shapes { IfOk result (λ u. (env : List Atom) (x : Shape) → In env x u ↔ (In env x t ⊎ InBasic x set)) }
    ensures defined { IfOk result (λ u. (n : ℕ) → NamesBelow n t → NamesBelow n u) }
{
    let t = Box::new(alloc, t)?;
    let set = Box::new(alloc, SemType::Basic(set))?;
    Ok(SemType::Or(t, set))
}

/// The shapes of the type that are in the set.
pub(crate) fn in_set(alloc: Global, t: SemType, set: BasicSet) -> Result<SemType, Memory>
    ensures shapes { IfOk result (λ u. (env : List Atom) (x : Shape) → In env x u ↔ (In env x t × InBasic x set)) }
    ensures defined { IfOk result (λ u. (n : ℕ) → NamesBelow n t → NamesBelow n u) }
{
    let t = Box::new(alloc, t)?;
    let set = Box::new(alloc, SemType::Basic(set))?;
    Ok(SemType::And(t, set))
}

/// The shapes that aren't in the set.
fn complement(alloc: Global, set: BasicSet) -> Result<Box<SemType>, Memory>
    ensures shapes { IfOk result (λ u. (env : List Atom) (x : Shape) → In env x u.value ↔ (¬ InBasic x set)) }
    ensures defined { IfOk result (λ u. (n : ℕ) → NamesBelow n u.value) }
{
    let set = Box::new(alloc, SemType::Basic(set))?;
    Ok(Box::new(alloc, SemType::Not(set))?)
}

/// The shapes of the type that aren't in the set.
pub(crate) fn out_of(alloc: Global, t: SemType, set: BasicSet) -> Result<SemType, Memory>
    ensures shapes { IfOk result (λ u. (env : List Atom) (x : Shape) → In env x u ↔ (In env x t × (¬ InBasic x set))) }
    ensures defined { IfOk result (λ u. (n : ℕ) → NamesBelow n t → NamesBelow n u) }
{
    let t = Box::new(alloc, t)?;
    let rest = complement(alloc, set)?;
    Ok(SemType::And(t, rest))
}
