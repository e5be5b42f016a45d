//! Types that are put together of others.
ghost use Rattle.std.specs.Prelude.{◌⊎◌, ◌↔◌, IfOk, ℕ, List};
ghost use Rattle.bal_base.specs.declared.shape.Shape.{Shape};
ghost use Rattle.type_model.specs.Basic.{InBasic};
ghost use Rattle.type_model.specs.Defined.{NamesBelow};
ghost use Rattle.type_model.specs.Membership.{In};
ghost use Rattle.type_model.specs.SameType.{IsSameType};
ghost use Rattle.type_model.specs.declared.atoms.AtomDef.{AtomDef as Atom};
ghost use Rattle.flow_narrowing.specs.Asked.{IsBoth, IsEither, IsNot};

use bal_base::Memory;
use std::alloc::Global;
use type_model::{BasicSet, SemType};

/// The same type, in a box.
pub(crate) fn copied(alloc: Global, t: &SemType) -> Result<Box<SemType>, Memory>
    ensures { IfOk result (λ b. IsSameType t.now b.value) }
{
    Ok(Box::new(alloc, t.copy(alloc)?)?)
}

/// The shapes of both types.
pub(crate) fn both(alloc: Global, s: &SemType, t: &SemType) -> Result<SemType, Memory>
    ensures { IfOk result (IsBoth (IsSameType s.now) (IsSameType t.now)) }
{
    let s = copied(alloc, s)?;
    let t = copied(alloc, t)?;
    Ok(SemType::And(s, t))
}

/// The shapes of one of the two types or of both.
pub(crate) fn either(alloc: Global, s: &SemType, t: &SemType) -> Result<SemType, Memory>
    ensures { IfOk result (IsEither (IsSameType s.now) (IsSameType t.now)) }
{
    let s = copied(alloc, s)?;
    let t = copied(alloc, t)?;
    Ok(SemType::Or(s, t))
}

/// The shapes that aren't in the type.
pub(crate) fn not(alloc: Global, t: &SemType) -> Result<SemType, Memory>
    ensures { IfOk result (IsNot (IsSameType t.now)) }
{
    Ok(SemType::Not(copied(alloc, t)?))
}

/// The shapes of the type, and all of the set.
pub(crate) fn with_all(alloc: Global, t: SemType, set: BasicSet) -> Result<SemType, Memory>
    ensures shapes { IfOk result (λ u. (env : List Atom) (x : Shape) → In env x u ↔ (In env x t ⊎ InBasic x set)) }
    ensures defined { IfOk result (λ u. (n : ℕ) → NamesBelow n t → NamesBelow n u) }
{
    let t = Box::new(alloc, t)?;
    let set = Box::new(alloc, SemType::Basic(set))?;
    Ok(SemType::Or(t, set))
}
