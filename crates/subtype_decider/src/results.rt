//! Types of results.
ghost use Rattle.std.specs.Prelude.{◌≤◌, ◌∷◌, [], All, IfOk, List, length};
ghost use Rattle.type_model.specs.declared.atoms.AtomDef.{AtomDef};
ghost use Rattle.type_model.specs.Defined.{IsClosed};
ghost use Rattle.type_diagrams.specs.Kinds.{the_mark};
ghost use Rattle.empty_arrow.specs.Arrows.{IsArrow};
ghost use Rattle.empty_arrow.specs.Giving.{IsBoth, IsEither, IsMeeting};

use bal_base::Memory;
use empty_arrow::arrow_of;
use std::alloc::Global;
use type_model::{AtomDef, BasicSet, SemType};

/// What the first arrow and all others give.
pub(crate) fn all_outcomes(
    alloc: Global,
    defs: &[AtomDef],
    first: u32,
    others: &[u32],
) -> Result<SemType, Memory>
    requires closed { IsClosed defs.now }
    requires few { length defs.now ≤ the_mark }
    requires first { IsArrow defs.now first }
    requires others { All (IsArrow defs.now) others.now }
    ensures { IfOk result (IsMeeting defs.now (first ∷ others.now)) }
{
    let mut outcomes = arrow_of(defs, first).result.copy(alloc)?;
    for arrow in others {
        outcomes = both(alloc, outcomes, arrow_of(defs, *arrow).result)?;
    }
    Ok(outcomes)
}

/// The shapes that are in one of the types.
pub(crate) fn one_of(alloc: Global, types: Vec<SemType>) -> Result<SemType, Memory>
    ensures { (env : List AtomDef) → IfOk result (IsEither env types.items) }
{
    let mut types = types;
    let Some(mut union) = types.pop() else {
        return Ok(SemType::Basic(BasicSet::Never));
    };
    while let Some(t) = types.pop() {
        union = either(alloc, t, union)?;
    }
    Ok(union)
}

/// The shapes that are in both.
fn both(alloc: Global, s: SemType, t: &SemType) -> Result<SemType, Memory>
    ensures { (env : List AtomDef) → IfOk result (IsBoth env s t.now) }
{
    let s = Box::new(alloc, s)?;
    let t = Box::new(alloc, t.copy(alloc)?)?;
    Ok(SemType::And(s, t))
}

/// The shapes that are in one of the two or in both.
fn either(alloc: Global, s: SemType, t: SemType) -> Result<SemType, Memory>
    ensures { (env : List AtomDef) → IfOk result (IsEither env (s ∷ t ∷ [])) }
{
    let s = Box::new(alloc, s)?;
    let t = Box::new(alloc, t)?;
    Ok(SemType::Or(s, t))
}
