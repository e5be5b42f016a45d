//! Needs of what is in two types.
ghost use Rattle.std.specs.Prelude.{◌≡◌, IfOk};
ghost use Rattle.bal_base.specs.Stops.{IfFault};
ghost use Rattle.type_model.specs.Defined.{IsDefined};
ghost use Rattle.type_model.specs.SameType.{IsSameType};
ghost use Rattle.code_needs.specs.Needs.{HasBoth};
ghost use Rattle.code_verifier.specs.Asked.{Answers};
ghost use Rattle.code_verifier.specs.KindSets.{IsBoth};
ghost use Rattle.code_verifier.specs.LedTo.{AsksAbove, SomePasses};

use bal_base::{Memory, Stop};
use std::alloc::Global;
use type_model::{Answer, SemType, TypeLimit, Types};

/// The same type, in a box.
fn copied(alloc: Global, t: &SemType) -> Result<Box<SemType>, Memory>
    ensures { IfOk result (λ b. IsSameType t.now b.value) }
{
    Ok(Box::new(alloc, t.copy(alloc)?)?)
}

/// The shapes of both types.
fn both(alloc: Global, s: &SemType, t: &SemType) -> Result<SemType, Memory>
    ensures { IfOk result (IsBoth (IsSameType s.now) (IsSameType t.now)) }
{
    let left = copied(alloc, s)?;
    let right = copied(alloc, t)?;
    Ok(SemType::And(left, right))
}

/// Whether what is in both of the last two types is in the first, which costs one question about copies of them. `TypeLimit`
/// where it is too large.
pub fn has_both<T: Types>(
    alloc: Global,
    types: &mut T,
    r: &SemType,
    s: &SemType,
    t: &SemType,
) -> Result<Answer, Stop<TypeLimit>>
    requires result_defined { IsDefined (T.atoms types.old) r.now }
    requires left { IsDefined (T.atoms types.old) s.now }
    requires right { IsDefined (T.atoms types.old) t.now }
    ensures atoms { T.atoms types.new ≡ T.atoms types.old }
    ensures answers { IfOk result (Answers (T.atoms types.old) (HasBoth r.now s.now t.now)) }
    ensures limit { IfFault result (SomePasses T.passes (T.atoms types.old) (AsksAbove r.now (IsBoth (IsSameType s.now) (IsSameType t.now)))) }
{
    match both(alloc, s, t) {
        Ok(want) => types.sub(alloc, &want, r),
        Err(Memory) => Err(Stop::Memory),
    }
}
