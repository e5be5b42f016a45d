//! Needs as questions about types.
ghost use Rattle.std.specs.Prelude.{◌≡◌, IfOk, Some};
ghost use Rattle.bal_base.specs.Stops.{IfFault};
ghost use Rattle.type_model.specs.declared.basic.SemType.{Basic};
ghost use Rattle.type_model.specs.Calls.{Without};
ghost use Rattle.type_model.specs.Defined.{IsDefined};
ghost use Rattle.type_model.specs.Parts.{StandsAt};
ghost use Rattle.code_needs.specs.Needs.{Below as IsBelow, Has as HasAll, HasConstant, PartHas, PartIn, Within};
ghost use Rattle.code_verifier.specs.Asked.{Answers};
ghost use Rattle.code_verifier.specs.LedTo.{AsksAbove, AsksBelow, AsksOfPart, AsksPart, SomePasses};
ghost use Rattle.code_needs.specs.declared.kind.Kind.{Kind as KindOf};
ghost use Rattle.code_verifier.specs.KindSets.{AreKnown, IsKindType, IsWritten, constant_set as set_of_constant, sets_of};

use crate::kind_types::{KnownTypes, known_type, written};
use crate::sets::{Sets, constant_set, kind_sets};
use bal_base::{Memory, Stop};
use code_needs::Kind;
use operations::Constant;
use std::alloc::Global;
use type_model::{Answer, Keys, SemType, TypeLimit, Types};

/// Whether the first type is below the second, which costs one question. `TypeLimit` where it is too large.
pub fn is_below<T: Types>(
    alloc: Global,
    types: &mut T,
    s: &SemType,
    t: &SemType,
) -> Result<Answer, Stop<TypeLimit>>
    requires left { IsDefined (T.atoms types.old) s.now }
    requires right { IsDefined (T.atoms types.old) t.now }
    ensures atoms { T.atoms types.new ≡ T.atoms types.old }
    ensures answers { IfOk result (Answers (T.atoms types.old) (IsBelow s.now t.now)) }
    ensures limit { IfFault result (T.passes (T.atoms types.old) (Without s.now t.now)) }
{
    types.sub(alloc, s, t)
}

/// Whether all shapes of a type are of the sets.
fn is_within_sets<T: Types>(
    alloc: Global,
    types: &mut T,
    s: &SemType,
    sets: Sets,
) -> Result<Answer, Stop<TypeLimit>>
    requires { IsDefined (T.atoms types.old) s.now }
    ensures atoms { T.atoms types.new ≡ T.atoms types.old }
    ensures answers { (kind : KindOf) → sets_of kind ≡ Some sets → IfOk result (Answers (T.atoms types.old) (Within s.now kind)) }
    ensures limit { IfFault result (SomePasses T.passes (T.atoms types.old) (AsksBelow s.now (IsWritten sets))) }
{
    match written(alloc, sets) {
        Ok(want) => types.sub(alloc, s, &want),
        Err(Memory) => Err(Stop::Memory),
    }
}

/// Whether all shapes of a type are of the kind, which costs one question. `TypeLimit` where it is too large.
pub fn is_within<T: Types>(
    alloc: Global,
    types: &mut T,
    known: &KnownTypes,
    s: &SemType,
    kind: Kind,
) -> Result<Answer, Stop<TypeLimit>>
    requires known { AreKnown (T.atoms types.old) known.now }
    requires defined { IsDefined (T.atoms types.old) s.now }
    ensures atoms { T.atoms types.new ≡ T.atoms types.old }
    ensures answers { IfOk result (Answers (T.atoms types.old) (Within s.now kind)) }
    ensures limit { IfFault result (SomePasses T.passes (T.atoms types.old) (AsksBelow s.now (IsKindType known.now kind))) }
{
    match kind_sets(kind) {
        Some(sets) => is_within_sets(alloc, types, s, sets),
        None => types.sub(alloc, s, known_type(known, kind)),
    }
}

/// Whether a type has all shapes of the sets.
fn has_sets<T: Types>(
    alloc: Global,
    types: &mut T,
    t: &SemType,
    sets: Sets,
) -> Result<Answer, Stop<TypeLimit>>
    requires { IsDefined (T.atoms types.old) t.now }
    ensures atoms { T.atoms types.new ≡ T.atoms types.old }
    ensures answers { (kind : KindOf) → sets_of kind ≡ Some sets → IfOk result (Answers (T.atoms types.old) (HasAll t.now kind)) }
    ensures limit { IfFault result (SomePasses T.passes (T.atoms types.old) (AsksAbove t.now (IsWritten sets))) }
{
    match written(alloc, sets) {
        Ok(want) => types.sub(alloc, &want, t),
        Err(Memory) => Err(Stop::Memory),
    }
}

/// Whether a type has all shapes of the kind, which costs one question. `TypeLimit` where it is too large.
pub fn has_kind<T: Types>(
    alloc: Global,
    types: &mut T,
    known: &KnownTypes,
    t: &SemType,
    kind: Kind,
) -> Result<Answer, Stop<TypeLimit>>
    requires known { AreKnown (T.atoms types.old) known.now }
    requires defined { IsDefined (T.atoms types.old) t.now }
    ensures atoms { T.atoms types.new ≡ T.atoms types.old }
    ensures answers { IfOk result (Answers (T.atoms types.old) (HasAll t.now kind)) }
    ensures limit { IfFault result (SomePasses T.passes (T.atoms types.old) (AsksAbove t.now (IsKindType known.now kind))) }
{
    match kind_sets(kind) {
        Some(sets) => has_sets(alloc, types, t, sets),
        None => types.sub(alloc, known_type(known, kind), t),
    }
}

/// Whether the constant's shape is in a type, which costs one question. `TypeLimit` where it is too large.
pub fn has_constant<T: Types>(
    alloc: Global,
    types: &mut T,
    t: &SemType,
    value: &Constant,
) -> Result<Answer, Stop<TypeLimit>>
    requires { IsDefined (T.atoms types.old) t.now }
    ensures atoms { T.atoms types.new ≡ T.atoms types.old }
    ensures answers { IfOk result (Answers (T.atoms types.old) (HasConstant t.now value.now)) }
    ensures limit { IfFault result (T.passes (T.atoms types.old) (Without (Basic (set_of_constant value.now)) t.now)) }
{
    let want = SemType::Basic(constant_set(value));
    types.sub(alloc, &want, t)
}

/// Whether all that stands at such a key of the first type is in the second, which costs two questions. `TypeLimit` where
/// one of them is too large.
pub fn part_is_in<T: Types>(
    alloc: Global,
    types: &mut T,
    whole: &SemType,
    keys: &Keys,
    t: &SemType,
) -> Result<Answer, Stop<TypeLimit>>
    requires left { IsDefined (T.atoms types.old) whole.now }
    requires right { IsDefined (T.atoms types.old) t.now }
    ensures atoms { T.atoms types.new ≡ T.atoms types.old }
    ensures answers { IfOk result (Answers (T.atoms types.old) (PartIn whole.now keys.now t.now)) }
    ensures limit { IfFault result (SomePasses T.passes (T.atoms types.old) (AsksPart (T.atoms types.old) whole.now (StandsAt (T.atoms types.old) whole.now keys.now) t.now)) }
{
    match types.member(alloc, whole, keys) {
        Ok(part) => types.sub(alloc, &part, t),
        Err(stop) => Err(stop),
    }
}

/// Whether each shape of the second type stands at such a key of the first, which costs two questions. `TypeLimit` where
/// one of them is too large.
pub fn part_has<T: Types>(
    alloc: Global,
    types: &mut T,
    whole: &SemType,
    keys: &Keys,
    v: &SemType,
) -> Result<Answer, Stop<TypeLimit>>
    requires left { IsDefined (T.atoms types.old) whole.now }
    requires right { IsDefined (T.atoms types.old) v.now }
    ensures atoms { T.atoms types.new ≡ T.atoms types.old }
    ensures answers { IfOk result (Answers (T.atoms types.old) (PartHas whole.now keys.now v.now)) }
    ensures limit { IfFault result (SomePasses T.passes (T.atoms types.old) (AsksOfPart (T.atoms types.old) whole.now (StandsAt (T.atoms types.old) whole.now keys.now) v.now)) }
{
    match types.member(alloc, whole, keys) {
        Ok(part) => types.sub(alloc, v, &part),
        Err(stop) => Err(stop),
    }
}
