//! Needs of what stands in mappings at the keys that a type names.
ghost use Rattle.std.specs.Prelude.{◌≡◌, IfOk};
ghost use Rattle.bal_base.specs.Stops.{IfFault};
ghost use Rattle.type_model.specs.declared.basic.BasicSet.TheVariants.{StringOne};
ghost use Rattle.type_model.specs.declared.basic.SemType.{SemType as TypeOf, Basic};
ghost use Rattle.type_model.specs.Calls.{Without};
ghost use Rattle.type_model.specs.Defined.{IsDefined};
ghost use Rattle.type_model.specs.Inclusion.{AnswersSub, FindsShape, IsShapeOf};
ghost use Rattle.operations.specs.Rows.{StandsAtKey};
ghost use Rattle.code_needs.specs.Needs.{MemberHas, MemberIn};
ghost use Rattle.code_verifier.specs.Asked.{Answers};
ghost use Rattle.code_verifier.specs.Keyed.{AreKeysOf, HasString, IsKeyBy};
ghost use Rattle.code_verifier.specs.LedTo.{AsksKey, AsksMember, AsksOfMember, AsksOfPart, AsksPart, SomePasses};

use crate::asking::{part_has, part_is_in};
use bal_base::{Shape, Stop, Text};
use std::alloc::Global;
use type_model::{Answer, BasicSet, Keys, SemType, TypeLimit, Types};

/// The key of this name, where the answer is that there is no other, and else all keys.
fn key_by(answer: Answer, name: &Text) -> Option<Keys>
    ensures { IsKeyBy name.now answer result }
{
    match answer {
        Answer::Yes => Some(Keys::Field(name.share())),
        Answer::No(_) => Some(Keys::AnyField),
    }
}

/// Whether a type has no shape but a string of this text. `TypeLimit` where the question is too large.
fn is_only<T: Types>(
    alloc: Global,
    types: &mut T,
    k: &SemType,
    name: &Text,
) -> Result<Answer, Stop<TypeLimit>>
    requires { IsDefined (T.atoms types.old) k.now }
    ensures atoms { T.atoms types.new ≡ T.atoms types.old }
    ensures answer { IfOk result (AnswersSub (T.atoms types.old) k.now (Basic (StringOne name.now))) }
    ensures limit { IfFault result (T.passes (T.atoms types.old) (Without k.now (Basic (StringOne name.now)))) }
{
    let one = SemType::Basic(BasicSet::StringOne(name.share()));
    types.sub(alloc, k, &one)
}

/// The keys that a type names that has a string of this text. `TypeLimit` where the question is too large.
fn keys_with<T: Types>(
    alloc: Global,
    types: &mut T,
    k: &SemType,
    name: &Text,
) -> Result<Option<Keys>, Stop<TypeLimit>>
    requires defined { IsDefined (T.atoms types.old) k.now }
    requires there { HasString (T.atoms types.old) k.now name.now }
    ensures atoms { T.atoms types.new ≡ T.atoms types.old }
    ensures keys { IfOk result (AreKeysOf (T.atoms types.old) k.now) }
    ensures limit { IfFault result (T.passes (T.atoms types.old) (Without k.now (Basic (StringOne name.now)))) }
{
    match is_only(alloc, types, k, name) {
        Ok(answer) => Ok(key_by(answer, name)),
        Err(stop) => Err(stop),
    }
}

/// The keys that a type names that has this shape. `TypeLimit` where a question is too large.
fn keys_of_shape<T: Types>(
    alloc: Global,
    types: &mut T,
    k: &SemType,
    shape: &Shape,
) -> Result<Option<Keys>, Stop<TypeLimit>>
    requires defined { IsDefined (T.atoms types.old) k.now }
    requires there { IsShapeOf (T.atoms types.old) k.now shape.now }
    ensures atoms { T.atoms types.new ≡ T.atoms types.old }
    ensures keys { IfOk result (AreKeysOf (T.atoms types.old) k.now) }
    ensures limit { IfFault result (SomePasses T.passes (T.atoms types.old) (AsksKey (T.atoms types.old) k.now)) }
{
    match shape {
        Shape::Str(name) => keys_with(alloc, types, k, name),
        _ => Ok(Some(Keys::AnyField)),
    }
}

/// The same, or all where no shape was found.
fn keys_of_found<T: Types>(
    alloc: Global,
    types: &mut T,
    k: &SemType,
    found: Option<Shape>,
) -> Result<Option<Keys>, Stop<TypeLimit>>
    requires defined { IsDefined (T.atoms types.old) k.now }
    requires found { FindsShape (T.atoms types.old) k.now found }
    ensures atoms { T.atoms types.new ≡ T.atoms types.old }
    ensures keys { IfOk result (AreKeysOf (T.atoms types.old) k.now) }
    ensures limit { IfFault result (SomePasses T.passes (T.atoms types.old) (AsksKey (T.atoms types.old) k.now)) }
{
    match found {
        Some(shape) => keys_of_shape(alloc, types, k, &shape),
        None => Ok(Some(Keys::AnyField)),
    }
}

/// The keys that a type names: one where it has a single string, and else all. It costs up to two questions. `TypeLimit` where one of them is too large.
fn named_keys<T: Types>(
    alloc: Global,
    types: &mut T,
    k: &SemType,
) -> Result<Option<Keys>, Stop<TypeLimit>>
    requires { IsDefined (T.atoms types.old) k.now }
    ensures atoms { T.atoms types.new ≡ T.atoms types.old }
    ensures keys { IfOk result (AreKeysOf (T.atoms types.old) k.now) }
    ensures limit { IfFault result (SomePasses T.passes (T.atoms types.old) (AsksKey (T.atoms types.old) k.now)) }
{
    match types.has_shape(alloc, k) {
        Ok(found) => keys_of_found(alloc, types, k, found),
        Err(stop) => Err(stop),
    }
}

/// Whether all that stands at the keys in the first type is in the second.
fn parts_are_in<T: Types>(
    alloc: Global,
    types: &mut T,
    m: &SemType,
    keys: Option<Keys>,
    t: &SemType,
) -> Result<Answer, Stop<TypeLimit>>
    requires left { IsDefined (T.atoms types.old) m.now }
    requires right { IsDefined (T.atoms types.old) t.now }
    ensures atoms { T.atoms types.new ≡ T.atoms types.old }
    ensures answers { (k : TypeOf) → AreKeysOf (T.atoms types.old) k keys → IfOk result (Answers (T.atoms types.old) (MemberIn m.now k t.now)) }
    ensures limit { (k : TypeOf) → AreKeysOf (T.atoms types.old) k keys → IfFault result (SomePasses T.passes (T.atoms types.old) (AsksPart (T.atoms types.old) m.now (StandsAtKey (T.atoms types.old) m.now k) t.now)) }
{
    match keys {
        Some(keys) => part_is_in(alloc, types, m, &keys, t),
        None => Ok(Answer::Yes),
    }
}

/// Whether each shape of the last type stands at the keys in the first.
fn parts_have<T: Types>(
    alloc: Global,
    types: &mut T,
    m: &SemType,
    keys: Option<Keys>,
    v: &SemType,
) -> Result<Answer, Stop<TypeLimit>>
    requires left { IsDefined (T.atoms types.old) m.now }
    requires right { IsDefined (T.atoms types.old) v.now }
    ensures atoms { T.atoms types.new ≡ T.atoms types.old }
    ensures answers { (k : TypeOf) → AreKeysOf (T.atoms types.old) k keys → IfOk result (Answers (T.atoms types.old) (MemberHas m.now k v.now)) }
    ensures limit { (k : TypeOf) → AreKeysOf (T.atoms types.old) k keys → IfFault result (SomePasses T.passes (T.atoms types.old) (AsksOfPart (T.atoms types.old) m.now (StandsAtKey (T.atoms types.old) m.now k) v.now)) }
{
    match keys {
        Some(keys) => part_has(alloc, types, m, &keys, v),
        None => types.sub(alloc, v, &SemType::Basic(BasicSet::Never)),
    }
}

/// Whether all that stands in the first type, of mappings, at a key that the second names is in the third. It costs up to
/// four questions. `TypeLimit` where one of them is too large.
pub fn member_is_in<T: Types>(
    alloc: Global,
    types: &mut T,
    m: &SemType,
    k: &SemType,
    t: &SemType,
) -> Result<Answer, Stop<TypeLimit>>
    requires left { IsDefined (T.atoms types.old) m.now }
    requires keys { IsDefined (T.atoms types.old) k.now }
    requires right { IsDefined (T.atoms types.old) t.now }
    ensures atoms { T.atoms types.new ≡ T.atoms types.old }
    ensures answers { IfOk result (Answers (T.atoms types.old) (MemberIn m.now k.now t.now)) }
    ensures limit { IfFault result (SomePasses T.passes (T.atoms types.old) (AsksMember (T.atoms types.old) m.now k.now t.now)) }
{
    match named_keys(alloc, types, k) {
        Ok(keys) => parts_are_in(alloc, types, m, keys, t),
        Err(stop) => Err(stop),
    }
}

/// Whether each shape of the third type stands in the first, of mappings, at a key that the second names. It costs up to
/// four questions. `TypeLimit` where one of them is too large.
pub fn member_has<T: Types>(
    alloc: Global,
    types: &mut T,
    m: &SemType,
    k: &SemType,
    v: &SemType,
) -> Result<Answer, Stop<TypeLimit>>
    requires left { IsDefined (T.atoms types.old) m.now }
    requires keys { IsDefined (T.atoms types.old) k.now }
    requires right { IsDefined (T.atoms types.old) v.now }
    ensures atoms { T.atoms types.new ≡ T.atoms types.old }
    ensures answers { IfOk result (Answers (T.atoms types.old) (MemberHas m.now k.now v.now)) }
    ensures limit { IfFault result (SomePasses T.passes (T.atoms types.old) (AsksOfMember (T.atoms types.old) m.now k.now v.now)) }
{
    match named_keys(alloc, types, k) {
        Ok(keys) => parts_have(alloc, types, m, keys, v),
        Err(stop) => Err(stop),
    }
}
