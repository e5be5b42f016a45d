//! Needs of names that keys are.
ghost use Rattle.std.specs.Prelude.{◌≡◌, ◌↔◌, All, IfOk, IsTrue};
ghost use Rattle.bal_base.specs.declared.shape.Shape.{Str};
ghost use Rattle.bal_base.specs.Stops.{IfFault};
ghost use Rattle.type_model.specs.Calls.{Without};
ghost use Rattle.type_model.specs.Defined.{IsDefined};
ghost use Rattle.type_model.specs.Inclusion.{Sub};
ghost use Rattle.operations.specs.Rows.{IsSingle};
ghost use Rattle.code_needs.specs.Needs.{Names};
ghost use Rattle.code_verifier.specs.Asked.{Answers};
ghost use Rattle.code_verifier.specs.LedTo.{SomePasses};
ghost use Rattle.pair_questions.specs.Pairs.{AsksBoth, AsksName, AsksSingle, KeyDefined, pairs_of};

use crate::pair::Pair;
use bal_base::{Shape, Stop, Text};
use code_verifier::is_subtype;
use std::alloc::Global;
use type_model::{Answer, BasicSet, SemType, TypeLimit, Types};

/// Whether it was so, and the first type is below the second too.
fn and_below<T: Types>(
    alloc: Global,
    types: &mut T,
    first: bool,
    s: &SemType,
    t: &SemType,
) -> Result<bool, Stop<TypeLimit>>
    requires left { IsDefined (T.atoms types.old) s.now }
    requires right { IsDefined (T.atoms types.old) t.now }
    ensures atoms { T.atoms types.new ≡ T.atoms types.old }
    ensures both { IfOk result (λ yes. IsTrue yes ↔ (IsTrue first × Sub (T.atoms types.old) s.now t.now)) }
    ensures limit { IfFault result (T.passes (T.atoms types.old) (Without s.now t.now)) }
{
    match first {
        true => is_subtype(alloc, types, s, t),
        false => Ok(false),
    }
}

/// Whether each of the two types is below the other.
fn are_same<T: Types>(
    alloc: Global,
    types: &mut T,
    s: &SemType,
    t: &SemType,
) -> Result<bool, Stop<TypeLimit>>
    requires left { IsDefined (T.atoms types.old) s.now }
    requires right { IsDefined (T.atoms types.old) t.now }
    ensures atoms { T.atoms types.new ≡ T.atoms types.old }
    ensures both { IfOk result (λ yes. IsTrue yes ↔ (Sub (T.atoms types.old) s.now t.now × Sub (T.atoms types.old) t.now s.now)) }
    ensures limit { IfFault result (SomePasses T.passes (T.atoms types.old) (AsksBoth s.now t.now)) }
{
    match is_subtype(alloc, types, s, t) {
        Ok(first) => and_below(alloc, types, first, t, s),
        Err(stop) => Err(stop),
    }
}

/// Whether a type has the string of this text, and no other shape.
fn is_single<T: Types>(
    alloc: Global,
    types: &mut T,
    t: &SemType,
    name: &Text,
) -> Result<bool, Stop<TypeLimit>>
    requires { IsDefined (T.atoms types.old) t.now }
    ensures atoms { T.atoms types.new ≡ T.atoms types.old }
    ensures single { IfOk result (λ yes. IsTrue yes ↔ IsSingle (T.atoms types.old) t.now (Str name.now)) }
    ensures limit { IfFault result (SomePasses T.passes (T.atoms types.old) (AsksSingle t.now name.now)) }
{
    let one = SemType::Basic(BasicSet::StringOne(name.share()));
    are_same(alloc, types, t, &one)
}

/// Whether some pair has the name as its single key, which costs up to two questions for each pair. `TypeLimit` where one of
/// them is too large.
pub fn has_name<T: Types>(
    alloc: Global,
    types: &mut T,
    pairs: &[Pair<'_>],
    name: &Text,
) -> Result<Answer, Stop<TypeLimit>>
    requires { All (KeyDefined (T.atoms types.old)) pairs.now }
    ensures atoms { T.atoms types.new ≡ T.atoms types.old }
    ensures answers { IfOk result (Answers (T.atoms types.old) (Names (pairs_of pairs.now) name.now)) }
    ensures limit { IfFault result (SomePasses T.passes (T.atoms types.old) (AsksName pairs.now name.now)) }
{
    for pair in pairs {
        if is_single(alloc, types, pair.key, name)? {
            return Ok(Answer::Yes);
        }
    }
    Ok(Answer::No(Shape::Str(name.share())))
}
