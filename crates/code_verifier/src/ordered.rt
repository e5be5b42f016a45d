//! Needs of two types whose shapes are in order.
ghost use Rattle.std.specs.Prelude.{◌≡◌, IfOk};
ghost use Rattle.bal_base.specs.Stops.{IfFault};
ghost use Rattle.type_model.specs.declared.basic.BasicSet.TheVariants.{StringAll};
ghost use Rattle.type_model.specs.declared.basic.SemType.{SemType as TypeOf, Basic};
ghost use Rattle.type_model.specs.Calls.{Without};
ghost use Rattle.type_model.specs.Defined.{IsDefined};
ghost use Rattle.type_model.specs.Inclusion.{AnswersSub};
ghost use Rattle.code_needs.specs.Needs.{Ordered};
ghost use Rattle.code_verifier.specs.Asked.{Answers};
ghost use Rattle.code_verifier.specs.inner.Pairs.{TellsBelow};
ghost use Rattle.code_verifier.specs.KindSets.{all_ints};
ghost use Rattle.code_verifier.specs.LedTo.{AsksEach, AsksOrder, SomePasses};

use crate::deciding::is_yes;
use crate::sets::ints;
use bal_base::Stop;
use std::alloc::Global;
use type_model::{Answer, BasicSet, SemType, TypeLimit, Types};

/// What was answered of the first type, or else what is answered of the second.
fn and_second<T: Types>(
    alloc: Global,
    types: &mut T,
    first: Answer,
    b: &SemType,
    t: &SemType,
) -> Result<Answer, Stop<TypeLimit>>
    requires second { IsDefined (T.atoms types.old) b.now }
    requires right { IsDefined (T.atoms types.old) t.now }
    ensures atoms { T.atoms types.new ≡ T.atoms types.old }
    ensures tells { (a : TypeOf) → AnswersSub (T.atoms types.old) a t.now first → IfOk result (TellsBelow (T.atoms types.old) a b.now t.now) }
    ensures limit { IfFault result (T.passes (T.atoms types.old) (Without b.now t.now)) }
{
    match first {
        Answer::Yes => types.sub(alloc, b, t),
        Answer::No(shape) => Ok(Answer::No(shape)),
    }
}

/// Whether both are below the last type.
fn are_below<T: Types>(
    alloc: Global,
    types: &mut T,
    a: &SemType,
    b: &SemType,
    t: &SemType,
) -> Result<Answer, Stop<TypeLimit>>
    requires first { IsDefined (T.atoms types.old) a.now }
    requires second { IsDefined (T.atoms types.old) b.now }
    requires right { IsDefined (T.atoms types.old) t.now }
    ensures atoms { T.atoms types.new ≡ T.atoms types.old }
    ensures tells { IfOk result (TellsBelow (T.atoms types.old) a.now b.now t.now) }
    ensures limit { IfFault result (SomePasses T.passes (T.atoms types.old) (AsksEach a.now b.now t.now)) }
{
    match types.sub(alloc, a, t) {
        Ok(first) => and_second(alloc, types, first, b, t),
        Err(stop) => Err(stop),
    }
}

/// Whether both are ints.
fn are_ints<T: Types>(
    alloc: Global,
    types: &mut T,
    a: &SemType,
    b: &SemType,
) -> Result<Answer, Stop<TypeLimit>>
    requires first { IsDefined (T.atoms types.old) a.now }
    requires second { IsDefined (T.atoms types.old) b.now }
    ensures atoms { T.atoms types.new ≡ T.atoms types.old }
    ensures tells { IfOk result (TellsBelow (T.atoms types.old) a.now b.now (Basic all_ints)) }
    ensures limit { IfFault result (SomePasses T.passes (T.atoms types.old) (AsksEach a.now b.now (Basic all_ints))) }
{
    let all = SemType::Basic(ints());
    are_below(alloc, types, a, b, &all)
}

/// Whether both are below ints, as was answered, or else below strings.
fn or_strings<T: Types>(
    alloc: Global,
    types: &mut T,
    a: &SemType,
    b: &SemType,
    of_ints: Answer,
) -> Result<Answer, Stop<TypeLimit>>
    requires first { IsDefined (T.atoms types.old) a.now }
    requires second { IsDefined (T.atoms types.old) b.now }
    requires told { TellsBelow (T.atoms types.old) a.now b.now (Basic all_ints) of_ints }
    ensures atoms { T.atoms types.new ≡ T.atoms types.old }
    ensures answers { IfOk result (Answers (T.atoms types.old) (Ordered a.now b.now)) }
    ensures limit { IfFault result (SomePasses T.passes (T.atoms types.old) (AsksEach a.now b.now (Basic StringAll))) }
{
    match is_yes(of_ints) {
        true => Ok(Answer::Yes),
        false => are_below(alloc, types, a, b, &SemType::Basic(BasicSet::StringAll)),
    }
}

/// Whether the shapes of both types are ints, or those of both strings, which costs up to four questions. `TypeLimit` where one
/// of them is too large.
pub fn are_ordered<T: Types>(
    alloc: Global,
    types: &mut T,
    a: &SemType,
    b: &SemType,
) -> Result<Answer, Stop<TypeLimit>>
    requires first { IsDefined (T.atoms types.old) a.now }
    requires second { IsDefined (T.atoms types.old) b.now }
    ensures atoms { T.atoms types.new ≡ T.atoms types.old }
    ensures answers { IfOk result (Answers (T.atoms types.old) (Ordered a.now b.now)) }
    ensures limit { IfFault result (SomePasses T.passes (T.atoms types.old) (AsksOrder a.now b.now)) }
{
    match are_ints(alloc, types, a, b) {
        Ok(of_ints) => or_strings(alloc, types, a, b, of_ints),
        Err(stop) => Err(stop),
    }
}
