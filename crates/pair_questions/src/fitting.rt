//! Needs of pairs that are members of a mapping.
ghost use Rattle.std.specs.Prelude.{◌≡◌, IfOk};
ghost use Rattle.bal_base.specs.Stops.{IfFault};
ghost use Rattle.type_model.specs.Calls.{Without};
ghost use Rattle.type_model.specs.Defined.{IsDefined};
ghost use Rattle.type_model.specs.Inclusion.{AnswersSub};
ghost use Rattle.code_needs.specs.Needs.{FitsFields};
ghost use Rattle.code_verifier.specs.Asked.{Answers};
ghost use Rattle.code_verifier.specs.LedTo.{SomePasses};
ghost use Rattle.pair_questions.specs.Fitting.{AreMembers, AsksBeside, AsksField, AsksFit, AsksNamed, TellsBeside, TellsField, TellsNamed, other_type};
ghost use Rattle.pair_questions.specs.Pairs.{pair_of};

use crate::members::Members;
use crate::pair::Pair;
use crate::strings::{has_beside, type_has};
use bal_base::Stop;
use std::alloc::Global;
use type_model::{Answer, BasicSet, FieldDef, SemType, Ty, TypeLimit, Types};

/// Whether the value is in the field's type, where the key may be its name.
fn fits_field<T: Types>(
    alloc: Global,
    types: &mut T,
    pair: Pair<'_>,
    field: &FieldDef,
) -> Result<Answer, Stop<TypeLimit>>
    requires value { IsDefined (T.atoms types.old) pair.value.now }
    requires field { IsDefined (T.atoms types.old) field.now.ty.sem }
    ensures atoms { T.atoms types.new ≡ T.atoms types.old }
    ensures told { IfOk result (TellsField (T.atoms types.old) pair.entry field.now) }
    ensures limit { IfFault result (SomePasses T.passes (T.atoms types.old) (AsksField (T.atoms types.old) pair.entry field.now)) }
{
    let _characters = field.name.as_str();
    match type_has(pair.key, Some(&field.name)) {
        true => types.sub(alloc, pair.value, &field.ty.sem),
        false => Ok(Answer::Yes),
    }
}

/// Whether the value is in the type of each field whose name the key may be.
fn fits_named<T: Types>(
    alloc: Global,
    types: &mut T,
    members: Members<'_>,
    pair: Pair<'_>,
) -> Result<Answer, Stop<TypeLimit>>
    requires members { AreMembers (T.atoms types.old) members }
    requires value { IsDefined (T.atoms types.old) pair.value.now }
    ensures atoms { T.atoms types.new ≡ T.atoms types.old }
    ensures told { IfOk result (TellsNamed (T.atoms types.old) members.entry pair.entry) }
    ensures limit { IfFault result (SomePasses T.passes (T.atoms types.old) (AsksNamed (T.atoms types.old) members.entry pair.entry)) }
{
    for field in members.fields {
        if let Answer::No(shape) = fits_field(alloc, types, pair, field)? {
            return Ok(Answer::No(shape));
        }
    }
    Ok(Answer::Yes)
}

/// Whether the type is below that of other members, or has no shape where there are none.
fn is_other<T: Types>(
    alloc: Global,
    types: &mut T,
    rest: &Option<Ty>,
    s: &SemType,
) -> Result<Answer, Stop<TypeLimit>>
    requires other { IsDefined (T.atoms types.old) (other_type rest.now) }
    requires defined { IsDefined (T.atoms types.old) s.now }
    ensures atoms { T.atoms types.new ≡ T.atoms types.old }
    ensures answer { IfOk result (AnswersSub (T.atoms types.old) s.now (other_type rest.now)) }
    ensures limit { IfFault result (T.passes (T.atoms types.old) (Without s.now (other_type rest.now))) }
{
    match rest {
        Some(t) => types.sub(alloc, s, &t.sem),
        None => types.sub(alloc, s, &SemType::Basic(BasicSet::Never)),
    }
}

/// Whether the value is in the type of other members, or there is none, where the key may be no name of a field.
fn fits_others<T: Types>(
    alloc: Global,
    types: &mut T,
    members: Members<'_>,
    pair: Pair<'_>,
) -> Result<Answer, Stop<TypeLimit>>
    requires members { AreMembers (T.atoms types.old) members }
    requires value { IsDefined (T.atoms types.old) pair.value.now }
    ensures atoms { T.atoms types.new ≡ T.atoms types.old }
    ensures told { IfOk result (TellsBeside (T.atoms types.old) members.entry pair.entry) }
    ensures limit { IfFault result (SomePasses T.passes (T.atoms types.old) (AsksBeside (T.atoms types.old) members.entry pair.entry)) }
{
    match has_beside(pair.key, members.fields) {
        true => is_other(alloc, types, members.rest, pair.value),
        false => Ok(Answer::Yes),
    }
}

/// Whether a pair's value is in the type of each key of a mapping that the pair's key may be: a question for each field whose name
/// that is, and one for all other keys. `TypeLimit` where one of them is too large.
pub fn fits_fields<T: Types>(
    alloc: Global,
    types: &mut T,
    members: Members<'_>,
    pair: Pair<'_>,
) -> Result<Answer, Stop<TypeLimit>>
    requires members { AreMembers (T.atoms types.old) members }
    requires value { IsDefined (T.atoms types.old) pair.value.now }
    ensures atoms { T.atoms types.new ≡ T.atoms types.old }
    ensures answers { IfOk result (Answers (T.atoms types.old) (FitsFields members.entry.fields.now members.entry.rest.now (pair_of pair.entry))) }
    ensures limit { IfFault result (SomePasses T.passes (T.atoms types.old) (AsksFit (T.atoms types.old) members.entry pair.entry)) }
{
    if let Answer::No(shape) = fits_named(alloc, types, members, pair)? {
        return Ok(Answer::No(shape));
    }
    fits_others(alloc, types, members, pair)
}
