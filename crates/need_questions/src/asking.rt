//! Needs of all kinds, asked one after another.
ghost use Rattle.std.specs.Prelude.{◌≡◌, All, IfOk};
ghost use Rattle.bal_base.specs.Stops.{IfFault};
ghost use Rattle.type_model.specs.Calls.{KeepsTypes};
ghost use Rattle.type_model.specs.Defined.{IsDefined};
ghost use Rattle.code_needs.specs.Needs.{FitsFields, Names};
ghost use Rattle.code_verifier.specs.Asked.{Answers};
ghost use Rattle.code_verifier.specs.KindSets.{AreKnown};
ghost use Rattle.code_verifier.specs.LedTo.{SomePasses};
ghost use Rattle.code_verifier.specs.Questions.{IsAskable, LeadsTo, need_of};
ghost use Rattle.pair_questions.specs.Fitting.{AreMembers, AsksFit};
ghost use Rattle.pair_questions.specs.Pairs.{AsksName, KeyDefined, pair_of, pairs_of};
ghost use Rattle.need_questions.specs.inner.Widened.{widened};
ghost use Rattle.need_questions.specs.NeedsAsked.{AnswersNeeds, AreAnswered, IsAskableNeed, needs_of};
ghost use Rattle.need_questions.specs.NeedStops.{FirstStops, HasAddedFor, NeedStops, OfTypes};

use crate::question::NeedQuestion;
use atom_questions::{QuestionLimit, gives, gives_future, has_field};
use bal_base::{Shape, Stop, Text};
use code_verifier::{KnownTypes, Question, ask};
use detail_questions::has_errors;
use pair_questions::{Members, Pair, fits_fields, has_name};
use std::alloc::Global;
use type_model::{Answer, TypeLimit, Types};

/// A limit of types as one of questions.
fn widen(answer: Result<Answer, Stop<TypeLimit>>) -> Result<Answer, Stop<QuestionLimit>>
    ensures { result ≡ widened answer }
{
    match answer {
        Ok(answer) => Ok(answer),
        Err(Stop::Fault(limit)) => Err(Stop::Fault(QuestionLimit::Types(limit))),
        Err(Stop::Memory) => Err(Stop::Memory),
    }
}

/// Whether a need that wants no atom is met.
fn ask_plain<T: Types>(
    alloc: Global,
    types: &mut T,
    known: &KnownTypes,
    question: Question<'_>,
) -> Result<Answer, Stop<QuestionLimit>>
    requires known { AreKnown (T.atoms types.old) known.now }
    requires askable { IsAskable (T.atoms types.old) question }
    ensures atoms { T.atoms types.new ≡ T.atoms types.old }
    ensures answers { IfOk result (Answers (T.atoms types.old) (need_of question.entry)) }
    ensures limit { IfFault result (OfTypes (SomePasses T.passes (T.atoms types.old) (LeadsTo (T.atoms types.old) known.now question.entry))) }
{
    widen(ask(alloc, types, known, question))
}

/// Whether the pair's value is in the type of each key that its key may be.
fn ask_fits<T: Types>(
    alloc: Global,
    types: &mut T,
    members: Members<'_>,
    pair: Pair<'_>,
) -> Result<Answer, Stop<QuestionLimit>>
    requires members { AreMembers (T.atoms types.old) members }
    requires value { IsDefined (T.atoms types.old) pair.value.now }
    ensures atoms { T.atoms types.new ≡ T.atoms types.old }
    ensures answers { IfOk result (Answers (T.atoms types.old) (FitsFields members.entry.fields.now members.entry.rest.now (pair_of pair.entry))) }
    ensures limit { IfFault result (OfTypes (SomePasses T.passes (T.atoms types.old) (AsksFit (T.atoms types.old) members.entry pair.entry))) }
{
    widen(fits_fields(alloc, types, members, pair))
}

/// Whether some key is the name alone.
fn ask_names<T: Types>(
    alloc: Global,
    types: &mut T,
    pairs: &[Pair<'_>],
    name: &Text,
) -> Result<Answer, Stop<QuestionLimit>>
    requires { All (KeyDefined (T.atoms types.old)) pairs.now }
    ensures atoms { T.atoms types.new ≡ T.atoms types.old }
    ensures answers { IfOk result (Answers (T.atoms types.old) (Names (pairs_of pairs.now) name.now)) }
    ensures limit { IfFault result (OfTypes (SomePasses T.passes (T.atoms types.old) (AsksName pairs.now name.now))) }
{
    widen(has_name(alloc, types, pairs, name))
}

/// Whether the needs of a question are met, or a shape that shows that one isn't: a few questions about types, and up to two atoms
/// more, or for errors one more for each pair whose key isn't written as a single string. `Atoms` where there would be too many atoms, `Types` where a question is too large.
pub fn ask_need<T: Types>(
    alloc: Global,
    types: &mut T,
    known: &KnownTypes,
    question: NeedQuestion<'_>,
) -> Result<Answer, Stop<QuestionLimit>>
    requires known { AreKnown (T.atoms types.old) known.now }
    requires askable { IsAskableNeed (T.atoms types.old) question }
    ensures kept { KeepsTypes (T.atoms types.old) (T.atoms types.new) }
    ensures added { HasAddedFor (T.atoms types.old) question.entry (T.atoms types.new) }
    ensures answers { IfOk result (AnswersNeeds (T.atoms types.old) (needs_of question.entry)) }
    ensures limit { IfFault result (NeedStops T.passes known.now (T.atoms types.old) question.entry) }
{
    match question {
        NeedQuestion::Plain(question) => ask_plain(alloc, types, known, question),
        NeedQuestion::HasField(m, name) => has_field(alloc, types, m, name),
        NeedQuestion::FitsFields(members, pair) => ask_fits(alloc, types, members, pair),
        NeedQuestion::Names(pairs, name) => ask_names(alloc, types, pairs, name),
        NeedQuestion::HasErrorsOf(r, pairs) => has_errors(alloc, types, r, pairs),
        NeedQuestion::Gives(f, args, r) => gives(alloc, types, f, args, r),
        NeedQuestion::GivesFuture(f, args, r) => gives_future(alloc, types, f, args, r),
    }
}

/// A shape that shows that a need isn't met, of the first such question, or `None` where the needs of all are met. `Atoms` or
/// `Types` where the first undecided question stops so.
pub fn first_need_unmet<T: Types>(
    alloc: Global,
    types: &mut T,
    known: &KnownTypes,
    questions: &[NeedQuestion<'_>],
) -> Result<Option<Shape>, Stop<QuestionLimit>>
    requires known { AreKnown (T.atoms types.old) known.now }
    requires askable { All (IsAskableNeed (T.atoms types.old)) questions.now }
    ensures kept { KeepsTypes (T.atoms types.old) (T.atoms types.new) }
    ensures answered { IfOk result (AreAnswered (T.atoms types.old) questions.now) }
    ensures limit { IfFault result (FirstStops T.passes known.now (T.atoms types.old) questions.now) }
{
    for question in questions {
        if let Answer::No(shape) = ask_need(alloc, types, known, *question)? {
            return Ok(Some(shape));
        }
    }
    Ok(None)
}
