//! Needs as questions, asked one after another.
ghost use Rattle.std.specs.Prelude.{◌≡◌, All, IfOk};
ghost use Rattle.bal_base.specs.Stops.{IfFault};
ghost use Rattle.code_verifier.specs.Asked.{Answers};
ghost use Rattle.code_verifier.specs.KindSets.{AreKnown};
ghost use Rattle.code_verifier.specs.LedTo.{SomePasses};
ghost use Rattle.code_verifier.specs.Questions.{Answered, AreAskableKinds, AreAskableMembers, AreAskableParts, AreAskableTypes, FirstPasses, IsAskable, KindsLeadTo, LeadsTo, MembersLeadTo, PartsLeadTo, TypesLeadTo, need_of, need_of_kinds, need_of_members, need_of_parts, need_of_types};

use crate::asking::{has_constant, has_kind, is_below, is_within, part_has, part_is_in};
use crate::combined::has_both;
use crate::indexed::{item_has, item_is_in};
use crate::keyed::{member_has, member_is_in};
use crate::kind_types::KnownTypes;
use crate::made::has_made;
use crate::ordered::are_ordered;
use bal_base::{Shape, Stop};
use code_needs::Kind;
use operations::Constant;
use std::alloc::Global;
use type_model::{Answer, Keys, SemType, TypeLimit, Types};

/// A need of types, constants and structures of atoms.
#[derive(Clone, Copy)]
pub enum OfTypes<'c> {
    /// The first type is below the second.
    Below(&'c SemType, &'c SemType),
    /// The constant's shape is in the type.
    HasConstant(&'c SemType, &'c Constant),
    /// What is in both of the last two types is in the first.
    HasBoth(&'c SemType, &'c SemType, &'c SemType),
    /// All structures of the atom, or all immutable ones, are in the type.
    HasMade(&'c SemType, u32, bool),
}

/// A need of kinds of shapes.
#[derive(Clone, Copy)]
pub enum OfKinds<'c> {
    /// All shapes of the type are of the kind.
    Within(&'c SemType, Kind),
    /// All shapes of the kind are in the type.
    Has(&'c SemType, Kind),
    /// Both are ints, or both are strings.
    Ordered(&'c SemType, &'c SemType),
}

/// A need of what stands in lists, mappings and futures at such keys.
#[derive(Clone, Copy)]
pub enum OfParts<'c> {
    /// All that stands at such a key of the first type is in the second.
    PartIn(&'c SemType, &'c Keys, &'c SemType),
    /// Each shape of the second type stands at such a key of the first.
    PartHas(&'c SemType, &'c Keys, &'c SemType),
}

/// A need of what stands in lists and mappings where a type says.
#[derive(Clone, Copy)]
pub enum OfMembers<'c> {
    /// All that stands in the first type at an index that the second names is in the third.
    ItemIn(&'c SemType, &'c SemType, &'c SemType),
    /// Each shape of the third type stands in the first at an index that the second names.
    ItemHas(&'c SemType, &'c SemType, &'c SemType),
    /// All that stands in the first type at a key that the second names is in the third.
    MemberIn(&'c SemType, &'c SemType, &'c SemType),
    /// Each shape of the third type stands in the first at a key that the second names.
    MemberHas(&'c SemType, &'c SemType, &'c SemType),
}

/// A need that a few questions about types decide, as `need_of` in `specs/Questions.antt` says.
#[derive(Clone, Copy)]
pub enum Question<'c> {
    /// Of types, constants and structures of atoms.
    Types(OfTypes<'c>),
    /// Of kinds of shapes.
    Kinds(OfKinds<'c>),
    /// Of what stands in lists, mappings and futures at such keys.
    Parts(OfParts<'c>),
    /// Of what stands in lists and mappings where a type says.
    Members(OfMembers<'c>),
}

/// Whether a need of types is met.
fn ask_types<T: Types>(
    alloc: Global,
    types: &mut T,
    question: OfTypes<'_>,
) -> Result<Answer, Stop<TypeLimit>>
    requires { AreAskableTypes (T.atoms types.old) question }
    ensures atoms { T.atoms types.new ≡ T.atoms types.old }
    ensures answers { IfOk result (Answers (T.atoms types.old) (need_of_types question.entry)) }
    ensures limit { IfFault result (SomePasses T.passes (T.atoms types.old) (TypesLeadTo question.entry)) }
{
    match question {
        OfTypes::Below(s, t) => is_below(alloc, types, s, t),
        OfTypes::HasConstant(t, value) => has_constant(alloc, types, t, value),
        OfTypes::HasBoth(r, s, t) => has_both(alloc, types, r, s, t),
        OfTypes::HasMade(t, atom, immutable) => has_made(alloc, types, t, atom, immutable),
    }
}

/// Whether a need of kinds is met.
fn ask_kinds<T: Types>(
    alloc: Global,
    types: &mut T,
    known: &KnownTypes,
    question: OfKinds<'_>,
) -> Result<Answer, Stop<TypeLimit>>
    requires known { AreKnown (T.atoms types.old) known.now }
    requires askable { AreAskableKinds (T.atoms types.old) question }
    ensures atoms { T.atoms types.new ≡ T.atoms types.old }
    ensures answers { IfOk result (Answers (T.atoms types.old) (need_of_kinds question.entry)) }
    ensures limit { IfFault result (SomePasses T.passes (T.atoms types.old) (KindsLeadTo known.now question.entry)) }
{
    match question {
        OfKinds::Within(s, kind) => is_within(alloc, types, known, s, kind),
        OfKinds::Has(t, kind) => has_kind(alloc, types, known, t, kind),
        OfKinds::Ordered(a, b) => are_ordered(alloc, types, a, b),
    }
}

/// Whether a need of parts is met.
fn ask_parts<T: Types>(
    alloc: Global,
    types: &mut T,
    question: OfParts<'_>,
) -> Result<Answer, Stop<TypeLimit>>
    requires { AreAskableParts (T.atoms types.old) question }
    ensures atoms { T.atoms types.new ≡ T.atoms types.old }
    ensures answers { IfOk result (Answers (T.atoms types.old) (need_of_parts question.entry)) }
    ensures limit { IfFault result (SomePasses T.passes (T.atoms types.old) (PartsLeadTo (T.atoms types.old) question.entry)) }
{
    match question {
        OfParts::PartIn(whole, keys, t) => part_is_in(alloc, types, whole, keys, t),
        OfParts::PartHas(whole, keys, v) => part_has(alloc, types, whole, keys, v),
    }
}

/// Whether a need of members is met.
fn ask_members<T: Types>(
    alloc: Global,
    types: &mut T,
    question: OfMembers<'_>,
) -> Result<Answer, Stop<TypeLimit>>
    requires { AreAskableMembers (T.atoms types.old) question }
    ensures atoms { T.atoms types.new ≡ T.atoms types.old }
    ensures answers { IfOk result (Answers (T.atoms types.old) (need_of_members question.entry)) }
    ensures limit { IfFault result (SomePasses T.passes (T.atoms types.old) (MembersLeadTo (T.atoms types.old) question.entry)) }
{
    match question {
        OfMembers::ItemIn(l, i, t) => item_is_in(alloc, types, l, i, t),
        OfMembers::ItemHas(l, i, v) => item_has(alloc, types, l, i, v),
        OfMembers::MemberIn(m, k, t) => member_is_in(alloc, types, m, k, t),
        OfMembers::MemberHas(m, k, v) => member_has(alloc, types, m, k, v),
    }
}

/// Whether the need is met. `TypeLimit` where a question that it leads to is too large.
pub fn ask<T: Types>(
    alloc: Global,
    types: &mut T,
    known: &KnownTypes,
    question: Question<'_>,
) -> Result<Answer, Stop<TypeLimit>>
    requires known { AreKnown (T.atoms types.old) known.now }
    requires askable { IsAskable (T.atoms types.old) question }
    ensures atoms { T.atoms types.new ≡ T.atoms types.old }
    ensures answers { IfOk result (Answers (T.atoms types.old) (need_of question.entry)) }
    ensures limit { IfFault result (SomePasses T.passes (T.atoms types.old) (LeadsTo (T.atoms types.old) known.now question.entry)) }
{
    match question {
        Question::Types(question) => ask_types(alloc, types, question),
        Question::Kinds(question) => ask_kinds(alloc, types, known, question),
        Question::Parts(question) => ask_parts(alloc, types, question),
        Question::Members(question) => ask_members(alloc, types, question),
    }
}

/// A shape that shows that a need isn't met, of the first such question, or `None` where all are met. It asks up to
/// four questions about types for each. `TypeLimit` where one that the first undecided need leads to is too large.
pub fn first_unmet<T: Types>(
    alloc: Global,
    types: &mut T,
    known: &KnownTypes,
    questions: &[Question<'_>],
) -> Result<Option<Shape>, Stop<TypeLimit>>
    requires known { AreKnown (T.atoms types.old) known.now }
    requires askable { All (IsAskable (T.atoms types.old)) questions.now }
    ensures atoms { T.atoms types.new ≡ T.atoms types.old }
    ensures answered { IfOk result (Answered (T.atoms types.old) questions.now) }
    ensures limit { IfFault result (FirstPasses T.passes (T.atoms types.old) known.now questions.now) }
{
    for question in questions {
        if let Answer::No(shape) = ask(alloc, types, known, *question)? {
            return Ok(Some(shape));
        }
    }
    Ok(None)
}
