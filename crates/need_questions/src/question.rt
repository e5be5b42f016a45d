//! Needs of all kinds.

use bal_base::Text;
use code_verifier::Question;
use pair_questions::{Members, Pair};
use type_model::SemType;

/// A need, or two needs of one call, as `needs_of` in `specs/NeedsAsked.antt` says.
#[derive(Clone, Copy)]
pub enum NeedQuestion<'c> {
    /// A need that wants no atom of its own.
    Plain(Question<'c>),
    /// All shapes of the type are mappings that have the key.
    HasField(&'c SemType, &'c Text),
    /// The pair's value is in the type of each key of a mapping with these members that its key may be.
    FitsFields(Members<'c>, Pair<'c>),
    /// Some pair has the name as its single key.
    Names(&'c [Pair<'c>], &'c Text),
    /// Errors with details of the pairs are in the type.
    HasErrorsOf(&'c SemType, &'c [Pair<'c>]),
    /// No function of the first type fails at arguments of these types, and all that they give is in the last one.
    Gives(&'c SemType, &'c [SemType], &'c SemType),
    /// No function of the first type fails at arguments of these types, and futures of all that they give are in the last
    /// one.
    GivesFuture(&'c SemType, &'c [SemType], &'c SemType),
}
