//! Answers to questions about types, and what the questions speak of.

use crate::basic::SemType;
use bal_base::{Shape, Text};

/// The answer to the question whether one type is below another.
#[derive(Drop)]
pub enum Answer {
    /// Every shape of the first is in the second.
    Yes,
    /// This shape is in the first and not in the second.
    No(Shape),
}

/// Why a question about types wasn't answered.
#[derive(Clone, Copy)]
pub enum TypeLimit {
    /// It leads to more than 65,536 questions about parts.
    Questions,
    /// It leads to a question with more than 12 arrows of which a function is wanted in all.
    Arrows,
}

/// Keys of lists and mappings, and the place of a future's results.
#[derive(Drop)]
pub enum Keys {
    /// One index of a list.
    Index(u64),
    /// All indexes of lists.
    AnyIndex,
    /// One key of a mapping.
    Field(Text),
    /// All keys of mappings.
    AnyField,
    /// All results of futures.
    Results,
}

/// What an application gives.
#[derive(Drop)]
pub enum Apply {
    /// The least type of its results.
    Result(SemType),
    /// Arguments, as an unmarked list, at which a function of the type fails.
    Outside(Shape),
}
