//! The answers of a table of tests: for each atom that structures, functions and futures are made with, whether its values
//! belong to each tested type.
//!
//! - [`atom_answers`]: the answers for one atom.
//! - [`test_answers`]: those for all, one row an atom.
//!
//! `specs/ValueTypes.antt` says as which type the values of an atom are asked about. What exact answers are, stands in
//! `value_model` (`AnswersExactly`).
#![tactic(auto)]

mod answers;
mod values;

pub use answers::{atom_answers, test_answers};
