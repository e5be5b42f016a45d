//! The names that are built for a package lead to its definitions: the number of a variable is its place among the variables in the order of the text, and each function that a name
//! stands for is defined in the package.
//!
//! `specs/Leading` says so of the names that `type_builder` builds: [`built_names_lead`], [`built_rests_are_lists`].
#![tactic(auto)]

mod laws;

pub use laws::{built_names_lead, built_rests_are_lists};
