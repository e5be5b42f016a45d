//! Needs of errors with details of pairs of a key and a value, as a question about types. It wants atoms of its own: one of the
//! errors, one of their details, and one for each pair whose key isn't written as a single string, of the mappings that have none
//! of its keys.
//!
//! - [`has_errors`]: whether errors with details of pairs are in a type.
//!
//! `specs/Details.antt` says which atoms are added and which limits are passed.
#![tactic(auto)]

mod cells;
mod errors;
mod names;
mod tables;

pub use errors::has_errors;
