//! The types that code tests.
//!
//! - [`tested`]: those that the steps of a code in the making test or cast to, and those of members of the structures that the code
//!   makes, each once.
//! - [`place_of`]: where a type stands among these.
//!
//! `specs/Asked.antt` says which types a command and an inherent atom ask for, and when a code tests what it asks for.
#![tactic(auto)]

mod gathered;
mod members;
mod places;
mod steps;

pub use gathered::tested;
pub use places::place_of;
