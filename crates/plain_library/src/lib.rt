//! What calls of the library come to, as plain programs over what a run holds.
//!
//! - [`perform_library`] of a call: the library's table. It is `Undecided` only where a question of types isn't decided;
//!   `specs/Causes.antt` has a line for each call.
#![tactic(auto)]

mod calls;
mod copies;
mod errors;
mod input;
mod lists;
mod mappings;
mod output;
mod parts;
mod strings;
mod values;

pub use calls::perform_library;
