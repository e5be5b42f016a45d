//! What is done of the package while bodies are checked: functions, workers, variables and initialisers come where they end, and no other need changes them.
//!
//! `specs/Done` says which needs end something, and what all others keep: [`done_is_kept`]; and that expressions, actions, statements and blocks have none that does:
//! [`trees_end_none`].
#![tactic(auto)]

mod laws;

pub use laws::{done_is_kept, trees_end_none};
