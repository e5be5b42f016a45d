//! Laws of what is known of variables: behind a value the same is known of them as before it, and behind a block the same variables are seen, if narrowed otherwise (Ballerina
//! specification, "Type narrowing").
//!
//! `specs/Flows` says both, of whole trees: [`flows_are_kept`].
#![tactic(auto)]

mod laws;

pub use laws::flows_are_kept;
