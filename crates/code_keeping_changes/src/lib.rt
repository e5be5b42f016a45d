//! What steps of well-typed code keep that call the library to change lists and mappings, as laws: they are stated in `specs/Laws`.
#![tactic(auto)]

mod laws;

pub use laws::changes_are_done;
