//! What steps of well-typed code keep that wait, as laws: they are stated in `specs/Laws`.
#![tactic(auto)]

mod laws;

pub use laws::waits_are_done;
