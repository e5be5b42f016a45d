//! What steps of well-typed code keep that start strands, as laws: they are stated in `specs/Laws`.
#![tactic(auto)]

mod laws;

pub use laws::starts_are_done;
