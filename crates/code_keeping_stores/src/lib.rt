//! What steps of well-typed code keep that store into structures, as laws: they are stated in `specs/Laws`.
#![tactic(auto)]

mod laws;

pub use laws::stores_are_done;
