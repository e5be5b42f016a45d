//! What steps of well-typed code keep that start named workers, as laws: they are stated in `specs/Laws`.
#![tactic(auto)]

mod laws;

pub use laws::workers_are_started;
