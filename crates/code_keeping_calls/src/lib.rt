//! What steps of well-typed code keep that call and start function values, as laws: they are stated in `specs/Laws`.
#![tactic(auto)]

mod laws;

pub use laws::values_are_called;
