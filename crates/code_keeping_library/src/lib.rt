//! What steps of well-typed code keep that call the library, as laws: they are stated in `specs/Laws`.
#![tactic(auto)]

mod laws;

pub use laws::calls_are_done;
