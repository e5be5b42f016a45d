//! What steps of well-typed code keep that send messages, as laws: they are stated in `specs/Laws`.
#![tactic(auto)]

mod laws;

pub use laws::sends_are_done;
