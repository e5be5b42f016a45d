//! What steps of well-typed code keep that call the library to copy values, as laws: they are stated in `specs/Laws`.
#![tactic(auto)]

mod laws;

pub use laws::copies_are_done;
