//! That lowered code is well typed, as laws, part by part: what is made for the units of a package, one behind another, is typed by their
//! maps, and the code that has it leads where it should.
//!
//! They are stated in `specs/Laws` and `specs/Landing`; `specs/Typed` says what is typed.
#![tactic(auto)]

mod laws;

pub use laws::{landings, typed_units};
