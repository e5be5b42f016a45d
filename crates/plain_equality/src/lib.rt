//! Deep equality of values, as a plain program over what a run holds.
//!
//! - [`are_equal`]: whether no path tells two values apart.
//! - [`perform_equal`]: the operation.
//!
//! Pairs of structures that look alike are held to be equal, and the members of each held pair are compared in turn, so that
//! structures that contain themselves come to an end. `specs/Pairs.antt` says what is held.
#![tactic(auto)]

mod equality;
mod held;
mod members;

pub use equality::{are_equal, perform_equal};
