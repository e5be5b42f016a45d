//! Definitions as a whole: all needs of a function come to one whose units are typed, and all of a variable to an initial value that is typed.
//!
//! `specs/Functions` says what all needs of a function come to: [`whole_functions_are_typed`], where each action in it is of another worker of the function (`specs/Acting`);
//! and `specs/Initials` what those of a variable of a module do: [`initial_values_are_typed`].
#![tactic(auto)]

mod laws;

pub use laws::{initial_values_are_typed, whole_functions_are_typed};
