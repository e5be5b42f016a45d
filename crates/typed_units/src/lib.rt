//! Units of functions, of workers and of initialisers: where what their bodies are made of is typed, so are they.
//!
//! `specs/Bodies` says which parts of a body have to be typed: [`bodies_make_typed_units`]. `specs/Workers` says what all needs of a worker come to, where the actions in it are of
//! other workers (`specs/Peers`): [`workers_are_typed`]; and `specs/Functions` what those of a function's body do: [`function_bodies_are_typed`].
#![tactic(auto)]

mod laws;

pub use laws::{bodies_make_typed_units, function_bodies_are_typed, workers_are_typed};
