//! The needs of variables of modules, constants, functions as they begin, and anonymous functions with their values, met: a call for each.
//!
//! What it means that a need is met is said in `check_words` (`specs/Units.antt`, `specs/Calls.antt`); what the calls change is the work of a
//! `Checker` of `check_work`, by steps on units that `needs_of_units` has. Each does nothing where the work has stopped, and else notes what came
//! of it. Where the parts that it needs aren't there, which no table of needs brings about, it is as if memory were wanted.
//!
//! - [`begins_initial`], [`ends_initial`]: variables of modules (`specs/Initials.antt`).
//! - [`is_constant`]: constants with a type of their own.
//! - [`begins_function`]: functions, and what their workers give (`specs/Results.antt`).
//! - [`has_rest`], [`begins_value`], [`makes_anonymous`]: the rest parameter of an anonymous function, its value with what it captures, and its end
//!   (`specs/Rests.antt`, `specs/Anonymous.antt`).
#![tactic(auto)]

mod anonymous;
mod captured;
mod constants;
mod copies;
mod described;
mod functions;
mod initials;
mod naming;
mod own_atoms;
mod rests;
mod results;
mod values;

pub use anonymous::makes_anonymous;
pub use captured::begins_value;
pub use constants::is_constant;
pub use functions::begins_function;
pub use initials::begins_initial;
pub use rests::has_rest;
pub use values::ends_initial;
