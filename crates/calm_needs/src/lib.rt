//! What needs of expressions and actions keep from one to the next: the units of anonymous functions in the parts that were found, and that each variable that is seen is
//! in a slot of its declared type.
//!
//! `specs/Calm` says it: [`needs_are_calm`]. So what was asked of parts before a need may be asked behind it, and one induction over the tables keeps it from the beginning
//! of an expression to its end. `specs/Staying` says of ways what asks for no premise: [`ways_stay_on`].
#![tactic(auto)]

mod laws;

pub use laws::{needs_are_calm, ways_stay_on};
