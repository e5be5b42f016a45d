//! Expressions and actions as whole trees: all their needs come to one typed part more.
//!
//! [`runs_are_typed`] puts the lines of the tables together (`typed_exprs`, `typed_functions`), by induction on the trees. What it says stands in `typed_needs`
//! (`specs/TypedRuns`).
#![tactic(auto)]

mod laws;

pub use laws::runs_are_typed;
