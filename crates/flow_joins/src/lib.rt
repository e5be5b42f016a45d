//! What is known where ways meet: of the same variables, with the types that they have on the ways that go on.
//!
//! `flow_narrowing` joins two ways of the same variables. Here are the joins that the needs of constructs ask for (`check_words`,
//! `specs/Joins`), over what the checkers hold. Ways that don't have the same number of variables don't meet: there it is as if
//! memory were wanted.
//!
//! - [`join`]: two ways; [`join_here`]: one that has ended and the one at hand; [`join_all`]: several, in order (`specs/Joined`).
//!
//! A join costs by the variables that are seen, and a type for each of them that is narrowed on one of the ways.
#![tactic(auto)]

mod joins;

pub use joins::{join, join_all, join_here};
