//! Every need of expressions, statements and packages, met by one type.
//!
//! - [`Checking`]: a checker, which meets each need by the call of the crate that has it; a module a topic.
//! - `specs/Named.antt`: what it means that a need is met, where what names stand for is a part of the state; `proofs/Named.antt`: that
//!   this is what `check_words` says of these names.
#![tactic(auto)]

mod actions;
mod calls;
mod checking;
mod loops;
mod members;
mod operators;
mod statements;
mod structures;
mod units;
mod values;

pub use checking::Checking;
