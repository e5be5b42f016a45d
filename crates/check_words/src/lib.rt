//! The words of the checkers: what they have at hand, and what it means that a need of a construct is met.
//!
//! `expr_needs` lists the needs, one step of checking each. `specs/Meets.antt` has a line for each with what it means that it is met, as
//! a check of a state. The definitions stand by topic:
//!
//! - `specs/State.antt`: parts that wait for their construct, what is wanted, what is known of variables, units at work.
//!   `specs/Stands.antt`: what holds of it between any two needs. `specs/Sharing.antt`: what is the same but for
//!   handles of types.
//! - `specs/Words.antt`: the small checks of a state of which all others are put together.
//! - `specs/Kinds.antt`, `specs/Library.antt`: the kinds of values that rows name, and a row for each call of the library.
//! - `specs/Seen.antt`: what a name stands for where a value may stand.
//! - `specs/Values.antt`, `specs/Members.antt`, `specs/Constructors.antt`, `specs/Calls.antt`, `specs/Actions.antt`: expressions and
//!   actions.
//! - `specs/Joins.antt`, `specs/Statements.antt`, `specs/Branches.antt`: flows and statements.
//! - `specs/Units.antt`: workers, functions, variables of modules.
//!
//! Which needs a construct has is said in the tables of `expr_needs`, and those of statements to come.
//!
//! - [`Access`]: what `a[i]` is taken of.
//! - [`constant_of`], [`value_constant`], [`place_of_value`]: constants, as literals write them.
//! - [`strict`] and its kin: typed expressions, made of their parts.
#![tactic(auto)]

mod access;
mod constants;
mod makers;

pub use access::Access;
pub use constants::{constant_of, place_of_value, value_constant};
pub use makers::{
    and, check, conditional, elvis, function, implied, local, or, parens, strict, trap,
};
