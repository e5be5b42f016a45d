//! The needs of statements, met: a call for each.
//!
//! `check_words` says what it means that a need is met (`specs/Meets`); each call here meets one, in the work that `check_work` holds.
//!
//! - [`returns`], [`returns_nil`], [`stops`], [`breaks`], [`continues`]: ends of ways.
//! - [`begins_block`], [`ends_block`], [`makes_block`]: blocks.
//! - [`makes_if`], [`heads`], [`opens_loop`], [`makes_while`]: branches, and loops on a condition.
//!
//! A call does nothing where the work has stopped before. Where parts that a need takes aren't there, which no table brings about, it is
//! as if memory were wanted. Declarations and assignments to names stand in `needs_of_assignments`.
#![tactic(auto)]

mod blocks;
mod branches;
mod endings;
mod stmts;

pub use blocks::{begins_block, breaks, continues, ends_block, makes_block, opens_loop, stops};
pub use branches::{heads, makes_if, makes_while};
pub use endings::{returns, returns_nil};
