//! The lowering of statements: what each adds to code that is being made.
//!
//! - [`stmt`] and [`stmts`]: what statements add, within a loop if there is one ([`Turning`]).
//! - [`unit`]: what a unit adds, by its [`Body`].
//!
//! That what is added stands for the tree is a law of `lower_model`.
#![tactic(auto)]

mod loops;
mod lower_stmt;
mod matches;
mod turning;
mod units;
mod updates;

pub use lower_stmt::{stmt, stmts};
pub use turning::Turning;
pub use units::{Body, unit};
