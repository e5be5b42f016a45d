//! The needs of operators, of casts and of errors, met: a call for each.
//!
//! What it means that a need is met is said in `check_words`; what the calls change is the work of a `Checker` of `check_work`. Each
//! does nothing where the work has stopped, and else notes what came of it. Where the parts that it needs aren't there, which no table
//! of needs brings about, it is as if memory were wanted.
//!
//! - [`is_of`], [`is_sort`]: what operators ask of their operands.
//! - [`forms`], [`adds`], [`compares`]: operators.
//! - [`casts`], [`checks`], [`checks_panicking`], [`traps`]: casts, and errors that are told from other values.
#![tactic(auto)]

mod errors;
mod operators;
mod questions;

pub use errors::{casts, checks, checks_panicking, traps};
pub use operators::{adds, compares, forms};
pub use questions::{is_of, is_sort};
