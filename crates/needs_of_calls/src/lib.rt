//! The needs of calls, met: a call for each.
//!
//! What it means that a need is met is said in `check_words`; what the calls change is the work of a `Checker` of `check_work`. Each
//! does nothing where the work has stopped, and else notes what came of it. Where the parts that it needs aren't there, which no table
//! of needs brings about, it is as if memory were wanted.
//!
//! - [`calls_value`], [`calls_method`], [`calls_named`]: what is called.
//! - [`is_argument`]: its arguments.
//! - [`is_ignorable`], [`performs`]: statements that evaluate something.
//!
//! What an argument has to be, and calls as they are made and started, stand in `needs_of_made_calls`.
#![tactic(auto)]

mod arguments;
mod callees;
mod named;
mod refusing;
mod stmts;

pub use arguments::is_argument;
pub use callees::{calls_method, calls_value};
pub use named::calls_named;
pub use stmts::{is_ignorable, performs};
