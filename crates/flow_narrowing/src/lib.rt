//! Narrowing and flows: what a test leaves of the type of a variable, and what is known where two ways meet.
//!
//! Values that can change stand for many shapes, as do functions and futures. So where a test for T fails, a value of S
//! may still have shapes of T, and what is left of S isn't the shapes that aren't in T. `specs/Narrowed.antt` says what
//! is left, part by part; `specs/Belonging.antt` says that this is sound: a value that belongs to S and passes the test
//! belongs to what [`narrow_true`] gives, and one that fails it to what [`narrow_false`] gives.
//!
//! - [`narrow_true`], [`narrow_false`]: the types where a test holds and where it doesn't.
//! - [`Flow`], [`Variable`]: what is known at a place, and [`Flow::join`] where two ways meet (`specs/Flows.antt`).
//! - [`Flows`]: the variables of a body that is walked, with a log of changes, [`Change`], from the [`Mark`] where a way
//!   begins to its [`End`] (`specs/Changes.antt`), and [`Flows::join`] where two ends meet (`specs/Meetings.antt`);
//!   [`ways_leave_no_trace`]: the laws of logs.
#![tactic(auto)]

mod changes;
mod combined;
mod flow;
mod judging;
mod kind;
mod meeting;
mod narrowed;

pub use changes::{Change, End, Flows, Mark, ways_leave_no_trace};
pub use flow::{Flow, Variable, VariableList};
pub use narrowed::{narrow_false, narrow_true};
