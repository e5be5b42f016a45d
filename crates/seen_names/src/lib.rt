//! What names stand for where values may stand.
//!
//! `check_words` says what a name stands for (`specs/Seen`): a variable that is seen, a worker, what a module defines, or what the
//! library has; and what it gives as an expression (`gives_seen` of `specs/Values`). Here it is looked up in what the checkers hold.
//!
//! - [`Seen`], [`seen_as`]: what a name stands for, by reference. `specs/Views` says which meaning it is (`seen_of`).
//! - [`number_of`], [`worker_named`]: the worker that a name stands for.
//! - [`part_of_seen`]: the expression that a name is, or why it is none (`specs/Given`). [`give_named`]: it is put behind the other
//!   parts. [`shared_now`]: the type that a variable has here.
//!   [`single_value`]: the constant of a type of one value.
#![tactic(auto)]

mod given;
mod parts;
mod seen;

pub use given::give_named;
pub use parts::{part_of_seen, shared_now, single_value};
pub use seen::{Seen, number_of, seen_as, worker_named};
