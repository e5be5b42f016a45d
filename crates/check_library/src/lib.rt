//! The calls of the library, as a checker sees them.
//!
//! `check_words` has a row for each call (`specs/Library`): its name, what it is a method of, and what it takes. Here a call stands for
//! its row.
//!
//! - [`function_of_io`], [`function_of_int`], [`constant_of_int`]: what a name behind a prefix of the library stands for.
//! - [`METHODS`]: the methods. [`is_named`]: whether a call has the name.
//! - [`receiver`], [`takes_so_many`], [`argument`]: what a call takes.
#![tactic(auto)]

mod lookups;
mod names;
mod rows;

pub use lookups::{METHODS, constant_of_int, function_of_int, function_of_io};
pub use names::is_named;
pub use rows::{argument, receiver, takes_so_many};
