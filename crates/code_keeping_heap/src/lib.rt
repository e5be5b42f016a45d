//! What steps of well-typed code keep that make, read and change structures, as laws over `code_keeping`.
//!
//! - [`constructors_are_done`]: lists, mappings, errors and function values are made.
//! - [`reads_are_done`]: items of lists and members of mappings are read.
//!
//! `specs/Laws.antt` states them.
#![tactic(auto)]

mod laws;

pub use laws::{constructors_are_done, reads_are_done};
