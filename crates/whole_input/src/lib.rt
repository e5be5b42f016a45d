//! All of an input, read before a run.
//!
//! - [`read_whole`]: bytes that give the same lines as what is left of an input.
//!
//! `specs/Lines.antt` says when two inputs give the same lines.
#![tactic(auto)]

mod reading;

pub use reading::read_whole;
