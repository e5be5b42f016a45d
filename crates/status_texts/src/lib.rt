//! How a call of the top ends: its statuses, their numbers and their texts.
//!
//! - [`Run`] and its [`Status`]: what a call came to. [`status_number`] is the exit status of a program that ends so.
//! - [`report`] tells the status that is due, and gives the one that it comes to, as the diagnostics may fail and memory may run out.
//!
//! `specs/Outside.antt` says what of the outside a call speaks of, `specs/Status.antt` the numbers and the texts, and
//! `specs/Report.antt` how the status that is due becomes the answer.
#![tactic(auto)]

mod reporting;
mod status;

pub use reporting::report;
pub use status::{Run, Status, status_number};
