//! Needs of code as questions about types, of whichever of the kinds that `code_needs` has, asked one after another.
//!
//! - [`NeedQuestion`]: a need, or two of one call, and the types that are asked about.
//! - [`ask_need`]: whether it is met.
//! - [`first_need_unmet`]: the first of several that isn't.
//!
//! `specs/NeedsAsked.antt` says which needs a question asks of and what comes of it, and `specs/NeedStops.antt` which atoms are
//! added and which limits are passed. Atoms that a question adds keep all types, so what is said of needs is said over the
//! atoms that were there first.
#![tactic(auto)]

mod asking;
mod question;

pub use asking::{ask_need, first_need_unmet};
pub use question::NeedQuestion;
