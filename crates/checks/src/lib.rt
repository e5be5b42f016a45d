//! Checks in order, as every checker of the front end is one: the first that refuses gives the fault.
//!
//! `specs/Checks.antt` says what a check is and how checks stand one behind another, `specs/Questions.antt` what a
//! question about types comes to as a check, and `specs/Agreement.antt` in what two runs of one check agree.
//!
//! - [`require_below`], [`is_below`], [`has_some`], [`member`], [`apply`], [`add`]: the questions, asked.
//! - [`chains_agree`] and its kin: the laws of agreement.
#![tactic(auto)]

mod agreement;
mod asking;

pub use agreement::{Chains, chains_agree, questions_agree};
pub use asking::{add, apply, has_some, is_below, member, require_below};
