//! The needs of declarations and of assignments to names, met: a call for each.
//!
//! `check_words` says what it means that a need is met (`specs/Meets`); each call here meets one, in the work that `check_work` holds.
//!
//! - [`is_new`], [`declares`]: declarations of local variables.
//! - [`is_assignable`], [`assigns`]: assignments to names.
//! - [`reads_name`], [`updates_name`]: assignments to names with an operator.
//!
//! A call does nothing where the work has stopped before. Where parts that a need takes aren't there, which no table brings about, it is
//! as if memory were wanted.
#![tactic(auto)]

mod assigned;
mod assignments;
mod declared;
mod stmts;

pub use assignments::{assigns, is_assignable, reads_name, updates_name};
pub use declared::{declares, is_new};
