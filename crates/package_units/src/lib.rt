//! The units of a package, in the order of their numbers.
//!
//! - [`units`]: functions, workers, anonymous functions and initialisers, each as a [`HeldUnit`].
//!
//! `specs/Held.antt` says which unit of the tree a [`HeldUnit`] is, and `specs/Noted.antt` what is known of a package while it is
//! walked.
#![tactic(auto)]

mod held;
mod noted;
mod walk_exprs;
mod walk_stmts;
mod walk_units;

pub use held::HeldUnit;
pub use walk_units::units;
