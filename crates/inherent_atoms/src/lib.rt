//! The atoms with which a package makes its structures, functions and futures.
//!
//! - [`inherent`]: those that the steps of a code in the making name, and those with which gaps of their lists are filled.
//!
//! `specs/Named.antt` says which atoms steps and units name. That they are those of the package, as `eval_model` says it of the
//! tree, is shown in `proofs/Units.antt`.
#![tactic(auto)]

mod fillers;
mod found;
mod gathered;
mod steps;

pub use gathered::inherent;
