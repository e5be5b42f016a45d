//! Checked packages: all units of a package that is checked are typed by the types of operands.
//!
//! `specs/Packages` says of which packages it is so: [`checked_packages_have_typed_units`]; and `specs/Naming` what names have to lead to:
//! [`named_packages_have_typed_units`].
#![tactic(auto)]

mod laws;

pub use laws::{checked_packages_have_typed_units, named_packages_have_typed_units};
