//! What a checked package says of its types: each that isolation looks at names atoms that are there.
//!
//! `specs/Laws.antt` states it: from `package_checks`, what it means that a package is checked, to `isolation_check`, what the check of
//! isolation asks of typed packages.
//!
//! - [`checked_packages_are_typed`]: the law.
#![tactic(auto)]

mod laws;

pub use laws::checked_packages_are_typed;
