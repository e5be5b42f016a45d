//! Packages that are made to read their variables as declared, in place.
//!
//! - [`read_as_declared`]: the package reads its variables as declared from then on.
//!
//! What that means, and that such a package does what it did, is said by `declared_reads`.
#![tactic(auto)]

mod ends;
mod exprs;
mod packages;
mod stmts;

pub use packages::read_as_declared;
