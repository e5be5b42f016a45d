//! Checks all bodies of a package (Ballerina specification, sections 6 to 8).
//!
//! What it means that a package is checked is said in `package_checks`: all that it needs is met, one need behind another, in the order of
//! modules, files and text. `all_needs` meets them, and the walk over `stmt_needs` says in which order.
//!
//! - [`check_package`]: the typed package, or the first fault ([`Checked`]).
#![tactic(auto)]

mod beginning;
mod checking;
mod counting;
mod ending;

pub use checking::{Checked, check_package};
