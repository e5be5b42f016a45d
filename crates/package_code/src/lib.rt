//! Packages run as code, against the outside.
//!
//! - [`run_package`]: a package whose variables are read as declared is lowered, and its code is run; what comes of that comes of the trees of
//!   the package that it is so read from.
//! - [`code_runs_as_its_package`]: the law behind it.
#![tactic(auto)]

mod laws;
mod packages;

pub use laws::code_runs_as_its_package;
pub use packages::run_package;
