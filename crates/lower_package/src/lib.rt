//! The lowering of packages: code for a package whose bodies are checked.
//!
//! - [`lower`]: the code of a package; [`lower_to_run`]: the same without maps, of however many nodes; [`MOST_NODES`]: how many
//!   a package may have for `lower`.
//!
//! Which code is lowered from a package, and that it then does what the package means, is said by `lower_model`, and which maps it has by
//! `map_model` and `code_maps`. `specs/Limits.antt` says when a package is too large.
#![tactic(auto)]

mod packages;

pub use packages::{MOST_NODES, lower, lower_to_run};
