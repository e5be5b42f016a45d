//! Output only grows.
//!
//! - [`output_only_grows`]: no step of a machine takes back what was written, where no call of the natives does.
//! - [`the_library_only_writes`]: no call of the library does.
//!
//! `specs/Growth.antt` says what this means.
#![tactic(auto)]

mod laws;

pub use laws::{output_only_grows, the_library_only_writes};
