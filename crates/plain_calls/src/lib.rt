//! Calls of function values and strands that are started, as plain programs over what a run holds in `plain_run`: each is a
//! function whose contract is its row of the table of operations, and that what was not done changes nothing.
//!
//! - [`perform_call_value`]: calls of function values, with the list of the rest parameter.
//! - [`perform_start`] and [`perform_start_value`]: strands that are started with a call.
//! - [`perform_workers`]: the named workers of a function, and their activation.
#![tactic(auto)]

mod calls;
mod slices;
mod starting;
mod workers;

pub use calls::{perform_call_value, perform_start_value};
pub use starting::perform_start;
pub use workers::perform_workers;
