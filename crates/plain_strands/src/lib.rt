//! Waits for strands, as plain programs over what a run holds in `plain_run`: each is a function whose contract is its row of the table
//! of operations, and that what was not done changes nothing.
//!
//! - [`perform_wait_worker`] and [`perform_wait_future`]: waits for one strand; [`perform_wait_any`] and [`perform_wait_all`]: for several.
#![tactic(auto)]

mod all;
mod choices;
mod errors;
mod results;
mod targets;
mod waits;

pub use all::perform_wait_all;
pub use choices::perform_wait_any;
pub use waits::{Target, perform_wait_future, perform_wait_worker};
