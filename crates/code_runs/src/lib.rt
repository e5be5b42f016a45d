//! Programs of code, run against the outside by the picks of a seed.
//!
//! - [`run`]: the run of a program; [`Given`]: what it is given; [`place_by`]: which of the ready strands is picked.
//! - [`programs_run_alike`]: what comes of the machine of a program comes of that of its code.
//!
//! What a run comes to is said by `seeded_runs`, of any machine; so nothing is said here of how it is run: what can be done at once is
//! done so, and a step by itself elsewhere.
#![tactic(auto)]

mod hurry;
mod laws;
mod running;
mod turns;
mod writing;

pub use laws::programs_run_alike;
pub use running::{Given, run};
pub use turns::place_by;
