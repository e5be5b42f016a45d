//! How the messages of a function's workers are paired, and a rank for each event; or why there is no plan.
//!
//! - [`plan`]: the plan of a function, or the first fault of its workers.
//! - [`check_plan`]: whether a plan is one of these workers.
//!
//! The definitions stand in `worker_pairing`, whose name these calls would have if it could cite what stands between.
#![tactic(auto)]

mod checking;
mod pairs;
mod plans;

pub use checking::check_plan;
pub use plans::plan;
