//! Whether a plan is one of a function's workers, told without memory.
//!
//! - [`check_plan`]: whether the pairs are those of the function's messages, and the ranks rise.
//!
//! Each event is looked for in the function's tree anew (`event_search`), so it costs walks of its own. What a plan is stands in
//! `worker_pairing`.
#![tactic(auto)]

mod checking;
mod counts;
mod needs;
mod pairs;
mod ranks;

pub use checking::check_plan;
