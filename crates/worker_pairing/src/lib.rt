//! How the messages of a function's workers are paired, and which function's workers can be put in order, as definitions.
//!
//! The definitions, in the order in which a reader needs them, are files of `specs/`:
//!
//! - `Events`: the events of workers, which messages belong together, what each event needs, and numberings of events.
//! - `Marks`: which events and returns a typed function has, in text order.
//! - `Faults`: what is refused, in which order, and what a plan is.
//! - `Cases`: worked cases; `FaultCases`: worked cases of faults.
//! - `Laws`.
//!
//! Beside them stand [`definitions_come_to_cases`] and [`faults_come_to_cases`], and the laws: [`messages_pair_up`] and [`plans_pair_up`].
#![tactic(auto)]

mod cases;
mod laws;

pub use cases::{definitions_come_to_cases, faults_come_to_cases};
pub use laws::{messages_pair_up, plans_pair_up};
