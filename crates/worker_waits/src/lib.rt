//! Workers that wait for one another, as definitions: when they do, and why those of a function with paired and ordered messages don't.
//!
//! The definitions, in the order in which a reader needs them, are files of `specs/`:
//!
//! - `Waiting`: when a worker waits for another one, and what it is that none wait in a ring, and that nothing stalls.
//! - `Standing`: where the workers of an activation stand among the events of their function.
//! - `Left`: the events of typed trees, and those that are left to be made where a frame has tasks to do.
//! - `Agreement`: that these are the events that pairing sees.
//! - `Planned`: packages in which each function has a plan.
//! - `Laws`.
//!
//! Beside them stand the laws: [`workers_in_no_ring`] and [`workers_end_all`], over any machine; [`expressions_keep_events`],
//! [`statements_keep_events`] and [`marks_are_shown`], of typed trees; and what they come to, [`planned_workers_never_ring`].
#![tactic(auto)]

mod laws;

pub use laws::{
    expressions_keep_events, marks_are_shown, planned_workers_never_ring, statements_keep_events,
    workers_end_all, workers_in_no_ring,
};
