//! Graphs of numbers from 0 on, each with the numbers that follow it.
//!
//! - [`parts_first`], [`has_no_cycle`]: the numbers in an order in which each stands behind those that follow it, or that there is a
//!   cycle.
//! - [`first_cycle`]: of the cycles that begin with a number the first of the shortest.
//! - [`reversed`], [`distances`], [`distance`]: the graph turned round, and how far numbers are away from one of them.
//!
//! A graph is a list by number of what follows each. `specs/Cycles.antt` says which cycle is the first, `specs/Ordering.antt` what an
//! order is, `specs/Distances.antt` what distances are. Words that serve the searches alone stand in `specs/inner/`.
#![tactic(auto)]

mod cycles;
mod followers;
mod order;
mod search;

pub use cycles::{distance, first_cycle};
pub use order::{has_no_cycle, parts_first};
pub use search::{distances, reversed};
