//! Ranks for the events of a function's workers, which rise along each worker and from what an event needs to it; or the ring of events
//! that allows none.
//!
//! - [`ranked`]: the ranks, worker by worker, where there are any.
//! - [`ring_fault`]: the fault that shows the ring.
//! - [`ranks_rise`]: whether ranks are such.
//!
//! The definitions of needs, numberings and rings stand in `worker_pairing`; `specs/inner` has the events as vertices of a graph.
#![tactic(auto)]

mod close;
mod nodes;
mod order;
mod peel;
mod rings;
mod rising;
mod runs;
mod turns;

pub use order::ranked;
pub use rings::ring_fault;
pub use rising::ranks_rise;
