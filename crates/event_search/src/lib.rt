//! Events of a function's workers, found in its tree without memory.
//!
//! - [`event_at`]: the event of a worker with a number, as [`Happening`].
//! - [`nth`]: the k-th of those events of a worker that are meant, by [`Which`], as [`Found`].
//! - [`before`]: how many of them stand before an event.
//! - [`count_within`]: how many there are, up to a number.
//! - [`worker_count`]: how many workers there are.
//!
//! Each call walks over the tree of one worker. `specs/Search.antt` says which event is found; the definitions of workers and events
//! stand in `worker_pairing`.
#![tactic(auto)]

mod exprs;
mod looking;
mod search;
mod stmts;

pub use looking::{before, count_within, event_at, nth, worker_count};
pub use search::{Found, Happening, Which};
