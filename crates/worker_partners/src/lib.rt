//! Which message of a worker belongs to a message of another one: both are the k-th on their way.
//!
//! - [`before`]: how many messages of a [`Side`] stand before an event of a worker.
//! - [`nth`]: the k-th of them, as [`Found`].
//!
//! The definitions of events and routes stand in `worker_pairing`; `specs/Partners.antt` says which event is found.
#![tactic(auto)]

mod partners;

pub use partners::{Found, Side, before, nth};
