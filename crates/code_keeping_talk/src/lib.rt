//! What steps of well-typed code keep that speak to workers, wait or end, as laws over `code_keeping`.
//!
//! - [`later_follows`]: what comes later than something that comes later.
//! - [`what_held_holds`]: what held of frames and strands holds later.
//! - [`strands_keep`]: a strand is picked, ends, or begins its next unit, and a panic ends a worker.
//! - [`blocking_keeps`]: the running strand blocks.
//! - [`receives_are_done`]: receives, flushes and the second halves of synchronous sends.
//!
//! `specs/Laws.antt` states them.
#![tactic(auto)]

mod laws;

pub use laws::{blocking_keeps, later_follows, receives_are_done, strands_keep, what_held_holds};
