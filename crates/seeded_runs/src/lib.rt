//! Runs whose picks a seed names, on any machine, as definitions; and that a machine runs as one whose frames follow its own.
//!
//! - `specs/Seeds.antt`: which of the ready strands a seed names. `specs/Runs.antt`: what comes of such a run, and what of it was
//!   written.
//! - [`followers_run_alike`]: where each frame of one machine is followed by one of another, what comes of a run of the second comes of
//!   a run of the first, pick by pick; and a first part of the second one's output is a first part of the first one's.
//!
//! `specs/Laws.antt` says what this means.
#![tactic(auto)]

mod laws;

pub use laws::followers_run_alike;
