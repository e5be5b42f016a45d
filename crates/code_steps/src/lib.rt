//! Runs of code, one instruction at a time, as plain programs over `code_frames` and `plain_run`: each function's contract is its
//! definition of `machine_model`.
//!
//! - [`Call`] and [`State`]: a call that isn't over, and how a run stands. [`Asking`]: a call that asked for an operation.
//! - [`begin`]: the first frame of a call; [`carry`]: what the effect of an operation makes of a state, with [`Next`] and
//!   [`Stepped`].
//! - [`step`]: one step of the running strand, whose last call is changed where it stands; [`pick`]: the choice of a ready one.
//! - [`start`]: the state before the first pick; [`what_comes`]: what comes of a run that stops by a [`Halt`]; [`Short`]: why one is
//!   not followed any further.
//!
//! `specs/States.antt` says what a state stands for, `specs/Answered.antt` what is answered for a step, `specs/Ended.antt` what comes of
//! a run.
#![tactic(auto)]

mod begins;
mod calls;
mod carrying;
mod ends;
mod halts;
mod held;
mod lasts;
mod outcome;
mod picks;
mod stalls;
mod starting;
mod stepping;
mod workers;

pub use begins::begin;
pub use carrying::{Next, Stepped, carry};
pub use code_frames::{Launch, Program};
pub use halts::{Halt, Short};
pub use held::{Asking, Call, State};
pub use outcome::{Ending, Outcome, what_comes};
pub use picks::{Picked, pick};
pub use starting::start;
pub use stepping::step;
