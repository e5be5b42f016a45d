//! Machines that run frames, as definitions. Typed trees and code are two of them: they differ in what a frame keeps of its
//! way, and all that frames share is touched by operations alone. So states, steps, runs and outcomes are said once, and
//! what is proved of them here holds of both.
//!
//! The definitions, in the order in which a reader needs them, are files of `specs/`:
//!
//! - `Machine`: machines, frames, states, and what a step comes to; `Runs`: how a run begins, whole runs, and the states that
//!   they reach; `Steps`: steps that are counted; `Outcomes`: what comes of a run.
//! - `Following`: what it means that each frame of one machine is followed by one of another; `Matching`: that whole states
//!   go along; `Keeping`: what it means that something is kept by each step; `Along`: facts of one machine's frames that ride
//!   on what another one keeps; `Strands`: what holds of the strands of every machine; `Laws`.
//!
//! The laws, over any machines and any natives:
//!
//! - [`states_have_one_next`] of [`AnyMachine`]: a state has at most one next one, and by an order one run.
//! - [`steps_add_up`] of [`AnyMachine`]: counted steps of frames and states, one after another and in runs.
//! - [`followers_do_the_same`] of [`Followed`]: machines whose frames answer alike have the same outcomes, and each state that
//!   the second reaches goes along with one of the first.
//! - [`what_is_kept_holds`] of [`Kept`]: what single frames keep holds of each state that is reached.
//! - [`sound_followers_do_the_same`] of [`FollowedAlong`]: the same outcomes, where what has to hold of the first machine's
//!   frames rides on what the second one keeps.
//! - [`strands_hold`] of [`AnyMachine`]: who has frames, who is ready, who is blocked and for what, and where each worker runs,
//!   in each state that is reached.
#![tactic(auto)]

mod laws;

pub use laws::{
    AnyMachine, Followed, FollowedAlong, Kept, followers_do_the_same, sound_followers_do_the_same,
    states_have_one_next, steps_add_up, strands_hold, what_is_kept_holds,
};
