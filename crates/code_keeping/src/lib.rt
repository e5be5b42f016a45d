//! What steps of well-typed code keep, as laws over `stack_code` and `machine_model`.
//!
//! - [`runs_start_well`]: the state in which a run begins.
//! - [`goes_on_by_itself`]: what a frame does by itself: constants, slots, jumps, branches and traps.
//! - [`operands_are_of_kinds`]: operands in types of a kind are of that kind (`specs/Kinds.antt`).
//! - [`strict_operations_keep`]: what it asks for with an operation that takes all its operands, panics that are caught
//!   included, by the operation's row (`specs/Rows.antt`); and that something comes of it.
//! - [`operations_on_values_are_done`] and [`operations_of_frames_are_done`]: the operations of which that is so.
//! - [`calls_and_returns_keep`] and [`awaited_results_come`]: calls, returns, and what awaits a result.
//! - [`messages_keep`]: sends, receives and flushes between the workers of an activation.
//! - [`no_trapped_message`]: messages stand in the reach of no trap.
//! - [`settling_keeps`]: who wakes becomes ready.
//! - [`strands_of_code_hold`]: what holds of each state that is reached, where steps keep it: who has frames, who is ready and who
//!   waits for what.
//! - [`good_heaps_are_served`]: what calls of the library need of the heap.
//!
//! `specs/Laws.antt` states them.
#![tactic(auto)]

mod laws;

pub use laws::{
    awaited_results_come, calls_and_returns_keep, goes_on_by_itself, good_heaps_are_served,
    messages_keep, no_trapped_message, operands_are_of_kinds, operations_of_frames_are_done,
    operations_on_values_are_done, runs_start_well, settling_keeps, strands_of_code_hold,
    strict_operations_keep,
};
