//! What is known of variables on the way through expressions and actions: that the checkers' flows are what ways know. It is the second half of what typed trees promise, as
//! far as expressions go.
//!
//! `specs/Slots` says that variables stand in slots of their own, `specs/Knowing` that then what is known of them is known of slots: [`variables_are_known`]. `specs/Narrower`
//! and `specs/Meeting` speak of ways on which more is known, which meet where no more is known than on each: [`narrower_ways_meet`]. `specs/Quiet` says what needs leave as it
//! is. `specs/Runs` says what whole runs come to: one part more that keeps the flow, behind which is known what the checkers know where it is true and where it is false, and
//! whose functions flow in units of their own: [`runs_keep_flow`]. `specs/Changing` says what statements change of what is known: [`changes_are_known`]. `specs/Cases` has worked cases.
#![tactic(auto)]

mod cases;
mod laws;

pub use cases::definitions_come_to_cases;
pub use laws::{changes_are_known, narrower_ways_meet, runs_keep_flow, variables_are_known};
