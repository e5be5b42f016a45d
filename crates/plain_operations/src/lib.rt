//! What operations come to, over all plain programs that there are for them: those of `plain_run`, on structures, on
//! strands, the library, comparisons, tests of types and stores.
//!
//! - [`perform`]: what an operation comes to on its operands.
//!
//! `specs/Parts.antt` has a line for each operation: in which part of the table it stands, and why it may be undecided.
#![tactic(auto)]

mod on_frames;
mod on_strands;
mod on_structures;
mod on_values;
mod performing;

pub use performing::perform;
