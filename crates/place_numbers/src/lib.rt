//! Tests of the numbers of one place of code: where it goes on, with which numbers of messages, in the reach of which traps, and what
//! open traps have kept.
//!
//! - [`numbers_pass`]: all of them, of the instruction at a place.
//! - [`crew_size`]: how many workers a function has.
//!
//! What is tested is said in `stack_code` and `code_needs`; `specs/Numbers.antt` says what the test tells, and `specs/Rowed.antt` what
//! is to be known of rows and places.
#![tactic(auto)]

mod changes;
mod counts;
mod places;
mod reach;
mod thrown;

pub use counts::crew_size;
pub use places::numbers_pass;
