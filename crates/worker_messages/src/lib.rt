//! The checks of a function's workers that ask about types.
//!
//! - [`returns_give_errors`]: what a worker returns in front of one of its messages is an error.
//! - [`messages_fit`]: what is sent is below what is received.
//!
//! The definitions stand in `worker_pairing`; `specs/Defined.antt` says of which workers such questions can be asked.
#![tactic(auto)]

mod fitting;
mod messages;
mod returns;

pub use messages::messages_fit;
pub use returns::returns_give_errors;
