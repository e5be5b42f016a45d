//! The checks of a function's workers that ask nothing about types, one call each, in the order in which they stand.
//!
//! - [`within_limits`]: not too many workers and events.
//! - [`peers_named`]: each message and flush names another worker of the function, behind the initial part.
//! - [`none_conditional`]: no event may be left out or done again.
//! - [`none_unpaired`]: each message that is sent is received.
//! - [`count_messages`], [`first_sayings`]: how many messages a worker has, and its first events.
//! - [`message_route`], [`place_on`]: from which worker to which the message of an event goes ([`Route`]), and which of the messages on
//!   that way it is; [`sends_to`], [`receives_from`], [`sends_before`], [`receives_before`], [`one_if`]: the messages of a worker.
//!
//! The definitions stand in `worker_pairing`, and `worker_members` has the events.
#![tactic(auto)]

mod counting;
mod faults;
mod limits;
mod pairs;
mod peers;

pub use counting::{
    Route, count_messages, first_sayings, message_route, one_if, place_on, receives_before,
    receives_from, sends_before, sends_to,
};
pub use faults::none_conditional;
pub use limits::within_limits;
pub use pairs::none_unpaired;
pub use peers::peers_named;
