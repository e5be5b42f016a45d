//! Messages between workers, as plain programs over what a run holds in `plain_run`: each is a function whose contract is its row of the
//! table of operations, and that what was not done changes nothing.
//!
//! - [`perform_send`], [`perform_post`], [`perform_receive`], [`perform_flush`] and [`perform_done`]: messages.
//! - [`Passing`]: what passes through a channel. [`ended`] and [`share_end`]: what the end of a strand gives, for waits too.
#![tactic(auto)]

mod ends;
mod messages;
mod passing;
mod sends;

pub use ends::{ended, share_end};
pub use messages::{perform_done, perform_flush, perform_receive};
pub use passing::Passing;
pub use sends::{perform_post, perform_send};
