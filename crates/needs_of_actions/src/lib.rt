//! The needs of messages and waits, met: a call for each.
//!
//! What it means that a need is met is said in `check_words`; what the calls change is the work of a `Checker` of `check_work`. Each
//! does nothing where the work has stopped, and else notes what came of it. Where the parts that it needs aren't there, which no table
//! of needs brings about, it is as if memory were wanted.
//!
//! - [`receives`], [`sends`], [`sends_and_waits`], [`flushes`]: messages between the workers of a function.
//! - [`awaits`], [`waits_for_any`], [`waits_for_all`]: waits for workers and futures.
#![tactic(auto)]

mod awaiting;
mod events;
mod messages;
mod peers;
mod receiving;
mod waits;
mod wanted;

pub use awaiting::awaits;
pub use messages::{flushes, sends, sends_and_waits};
pub use receiving::receives;
pub use waits::{waits_for_all, waits_for_any};
