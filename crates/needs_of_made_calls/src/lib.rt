//! The needs of calls that what is called decides, met: a call for each.
//!
//! What it means that a need is met is said in `check_words`; what the calls change is the work of a `Checker` of `check_work`. Each
//! does nothing where the work has stopped, and else notes what came of it. Where the parts that it needs aren't there, which no table
//! of needs brings about, it is as if memory were wanted.
//!
//! - [`expects_argument`]: what the next argument of the call at hand has to be.
//! - [`makes_call`]: the call at hand is made.
//! - [`starts`]: the call at hand is started.
#![tactic(auto)]

mod applied;
mod expected;
mod library;
mod made;
mod makers;
mod started;

pub use expected::expects_argument;
pub use made::makes_call;
pub use started::starts;
