//! The needs of loops, met: a call for each.
//!
//! What it means that a need is met is said in `check_words` (`specs/Branches`); what the calls change is the work of a `Checker` of
//! `check_work`. Each does nothing where the work has stopped, and else notes what came of it. Where the parts that it needs aren't
//! there, which no table of needs brings about, it is as if memory were wanted.
//!
//! - [`wants_counter`], [`is_counter`]: variables of loops over ranges.
//! - [`is_item_of_loop`], [`widens_item`], [`has_item`]: those of loops over lists, and the variable itself.
//! - [`makes_foreach`], [`makes_range`]: the loops, put together (`specs/Loops`).
//! - [`take_boxed`]: the last part, of which a statement is put together.
#![tactic(auto)]

mod counters;
mod items;
mod loops;

pub use counters::{is_counter, wants_counter};
pub use items::{has_item, is_item_of_loop, widens_item};
pub use loops::{makes_foreach, makes_range, take_boxed};
