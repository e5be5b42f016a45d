//! The first place of a unit that isn't typed, told exactly: by its numbers, and by its needs of types, asked one after another.
//!
//! - [`found_at`]: the needs of a place, as questions; [`needs_stand`]: whether they are met; [`place_needs_stand`]: both, with what
//!   is lent to the questions; [`Serving`]: what serves all places; [`Standing`]: what is found of a place.
//! - [`needs_decide_standing`], [`only_one_is_first`]: laws of places that stand and of the first one that doesn't.
//!
//! `specs/Standing.antt` says what it means that a place stands, which place is the first that doesn't, and what a shape shows of
//! it; `specs/Stopping.antt` what is answered where a question passes a limit; `specs/Laws.antt` the laws.
#![tactic(auto)]

mod laws;
mod needs;

pub use laws::{needs_decide_standing, only_one_is_first};
pub use needs::{Serving, Standing, found_at, needs_stand, place_needs_stand};
