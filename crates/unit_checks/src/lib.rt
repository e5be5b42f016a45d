//! Which place of a unit of code is the first that isn't typed, found by its numbers and by its needs, place by place.
//!
//! - [`place_stands`]: whether one place stands; [`Checking`]: what serves all units.
//! - [`first_fallen`]: the first place of a unit that doesn't, or none where all stand; [`Fallen`].
//!
//! What it means that a place stands, and which is the first that doesn't, is said in `place_checks`. `specs/Ready.antt` says what is
//! known before a unit is asked about, `specs/Calling.antt` what is told of units that can be called, and `specs/Telling.antt` what an
//! answer tells.
#![tactic(auto)]

mod made;
mod places;
mod units;

pub use places::{Checking, place_stands};
pub use units::{Fallen, first_fallen};
