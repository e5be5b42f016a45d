//! The maps of lowered code as data: which types wait at each place, and how many messages were sent and received so far.
//!
//! - [`maps_of`]: the maps of a package, in the order of the places of its code; [`MOST_ENTRIES`], how much they may hold.
//! - [`package_maps`]: the same over given [`Plain`] types, and [`plain_types`], which makes these.
//!
//! What the maps are is said by `map_model`. `specs/Played.antt` says what is known while a trace is played, and `specs/Given.antt` which
//! maps are given.
#![tactic(auto)]

mod copies;
mod exchanged;
mod packages;
mod plain;
mod player;
mod room;
mod units;

pub use packages::{maps_of, package_maps};
pub use plain::{Plain, plain_types};
pub use room::MOST_ENTRIES;
