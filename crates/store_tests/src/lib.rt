//! The tests of stores into lists and mappings, before anything is changed.
//!
//! - [`tests_item`] and [`tests_entry`]: what the tests of a store at a place or at a key say, as a [`Test`].
//! - [`place_type`] and [`entry_type`]: the type at a place of lists and at a key of mappings of an atom.
//! - [`fillers_of`], [`fixed_fillers`], [`fillers_from`], [`push_new`], [`is_filler`]: fillers of atoms, and of the places of a gap.
#![tactic(auto)]

mod gaps;
mod places;
mod tests;

pub use gaps::{fillers_from, fillers_of, fixed_fillers, is_filler, push_new};
pub use places::{entry_type, place_type};
pub use tests::{Test, tests_entry, tests_item};
