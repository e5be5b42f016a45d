//! Stores into lists and mappings, as plain programs over what a run holds.
//!
//! - [`perform_set_item`] and [`perform_set_key`]: the operations; `specs/Questions.antt` says where they aren't told.
//! - [`push`]: values that are stored behind the last item of a list, as a call of the library.
//! - [`has_room`], [`set_at`] and [`set_key_at`]: whether a heap has room for a store, and the store itself, once its tests are passed.
#![tactic(auto)]

mod filling;
mod items;
mod keys;
mod made;
mod making;
mod pushes;
mod room;
mod writing;

pub use items::perform_set_item;
pub use keys::perform_set_key;
pub use pushes::push;
pub use room::has_room;
pub use writing::{set_at, set_key_at};
