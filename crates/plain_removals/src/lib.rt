//! Removals from lists and mappings as plain programs over what a run holds, and whether what is left is allowed.
//!
//! - [`members_belong`]: whether members are those of a structure of an atom; `specs/Members.antt`.
//! - [`pop`], [`remove_item`] and [`remove_key`]: the calls of the library; `specs/Removals.antt` says when they are not told.
#![tactic(auto)]

mod allowing;
mod calls;
mod entries;
mod items;
mod keys;
mod members;
mod place;
mod places;
mod removal;
mod storing;

pub use calls::{pop, remove_item, remove_key};
pub use members::members_belong;
