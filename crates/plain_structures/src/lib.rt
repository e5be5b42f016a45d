//! What operations on structures and errors come to, as plain programs over what a run holds.
//!
//! - [`performed`]: what came of a row, as what is answered for an operation, and [`answered`]: the same of a row that asks
//!   questions of types, with [`Tried`]; `specs/Rows.antt`.
//! - [`items_at`], [`entries_at`], [`item`] and [`entry`]: what stands in the heap; `specs/Lookups.antt`.
//! - [`structure`], [`structure_and_int`] and [`structure_and_text`]: operands of these kinds; `specs/Operands.antt`.
//! - [`found`]: a value that is there, or a panic.
//! - [`perform_get_item`], [`perform_get_key`], [`perform_get_field`] and [`perform_get_optional`]: members that are read.
//! - [`characters`], [`text_of_characters`] and [`perform_get_char`]: characters of strings.
//! - [`set_entry`] and [`entries_of`]: entries of mappings that are made.
//! - [`perform_make_mapping`], [`perform_make_error`] and [`gives_error`]: constructors.
#![tactic(auto)]

mod answer;
mod constructors;
mod entries;
mod lookup;
mod operands;
mod reads;
mod strings;

pub use answer::{Tried, answered, performed};
pub use constructors::{gives_error, perform_make_error, perform_make_mapping};
pub use entries::{entries_of, set_entry};
pub use lookup::{entries_at, entry, item, items_at};
pub use operands::{structure, structure_and_int, structure_and_text};
pub use reads::{
    found, perform_get_field, perform_get_item, perform_get_key, perform_get_optional,
};
pub use strings::{characters, perform_get_char, text_of_characters};
