//! The needs of operations as questions: for each typing row its tests of numbers, and what it needs of types.
//!
//! - [`Found`]: what was found so far; [`nothing_found`]: nothing.
//! - Rows of operands of kinds: [`on_one`], [`on_two`], [`takes_one`], [`drops`], [`tests`], [`compares`], [`orders`],
//!   [`casts`], [`nothing`], [`gives_nil`], [`receives`].
//! - Rows of constants and slots: [`constant`], [`reads`], [`writes`], [`returns`].
//! - Rows of members: [`gets_item`], [`gets_key`], [`gets_field`], [`gets_optional`], [`sets_item`], [`sets_key`].
//! - Rows of calls: [`calls`], [`starts`], [`makes_function`], [`calls_value`], [`starts_value`].
//! - Rows of structures: [`makes_list`], [`makes_mapping`], [`makes_error`], with [`pairs_in`] for operands in pairs.
//! - Rows of the library's calls: [`gives_kind`], [`call_on_one`] and so on; [`lists_kind`], [`reverses`] and [`slices`] for those
//!   that make a list.
//! - Rows of waits: [`waits_for`], [`waits_one`].
//! - Needs of each type of a list: [`below_each`], [`same_each`], [`may_stand_each`], [`has_each`].
//!
//! Which needs a row has is said in `code_needs`; `specs/Finding.antt` says what stands in the questions that were found.
#![tactic(auto)]

mod callees;
mod found;
mod kinds;
mod library;
mod lists;
mod lists_made;
mod members;
mod operands;
mod slots;
mod structures;
mod waits;

pub use callees::{calls, calls_value, makes_function, starts, starts_value};
pub use found::{Found, nothing_found};
pub use kinds::{
    casts, compares, drops, gives_nil, nothing, on_one, on_two, orders, receives, takes_one, tests,
};
pub use library::{
    call_on_one, copies, gets_member, gives_kind, pops, pushes, reads_line, removes_item,
    takes_substring, tests_string, writes_text,
};
pub use lists::{below_each, has_each, may_stand, may_stand_each, same_each};
pub use lists_made::{NewList, lists_kind, reverses, slices};
pub use members::{
    gets_field, gets_item, gets_key, gets_optional, has_part_or, sets_item, sets_key,
};
pub use slots::{constant, reads, returns, writes};
pub use structures::{Making, makes_error, makes_list, makes_mapping, pairs_in};
pub use waits::{waits_for, waits_one};
