//! The kinds of values that rows of the language name, as types, and the questions whether a type is of a kind.
//!
//! `check_words` says of each kind which shapes it has (`specs/Kinds`), and of each need what it asks. The calls here are the parts of
//! these needs that look at types alone. What a clause says of them it says in every state of a checker over the same atoms
//! (`specs/Over`), so whoever meets a need has it for the state at hand.
//!
//! - [`kind_type`], [`kind_shared`]: the type of a kind; [`single_type`], [`constant_set`]: that of one value; [`detail_type`], [`int_or_error`], [`made_type`].
//! - [`require_kind`], [`is_of_kind`]: whether a type has only shapes of the kind; [`is_readonly`], [`is_frozen`]: whether all of its
//!   values are immutable; [`has_part`]: whether it has a shape of some basic set.
//! - [`widened`]: the type of what is declared by `var`; [`narrowed`]: what a test leaves of a type.
//! - [`either_of`], [`part_of`], [`rest_of`] and their kin: types that are put together of others, written anew.
#![tactic(auto)]

mod asking;
mod combined;
mod kinds;
mod narrowing;
mod sets;
mod shared;
mod widening;
mod written;

pub use asking::{has_part, is_frozen, is_of_kind, is_readonly, require_kind};
pub use kinds::{constant_set, detail_type, int_or_error, kind_type, made_type, single_type};
pub use narrowing::narrowed;
pub use shared::kind_shared;
pub use widening::widened;
pub use written::{
    either_of, instead_of_nil, nil_or_errors, optional, part_of, rest_of, shared_of, union_of,
};
