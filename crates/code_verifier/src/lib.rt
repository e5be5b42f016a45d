//! Whether code is well typed: what it needs of types, asked of any [`type_model::Types`].
//!
//! - [`KnownTypes`]: anydata and what may be sent, as types.
//! - [`is_below`], [`is_within`], [`has_kind`], [`has_constant`], [`has_both`], [`are_ordered`], [`part_is_in`],
//!   [`part_has`], [`item_is_in`], [`item_has`], [`member_is_in`], [`member_has`], [`has_made`]: needs of `code_needs` as
//!   questions.
//! - [`is_subtype`]: whether a type is below another, without a shape.
//! - [`Question`], of [`OfTypes`], [`OfKinds`], [`OfParts`] or [`OfMembers`], [`ask`] and [`first_unmet`]: needs one after
//!   another, up to the first that isn't met.
//!
//! `specs/Asked.antt` says what an answer tells of a need, and `specs/LedTo.antt` which questions about types it leads to;
//! `specs/KindSets.antt` how kinds are written as types, `specs/Indexed.antt` and `specs/Keyed.antt` which indexes and
//! keys a type names, and `specs/Questions.antt` what comes of several questions.
#![tactic(auto)]

mod asking;
mod combined;
mod deciding;
mod indexed;
mod keyed;
mod kind_types;
mod made;
mod ordered;
mod questions;
mod sets;

pub use asking::{has_constant, has_kind, is_below, is_within, part_has, part_is_in};
pub use combined::has_both;
pub use deciding::is_subtype;
pub use indexed::{item_has, item_is_in};
pub use keyed::{member_has, member_is_in};
pub use kind_types::KnownTypes;
pub use made::has_made;
pub use ordered::are_ordered;
pub use questions::{OfKinds, OfMembers, OfParts, OfTypes, Question, ask, first_unmet};
