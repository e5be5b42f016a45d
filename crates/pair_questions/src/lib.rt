//! Needs of pairs of a key and a value, of which a mapping or a detail is made, as questions about types.
//!
//! - [`Pair`]: the types of a key and of its value.
//! - [`Members`]: the members that a mapping may have.
//! - [`has_name`]: whether some pair has a name as its single key.
//! - [`fits_fields`]: whether a pair's value is in the type of each key of a mapping that its key may be.
//! - [`type_has`], [`text_of`]: which strings a type has, and the text that a set names, for further questions.
//!
//! `specs/Pairs.antt` says what pairs are in needs, `specs/Fitting.antt` what is told of a pair and a mapping's fields, and both
//! to which questions about types a need leads.
#![tactic(auto)]

mod fitting;
mod members;
mod names;
mod pair;
mod strings;

pub use fitting::fits_fields;
pub use members::Members;
pub use names::has_name;
pub use pair::Pair;
pub use strings::{text_of, type_has};
