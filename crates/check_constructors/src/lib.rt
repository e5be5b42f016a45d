//! Constructors of lists, mappings and errors, as far as types alone are looked at.
//!
//! What constructors need is said in `check_words` (`specs/Constructors`). The calls here are the parts that look at types and at what
//! is written, in every state of a checker over the same atoms.
//!
//! - [`literal`], [`member_key`], [`member_literal`]: what is seen of members in the text.
//! - [`is_in`]: whether a single value is in a type. [`member_type`]: the type of a member by its key.
//! - [`first_list_choice`], [`first_mapping_choice`]: the constructor choice that is meant.
#![tactic(auto)]

mod choosing;
mod fitting;
mod literals;
mod readings;

pub use choosing::{first_list_choice, first_mapping_choice};
pub use fitting::member_type;
pub use literals::is_in;
pub use readings::{literal, member_key, member_literal};
