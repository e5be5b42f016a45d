//! The needs of members of structures, read and stored, met: a call for each.
//!
//! What it means that a need is met is said in `check_words` (`specs/Members`, `specs/Statements`); what the calls change is the work
//! of a `Checker` of `check_work`. Each does nothing where the work has stopped, and else notes what came of it. Where the parts that
//! it needs aren't there, which no table of needs brings about, it is as if memory were wanted.
//!
//! - [`is_accessed`], [`is_index`], [`reads_element`], [`reads_field`], [`reads_optional`]: members that are read.
//! - [`has_field`], [`expects_stored`], [`stores`]: members that are stored.
//! - [`reads_stored`], [`reads_stored_field`], [`is_operand`], [`updates_element`], [`updates_field`]: members that are assigned
//!   with an operator.
//!
//! `specs/Fronts.antt`: what needs ask of types before anything changes.
#![tactic(auto)]

mod accesses;
mod named;
mod operands;
mod reads;
mod sides;
mod storing;
mod updates;

pub use accesses::{is_accessed, is_index};
pub use operands::{is_operand, reads_stored, reads_stored_field};
pub use reads::{reads_element, reads_field, reads_optional};
pub use storing::{expects_stored, has_field, stores};
pub use updates::{updates_element, updates_field};
