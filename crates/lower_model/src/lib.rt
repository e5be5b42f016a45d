//! Which code stands for a typed tree, as definitions, and that it then does what the tree means.
//!
//! The definitions, in the order in which a reader needs them, are files of `specs/`:
//!
//! - `Lowered`: which code stands for an expression, a statement and a unit: the ways through the tree are ways through the code.
//! - `Whole`: that a code is lowered from a package, and that it then has the same outcomes.
//! - `Following`: which frame of the code follows a frame of the package.
//! - `Making`: what each construct adds to code that is being made; `Laying`: that this stands for the construct;
//!   `Assembled`: that code which is put together of it is lowered.
//! - `Cases`, worked cases; `Laws`.
//!
//! Beside them stand [`definitions_come_to_cases`] and the laws: [`lowered_code_does_the_same`], [`what_is_made_stands`] and
//! [`assembled_code_is_lowered`].
#![tactic(auto)]

mod cases;
mod laws;

pub use cases::definitions_come_to_cases;
pub use laws::{assembled_code_is_lowered, lowered_code_does_the_same, what_is_made_stands};
