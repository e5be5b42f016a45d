//! Whether a name is assigned somewhere: in statements, in a block, or in the initial part of a function, its workers and the rest.
//!
//! A variable that is assigned again behind its declaration can't be captured. The lines of declarations, parameters and loops carry this
//! as a Boolean (`is_among` of `stmt_needs`); here it is found.
//!
//! - [`is_assigned`]: in statements, and what follows them.
//! - [`is_assigned_in_block`]: in one block.
#![tactic(auto)]

mod assigned;

pub use assigned::{is_assigned, is_assigned_in_block};
