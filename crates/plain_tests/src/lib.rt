//! Whether values belong to types, as a plain program over what a run holds.
//!
//! - [`belongs`]: whether a value belongs to a type. [`belongs_if`]: the same of a type that may be absent.
//! - [`item_type`] and [`key_type`]: types at places of lists and at keys of mappings. [`definition`]: that of an atom.
//! - [`perform_test`] and [`perform_cast`]: the operations.
//!
//! A simple value, an immutable structure and an error has one shape at most, which is looked for and tested. Of a
//! mutable structure, a function and a future it is asked whether all that its atom has is in the type; only that
//! may be answered `Undecided`, and `IsBeyond` in `specs/Tells.antt` says when.
//!
//! - `keys`, `shapes`: the one shape of a value. `single`: whether it is in a type.
//! - `below`: whether all shapes of an atom are in a type.
//! - `belonging`, `tests_of_types`, `places`: the public calls.
#![tactic(auto)]

mod belonging;
mod below;
mod keys;
mod places;
mod shapes;
mod single;
mod tests_of_types;

pub use belonging::{belongs, belongs_if};
pub use places::{definition, item_type, key_type};
pub use tests_of_types::{perform_cast, perform_test};
