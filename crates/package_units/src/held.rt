//! Units, as references to a tree.

use lower_stmt::Body;
use typed_tree::TypedUnit;

/// A unit with what it does.
#[derive(Clone, Copy)]
pub struct HeldUnit<'a> {
    pub unit: &'a TypedUnit,
    pub body: Body<'a>,
    /// How many variables it captures.
    pub captured: usize,
}
