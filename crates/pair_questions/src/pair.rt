//! Pairs of a key and a value.

use type_model::SemType;

/// The types of a key and of the value that stands behind it.
#[derive(Clone, Copy)]
pub struct Pair<'c> {
    /// The type of the key.
    pub key: &'c SemType,
    /// The type of the value.
    pub value: &'c SemType,
}
