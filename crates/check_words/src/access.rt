//! How a member is found.

/// What `a[i]` is taken of.
#[derive(Clone, Copy)]
pub enum Access {
    /// A string.
    Char,
    /// A list.
    Item,
    /// A mapping.
    Key,
}
