//! What the place of an expression tells it.

/// What is expected of an expression where it stands.
#[derive(Clone, Copy)]
pub enum Expected {
    /// Nothing is known.
    Nothing,
    /// A type that is below `readonly` and has no constructor choices, as `int` is.
    Immutable,
    /// The type that is wanted last, if there is one.
    Wanted,
}
