//! The kinds of shapes.

/// A kind of shapes that atoms speak of. The other shapes are simple.
#[derive(Clone, Copy)]
pub enum Kind {
    /// Lists, marked and unmarked.
    List,
    /// Mappings, marked and unmarked.
    Mapping,
    /// Errors.
    Error,
    /// Functions.
    Function,
    /// Futures.
    Future,
}

/// All kinds.
pub const KINDS: [Kind; 5] = [
    Kind::List,
    Kind::Mapping,
    Kind::Error,
    Kind::Function,
    Kind::Future,
];
