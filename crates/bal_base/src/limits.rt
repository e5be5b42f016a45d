//! The limits of what is compiled, once each.

/// The most bytes that a source file may have.
pub const MOST_FILE_BYTES: usize = 1_048_576;

/// The most atoms that the types of a program may have.
pub const MOST_ATOMS: usize = 65_536;

/// How deep brackets, types, expressions and statements may be nested.
pub const MOST_NESTING: usize = 200;
