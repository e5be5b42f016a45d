//! Basic sets of shapes, and the types that are put together of them.

use crate::lists::ChoiceList;
use bal_base::Text;

/// A set of shapes that needs no atom to say it.
#[derive(Drop)]
pub enum BasicSet {
    /// Nil alone.
    Nil,
    /// One boolean.
    Bool(bool),
    /// The ints from the first to the second.
    IntRange(i64, i64),
    /// One string.
    StringOne(Text),
    /// All strings.
    StringAll,
    /// All lists.
    ListAll,
    /// All mappings.
    MappingAll,
    /// All errors.
    ErrorAll,
    /// All functions.
    FunctionAll,
    /// All futures.
    FutureAll,
    /// Nil, booleans, ints, strings, marked lists and mappings, errors and functions.
    Readonly,
    /// No shape.
    Never,
}

/// A type: the set of its shapes, over an environment that defines the atoms.
#[derive(Drop)]
pub enum SemType {
    /// The shapes of a basic set.
    Basic(BasicSet),
    /// The shapes that fit the definition of the atom with this number.
    Atom(u32),
    /// The shapes in one of the two or in both.
    Or(Box<SemType>, Box<SemType>),
    /// The shapes in both.
    And(Box<SemType>, Box<SemType>),
    /// The shapes that aren't in it.
    Not(Box<SemType>),
}

/// An atom of which a constructor may make its value.
#[derive(Clone, Copy, PartialEq, Eq)]
pub struct Choice {
    /// The atom's number.
    pub atom: u32,
    /// Whether the value is made immutable.
    pub immutable: bool,
}

/// A type with its constructor choices, those for lists and those for mappings, each in order.
#[derive(Drop)]
pub struct Ty {
    pub sem: SemType,
    pub lists: ChoiceList,
    pub maps: ChoiceList,
}
