//! What fills a gap in a list.

use bal_base::{Row, Text};

/// The filler of a place: what stands at it where a list grows past it.
#[derive(Drop)]
pub enum Filler {
    /// There is none.
    Nothing,
    /// Nil.
    Nil,
    /// A boolean.
    Bool(bool),
    /// An int.
    Int(i64),
    /// A string.
    Str(Text),
    /// A new list of the atom with this number, which holds the fillers of its fixed places.
    List(u32),
    /// A new mapping of the atom with this number, which is empty.
    Mapping(u32),
}

/// The fillers of the places of a list atom: of each fixed one, and then of all later ones where it has a rest.
pub type FillerList = Row<Filler>;
