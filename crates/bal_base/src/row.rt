//! Rows: lists that are made once and then read.
ghost use Rattle.std.specs.Prelude.{◌≡◌};

use crate::fault::Event;
use crate::text::Name;
use std::marker::Model;

/// A list that is made from a vector and gives its members, and takes no memory for either. Contracts
/// see it as the list of its members.
#[derive(Drop)]
pub struct Row<T> {
    items: Vec<T>,
}

impl<T> Model for Row<T> {
    ghost use Rattle.std.specs.Prelude.{List};

    ghost Value = { List T };

    ghost view = { λ row. row.items.items };
}

impl<T> Row<T> {
    /// The list of the vector's members.
    pub fn of(items: Vec<T>) -> Row<T>
        ensures { result ≡ items.items }
    {
        Row { items }
    }

    /// The members, in order.
    pub fn as_slice(&self) -> &[T]
        ensures { result.now ≡ self.now }
    {
        self.items.as_slice()
    }
}

/// Numbers: of modules, of messages, of units.
pub type Numbers = Row<u32>;

/// Strands that wait for one another in a ring, each for the next one, by their numbers.
pub type Ring = Row<u32>;

/// Atoms of types, by their numbers.
pub type AtomList = Row<u32>;

/// Bytes of a file or of a line.
pub type Bytes = Row<u8>;

/// Names, as those of a cycle.
pub type NameList = Row<Name>;

/// Events of workers, as those of a ring.
pub type Events = Row<Event>;
