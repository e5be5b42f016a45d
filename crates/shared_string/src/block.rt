//! The block that owners share.
ghost use Rattle.std.specs.Prelude.{◌≡◌};
ghost use Rattle.shared_string.specs.Whole.{whole_owns};

use crate::counted::Counted;
use std::alloc::Global;
use std::marker::Model;

/// A text with the number of its owners.
#[derive(Drop)]
pub(crate) struct Shared {
    pub(crate) owners: usize,
    pub(crate) text: Counted,
}

/// A block from a `Box`, with the value in it, to which nothing else points.
pub(crate) struct Whole<T> {
    pub(crate) at: *mut T,
    pub(crate) ghost value: { T },
}

impl<T> Model for Whole<T> {
    ghost also_owns = { λ w. whole_owns T.row w.at w.value };
}

impl<T: Drop> Whole<T> {
    pub(crate) fn of(block: Box<T>) -> Whole<T>
        ensures { result.value ≡ block.value }
    {
        Whole {
            at: Box::into_raw(block),
        }
    }

    pub(crate) fn into_box(self, alloc: Global) -> Box<T>
        ensures { result.value ≡ self.value }
    {
        let Whole { at } = self;
        // SAFETY: the block came from a `Box` in the same heap, and goes back whole.
        unsafe { Box::from_raw(alloc, at) }
    }
}
