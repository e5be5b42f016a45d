//! The owners of a block. Only the functions here read or write the count, and none of them calls
//! another in between.
//!
//! The first owner lends the text to all owners, for a lifetime that goes on until the last of them
//! ends it. The lifetime's token is cut into 2^64 parts: each owner that is counted holds one, and
//! the parts that are left lie with the count. So an owner that finds the count at 1 has the last
//! part that is out. With all parts it ends the lifetime, and has the text and the block back.
//!
//! The owner that makes the count full gives the last part away for good, to be shared out in ever
//! smaller pieces to the owners that aren't counted. From then on the parts never come together, and
//! a second lifetime, which ended at that moment, tells that the count stays full.
ghost use Rattle.std.specs.Prelude.{◌≡◌, IfSome, List, ℕ};

use crate::block::{Shared, Whole};
use crate::counted::Counted;
use std::marker::Model;

/// One of the owners of a block.
pub(crate) struct Owner {
    at: *mut Shared,
    pub(crate) ghost text: { List ℕ },
}

impl Model for Owner {
    ghost use Rattle.shared_string.specs.Ownership.{owner_owns, owner_shares};

    ghost also_owns = { λ o. owner_owns o.at o.text };

    ghost also_shares = { λ o _ κ. owner_shares o.at o.text κ };
}

impl Owner {
    /// The first owner of a block, in which it is counted already.
    pub(crate) fn first(block: Whole<Shared>) -> Owner
        requires { block.value.owners ≡ 1 }
        ensures { result.text ≡ block.value.text }
    {
        let Whole { at } = block;
        Owner { at }
    }

    pub(crate) fn text(&self) -> &Counted
        ensures { result.now ≡ self.now.text }
    {
        // SAFETY: while an owner is left, as `self` is, the text stays in its place, and nothing
        // writes it.
        unsafe { &(*self.at).text }
    }

    /// One more owner, which is counted unless the count is full.
    pub(crate) fn share(&self) -> Owner
        ensures { result.text ≡ self.now.text }
    {
        let at = self.at;
        // SAFETY: while an owner is left, the block stands. No reference leads to the count, and no
        // other thread has an owner.
        unsafe {
            let owners = (*at).owners;
            if owners < usize::MAX {
                (*at).owners = owners + 1;
            }
        }
        Owner { at }
    }

    /// Gives the owner up. The last one that is counted gets the block.
    pub(crate) fn release(self) -> Option<Whole<Shared>>
        ensures { IfSome result (λ b. b.value.text ≡ self.text) }
    {
        let Owner { at } = self;
        // SAFETY: as in `share`. An owner that finds the count below `usize::MAX` is counted in it,
        // so at 1 there is no other.
        unsafe {
            let owners = (*at).owners;
            if owners == 1 {
                return Some(Whole { at });
            } else if owners < usize::MAX {
                (*at).owners = owners - 1;
            }
        }
        None
    }
}
