//! A string with several owners, which gives its memory back when the last of them goes.
//!
//! `SharedString::new` copies a text, `from_string` takes one over, `join` puts two together,
//! `as_str` and `as_string` show it, and `share` makes one more owner, which can't fail and takes no
//! memory. `length`, `is_ascii`, `char_at` and `substring` speak of code points, which are counted once,
//! when the text is made. An owner is one pointer. Contracts see it as the list of its code points.
//!
//! All owners point to one block, which holds the text with the number of its code points (`counted`)
//! and counts the owners (`block`, `owner`). Dropping an owner counts one less, and the last one that is
//! counted drops the text and frees the block.
//! A count of `usize::MAX` is full, and stays so for good: an owner that is made then isn't counted,
//! and from then on no drop frees the block. That is the one case in which memory isn't given back.
#![tactic(auto)]

ghost use Rattle.std.specs.Prelude.{◌≡◌, ◌≤◌, ◌↔◌, ◌++◌, ℕ, List, IfOk, IfSome, IsSome, IsTrue, chars, length, slice_get, slice_range, string_bytes};
ghost use Rattle.std.specs.Str.{IsAscii};

use block::{Shared, Whole};
use counted::Counted;
use owner::Owner;
use std::alloc::{AllocError, Global};
use std::marker::Model;

mod block;
mod counted;
mod owner;

/// One of the owners of a text, seen as the text's list of code points.
pub struct SharedString {
    owner: Owner,
    alloc: Global,
}

impl Model for SharedString {
    ghost Value = { List ℕ };

    ghost view = { λ s. s.owner.text };
}

impl SharedString {
    /// The first owner of a copy of `text`. `Err` says that there was no memory for it.
    pub fn new(alloc: Global, text: &str) -> Result<SharedString, AllocError>
        ensures { IfOk result (λ s. s ≡ chars text.now) }
    {
        SharedString::from_string(alloc, String::from_str(alloc, text)?)
    }

    /// The first owner of `text` itself. `Err` says that there was no memory for the block, and then
    /// `text` is dropped.
    pub fn from_string(alloc: Global, text: String) -> Result<SharedString, AllocError>
        ensures { IfOk result (λ s. s ≡ chars (string_bytes text)) }
    {
        SharedString::of(alloc, Counted::new(text))
    }

    /// The first owner of one text behind another, whose bytes are copied once. `Err` says that there was no memory
    /// for it.
    pub fn join(
        alloc: Global,
        first: &SharedString,
        second: &SharedString,
    ) -> Result<SharedString, AllocError>
        ensures { IfOk result (λ both. both ≡ first.now ++ second.now) }
    {
        let both = Counted::join(alloc, first.owner.text(), second.owner.text())?;
        SharedString::of(alloc, both)
    }

    fn of(alloc: Global, text: Counted) -> Result<SharedString, AllocError>
        ensures { IfOk result (λ s. s ≡ text) }
    {
        match Box::new(alloc, Shared { owners: 1, text }) {
            Ok(block) => {
                let owner = Owner::first(Whole::of(block));
                Ok(SharedString { owner, alloc })
            }
            Err(_) => Err(AllocError),
        }
    }

    /// The text.
    pub fn as_str(&self) -> &str
        ensures { chars result.now ≡ self.now }
    {
        self.as_string().as_str()
    }

    /// The text, as the `String` that the owners share.
    pub fn as_string(&self) -> &String
        ensures { chars (string_bytes result.now) ≡ self.now }
    {
        self.owner.text().as_string()
    }

    /// How many code points the text has. They were counted when it was made.
    pub fn length(&self) -> usize
        ensures { result ≡ length self.now }
    {
        self.owner.text().length()
    }

    /// Whether all code points are ASCII. Looks at none of them.
    pub fn is_ascii(&self) -> bool
        ensures { IsTrue result ↔ IsAscii self.now }
    {
        self.owner.text().is_ascii()
    }

    /// The code point at a place, if there is one. Where all are ASCII nothing is walked over, and else all that stand
    /// in front of it.
    pub fn char_at(&self, index: usize) -> Option<char>
        ensures { result ≡ slice_get self.now index }
    {
        self.owner.text().char_at(index)
    }

    /// The code points from a place up to another one, if these are places in the text in this order. Where all are
    /// ASCII nothing is walked over, and else all up to the second place.
    pub fn substring(&self, start: usize, end: usize) -> Option<&str>
        ensures there { IsSome result ↔ ((start ≤ end) × (end ≤ length self.now)) }
        ensures value { IfSome result (λ part. chars part.now ≡ slice_range self.now start end) }
    {
        self.owner.text().substring(start, end)
    }

    /// One more owner of the same text.
    pub fn share(&self) -> SharedString
        ensures { result ≡ self.now }
    {
        SharedString {
            owner: self.owner.share(),
            alloc: self.alloc,
        }
    }
}

impl Drop for SharedString {
    fn drop(self) {
        let SharedString { owner, alloc } = self;
        if let Some(last) = owner.release() {
            drop(last.into_box(alloc));
        }
    }
}
