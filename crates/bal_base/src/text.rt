//! Shared texts. A handle of a text can be handed out without memory and without failing.

ghost use Rattle.std.specs.Prelude.{◌≡◌, ◌≤◌, ◌↔◌, ◌++◌, ℕ, List, IfOk, IfSome, IsSome, IsTrue, Some, refl, chars, length, nat_eq, slice_get, slice_range, string_bytes, encode_utf8_all, true};
ghost use Rattle.std.specs.Str.{IsAscii, all_scalars};
ghost use Rattle.std.specs.Ordering.{nat_cmp};
ghost use Rattle.std.specs.Hash as fed;
ghost use mathlib.Core.Path.{ap};
ghost use Rattle.std.specs.Prelude.{⊤};
ghost use Rattle.std.specs.Cmp.Lexicographic.{bytes_decides, pointwise, slice_cmp, nat_list_eq_equiv, nat_list_cmp_total, texts_ties, texts_po};
ghost use Rattle.std.specs.Cmp.{partial_equiv_from_equiv};

use crate::stop::Memory;
use shared_string::SharedString;
use std::alloc::{AllocError, Global};
use std::cmp::Ordering;
use std::hash::{Hash, Hasher};
use std::marker::Model;

/// A shared text, seen as its list of code points. Its memory is given back as that of a `SharedString`.
#[derive(Drop)]
pub struct Text {
    shared: SharedString,
}

impl Model for Text {
    ghost Value = { List ℕ };

    ghost view = { λ t. t.shared };
}

impl Text {
    /// A copy of the given text.
    pub fn new(alloc: Global, text: &str) -> Result<Text, Memory>
        ensures { IfOk result (λ t. t ≡ chars text.now) }
    {
        Ok(Text {
            shared: SharedString::new(alloc, text)?,
        })
    }

    /// The given text itself, which isn't copied. `Memory` says that there was none for the block of five
    /// words in which the text's owners are counted, and then the text is dropped.
    pub fn from_string(alloc: Global, text: String) -> Result<Text, Memory>
        ensures { IfOk result (λ t. t ≡ chars (string_bytes text)) }
    {
        Ok(Text {
            shared: SharedString::from_string(alloc, text)?,
        })
    }

    /// One text behind another, whose bytes are copied once.
    pub fn join(alloc: Global, first: &Text, second: &Text) -> Result<Text, Memory>
        ensures { IfOk result (λ both. both ≡ first.now ++ second.now) }
    {
        Ok(Text {
            shared: SharedString::join(alloc, &first.shared, &second.shared)?,
        })
    }

    /// The text as it is read. Takes no memory.
    pub fn as_str(&self) -> &str
        ensures value { chars result.now ≡ self.now }
        ensures scalars { all_scalars self.now ≡ true }
    {
        self.text().as_str()
    }

    /// How many code points the text has. They were counted when it was made.
    pub fn length(&self) -> usize
        ensures { result ≡ length self.now }
    {
        self.shared.length()
    }

    /// Whether all code points are ASCII. Looks at none of them.
    pub fn is_ascii(&self) -> bool
        ensures { IsTrue result ↔ IsAscii self.now }
    {
        self.shared.is_ascii()
    }

    /// The code point at a place, if there is one. Where all are ASCII nothing is walked over, and else all that stand
    /// in front of it.
    pub fn char_at(&self, index: usize) -> Option<char>
        ensures { result ≡ slice_get self.now index }
    {
        self.shared.char_at(index)
    }

    /// The code points from a place up to another one, if these are places in the text in this order. Where all are
    /// ASCII nothing is walked over, and else all up to the second place. Takes no memory.
    pub fn substring(&self, start: usize, end: usize) -> Option<&str>
        ensures there { IsSome result ↔ ((start ≤ end) × (end ≤ length self.now)) }
        ensures value { IfSome result (λ part. chars part.now ≡ slice_range self.now start end) }
    {
        self.shared.substring(start, end)
    }

    /// Another handle of the same text. Takes no memory.
    pub fn share(&self) -> Text
        ensures { result ≡ self.now }
    {
        Text {
            shared: self.shared.share(),
        }
    }

    fn text(&self) -> &String
        ensures { chars (string_bytes result.now) ≡ self.now }
    {
        self.shared.as_string()
    }
}

/// `share`, which can't fail.
impl Clone for Text {
    ghost is_clone = { λ t copy. copy ≡ t };

    ghost is_infallible = { λ _. ⊤ };

    fn clone(&self) -> Result<Text, AllocError> {
        Ok(self.share())
    }
}

impl PartialEq for Text {
    ghost eq = { pointwise nat_eq };

    ghost laws = { partial_equiv_from_equiv nat_list_eq_equiv };

    fn eq(&self, other: &Text) -> bool {
        self.text() == other.text()
    }
}

impl Eq for Text {
    ghost laws = { nat_list_eq_equiv };
}

impl PartialOrd for Text {
    ghost partial_cmp = { λ x y. Some (slice_cmp nat_cmp x y) };

    ghost laws = { texts_po };

    fn partial_cmp(&self, other: &Text) -> Option<Ordering> {
        Some(self.cmp(other))
    }
}

impl Ord for Text {
    ghost cmp = { slice_cmp nat_cmp };

    ghost total = { nat_list_cmp_total };

    ghost matches_partial_cmp = { λ x y. refl };

    ghost matches_eq = { texts_ties };

    fn cmp(&self, other: &Text) -> Ordering {
        self.text().cmp(other.text())
    }
}

impl Hash for Text {
    ghost hash_input = { λ t. fed.str (encode_utf8_all t) };

    ghost respects_eq = { λ x y h. ap (λ l. fed.str (encode_utf8_all l)) ((bytes_decides x y).0 h) };

    fn hash<H: Hasher>(&self, state: &mut H) {
        self.text().hash(state);
    }
}

/// An identifier, a dotted name or a file name, seen as its list of code points.
#[derive(Clone, PartialEq, Eq, PartialOrd, Ord, Hash, Drop)]
pub struct Name {
    text: Text,
}

impl Model for Name {
    ghost Value = { List ℕ };

    ghost view = { λ n. n.text };

    ghost inverse = { λ t. record { text = t } };
}

impl Name {
    /// The given name.
    pub fn new(alloc: Global, name: &str) -> Result<Name, Memory>
        ensures { IfOk result (λ n. n ≡ chars name.now) }
    {
        Ok(Name {
            text: Text::new(alloc, name)?,
        })
    }

    /// The name that is this text.
    pub fn of(text: Text) -> Name
        ensures { result ≡ text }
    {
        Name { text }
    }

    /// The name as a text.
    pub fn as_text(&self) -> &Text
        ensures { result.now ≡ self.now }
    {
        &self.text
    }

    /// The name as it is read. Takes no memory.
    pub fn as_str(&self) -> &str
        ensures value { chars result.now ≡ self.now }
        ensures scalars { all_scalars self.now ≡ true }
    {
        self.text.as_str()
    }

    /// Another handle of the same name. Takes no memory.
    pub fn share(&self) -> Name
        ensures { result ≡ self.now }
    {
        Name {
            text: self.text.share(),
        }
    }
}
