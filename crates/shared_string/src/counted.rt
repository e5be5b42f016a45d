//! A text that knows how many code points it has.
ghost use Rattle.std.specs.Prelude.{◌≡◌, ◌≤◌, ◌↔◌, ◌++◌, List, ℕ, IfOk, IfSome, IsSome, IsTrue, chars, length, slice_get, slice_range, string_bytes};
ghost use Rattle.std.specs.Str.{IsAscii};
ghost use Rattle.shared_string.specs.Behind.{IsBehind};

use std::alloc::{AllocError, Global};
use std::marker::Model;

/// A text with the number of its code points, seen as the list of these. All are ASCII exactly where there are as many
/// of them as bytes.
#[derive(Drop)]
pub(crate) struct Counted {
    text: String,
    points: usize,
}

impl Model for Counted {
    ghost Value = { List ℕ };

    ghost view = { λ c. chars (string_bytes c.text) };

    ghost invariant = { λ c. c.points ≡ length (chars (string_bytes c.text)) };
}

impl Counted {
    /// The text itself, of which the code points are counted.
    pub(crate) fn new(text: String) -> Counted
        ensures { result ≡ chars (string_bytes text) }
    {
        let points = code_points(text.as_str());
        Counted { text, points }
    }

    /// One text behind another, in one copy.
    pub(crate) fn join(
        alloc: Global,
        first: &Counted,
        second: &Counted,
    ) -> Result<Counted, AllocError>
        ensures { IfOk result (λ both. both ≡ first.now ++ second.now) }
    {
        let (front, back) = (first.text.as_str(), second.text.as_str());
        let mut text = String::with_capacity(alloc, front.len() + back.len())?;
        text.push_str(front)?;
        text.push_str(back)?;
        Ok(Counted {
            text,
            points: first.points + second.points,
        })
    }

    pub(crate) fn as_string(&self) -> &String
        ensures { chars (string_bytes result.now) ≡ self.now }
    {
        &self.text
    }

    /// How many code points there are.
    pub(crate) fn length(&self) -> usize
        ensures { result ≡ length self.now }
    {
        self.points
    }

    /// Whether all code points are ASCII.
    pub(crate) fn is_ascii(&self) -> bool
        ensures { IsTrue result ↔ IsAscii self.now }
    {
        self.points == self.text.as_str().len()
    }

    /// The code point at a place, if there is one.
    pub(crate) fn char_at(&self, index: usize) -> Option<char>
        ensures { result ≡ slice_get self.now index }
    {
        if index >= self.points {
            return None;
        }
        let text = self.text.as_str();
        if self.is_ascii() {
            byte_at(text, index)
        } else {
            first(behind(text, index))
        }
    }

    /// The code points from a place up to another one, if these are places in the text in this order.
    pub(crate) fn substring(&self, start: usize, end: usize) -> Option<&str>
        ensures there { IsSome result ↔ ((start ≤ end) × (end ≤ length self.now)) }
        ensures value { IfSome result (λ part. chars part.now ≡ slice_range self.now start end) }
    {
        if start > end || end > self.points {
            return None;
        }
        let text = self.text.as_str();
        if self.is_ascii() {
            Some(ascii_part(text, start, end))
        } else {
            Some(part(text, start, end))
        }
    }
}

/// How many code points a text has. Looks at each byte once where all are ASCII.
fn code_points(text: &str) -> usize
    ensures { result ≡ length (chars text.now) }
{
    if text.is_ascii() {
        text.len()
    } else {
        text.chars().count()
    }
}

/// The byte at a place, as the code point with its number.
fn byte_at(text: &str, index: usize) -> Option<char>
    ensures { result ≡ slice_get text.now index }
{
    match text.as_bytes().get(index) {
        Some(byte) => Some(*byte as char),
        None => None,
    }
}

/// The code points between two places of a text of ASCII code points.
fn ascii_part(text: &str, start: usize, end: usize) -> &str
    requires ascii { IsAscii text.now }
    requires order { start ≤ end }
    requires inside { end ≤ length text.now }
    ensures { chars result.now ≡ slice_range (chars text.now) start end }
{
    &text[start..end]
}

/// The code points between two places of a text.
fn part(text: &str, start: usize, end: usize) -> &str
    requires order { start ≤ end }
    requires inside { end ≤ length (chars text.now) }
    ensures { chars result.now ≡ slice_range (chars text.now) start end }
{
    let from_start = behind(text, start);
    let from_end = behind(from_start, end - start);
    from_start.split_at(from_start.len() - from_end.len()).0
}

/// The first code point, if there is one.
fn first(text: &str) -> Option<char>
    ensures { result ≡ slice_get (chars text.now) 0 }
{
    text.chars().next()
}

/// What is behind so many code points.
fn behind(text: &str, count: usize) -> &str
    ensures { IsBehind text.now count result.now }
{
    let mut left = text;
    for _passed in 0..count {
        left = behind_first(left);
    }
    left
}

/// What is behind the first code point, which is nothing where there is none.
fn behind_first(text: &str) -> &str
    ensures { IsBehind text.now 1 result.now }
{
    let mut left = text.chars();
    let _ = left.next();
    left.as_str()
}
