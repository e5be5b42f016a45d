//! Questions about the code points of texts:
//!
//! - `join TEXT TEXT`: the second behind the first, and how many code points that has
//! - `length TEXT`: how many code points the text has, and whether all are `ascii`, or some is `other`
//! - `point TEXT N`: the number of the code point at the place N, or `none`
//! - `part TEXT N M`: the code points from the place N up to M, or `none`
//! - `long N TEXT M`: of the text that is so many times the one that is given, joined to itself: how many code points it
//!   has, whether all are ASCII, which one stands at the place M, and how many bytes are from there on
//! - `places N`: at how many places of a text of so many letters the letter is found, as a code point and as a part

use crate::words::{Read, Words, string_of};
use bal_base::Text;
use std::alloc::{AllocError, Global};

pub fn join(words: &mut Words<'_>) -> Read<String> {
    let first = Text::from_string(words.alloc, words.text()?)?;
    let second = Text::from_string(words.alloc, words.text()?)?;
    let both = Text::join(words.alloc, &first, &second)?;
    let shown = string_of(words.alloc, both.as_str().as_bytes())?;
    let length = both.length();
    Ok(format!(in words.alloc; "{shown} {length}")?)
}

pub fn length(words: &mut Words<'_>) -> Read<String> {
    let text = Text::from_string(words.alloc, words.text()?)?;
    let length = text.length();
    let kind = kind_of(&text);
    Ok(format!(in words.alloc; "{length} {kind}")?)
}

fn kind_of(text: &Text) -> &'static str {
    if text.is_ascii() { "ascii" } else { "other" }
}

pub fn point(words: &mut Words<'_>) -> Read<String> {
    let text = Text::from_string(words.alloc, words.text()?)?;
    let at = words.number()? as usize;
    Ok(point_at(words.alloc, &text, at)?)
}

/// The number of the code point at a place.
fn point_at(alloc: Global, text: &Text, at: usize) -> Result<String, AllocError> {
    match text.char_at(at) {
        Some(point) => {
            let number = point as u32;
            format!(in alloc; "{number}")
        }
        None => String::from_str(alloc, "none"),
    }
}

pub fn part(words: &mut Words<'_>) -> Read<String> {
    let text = Text::from_string(words.alloc, words.text()?)?;
    let start = words.number()? as usize;
    let end = words.number()? as usize;
    match text.substring(start, end) {
        Some(part) => Ok(string_of(words.alloc, part.as_bytes())?),
        None => Ok(String::from_str(words.alloc, "none")?),
    }
}

pub fn long(words: &mut Words<'_>) -> Read<String> {
    let count = words.number()?;
    let part = words.text()?;
    let at = words.number()? as usize;
    let half = Text::from_string(words.alloc, repeated(words.alloc, part.as_str(), count)?)?;
    let both = Text::join(words.alloc, &half, &half)?;
    let length = both.length();
    let kind = kind_of(&both);
    let point = point_at(words.alloc, &both, at)?;
    let left = bytes_from(&both, at);
    Ok(format!(in words.alloc; "{length} {kind} {point} {left}")?)
}

/// The text so many times.
fn repeated(alloc: Global, text: &str, count: u64) -> Result<String, AllocError> {
    let mut all = String::new(alloc);
    for _ in 0..count {
        all.push_str(text)?;
    }
    Ok(all)
}

/// How many bytes a text has from a place on.
fn bytes_from(text: &Text, at: usize) -> usize {
    match text.substring(at, text.length()) {
        Some(part) => part.len(),
        None => 0,
    }
}

pub fn places(words: &mut Words<'_>) -> Read<String> {
    let count = words.number()?;
    let text = Text::from_string(words.alloc, repeated(words.alloc, "a", count)?)?;
    let found = letters(&text);
    Ok(format!(in words.alloc; "{found}")?)
}

/// At how many places the letter is found.
fn letters(text: &Text) -> u64 {
    let mut found = 0u64;
    for at in 0..text.length() {
        if has_letter(text, at) {
            found = found.saturating_add(1);
        }
    }
    found
}

fn has_letter(text: &Text, at: usize) -> bool {
    match text.substring(at, at.saturating_add(1)) {
        Some(part) => part == "a" && text.char_at(at) == Some('a'),
        None => false,
    }
}
