//! Questions about texts:
//!
//! - `place N TEXT`: the line and the column of the byte N, `LINE:COLUMN`
//! - `order TEXT TEXT`: `less`, `equal` or `greater`
//! - `text TEXT`: what the second handle of a text shows when the first is gone, and whether another text of the same code points
//!   is `equal` or `other`
//! - `owners TEXT`: what the third owner of a copy of the text shows when the others are gone, and what one of the text itself does
//! - `rounds N`: in how many of so many rounds a text that is made in it, and one that lasts, are what they are. Each fourth text
//!   has room for 2^30 bytes. A process has 2^47 bytes of addresses, too few for half of a million such texts at once
//! - `size text` and `size owner`: how many bytes a handle has

use crate::words::{Answers, Misread, Read, Words, refuse};
use bal_base::{Text, line_column};
use shared_string::SharedString;
use std::alloc::{AllocError, Global};
use std::cmp::Ordering;

pub fn place(words: &mut Words<'_>) -> Read<String> {
    let at = words.number()?;
    let text = words.text()?;
    match place_in(text.as_str(), at) {
        Some((line, column)) => Ok(format!(in words.alloc; "{line}:{column}")?),
        None => refuse(Misread::NotALine),
    }
}

/// The line and the column of a byte, if a code point begins there.
fn place_in(text: &str, at: u64) -> Option<(u32, u32)> {
    let at = u32::try_from(at).ok()?;
    if at < u32::MAX && text.is_char_boundary(at as usize) {
        return Some(line_column(text, at));
    }
    None
}

pub fn order(words: &mut Words<'_>) -> Read<String> {
    let left = Text::from_string(words.alloc, words.text()?)?;
    let right = Text::from_string(words.alloc, words.text()?)?;
    Ok(String::from_str(words.alloc, order_of(&left, &right))?)
}

fn order_of(left: &Text, right: &Text) -> &'static str {
    match left.cmp(right) {
        Ordering::Less => "less",
        Ordering::Equal => "equal",
        Ordering::Greater => "greater",
    }
}

pub fn text(words: &mut Words<'_>) -> Read<String> {
    let first = Text::from_string(words.alloc, words.text()?)?;
    let second = first.share();
    drop(first);
    let other = Text::new(words.alloc, second.as_str())?;
    let mut answers = Answers::new(words.alloc);
    answers.bytes(second.as_str().as_bytes())?;
    answers.word(if second == other { "equal" } else { "other" })?;
    Ok(answers.finish())
}

pub fn owners(words: &mut Words<'_>) -> Read<String> {
    let text = words.text()?;
    let third = third_owner(SharedString::new(words.alloc, text.as_str())?);
    let taken = SharedString::from_string(words.alloc, text)?.share();
    let mut answers = Answers::new(words.alloc);
    answers.bytes(third.as_str().as_bytes())?;
    answers.bytes(taken.as_string().as_str().as_bytes())?;
    Ok(answers.finish())
}

/// The third owner of a text whose first and second are gone.
fn third_owner(first: SharedString) -> SharedString {
    let second = first.share();
    drop(first);
    let third = second.share();
    drop(second);
    third
}

const LASTING: &str = "shared in each round";

const MADE: &str = "made in each round";

pub fn rounds(words: &mut Words<'_>) -> Read<String> {
    let count = words.number()?;
    let lasting = SharedString::new(words.alloc, LASTING)?;
    let right = right_rounds(words.alloc, &lasting, count)?;
    Ok(format!(in words.alloc; "{right}")?)
}

fn right_rounds(alloc: Global, lasting: &SharedString, count: u64) -> Result<u64, AllocError> {
    let mut right = 0u64;
    for number in 0..count {
        let room = if number % 4 == 0 { 1 << 30 } else { 0 };
        if round(alloc, lasting, room)? {
            right = right.saturating_add(1);
        }
    }
    Ok(right)
}

/// Whether both texts are what they are, where the one that is made has this much room.
fn round(alloc: Global, lasting: &SharedString, room: usize) -> Result<bool, AllocError> {
    let mut text = String::with_capacity(alloc, room)?;
    text.push_str(MADE)?;
    let made = third_owner(SharedString::from_string(alloc, text)?);
    Ok(made.as_str() == MADE && lasting.share().as_str() == LASTING)
}

pub fn size(words: &mut Words<'_>) -> Read<String> {
    let size = match words.word() {
        "text" => size_of::<Text>(),
        "owner" => size_of::<SharedString>(),
        _ => return refuse(Misread::NotALine),
    };
    Ok(format!(in words.alloc; "{size}")?)
}
