//! The lines of a text, and what each adds to it:
//!
//! - `| TEXT`: the text and a line feed
//! - `> TEXT`: the text alone
//! - `"TEXT"`: bytes, in which there are escapes
//! - `repeat N PIECE`: N times what the rest of the line adds
//! - `pad N PIECE`: what the rest of the line adds, as often as brings the text to N bytes

use crate::misread::{Misread, Read, refuse};
use row_lines::{first_word, number, quoted, unescaped};
use std::alloc::Global;

/// Whether a line adds to a text.
pub fn is_piece(line: &str) -> bool {
    let (word, _) = first_word(line);
    line.starts_with('"') || matches!(word, "|" | ">" | "repeat" | "pad")
}

/// Adds what a line stands for.
pub fn add_piece(alloc: Global, text: &mut Vec<u8>, line: &str) -> Read<()> {
    match first_word(line) {
        ("repeat", rest) => repeat(alloc, text, rest),
        ("pad", rest) => pad(alloc, text, rest),
        _ => add_times(text, simple_piece(alloc, line)?.as_slice(), 1),
    }
}

fn repeat(alloc: Global, text: &mut Vec<u8>, rest: &str) -> Read<()> {
    let (count, line) = counted(rest)?;
    add_times(text, simple_piece(alloc, line)?.as_slice(), count)
}

fn pad(alloc: Global, text: &mut Vec<u8>, rest: &str) -> Read<()> {
    let (size, line) = counted(rest)?;
    let piece = simple_piece(alloc, line)?;
    let count = times_to(size, text.len() as u64, piece.len() as u64)?;
    add_times(text, piece.as_slice(), count)
}

/// A number, and what stands behind it.
fn counted(rest: &str) -> Read<(u64, &str)> {
    let (word, line) = first_word(rest);
    match number(word) {
        Some(count) => Ok((count, line)),
        None => refuse(Misread::NotANumber),
    }
}

/// Adds the piece so many times.
fn add_times(text: &mut Vec<u8>, piece: &[u8], count: u64) -> Read<()> {
    for _ in 0..count {
        text.extend_from_slice(piece)?;
    }
    Ok(())
}

/// How many pieces of this length bring a text that has `len` bytes to `size` bytes.
fn times_to(size: u64, len: u64, piece: u64) -> Read<u64> {
    match size.checked_sub(len) {
        Some(room) if piece > 0 && room % piece == 0 => Ok(room / piece),
        _ => refuse(Misread::NoSize),
    }
}

/// What a line that repeats nothing stands for.
fn simple_piece(alloc: Global, line: &str) -> Read<Vec<u8>> {
    if line.starts_with('"') {
        return string(alloc, line);
    }
    match first_word(line) {
        ("|", rest) => whole_line(alloc, rest),
        (">", rest) => Ok(Vec::from_slice(alloc, rest.as_bytes())?),
        _ => refuse(Misread::NotALine),
    }
}

fn whole_line(alloc: Global, text: &str) -> Read<Vec<u8>> {
    let mut line = Vec::from_slice(alloc, text.as_bytes())?;
    line.push(b'\n')?;
    Ok(line)
}

fn string(alloc: Global, line: &str) -> Read<Vec<u8>> {
    match quoted(line) {
        Some((inside, "")) => match unescaped(alloc, inside)? {
            Some(bytes) => Ok(bytes),
            None => refuse(Misread::NotAString),
        },
        _ => refuse(Misread::NotAString),
    }
}
