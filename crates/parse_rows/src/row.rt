//! Rows, each a line:
//!
//! - `READER whole: TEXT` or `READER front 3: TEXT`: all of the text is read, or so many of its tokens and no more
//! - `READER 103 at 5: TEXT`: it is refused, by the code with this number, at this byte of the text
//! - `READER apart: TEXT ==> TREE`: it is read as another tree than this one, or not to its end
//! - `tokens TEXT ==> SHOWN`: its tokens, as the module `tokens` says
//!
//! READER is `type`, `expr`, `file`, or `body`, for what stands between the braces of `function f()`. Behind the text of a row
//! stands, after ` ==> `, what is read with parentheses round each operand that is no single word and has no brackets: the tree.
//! Without it, no operand wants any.

use crate::reading::{Came, Reader};

/// A row of a reader.
#[derive(Clone, Copy)]
pub struct TextRow<'a> {
    pub reader: Reader,
    pub wanted: Wanted,
    pub text: &'a str,
    pub other: Option<&'a str>,
}

/// What is wanted of a text.
#[derive(Clone, Copy)]
pub enum Wanted {
    /// That this comes of it, as the tree that is told.
    Came(Came),
    /// That it isn't read as that tree.
    Apart,
}

/// The row that a line is.
pub fn row_of(line: &str) -> Option<TextRow<'_>> {
    let (head, text) = line.split_once(':')?;
    let (reader, claim) = head.split_once(' ')?;
    let reader = reader_of(reader)?;
    let wanted = wanted_of(claim)?;
    let text = text.strip_prefix(' ').unwrap_or(text);
    let (text, other) = match text.split_once(" ==> ") {
        Some((text, other)) => (text, Some(other)),
        None => (text, None),
    };
    Some(TextRow {
        reader,
        wanted,
        text,
        other,
    })
}

fn reader_of(word: &str) -> Option<Reader> {
    match word {
        "type" => Some(Reader::Types),
        "expr" => Some(Reader::Exprs),
        "file" => Some(Reader::Files),
        "body" => Some(Reader::Bodies),
        _ => None,
    }
}

fn wanted_of(claim: &str) -> Option<Wanted> {
    match claim {
        "whole" => Some(Wanted::Came(Came::Whole)),
        "apart" => Some(Wanted::Apart),
        _ => Some(Wanted::Came(came_of(claim)?)),
    }
}

/// `front 3` or `103 at 5`.
fn came_of(claim: &str) -> Option<Came> {
    match claim.split_once(' ')? {
        ("front", count) => Some(Came::Front(count.parse::<usize>().ok()?)),
        (code, place) => refused_of(code, place),
    }
}

/// A code, and the byte behind `at `.
fn refused_of(code: &str, place: &str) -> Option<Came> {
    let code = code.parse::<u16>().ok()?;
    let at = place.strip_prefix("at ")?;
    let at = at.parse::<usize>().ok()?;
    Some(Came::Refused { code, at })
}
