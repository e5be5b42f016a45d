//! Rows of tokens: `tokens "TEXT" ==> "SHOWN"`, where both are strings, and `tokens 3*"TEXT" ==> "SHOWN"` for a text three
//! times over.
//!
//! What is shown is `NUMBER tokens` of a repeated text, and else each token, or the refusal:
//!
//! - `w:NAME@2-5;`: a word, and the bytes between which it stands
//! - `k:KEYWORD@2-5;`, `s:SIGN@2-5;`: a keyword and a sign, by their names in the program
//! - `i:VALUE@2-5;`, `t:TEXT@2-5;`: an int and a string, by what they stand for
//! - `102 at 5`: a refusal by this code, at this byte

use crate::outcome::Outcome;
use crate::reading::MOST_BYTES;
use bal_base::{Fault, Memory, Stop, Token, TokenKind};
use bal_lexer::lex;
use row_lines::{quoted, unescaped};
use std::alloc::{AllocError, Global};

/// Reads what stands behind `tokens ` in a row, and compares.
pub fn outcome_of_tokens(alloc: Global, row: &str) -> Result<Outcome, Memory> {
    match token_row(row) {
        Some(row) => outcome_of_row(alloc, row),
        None => Ok(Outcome::Misread),
    }
}

/// A text and what is wanted of it, both as they are written.
#[derive(Clone, Copy)]
struct TokenRow<'a> {
    /// How often the text stands, where the row says it.
    times: Option<u32>,
    text: &'a str,
    wanted: &'a str,
}

fn token_row(row: &str) -> Option<TokenRow<'_>> {
    let (times, row) = times_of(row)?;
    let (text, behind) = quoted(row)?;
    match quoted(behind.strip_prefix(" ==> ")?)? {
        (wanted, "") => Some(TokenRow {
            times,
            text,
            wanted,
        }),
        _ => None,
    }
}

/// How often the text stands, where a row says it, and what is behind that.
fn times_of(row: &str) -> Option<(Option<u32>, &str)> {
    if row.starts_with('"') {
        return Some((None, row));
    }
    let (times, text) = row.split_once('*')?;
    Some((Some(times.parse::<u32>().ok()?), text))
}

fn outcome_of_row(alloc: Global, row: TokenRow<'_>) -> Result<Outcome, Memory> {
    match (unescaped(alloc, row.text)?, unescaped(alloc, row.wanted)?) {
        (Some(text), Some(wanted)) => compared(alloc, row.times, &text, &wanted),
        _ => Ok(Outcome::Misread),
    }
}

fn compared(
    alloc: Global,
    times: Option<u32>,
    text: &[u8],
    wanted: &[u8],
) -> Result<Outcome, Memory> {
    let Ok(text) = str::from_utf8(text) else {
        return Ok(Outcome::Misread);
    };
    let shown = match times {
        Some(times) => shown_repeated(alloc, times, text)?,
        None => shown(alloc, text)?,
    };
    if shown.as_bytes() == wanted {
        return Ok(Outcome::Agrees);
    }
    Ok(Outcome::OtherKinds)
}

/// How many tokens a text has, so many times over.
fn shown_repeated(alloc: Global, times: u32, piece: &str) -> Result<String, Memory> {
    let mut text = String::new(alloc);
    for _ in 0..times {
        text.push_str(piece)?;
    }
    if text.len() > MOST_BYTES {
        return Err(Memory);
    }
    match lex(alloc, 0, text.as_str()) {
        Err(stop) => shown_stop(alloc, &stop),
        Ok(tokens) => {
            let count = tokens.len();
            Ok(format!(in alloc; "{count} tokens")?)
        }
    }
}

/// The text's tokens, or its refusal.
fn shown(alloc: Global, text: &str) -> Result<String, Memory> {
    if text.len() > MOST_BYTES {
        return Err(Memory);
    }
    match lex(alloc, 0, text) {
        Err(stop) => shown_stop(alloc, &stop),
        Ok(tokens) => Ok(shown_tokens(alloc, &tokens)?),
    }
}

fn shown_tokens(alloc: Global, tokens: &[Token]) -> Result<String, AllocError> {
    let mut out = String::new(alloc);
    for token in tokens {
        write_token(&mut out, token)?;
    }
    Ok(out)
}

fn write_token(out: &mut String, token: &Token) -> Result<(), AllocError> {
    write_kind(out, &token.kind)?;
    let at = token.at;
    let end = token.end;
    write!(out, "@{at}-{end};")
}

fn write_kind(out: &mut String, kind: &TokenKind) -> Result<(), AllocError> {
    match kind {
        TokenKind::Word(name) => write!(out, "w:{}", name.as_str()),
        TokenKind::Keyword(keyword) => write!(out, "k:{keyword:?}"),
        TokenKind::Int(value) => write!(out, "i:{value}"),
        TokenKind::Str(text) => write!(out, "t:{}", text.as_str()),
        TokenKind::Sign(sign) => write!(out, "s:{sign:?}"),
    }
}

fn shown_stop(alloc: Global, stop: &Stop<Fault>) -> Result<String, Memory> {
    let Stop::Fault(fault) = stop else {
        return Err(Memory);
    };
    let number = fault.code.number();
    let at = match fault.at {
        Some(place) => place.at,
        None => 0,
    };
    Ok(format!(in alloc; "{number} at {at}")?)
}
