//! What becomes of a row.

use crate::operands::Walk;
use crate::reading::{Came, Found, Reader, difference, read_text, tokens_of};
use crate::row::{TextRow, Wanted, row_of};
use crate::tokens::outcome_of_tokens;
use bal_base::{Memory, Stop, Token};
use bal_tree::{FileTree, well_formed};
use row_lines::{Judge, Row, Told};
use std::alloc::Global;

/// What became of a row.
#[derive(Clone, Copy)]
pub enum Outcome {
    /// What it wants comes.
    Agrees,
    /// This comes of the text, and not what is wanted.
    Other(Came),
    /// The tree has other tokens than the text, and this is the first.
    OtherTokens(usize),
    /// The tree's place isn't that of its first token.
    OtherPlace,
    /// The tree isn't well formed.
    Unformed,
    /// The tree isn't the one that is wanted: this is the first token that differs.
    OtherTree(usize),
    /// The text has other tokens than those that are wanted, or is refused otherwise.
    OtherKinds,
    /// It is read as the tree from which it is to be apart.
    SameTree,
    /// The line isn't of the form of a row.
    Misread,
}

/// Rows of texts.
#[derive(Clone, Copy)]
pub struct Texts;

impl Judge for Texts {
    fn judge(&mut self, row: &Row, told: &mut Told) {
        match outcome_of(told.alloc(), row.head.as_str()) {
            Ok(outcome) => tell(outcome, told),
            Err(Memory) => told.memory(),
        }
    }
}

fn tell(outcome: Outcome, told: &mut Told) {
    let alloc = told.alloc();
    match outcome {
        Outcome::Agrees => {}
        Outcome::Other(came) => tell_came(came, told),
        Outcome::OtherTokens(token) => told.reason(format!(in alloc;
            "its tree has other tokens from token {token} on"
        )),
        Outcome::OtherPlace => told.fails("its tree has another place"),
        Outcome::Unformed => told.fails("its tree isn't well formed"),
        Outcome::OtherTree(token) => {
            told.reason(format!(in alloc; "its tree is another from token {token} on"))
        }
        Outcome::OtherKinds => told.fails("it has other tokens"),
        Outcome::SameTree => told.fails("it is read as that tree"),
        Outcome::Misread => told.fails("it isn't of the form of a row"),
    }
}

fn tell_came(came: Came, told: &mut Told) {
    let alloc = told.alloc();
    match came {
        Came::Whole => told.fails("it is read whole"),
        Came::Front(count) => told.reason(format!(in alloc; "it is read up to token {count}")),
        Came::Refused { code, at } => told.reason(format!(in alloc;
            "it is refused: {code} at {at}"
        )),
    }
}

/// Reads the row, and compares.
fn outcome_of(alloc: Global, line: &str) -> Result<Outcome, Memory> {
    match line.strip_prefix("tokens ") {
        Some(row) => outcome_of_tokens(alloc, row),
        None => match row_of(line) {
            Some(row) => outcome_of_row(alloc, &row),
            None => Ok(Outcome::Misread),
        },
    }
}

fn outcome_of_row(alloc: Global, row: &TextRow<'_>) -> Result<Outcome, Memory> {
    match row.wanted {
        Wanted::Came(wanted) => outcome_of_text(alloc, row, wanted),
        Wanted::Apart if row.other.is_none() => Ok(Outcome::Misread),
        Wanted::Apart => Ok(apart(outcome_of_text(alloc, row, Came::Whole)?)),
    }
}

/// What becomes of a row that wants its text not to be read whole as its tree, where this would become of one that does.
fn apart(outcome: Outcome) -> Outcome {
    match outcome {
        Outcome::Agrees => Outcome::SameTree,
        Outcome::Other(_) | Outcome::OtherTree(_) => Outcome::Agrees,
        _ => outcome,
    }
}

fn outcome_of_text(alloc: Global, row: &TextRow<'_>, wanted: Came) -> Result<Outcome, Memory> {
    match read_text(alloc, row.reader, row.text) {
        Ok(mut found) => outcome_of_tree(alloc, row, wanted, &mut found),
        Err(Stop::Fault(came)) if wanted == came => Ok(Outcome::Agrees),
        Err(Stop::Fault(came)) => Ok(Outcome::Other(came)),
        Err(Stop::Memory) => Err(Memory),
    }
}

fn outcome_of_tree(
    alloc: Global,
    row: &TextRow<'_>,
    wanted: Came,
    found: &mut Found,
) -> Result<Outcome, Memory> {
    if let Some(number) = difference(alloc, row.reader, &found.tree, &found.tokens)? {
        return Ok(Outcome::OtherTokens(number));
    }
    if !found.begins_at_its_place(row.reader) {
        return Ok(Outcome::OtherPlace);
    }
    if !well_formed(&found.tree) {
        return Ok(Outcome::Unformed);
    }
    if found.came != wanted {
        return Ok(Outcome::Other(found.came));
    }
    grouped(alloc, row, found)
}

/// Compares the tree with the text that has all parentheses.
fn grouped(alloc: Global, row: &TextRow<'_>, found: &mut Found) -> Result<Outcome, Memory> {
    Walk::new(alloc).close(&mut found.tree)?;
    match row.other {
        Some(other) => compared(alloc, row.reader, &found.tree, other),
        None => agreement(alloc, row.reader, &found.tree, &found.tokens),
    }
}

/// Compares the tree's tokens with those of another text.
fn compared(
    alloc: Global,
    reader: Reader,
    tree: &FileTree,
    other: &str,
) -> Result<Outcome, Memory> {
    match tokens_of(alloc, reader, other) {
        Ok(tokens) => agreement(alloc, reader, tree, &tokens),
        Err(Stop::Fault(_)) => Ok(Outcome::Misread),
        Err(Stop::Memory) => Err(Memory),
    }
}

/// Whether the tree has these tokens. The first other one is told from the text's start.
fn agreement(
    alloc: Global,
    reader: Reader,
    tree: &FileTree,
    tokens: &[Token],
) -> Result<Outcome, Memory> {
    match difference(alloc, reader, tree, tokens)? {
        Some(number) => Ok(Outcome::OtherTree(number.saturating_sub(reader.tokens_before()))),
        None => Ok(Outcome::Agrees),
    }
}
