//! What a good command asks for.
ghost use Rattle.std.specs.Prelude.{◌≡◌, ◌↔◌, IfOk, IfSome, IsTrue, MatchOption};
ghost use Rattle.command_words.specs.Commands.{AreTexts, IsCommand, NoCommand, request_of};
ghost use Rattle.command_words.specs.inner.Choices.{AreFit, AreShort, IsFoundIn, IsFoundWith};
ghost use Rattle.command_words.specs.inner.Reading.{said_by};

use crate::mode::mode_of;
use crate::number::number_or;
use crate::parts::{WordParts, parts_of};
use bal_base::{Memory, Row, Text};
use std::alloc::Global;

/// How many words there may be behind the folder's one.
pub const MOST_WORDS: usize = 65_536;

/// How many bytes each of them may have.
pub const MOST_WORD_BYTES: usize = 1_048_576;

/// How many digits a number may have.
pub const MOST_DIGITS: usize = 20;

/// How many ticks a run may spend where the command doesn't say.
pub const DEFAULT_TICKS: u64 = 1_000_000_000_000;

/// By which the strands that run are picked where the command doesn't say: always the first one that is ready.
pub const DEFAULT_SEED: u64 = 0;

/// What a command asks for.
#[derive(Drop)]
pub struct Command<'w> {
    /// The folder's word.
    pub dir: &'w str,
    /// What is to be done there.
    pub mode: Mode<'w>,
    /// How many ticks a run may spend.
    pub ticks: u64,
    /// By which the strands that run are picked.
    pub seed: u64,
}

/// What is to be done.
#[derive(Drop)]
pub enum Mode<'w> {
    /// The folder's program is run, with these words for its `main`.
    Run { words: Row<Text> },
    /// The folder's program is checked.
    Check,
    /// The pairs of the folder's program are told.
    Pairs,
    /// The code of the folder's program is told.
    Code,
    /// A question: whether the left type is below the right one. Both are words of the command.
    Subtype { left: &'w str, right: &'w str },
}

/// What the words of a command ask for, and `None` exactly where they are no good command. `Memory` says that there was none.
///
/// Time and room grow with the bytes of the words.
pub fn command_of(alloc: Global, words: &[String]) -> Result<Option<Command<'_>>, Memory>
    ensures command { IfOk result (λ found. MatchOption found (NoCommand words.now) (λ c. IsCommand words.now (request_of c))) }
    ensures texts { IfOk result (λ found. IfSome found (λ c. AreTexts (request_of c).purpose)) }
{
    match parts_of(alloc, words)? {
        Some(parts) => command_in(alloc, &parts),
        None => Ok(None),
    }
}

/// The same of what the words say.
fn command_in<'w>(alloc: Global, parts: &WordParts<'w>) -> Result<Option<Command<'w>>, Memory>
    ensures command { IfOk result (λ found. IsFoundIn (said_by parts.now) found) }
    ensures texts { IfOk result (λ found. IfSome found (λ c. AreTexts (request_of c).purpose)) }
{
    let Some((dir, words)) = parts.positional.as_slice().split_first() else {
        return Ok(None);
    };
    if !are_fit(words) {
        return Ok(None);
    }
    command_at(alloc, parts, dir, words)
}

/// The same of a folder's word with words behind it.
fn command_at<'w>(
    alloc: Global,
    parts: &WordParts<'w>,
    dir: &'w str,
    words: &[&'w str],
) -> Result<Option<Command<'w>>, Memory>
    ensures dir { IfOk result (λ found. IfSome found (λ c. (request_of c).dir ≡ dir.entry.now)) }
    ensures asked { IfOk result (λ found. IsFoundWith parts.now words.entry.now found) }
    ensures texts { IfOk result (λ found. IfSome found (λ c. AreTexts (request_of c).purpose)) }
{
    let Some(ticks) = number_or(parts.ticks, DEFAULT_TICKS) else {
        return Ok(None);
    };
    let Some(seed) = number_or(parts.seed, DEFAULT_SEED) else {
        return Ok(None);
    };
    match mode_of(alloc, parts.mode, words)? {
        Some(mode) => Ok(Some(Command {
            dir,
            mode,
            ticks,
            seed,
        })),
        None => Ok(None),
    }
}

/// Whether there aren't too many words, and none is too long.
fn are_fit(words: &[&str]) -> bool
    ensures { IsTrue result ↔ AreFit words.now }
{
    words.len() <= MOST_WORDS && are_short(words)
}

/// Whether none of the words is too long.
fn are_short(words: &[&str]) -> bool
    ensures { IsTrue result ↔ AreShort words.now }
{
    for word in words {
        if word.len() > MOST_WORD_BYTES {
            return false;
        }
    }
    true
}
