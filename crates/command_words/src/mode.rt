//! What is to be done with the folder, by the value of `--mode` and the words behind the folder's one.
ghost use Rattle.std.specs.Prelude.{◌≡◌, All, IfOk, IfSome, chars, codes, map};
ghost use Rattle.bal_base.specs.Valid.{IsText};
ghost use Rattle.command_words.specs.Commands.{AreTexts, purpose_of};
ghost use Rattle.command_words.specs.inner.Choices.{IsChosenMode, IsNamed, IsNamedMode};
ghost use Rattle.command_words.specs.inner.Reading.{bytes_of};

use crate::command::Mode;
use bal_base::{Memory, Row, Text};
use std::alloc::Global;

/// What is to be done with these words, where the option has this value; `None` where nothing is.
pub(crate) fn mode_of<'w>(
    alloc: Global,
    value: Option<&str>,
    words: &[&'w str],
) -> Result<Option<Mode<'w>>, Memory>
    ensures chosen { IfOk result (λ found. IsChosenMode value.entry words.now found) }
    ensures texts { IfOk result (λ found. IfSome found (λ mode. AreTexts (purpose_of mode))) }
{
    match value {
        Some(name) => mode_named(alloc, name, words),
        None => mode_named(alloc, "run", words),
    }
}

/// The same by the value.
fn mode_named<'w>(alloc: Global, name: &str, words: &[&'w str]) -> Result<Option<Mode<'w>>, Memory>
    ensures named { IfOk result (λ found. IsNamedMode name.now words.now found) }
    ensures texts { IfOk result (λ found. IfSome found (λ mode. AreTexts (purpose_of mode))) }
{
    match name {
        "run" => Ok(Some(run(alloc, words)?)),
        "check" => Ok(check(words)),
        "pairs" => Ok(pairs(words)),
        "code" => Ok(code(words)),
        "subtype" => Ok(subtype(words)),
        _ => Ok(None),
    }
}

/// The folder's program is run with these words.
fn run<'w>(alloc: Global, words: &[&'w str]) -> Result<Mode<'w>, Memory>
    ensures named { IfOk result (λ mode. IsNamed (codes "run") words.now (purpose_of mode)) }
    ensures texts { IfOk result (λ mode. AreTexts (purpose_of mode)) }
{
    Ok(Mode::Run {
        words: Row::of(texts_of(alloc, words)?),
    })
}

/// The folder's program is checked, where there are no words.
fn check<'w>(words: &[&'w str]) -> Option<Mode<'w>>
    ensures named { IsNamedMode (codes "check") words.now result }
    ensures texts { IfSome result (λ mode. AreTexts (purpose_of mode)) }
{
    if words.is_empty() {
        return Some(Mode::Check);
    }
    None
}

/// The pairs of the folder's program are told, where there are no words.
fn pairs<'w>(words: &[&'w str]) -> Option<Mode<'w>>
    ensures named { IsNamedMode (codes "pairs") words.now result }
    ensures texts { IfSome result (λ mode. AreTexts (purpose_of mode)) }
{
    if words.is_empty() {
        return Some(Mode::Pairs);
    }
    None
}

/// The code of the folder's program is told, where there are no words.
fn code<'w>(words: &[&'w str]) -> Option<Mode<'w>>
    ensures named { IsNamedMode (codes "code") words.now result }
    ensures texts { IfSome result (λ mode. AreTexts (purpose_of mode)) }
{
    if words.is_empty() {
        return Some(Mode::Code);
    }
    None
}

/// The question, where there are two words.
fn subtype<'w>(words: &[&'w str]) -> Option<Mode<'w>>
    ensures named { IsNamedMode (codes "subtype") words.now result }
    ensures texts { IfSome result (λ mode. AreTexts (purpose_of mode)) }
{
    match words {
        [left, right] => Some(Mode::Subtype { left, right }),
        _ => None,
    }
}

/// The words as texts.
fn texts_of(alloc: Global, words: &[&str]) -> Result<Vec<Text>, Memory>
    ensures same { IfOk result (λ texts. texts.items ≡ map chars (bytes_of words.now)) }
    ensures texts { IfOk result (λ texts. All IsText texts.items) }
{
    let mut texts = Vec::new(alloc);
    for word in words {
        texts.push(text_of(alloc, word)?)?;
    }
    Ok(texts)
}

/// The word as a text.
fn text_of(alloc: Global, word: &str) -> Result<Text, Memory>
    ensures same { IfOk result (λ text. text ≡ chars word.now) }
    ensures text { IfOk result (λ text. IsText text) }
{
    Text::new(alloc, word)
}
