//! Numbers in decimal digits.
ghost use Rattle.std.specs.Prelude.{◌≡◌, MatchOption};
ghost use Rattle.std.specs.Char.{is_ascii_digit};
ghost use Rattle.std.specs.List.{list_all};
ghost use Rattle.command_words.specs.Commands.{IsNumber};
ghost use Rattle.command_words.specs.inner.Choices.{IsNumberOr, NoNumber, NoNumberOr};

use crate::command::MOST_DIGITS;

/// The number that an option is given, or the one that stands for it where it isn't given; `None` where its value is no number.
pub(crate) fn number_or(value: Option<&str>, default: u64) -> Option<u64>
    ensures { MatchOption result (NoNumberOr default value.entry) (λ n. IsNumberOr default value.entry n) }
{
    match value {
        Some(word) => number(word),
        None => Some(default),
    }
}

/// The number of one to twenty digits, below 2 to the power 64.
fn number(word: &str) -> Option<u64>
    ensures { MatchOption result (NoNumber word.now) (λ n. IsNumber word.now n) }
{
    if word.len() > MOST_DIGITS {
        return None;
    }
    if !are_digits(word) {
        return None;
    }
    word.parse::<u64>().ok()
}

/// Whether all its characters are decimal digits.
fn are_digits(word: &str) -> bool
    ensures { result ≡ list_all is_ascii_digit word.now }
{
    word.as_bytes().iter().all(|byte| byte.is_ascii_digit())
}
