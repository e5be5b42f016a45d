//! String literals.
ghost use Rattle.std.specs.Prelude.{◌≡◌, ℕ, List, IfOk, MatchOption, true, chars, option_map};
ghost use Rattle.std.specs.List.{list_all};
ghost use Rattle.std.specs.Char.{is_ascii_hexdigit};
ghost use Rattle.bal_lexer.specs.Strings as spec;
ghost use Rattle.bal_lexer.specs.Strings.{Closes};

use crate::cursor::{Class, split_first, split_run};
use bal_base::{Memory, Text};
use std::alloc::Global;

/// The text that a string literal stands for, and what follows its closing quote. `s` is what follows the
/// opening quote.
pub(crate) fn string(alloc: Global, s: &str) -> Result<Option<(Text, &str)>, Memory>
    ensures { IfOk result (λ found. MatchOption found
        ((value after : List ℕ) → Closes (chars s.now) value after → ⊥)
        (λ x. Closes (chars s.now) x.0 (chars x.1.now))) }
{
    let mut value = String::new(alloc);
    let mut rest = s;
    while let Some((c, after)) = piece(rest) {
        value.push(c)?;
        rest = after;
    }
    match after_char(rest, '"') {
        None => Ok(None),
        Some(after) => {
            let text = Text::from_string(alloc, value)?;
            Ok(Some((text, after)))
        }
    }
}

/// What follows the character.
fn after_char(s: &str, c: char) -> Option<&str>
    ensures { option_map (λ x. chars x.now) result ≡ spec.after_char c (chars s.now) }
{
    let (first, rest) = split_first(s)?;
    if first == c { Some(rest) } else { None }
}

/// The character that the first piece of a literal's body stands for, and what follows the piece.
#[tactic(auto, unfolding(crate::specs::Strings::piece_at))]
fn piece(s: &str) -> Option<(char, &str)>
    ensures { option_map (λ x. (x.0, chars x.1.now)) result ≡ spec.piece_at (chars s.now) }
{
    let (c, after) = split_first(s)?;
    match c {
        '\\' => escape(after),
        '"' | '\n' | '\r' => None,
        _ => Some((c, after)),
    }
}

/// The same of an escape, after its `\`.
#[tactic(auto, unfolding(crate::specs::Strings::escape_at))]
fn escape(s: &str) -> Option<(char, &str)>
    ensures { option_map (λ x. (x.0, chars x.1.now)) result ≡ spec.escape_at (chars s.now) }
{
    let (letter, after) = split_first(s)?;
    match letter {
        '\\' | '"' => Some((letter, after)),
        'n' => Some(('\n', after)),
        'r' => Some(('\r', after)),
        't' => Some(('\t', after)),
        'u' => code_point(after),
        _ => None,
    }
}

/// The same of an escape by a number, after its `u`.
#[tactic(auto, unfolding(crate::specs::Strings::code_point_at))]
fn code_point(s: &str) -> Option<(char, &str)>
    ensures { option_map (λ x. (x.0, chars x.1.now)) result ≡ spec.code_point_at (chars s.now) }
{
    let rest = after_char(s, '{')?;
    let (digits, after) = split_run(rest, Class::HexDigit);
    let c = scalar(digits)?;
    let after = after_char(after, '}')?;
    Some((c, after))
}

/// The character whose code point the hexadecimal digits write, of which there may be six.
#[tactic(auto, unfolding(crate::specs::Strings::scalar_at))]
fn scalar(digits: &str) -> Option<char>
    requires { list_all is_ascii_hexdigit (chars digits.now) ≡ true }
    ensures { result ≡ spec.scalar_at (chars digits.now) }
{
    if digits.len() > 6 {
        return None;
    }
    match u32::from_str_radix(digits, 16) {
        Ok(number) => char::from_u32(number),
        Err(_) => None,
    }
}
