//! Int literals.
ghost use Rattle.std.specs.Prelude.{◌≡◌, ◌≤◌, true, chars, option_map};
ghost use Rattle.std.specs.List.{list_all};
ghost use Rattle.std.specs.Char.{is_digit};
ghost use Rattle.bal_lexer.specs.Numbers as spec;

use crate::cursor::{Class, begins_with, split_first, split_run};
use crate::lexeme::Lexeme;
use bal_base::TokenKind;

/// The int literal or the number with a fraction at the text's front, and what follows it.
pub(crate) fn number(s: &str) -> Option<(Lexeme, &str)>
    ensures { option_map (λ x. (x.0, chars x.1.now)) result ≡ spec.number_at (chars s.now) }
{
    let (digits, after) = split_run(s, Class::Digit);
    match fraction(after) {
        Some(rest) => Some((Lexeme::LeftOut, rest)),
        None => literal(s, digits, after),
    }
}

/// What follows a point and a digit.
fn fraction(s: &str) -> Option<&str>
    ensures { option_map (λ x. chars x.now) result ≡ spec.after_fraction (chars s.now) }
{
    let (point, rest) = split_first(s)?;
    let (digit, rest) = split_first(rest)?;
    if point == '.' && digit.is_ascii_digit() {
        Some(rest)
    } else {
        None
    }
}

/// The int literal `s`, which begins with the digits.
fn literal<'a>(s: &'a str, digits: &str, after: &'a str) -> Option<(Lexeme, &'a str)>
    requires digits { chars digits.now ≡ spec.digits_of (chars s.now) }
    requires after { chars after.now ≡ spec.after_digits (chars s.now) }
    ensures { option_map (λ x. (x.0, chars x.1.now)) result ≡ spec.literal_at (chars s.now) }
{
    match split_first(s) {
        None => None,
        Some(('0', rest)) => zero(rest),
        Some(_) => int(digits, 10, after),
    }
}

/// The int literal whose first digit `0` stands before the text.
fn zero(s: &str) -> Option<(Lexeme, &str)>
    ensures { option_map (λ x. (x.0, chars x.1.now)) result ≡ spec.zero_at (chars s.now) }
{
    match hex_prefix(s) {
        Some(rest) => {
            let (digits, after) = split_run(rest, Class::HexDigit);
            int(digits, 16, after)
        }
        None => int("0", 10, s),
    }
}

/// What follows the `x` or `X` of a hexadecimal literal.
fn hex_prefix(s: &str) -> Option<&str>
    ensures { option_map (λ x. chars x.now) result ≡ spec.after_x (chars s.now) }
{
    let (c, rest) = split_first(s)?;
    if c == 'x' || c == 'X' {
        Some(rest)
    } else {
        None
    }
}

/// The int that the digits write, if it is one and the literal ends there.
fn int<'a>(digits: &str, radix: u32, after: &'a str) -> Option<(Lexeme, &'a str)>
    requires low { 2 ≤ radix }
    requires high { radix ≤ 16 }
    requires digits { list_all (λ c. is_digit c radix) (chars digits.now) ≡ true }
    ensures { option_map (λ x. (x.0, chars x.1.now)) result
        ≡ spec.int_at radix (chars digits.now) (chars after.now) }
{
    if begins_with(after, Class::Word) {
        return None;
    }
    match i64::from_str_radix(digits, radix) {
        Ok(value) => Some((Lexeme::Token(TokenKind::Int(value)), after)),
        Err(_) => None,
    }
}
