//! Steps over a text. None allocates.
ghost use Rattle.std.specs.Prelude.{◌≡◌, ◌≢◌, ◌<◌, ◌++◌, ◌∷◌, [], List, ℕ, MatchOption, IfSome, length, chars, IsUtf8, encode_utf8};
ghost use Rattle.bal_lexer.specs.Lexemes.{begins_with};
ghost use Rattle.unicode_ident.specs.Ident.{is_xid_start, is_xid_continue};
ghost use Rattle.bal_lexer.specs.Groups.{first_byte};
ghost use Rattle.bal_lexer.specs.Runs.{class_test, run, after_run};

use unicode_ident::{is_xid_continue, is_xid_start};

/// A set of characters, to find a run of them.
#[derive(Clone, Copy)]
pub(crate) enum Class {
    /// What a word goes on with.
    Word,
    /// A decimal digit.
    Digit,
    /// A hexadecimal digit.
    HexDigit,
    /// All but a line feed.
    Line,
}

impl Class {
    pub(crate) fn has(self, c: char) -> bool
        ensures { result ≡ class_test self c }
    {
        match self {
            Class::Word => continues_word(c),
            Class::Digit => c.is_ascii_digit(),
            Class::HexDigit => c.is_ascii_hexdigit(),
            Class::Line => c != '\n',
        }
    }
}

/// Whether a word may begin with the character, `_` aside. One of ASCII is told without Unicode's table.
#[tactic(auto, using(crate::proofs::Ascii::words_of_ascii))]
pub(crate) fn begins_word(c: char) -> bool
    ensures { result ≡ is_xid_start c }
{
    if c.is_ascii() {
        c.is_ascii_alphabetic()
    } else {
        is_xid_start(c)
    }
}

/// Whether a word may go on with the character.
#[tactic(auto, using(crate::proofs::Ascii::words_of_ascii))]
fn continues_word(c: char) -> bool
    ensures { result ≡ is_xid_continue c }
{
    if c.is_ascii() {
        c.is_ascii_alphanumeric() || c == '_'
    } else {
        is_xid_continue(c)
    }
}

/// The first character, and what follows it.
pub(crate) fn split_first(s: &str) -> Option<(char, &str)>
    ensures bytes { MatchOption result (s.now ≡ []) (λ x. s.now ≡ encode_utf8 x.0 ++ x.1.now) }
    ensures chars { MatchOption result (chars s.now ≡ []) (λ x. chars s.now ≡ x.0 ∷ chars x.1.now) }
    ensures text { IfSome result (λ x. IsUtf8 x.1.now) }
    ensures shorter { IfSome result (λ x. length x.1.now < length s.now) }
{
    let mut chars = s.chars();
    let c = chars.next()?;
    Some((c, chars.as_str()))
}

/// The first byte, or 0 where there is none.
pub(crate) fn first_byte(s: &str) -> u8
    ensures { result ≡ first_byte s.now }
{
    match s.as_bytes().first() {
        Some(byte) => *byte,
        None => 0,
    }
}

/// Whether the text begins with a character of the class.
pub(crate) fn begins_with(s: &str, class: Class) -> bool
    ensures { result ≡ begins_with (class_test class) (chars s.now) }
{
    match split_first(s) {
        Some((c, _)) => class.has(c),
        None => false,
    }
}

/// The longest front of characters of the class, and what follows it.
pub(crate) fn split_run(s: &str, class: Class) -> (&str, &str)
    ensures front { chars result.0.now ≡ run (class_test class) (chars s.now) }
    ensures after { chars result.1.now ≡ after_run (class_test class) (chars s.now) }
{
    let mut rest = s;
    while let Some((c, after)) = split_first(rest) {
        if !class.has(c) {
            break;
        }
        rest = after;
    }
    s.split_at(s.len() - rest.len())
}

/// What follows the prefix, if the text begins with it.
pub(crate) fn strip<'a>(s: &'a str, prefix: &str) -> Option<&'a str>
    ensures { MatchOption result ((rest : List ℕ) → chars s.now ≢ chars prefix.now ++ rest)
        (λ x. chars s.now ≡ chars prefix.now ++ chars x.now) }
{
    s.strip_prefix(prefix)
}
