//! Signs.
ghost use Rattle.std.specs.Prelude.{◌≡◌, ◌≤◌, ◌++◌, ℕ, List, MatchOption, IfSome, chars, length, find, nat_eq};
ghost use Rattle.std.specs.List.{starts_with};
ghost use Rattle.bal_base.specs.declared.token.Sign.{Sign as SignOf};
ghost use Rattle.bal_lexer.specs.Spellings.{sign_text};
ghost use Rattle.bal_lexer.specs.Groups.{every_sign, signs_from};

use crate::cursor::{first_byte, strip};
use bal_base::Sign;

/// How the sign is written.
pub(crate) fn sign_text(sign: Sign) -> &'static str
    ensures { result.now ≡ sign_text sign }
{
    match sign {
        Sign::OpenBraceBar => "{|",
        Sign::CloseBraceBar => "|}",
        Sign::OpenBrace => "{",
        Sign::CloseBrace => "}",
        Sign::OpenParen => "(",
        Sign::CloseParen => ")",
        Sign::OpenBracket => "[",
        Sign::CloseBracket => "]",
        Sign::Semicolon => ";",
        Sign::Comma => ",",
        Sign::Colon => ":",
        Sign::Dot => ".",
        Sign::QuestionDot => "?.",
        Sign::Elvis => "?:",
        Sign::Question => "?",
        Sign::Ellipsis => "...",
        Sign::DotDotLess => "..<",
        Sign::DoubleArrow => "->>",
        Sign::Arrow => "->",
        Sign::LeftArrow => "<-",
        Sign::FatArrow => "=>",
        Sign::TripleEqual => "===",
        Sign::NotTripleEqual => "!==",
        Sign::DoubleEqual => "==",
        Sign::NotEqual => "!=",
        Sign::Equal => "=",
        Sign::LessEqual => "<=",
        Sign::GreaterEqual => ">=",
        Sign::Less => "<",
        Sign::Greater => ">",
        Sign::DoubleAmpersand => "&&",
        Sign::DoubleBar => "||",
        Sign::Ampersand => "&",
        Sign::Bar => "|",
        Sign::Not => "!",
        Sign::Plus => "+",
        Sign::Minus => "-",
        Sign::Star => "*",
        Sign::Slash => "/",
        Sign::Percent => "%",
        Sign::PlusEqual => "+=",
        Sign::MinusEqual => "-=",
        Sign::StarEqual => "*=",
        Sign::SlashEqual => "/=",
        Sign::Underscore => "_",
    }
}

/// The longest sign at the text's front, and what follows it.
pub(crate) fn sign(s: &str) -> Option<(Sign, &str)>
    ensures here { IfSome result (λ x. chars s.now ≡ sign_text x.0 ++ chars x.1.now) }
    ensures longest { (other : SignOf) (rest : List ℕ) → chars s.now ≡ sign_text other ++ rest
        → MatchOption result ⊥ (λ x. length (sign_text other) ≤ length (sign_text x.0)) }
{
    let sign = first_sign(s)?;
    let after = strip(s, sign_text(sign))?;
    Some((sign, after))
}

/// The first of the signs that the text begins with.
fn first_sign(s: &str) -> Option<Sign>
    ensures { result ≡ find (λ g. starts_with nat_eq s.now (sign_text g)) every_sign }
{
    sign_from(first_byte(s), s)
}

/// The same, of the signs that begin with this character.
#[tactic(auto, unfolding(crate::specs::Groups::signs_from))]
fn sign_from(first: u8, s: &str) -> Option<Sign>
    ensures { result ≡ find (λ g. starts_with nat_eq s.now (sign_text g)) (signs_from first) }
{
    match first {
        b'!' => among(&[Sign::NotTripleEqual, Sign::NotEqual, Sign::Not], s),
        b'%' => among(&[Sign::Percent], s),
        b'&' => among(&[Sign::DoubleAmpersand, Sign::Ampersand], s),
        b'(' => among(&[Sign::OpenParen], s),
        b')' => among(&[Sign::CloseParen], s),
        b'*' => among(&[Sign::StarEqual, Sign::Star], s),
        b'+' => among(&[Sign::PlusEqual, Sign::Plus], s),
        b',' => among(&[Sign::Comma], s),
        b'-' => among(
            &[
                Sign::DoubleArrow,
                Sign::Arrow,
                Sign::MinusEqual,
                Sign::Minus,
            ],
            s,
        ),
        b'.' => among(&[Sign::Ellipsis, Sign::DotDotLess, Sign::Dot], s),
        b'/' => among(&[Sign::SlashEqual, Sign::Slash], s),
        b':' => among(&[Sign::Colon], s),
        b';' => among(&[Sign::Semicolon], s),
        b'<' => among(&[Sign::LeftArrow, Sign::LessEqual, Sign::Less], s),
        b'=' => among(
            &[
                Sign::TripleEqual,
                Sign::FatArrow,
                Sign::DoubleEqual,
                Sign::Equal,
            ],
            s,
        ),
        b'>' => among(&[Sign::GreaterEqual, Sign::Greater], s),
        b'?' => among(&[Sign::QuestionDot, Sign::Elvis, Sign::Question], s),
        b'[' => among(&[Sign::OpenBracket], s),
        b']' => among(&[Sign::CloseBracket], s),
        b'_' => among(&[Sign::Underscore], s),
        b'{' => among(&[Sign::OpenBraceBar, Sign::OpenBrace], s),
        b'|' => among(&[Sign::CloseBraceBar, Sign::DoubleBar, Sign::Bar], s),
        b'}' => among(&[Sign::CloseBrace], s),
        _ => None,
    }
}

fn among(signs: &[Sign], s: &str) -> Option<Sign>
    ensures { result ≡ find (λ g. starts_with nat_eq s.now (sign_text g)) signs.now }
{
    signs
        .iter()
        .copied()
        .find(|sign| begins(s, sign_text(*sign)))
}

fn begins(s: &str, front: &str) -> bool
    ensures { result ≡ starts_with nat_eq s.now front.now }
{
    s.as_bytes().starts_with(front.as_bytes())
}
