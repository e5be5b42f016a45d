//! What stands at the front of a text.
ghost use Rattle.std.specs.Prelude.{◌≡◌, ◌∷◌, IfOk, chars, option_map};
ghost use Rattle.bal_lexer.specs.Runs.{after_run};
ghost use Rattle.bal_lexer.specs.Firsts.{start_of, in_line, First, FirstAt};

use crate::cursor::{Class, begins_word, split_first, split_run, strip};
use crate::number::number;
use crate::sign::sign;
use crate::string::string;
use crate::word::word;
use bal_base::{Memory, TokenKind};
use std::alloc::Global;

/// What stands at the front of a text.
#[derive(Drop)]
pub(crate) enum Lexeme {
    /// White space or a comment.
    Gap,
    /// A form of the language that is left out.
    LeftOut,
    /// A token.
    Token(TokenKind),
}

/// What a character may begin.
#[derive(Clone, Copy)]
enum Start {
    White,
    LeftOutMark,
    Digit,
    Quote,
    Hash,
    Word,
    Sign,
}

fn start_of(c: char) -> Start
    ensures { result ≡ start_of c }
{
    match c {
        ' ' | '\t' | '\n' | '\r' => Start::White,
        '`' | '\'' | '@' | '~' | '^' => Start::LeftOutMark,
        '0'..='9' => Start::Digit,
        '"' => Start::Quote,
        '#' => Start::Hash,
        _ => {
            if c == '_' || begins_word(c) {
                Start::Word
            } else {
                Start::Sign
            }
        }
    }
}

/// The longest lexeme at the text's front, and what follows it.
pub(crate) fn first_lexeme(alloc: Global, s: &str) -> Result<Option<(Lexeme, &str)>, Memory>
    ensures { IfOk result (λ found.
        First (chars s.now) (option_map (λ x. (x.0, chars x.1.now)) found)) }
{
    let Some((c, after)) = split_first(s) else {
        return Ok(None);
    };
    match start_of(c) {
        Start::White => Ok(Some((Lexeme::Gap, after))),
        Start::LeftOutMark => Ok(Some((Lexeme::LeftOut, after))),
        Start::Digit => Ok(number(s)),
        Start::Quote => Ok(literal(alloc, after)?),
        Start::Hash => Ok(Some((Lexeme::Gap, comment_end(after)))),
        Start::Word => Ok(Some(word(alloc, s)?)),
        Start::Sign => Ok(comment_or_sign(s)),
    }
}

/// A string literal, after its opening quote.
fn literal(alloc: Global, s: &str) -> Result<Option<(Lexeme, &str)>, Memory>
    ensures { IfOk result (λ found.
        FirstAt Start.Quote (34 ∷ chars s.now) (option_map (λ x. (x.0, chars x.1.now)) found)) }
{
    match string(alloc, s)? {
        None => Ok(None),
        Some((text, after)) => Ok(Some((Lexeme::Token(TokenKind::Str(text)), after))),
    }
}

/// A comment that begins with `//`, or a sign.
fn comment_or_sign(s: &str) -> Option<(Lexeme, &str)>
    ensures { FirstAt Start.Sign (chars s.now) (option_map (λ x. (x.0, chars x.1.now)) result) }
{
    if let Some(after) = strip(s, "//") {
        return Some((Lexeme::Gap, comment_end(after)));
    }
    let (sign, after) = sign(s)?;
    Some((Lexeme::Token(TokenKind::Sign(sign)), after))
}

/// What follows a comment, from the line's end on.
fn comment_end(s: &str) -> &str
    ensures { chars result.now ≡ after_run in_line (chars s.now) }
{
    split_run(s, Class::Line).1
}
