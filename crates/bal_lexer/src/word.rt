//! Words and keywords.
ghost use Rattle.std.specs.Prelude.{◌≡◌, IfOk, chars};
ghost use Rattle.unicode_ident.specs.Ident.{is_xid_continue};
ghost use Rattle.bal_lexer.specs.Runs.{run, after_run};
ghost use Rattle.bal_lexer.specs.Words.{Means};

use crate::cursor::{Class, split_run};
use crate::keyword::{is_left_out, keyword_of};
use crate::lexeme::Lexeme;
use bal_base::{Memory, Name, Sign, TokenKind};
use std::alloc::Global;

/// The word at the text's front, and what follows it.
pub(crate) fn word(alloc: Global, s: &str) -> Result<(Lexeme, &str), Memory>
    ensures means { IfOk result (λ x. Means (run is_xid_continue (chars s.now)) x.0) }
    ensures after { IfOk result (λ x. chars x.1.now ≡ after_run is_xid_continue (chars s.now)) }
{
    let (word, after) = split_run(s, Class::Word);
    let lexeme = meaning(alloc, word)?;
    Ok((lexeme, after))
}

/// What the word is.
fn meaning(alloc: Global, word: &str) -> Result<Lexeme, Memory>
    ensures { IfOk result (Means (chars word.now)) }
{
    if word == "_" {
        return Ok(Lexeme::Token(TokenKind::Sign(Sign::Underscore)));
    }
    if is_left_out(word) {
        return Ok(Lexeme::LeftOut);
    }
    match keyword_of(word) {
        Some(keyword) => Ok(Lexeme::Token(TokenKind::Keyword(keyword))),
        None => Ok(Lexeme::Token(TokenKind::Word(Name::new(alloc, word)?))),
    }
}
