//! The tokens of a source text.
//!
//! - [`lex`]: the tokens of a whole text, or the place where it is refused.
//!
//! A text is read one lexeme after another: `lexeme` finds the longest at the front, by the first
//! character, in `word` and `keyword`, `number`, `string` or `sign`, all over the steps of `cursor`.
#![tactic(auto)]

ghost use Rattle.std.specs.Prelude.{◌≡◌, ℕ, ◌-◌, ◌≤◌, List, IfOk, length, chars};
ghost use Rattle.bal_base.specs.declared.fault.FaultCode.{FaultCode};
ghost use Rattle.bal_base.specs.declared.token.Token.{Token as TokenOf};
ghost use Rattle.bal_base.specs.Stops.{IfFault};
ghost use Rattle.bal_lexer.specs.Lexes.{Lexes, AreSpans, Refuses, HasReading, IsFaultAt, IsRefusal, IsTokenFault, StandsIn};

mod cursor;
mod keyword;
mod lexeme;
mod number;
mod sign;
mod string;
mod word;

use crate::lexeme::{Lexeme, first_lexeme};
use bal_base::{Fault, FaultCode, Kept, Memory, Place, Stop, Token};
use std::alloc::Global;

/// The tokens of a source text, each with its slice in bytes: white space, comments and the tokens' slices
/// are the text, and each is the longest that may stand at its place.
///
/// `BadToken` is answered at the first place where no token, comment or white space stands: at the first
/// character of a word or number that is none, and at the opening quote of a string literal that is none.
/// `LeftOut` is answered at the first place where a form stands that is left out: its word, a number with a
/// fraction, or one of the marks `` ` ``, `'`, `@`, `~` and `^`. `file` is the file's number in the place.
/// `Memory` is answered where memory runs out. Takes time linear in the text's length.
pub fn lex(alloc: Global, file: u32, text: &str) -> Result<Vec<Token>, Stop<Fault>>
    requires { length text.now ≤ 4294967295 }
    ensures tokens { IfOk result (λ v. Lexes (chars text.now) v.items) }
    ensures spans { IfOk result (λ v. AreSpans text.now 0 v.items) }
    ensures refused { IfFault result (IsRefusal (chars text.now) file) }
    ensures codes { IfFault result IsTokenFault }
    ensures place { IfFault result (StandsIn text.now) }

    // Every text is tokens or is refused, and in one way only, so that answer is given, unless memory runs
    // out.
    ensures reading { HasReading (chars text.now) }
    ensures only_tokens { (ts : List TokenOf) → Lexes (chars text.now) ts
        → IfOk result (λ v. v.items ≡ ts) × IfFault result (λ _. ⊥) }
    ensures only_refusal { (code : FaultCode) (at : ℕ) → Refuses (chars text.now) code at
        → IfOk result (λ _. ⊥) × IfFault result (IsFaultAt file code at) }
{
    let mut tokens = Vec::new(alloc);
    let mut rest = text;
    while !rest.is_empty() {
        let at = offset(text, rest);
        let (lexeme, after) = match first_lexeme(alloc, rest) {
            Err(Memory) => return Err(Stop::Memory),
            Ok(None) => return Err(Stop::Fault(refusal(FaultCode::BadToken, file, at))),
            Ok(Some(found)) => found,
        };
        match lexeme {
            Lexeme::LeftOut => return Err(Stop::Fault(refusal(FaultCode::LeftOut, file, at))),
            Lexeme::Gap => rest = after,
            Lexeme::Token(kind) => {
                let end = offset(text, after);
                tokens.push(Token { kind, at, end })?;
                rest = after;
            }
        }
    }
    Ok(tokens)
}

/// Where in the text its end `rest` begins.
fn offset(text: &str, rest: &str) -> u32
    requires small { length text.now ≤ 4294967295 }
    requires within { length rest.now ≤ length text.now }
    ensures { result ≡ length text.now - length rest.now }
{
    (text.len() - rest.len()) as u32
}

/// The fault of the code at the place, which shows nothing more.
fn refusal(code: FaultCode, file: u32, at: u32) -> Fault
    ensures { IsFaultAt file code at result }
{
    Fault {
        code,
        at: Some(Place { file, at }),
        kept: Kept::Nothing,
    }
}
