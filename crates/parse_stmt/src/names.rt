//! Words, names and constant values.
#![tactic(auto, using(parse_types::proofs::Readings::spelling))]

ghost use Rattle.std.specs.Prelude.{◌≡◌, ◌≤◌, ℕ, true, length, option_map, IfOk, IfSome};
ghost use Rattle.bal_tree.specs.NamePieces.{word_pieces, const_pieces};
ghost use Rattle.bal_tree.specs.Pieces.{key_if};
ghost use Rattle.bal_tree.specs.Spells.{Spells, kinds_of};
ghost use Rattle.parse_types.specs.Loops.{else_stays};
ghost use Rattle.parse_types.specs.Reaches as types_spec;
ghost use Rattle.parse_types.specs.Starts.{Leaves, Reading};
ghost use Rattle.token_steps.specs.Tokens.{take_word, take_key};
ghost use Rattle.parse_stmt.specs.Reaches as spec;
ghost use Rattle.parse_stmt.specs.Starts.{NameReading};

use bal_base::{Keyword, Place, Sign, Stop, Token, TokenKind};
use bal_tree::{ConstValue, Literal, QualifiedName, Word};
use parse_expr::{int_name, name};
use parse_types::{Missing, after_key, after_sign, int, place, sign, word};

/// The word at the front, which must be there.
pub(crate) fn word_here(file: u32, tokens: &[Token]) -> Result<(Word, &[Token]), Stop<Missing>>
    ensures end { Leaves (take_word (kinds_of tokens.now)) result }
    ensures reads { IfOk result (λ r. Reading true (word_pieces r.0) file tokens.now r.1.now) }
{
    let Some(found) = word(file, tokens) else {
        return Err(Stop::Fault(Missing));
    };
    Ok(found)
}

/// The name at the front, which must be there.
pub(crate) fn any_name(
    file: u32,
    tokens: &[Token],
) -> Result<(QualifiedName, &[Token]), Stop<Missing>>
    ensures end { Leaves (spec.any_name (kinds_of tokens.now)) result }
    ensures reads { IfOk result (λ r. NameReading r.0 file tokens.now r.1.now) }
{
    if let Some(found) = name(file, false, tokens) {
        return Ok(found);
    }
    let Some(found) = int_name(file, tokens) else {
        return Err(Stop::Fault(Missing));
    };
    Ok(found)
}

/// Whether the word of the language stands at the front, and what follows it.
pub(crate) fn key_if_there(tokens: &[Token], wanted: Keyword) -> (bool, &[Token])
    ensures end { kinds_of result.1.now ≡ else_stays (take_key wanted (kinds_of tokens.now)) (kinds_of tokens.now) }
    ensures spells { (file : ℕ) → Spells file (key_if result.0 wanted) tokens.now result.1.now }
    ensures no_longer { length result.1.now ≤ length tokens.now }
{
    match after_key(tokens, wanted) {
        Some(rest) => (true, rest),
        None => (false, tokens),
    }
}

/// The constant value at the front.
pub(crate) fn const_value(
    file: u32,
    tokens: &[Token],
) -> Result<(ConstValue, &[Token]), Stop<Missing>>
    ensures end { Leaves (spec.const_value (kinds_of tokens.now)) result }
    ensures reads { IfOk result (λ r. Reading true (const_pieces r.0) file tokens.now r.1.now) }
{
    let Some((first, rest)) = tokens.split_first() else {
        return Err(Stop::Fault(Missing));
    };
    let at = Place { file, at: first.at };
    match &first.kind {
        TokenKind::Int(value) => {
            let value = *value;
            Ok((ConstValue::Literal(Literal::Int { value, at }), rest))
        }
        TokenKind::Str(text) => {
            let text = text.share();
            Ok((ConstValue::Literal(Literal::Str { text, at }), rest))
        }
        TokenKind::Keyword(Keyword::True) => Ok((ConstValue::Literal(Literal::True { at }), rest)),
        TokenKind::Keyword(Keyword::False) => {
            Ok((ConstValue::Literal(Literal::False { at }), rest))
        }
        TokenKind::Sign(Sign::OpenParen) => {
            let rest = sign(rest, Sign::CloseParen)?;
            Ok((ConstValue::Literal(Literal::Nil { at }), rest))
        }
        TokenKind::Sign(Sign::Minus) => negative(file, tokens).ok_or(Stop::Fault(Missing)),
        _ => Err(Stop::Fault(Missing)),
    }
}

/// `-1`
fn negative(file: u32, tokens: &[Token]) -> Option<(ConstValue, &[Token])>
    ensures end { option_map (λ r. kinds_of r.1.now) result ≡ types_spec.negative (kinds_of tokens.now) }
    ensures reads { IfSome result (λ r. Reading true (const_pieces r.0) file tokens.now r.1.now) }
{
    let at = place(file, tokens);
    let (int, rest) = int(after_sign(tokens, Sign::Minus)?)?;
    Some((ConstValue::Negative { int, at }, rest))
}
