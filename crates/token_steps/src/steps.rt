//! Steps over the tokens at the front of a list, as all parsers make them.
#![tactic(auto, using(crate::proofs::Spelling::spelling))]

ghost use Rattle.std.specs.Prelude.{◌≡◌, ◌<◌, length, option_map, Some, None, Ok, Err, IfSome, IfOk, IfErr, MatchOption, MatchResult};
ghost use Rattle.bal_base.specs.declared.token.TokenKind.TheVariants.{Keyword as KeywordKind, Int as IntKind, Sign as SignKind};
ghost use Rattle.bal_base.specs.declared.stop.Stop.TheVariants.{Memory as OutOfMemory, Fault as FaultOf};
ghost use Rattle.bal_tree.specs.NamePieces.{word_pieces};
ghost use Rattle.bal_tree.specs.Spells.{Heads, Spells, first_place, kinds_of};
ghost use Rattle.token_steps.specs.declared.steps.Missing.{Missing as MissingOf};
ghost use Rattle.token_steps.specs.Tokens.{take_sign, take_key, take_word, take_int};

use bal_base::{Keyword, Memory, Place, Sign, Stop, Token, TokenKind};
use bal_tree::Word;

/// What was asked for does not stand at the front of the tokens.
#[derive(Clone, Copy)]
pub struct Missing;

/// What was read, or nothing where it is missing.
pub fn optional<T>(read: Result<T, Stop<Missing>>) -> Result<Option<T>, Memory>
    ensures { MatchResult result (λ o. MatchOption o ((e : MissingOf) × (read ≡ Err (FaultOf e))) (λ t. read ≡ Ok t)) (λ e. read ≡ Err OutOfMemory) }
{
    match read {
        Ok(found) => Ok(Some(found)),
        Err(Stop::Fault(Missing)) => Ok(None),
        Err(Stop::Memory) => Err(Memory),
    }
}

/// The place of the first token in the file with this number; where there is none, the file's start.
pub fn place(file: u32, tokens: &[Token]) -> Place
    ensures { result ≡ first_place file tokens.now }
{
    match tokens.first() {
        Some(t) => Place { file, at: t.at },
        None => Place { file, at: 0 },
    }
}

/// What follows the sign, if it is there.
pub fn after_sign(tokens: &[Token], wanted: Sign) -> Option<&[Token]>
    ensures end { option_map (λ r. kinds_of r.now) result ≡ take_sign wanted (kinds_of tokens.now) }
    ensures heads { IfSome result (λ r. Heads (SignKind wanted) tokens.now r.now) }
    ensures shorter { IfSome result (λ r. length r.now < length tokens.now) }
{
    let (first, rest) = tokens.split_first()?;
    match &first.kind {
        TokenKind::Sign(s) if *s == wanted => Some(rest),
        _ => None,
    }
}

/// What follows the word of the language, if it is there.
pub fn after_key(tokens: &[Token], wanted: Keyword) -> Option<&[Token]>
    ensures end { option_map (λ r. kinds_of r.now) result ≡ take_key wanted (kinds_of tokens.now) }
    ensures heads { IfSome result (λ r. Heads (KeywordKind wanted) tokens.now r.now) }
    ensures shorter { IfSome result (λ r. length r.now < length tokens.now) }
{
    let (first, rest) = tokens.split_first()?;
    match &first.kind {
        TokenKind::Keyword(k) if *k == wanted => Some(rest),
        _ => None,
    }
}

/// What follows the sign, which must be there.
pub fn sign(tokens: &[Token], wanted: Sign) -> Result<&[Token], Stop<Missing>>
    ensures end { MatchResult result (λ r. take_sign wanted (kinds_of tokens.now) ≡ Some (kinds_of r.now)) (λ e. take_sign wanted (kinds_of tokens.now) ≡ None) }
    ensures missing { IfErr result (λ stop. (e : MissingOf) × (stop ≡ FaultOf e)) }
    ensures heads { IfOk result (λ r. Heads (SignKind wanted) tokens.now r.now) }
    ensures shorter { IfOk result (λ r. length r.now < length tokens.now) }
{
    after_sign(tokens, wanted).ok_or(Stop::Fault(Missing))
}

/// What follows the word of the language, which must be there.
pub fn key(tokens: &[Token], wanted: Keyword) -> Result<&[Token], Stop<Missing>>
    ensures end { MatchResult result (λ r. take_key wanted (kinds_of tokens.now) ≡ Some (kinds_of r.now)) (λ e. take_key wanted (kinds_of tokens.now) ≡ None) }
    ensures missing { IfErr result (λ stop. (e : MissingOf) × (stop ≡ FaultOf e)) }
    ensures heads { IfOk result (λ r. Heads (KeywordKind wanted) tokens.now r.now) }
    ensures shorter { IfOk result (λ r. length r.now < length tokens.now) }
{
    after_key(tokens, wanted).ok_or(Stop::Fault(Missing))
}

/// The int literal at the front, and what follows it.
pub fn int(tokens: &[Token]) -> Option<(i64, &[Token])>
    ensures end { option_map (λ r. (r.0, kinds_of r.1.now)) result ≡ take_int (kinds_of tokens.now) }
    ensures heads { IfSome result (λ r. Heads (IntKind r.0) tokens.now r.1.now) }
    ensures shorter { IfSome result (λ r. length r.1.now < length tokens.now) }
{
    let (first, rest) = tokens.split_first()?;
    match &first.kind {
        TokenKind::Int(value) => Some((*value, rest)),
        _ => None,
    }
}

/// The word at the front, which is no keyword, and what follows it.
pub fn word(file: u32, tokens: &[Token]) -> Option<(Word, &[Token])>
    ensures end { option_map (λ r. kinds_of r.1.now) result ≡ take_word (kinds_of tokens.now) }
    ensures spells { IfSome result (λ r. Spells file (word_pieces r.0) tokens.now r.1.now) }
    ensures shorter { IfSome result (λ r. length r.1.now < length tokens.now) }
{
    let (first, rest) = tokens.split_first()?;
    match &first.kind {
        TokenKind::Word(name) => Some((
            Word {
                name: name.share(),
                at: Place { file, at: first.at },
            },
            rest,
        )),
        _ => None,
    }
}
