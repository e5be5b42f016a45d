//! Imports.
#![tactic(auto, using(parse_types::proofs::Readings::spelling))]

ghost use Rattle.std.specs.Prelude.{◌≡◌, ◌≤◌, true, map, length, option_map, IfOk, IfSome};
ghost use Rattle.bal_base.specs.declared.token.Sign.TheVariants.{Dot, Semicolon as SemicolonSign};
ghost use Rattle.bal_tree.specs.DefPieces.{word_after, word_behind};
ghost use Rattle.bal_tree.specs.NamePieces.{word_pieces};
ghost use Rattle.bal_tree.specs.Pieces.{behind as behind_each, if_there};
ghost use Rattle.bal_tree.specs.Spells.{Spells, kinds_of};
ghost use Rattle.parse_types.specs.Loops.{many};
ghost use Rattle.parse_types.specs.Starts.{Leaves, Reading};
ghost use Rattle.token_steps.specs.Tokens.{take_key, take_sign};
ghost use Rattle.parse_stmt.specs.Reaches as spec;
ghost use Rattle.parse_stmt.specs.Starts.{ImportReading};

use crate::names::word_here;
use crate::reader::StmtReader;
use bal_base::{Keyword, Memory, Sign, Stop, Token};
use bal_tree::{Import, Word};
use parse_types::{Missing, after_key, after_sign, key, place, sign, word};

impl StmtReader {
    /// `import a/b.c as d;`
    pub(crate) fn import(self, tokens: &[Token]) -> Result<(Import, &[Token]), Stop<Missing>>
        ensures end { Leaves (spec.import (kinds_of tokens.now)) result }
        ensures reads { IfOk result (λ r. ImportReading r.0 self.file tokens.now r.1.now) }
    {
        let at = place(self.file, tokens);
        let rest = key(tokens, Keyword::Import)?;
        let (first, rest) = word_here(self.file, rest)?;
        let (second, rest) = word_behind_sign(self.file, Sign::Slash, rest)?;
        let (more, rest) = self.dot_words(rest)?;
        let (prefix, rest) = word_behind_key(self.file, Keyword::As, rest)?;
        let rest = sign(rest, Sign::Semicolon)?;
        Ok((
            Import {
                first,
                second,
                more,
                prefix,
                at,
            },
            rest,
        ))
    }

    /// Words, each behind a dot.
    fn dot_words(self, tokens: &[Token]) -> Result<(Vec<Word>, &[Token]), Memory>
        ensures end { IfOk result (λ r. kinds_of r.1.now ≡ many length spec.dot_word (kinds_of tokens.now)) }
        ensures spells { IfOk result (λ r. Spells self.file (behind_each Dot (map word_pieces r.0.items)) tokens.now r.1.now) }
        ensures no_longer { IfOk result (λ r. length r.1.now ≤ length tokens.now) }
    {
        let mut words = Vec::new(self.alloc);
        let mut rest = tokens;
        while let Some((next, after)) = dot_word(self.file, rest) {
            words.push(next)?;
            rest = after;
        }
        Ok((words, rest))
    }
}

/// `.a`
fn dot_word(file: u32, tokens: &[Token]) -> Option<(Word, &[Token])>
    ensures end { option_map (λ r. kinds_of r.1.now) result ≡ spec.dot_word (kinds_of tokens.now) }
    ensures reads { IfSome result (λ r. Reading true (word_behind Dot r.0) file tokens.now r.1.now) }
{
    word(file, after_sign(tokens, Sign::Dot)?)
}

/// The word behind this sign, if the sign is there.
fn word_behind_sign(
    file: u32,
    wanted: Sign,
    tokens: &[Token],
) -> Result<(Option<Word>, &[Token]), Stop<Missing>>
    ensures end { Leaves (spec.second_or (take_sign wanted (kinds_of tokens.now)) (kinds_of tokens.now)) result }
    ensures spells { IfOk result (λ r. Spells file (if_there (word_behind wanted) r.0) tokens.now r.1.now) }
    ensures no_longer { IfOk result (λ r. length r.1.now ≤ length tokens.now) }
{
    let Some(behind) = after_sign(tokens, wanted) else {
        return Ok((None, tokens));
    };
    let (w, rest) = word_here(file, behind)?;
    Ok((Some(w), rest))
}

/// The word behind this word of the language, if that is there.
fn word_behind_key(
    file: u32,
    wanted: Keyword,
    tokens: &[Token],
) -> Result<(Option<Word>, &[Token]), Stop<Missing>>
    ensures end { Leaves (spec.second_or (take_key wanted (kinds_of tokens.now)) (kinds_of tokens.now)) result }
    ensures spells { IfOk result (λ r. Spells file (if_there (word_after wanted) r.0) tokens.now r.1.now) }
    ensures no_longer { IfOk result (λ r. length r.1.now ≤ length tokens.now) }
{
    let Some(behind) = after_key(tokens, wanted) else {
        return Ok((None, tokens));
    };
    let (w, rest) = word_here(file, behind)?;
    Ok((Some(w), rest))
}
