//! Patterns of match clauses.
#![tactic(auto, using(parse_types::proofs::Readings::spelling))]

ghost use Rattle.std.specs.Prelude.{◌≡◌, true, map, IfOk};
ghost use Rattle.bal_base.specs.declared.token.Sign.TheVariants.{Bar};
ghost use Rattle.bal_tree.specs.ActionRules.{has_members};
ghost use Rattle.bal_tree.specs.Pieces.{sign as sign_piece, separated, ◌&◌};
ghost use Rattle.bal_tree.specs.Spells.{kinds_of};
ghost use Rattle.bal_tree.specs.StmtPieces.{pattern_pieces};
ghost use Rattle.parse_types.specs.Starts.{Leaves, Reading};
ghost use Rattle.parse_stmt.specs.Reaches as spec;

use crate::names::{any_name, const_value};
use bal_base::{Sign, Stop, Token};
use bal_tree::Pattern;
use parse_types::{Missing, after_sign, optional, place, sign};
use std::alloc::Global;

/// A pattern.
fn pattern(file: u32, tokens: &[Token]) -> Result<(Pattern, &[Token]), Stop<Missing>>
    ensures end { Leaves (spec.pattern (kinds_of tokens.now)) result }
    ensures reads { IfOk result (λ r. Reading true (pattern_pieces r.0) file tokens.now r.1.now) }
{
    let at = place(file, tokens);
    if let Some(rest) = after_sign(tokens, Sign::Underscore) {
        return Ok((Pattern::Any { at }, rest));
    }
    match optional(const_value(file, tokens))? {
        Some((value, rest)) => Ok((Pattern::Value(value), rest)),
        None => {
            let (name, rest) = any_name(file, tokens)?;
            Ok((Pattern::Name(name), rest))
        }
    }
}

/// `|p`
fn bar_pattern(file: u32, tokens: &[Token]) -> Result<(Pattern, &[Token]), Stop<Missing>>
    ensures end { Leaves (spec.bar_pattern (kinds_of tokens.now)) result }
    ensures reads { IfOk result (λ r. Reading true (sign_piece Bar & pattern_pieces r.0) file tokens.now r.1.now) }
{
    let rest = sign(tokens, Sign::Bar)?;
    pattern(file, rest)
}

/// `1|2`
pub(crate) fn patterns(
    alloc: Global,
    file: u32,
    tokens: &[Token],
) -> Result<(Vec<Pattern>, &[Token]), Stop<Missing>>
    ensures end { Leaves (spec.patterns (kinds_of tokens.now)) result }
    ensures reads { IfOk result (λ r. Reading (has_members r.0.items) (separated Bar (map pattern_pieces r.0.items)) file tokens.now r.1.now) }
{
    let mut patterns = Vec::new(alloc);
    let (first, mut rest) = pattern(file, tokens)?;
    patterns.push(first)?;
    while let Some((next, after)) = optional(bar_pattern(file, rest))? {
        patterns.push(next)?;
        rest = after;
    }
    Ok((patterns, rest))
}
