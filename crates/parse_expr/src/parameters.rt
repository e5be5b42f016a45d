//! The parameters of a function.
#![tactic(auto, using(parse_types::proofs::Readings::spelling))]

ghost use Rattle.std.specs.Prelude.{◌≡◌, true, map, IfOk, IfErr};
ghost use Rattle.std.specs.List.{list_all};
ghost use Rattle.bal_base.specs.declared.token.Sign.TheVariants.{Comma};
ghost use Rattle.bal_tree.specs.Pieces.{separated};
ghost use Rattle.bal_tree.specs.Spells.{kinds_of};
ghost use Rattle.bal_tree.specs.TypePieces.{type_pieces, param_pieces, rest_param_pieces, params_pieces, with_last};
ghost use Rattle.bal_tree.specs.TypeRules.{type_is_formed, type_end, params_are_formed};
ghost use Rattle.parse_types.specs.Starts.{IfMissing, Leaves, Reading, Settled};
ghost use Rattle.token_steps.specs.Tokens.{Kinds, take_word};
ghost use Rattle.bal_tree.specs.NamePieces.{word_pieces};
ghost use Rattle.parse_expr.specs.Reaches as spec;
ghost use Rattle.parse_expr.specs.Starts.{StartsParams};

use bal_base::{Sign, Stop, Token};
use bal_tree::{Param, Params, TypeTree, Word};
use parse_types::{Missing, after_sign, longest_type, place, sign, word};
use std::alloc::Global;

/// The parameters of a function, in parentheses, and what follows them: no other well-formed ones stand there.
///
/// `Missing` is answered where none stand there.
pub fn params(
    alloc: Global,
    file: u32,
    tokens: &[Token],
) -> Result<(Params, &[Token]), Stop<Missing>>
    ensures reads { IfOk result (λ r. Reading (params_are_formed r.0) (params_pieces r.0) file tokens.now r.1.now) }
    ensures exact { IfOk result (λ r. (rest : Kinds) → StartsParams tokens.now rest → kinds_of r.1.now ≡ rest) }
    ensures none { IfErr result (λ stop. IfMissing stop ((rest : Kinds) → StartsParams tokens.now rest → ⊥)) }

    // For the proofs of parsers of what has parameters: how far they go is a function of the tokens alone.
    ensures end { Leaves (spec.params (kinds_of tokens.now)) result }
{
    in_parens(alloc, file, tokens)
}

fn in_parens(
    alloc: Global,
    file: u32,
    tokens: &[Token],
) -> Result<(Params, &[Token]), Stop<Missing>>
    ensures end { Leaves (spec.params (kinds_of tokens.now)) result }
    ensures reads { IfOk result (λ r. Reading (params_are_formed r.0) (params_pieces r.0) file tokens.now r.1.now) }
{
    let inside = sign(tokens, Sign::OpenParen)?;
    if let Some(rest) = after_sign(inside, Sign::CloseParen) {
        let params = Vec::new(alloc);
        return Ok((Params { params, rest: None }, rest));
    }
    let (params, behind) = param_list(alloc, file, inside)?;
    let rest = sign(behind, Sign::CloseParen)?;
    Ok((params, rest))
}

/// `T a, U b`, and behind it `V... c` where that stands there.
fn param_list(
    alloc: Global,
    file: u32,
    tokens: &[Token],
) -> Result<(Params, &[Token]), Stop<Missing>>
    ensures end { Leaves (spec.param_list (kinds_of tokens.now)) result }
    ensures reads { IfOk result (λ r. Reading (params_are_formed r.0) (separated Comma (with_last rest_param_pieces (map param_pieces r.0.params.items) r.0.rest)) file tokens.now r.1.now) }
{
    let mut params = Vec::new(alloc);
    let mut rest = tokens;
    'params: loop {
        let at = place(file, rest);
        let (ty, behind) = type_here(alloc, file, false, rest)?;
        if let Some(after) = after_sign(behind, Sign::Ellipsis) {
            let (name, after) = word_here(file, after)?;
            let last = Some(Param { ty, name, at });
            return Ok((Params { params, rest: last }, after));
        }
        let (name, behind) = word_here(file, behind)?;
        params.push(Param { ty, name, at })?;
        match after_sign(behind, Sign::Comma) {
            Some(after) => rest = after,
            None => return Ok((Params { params, rest: None }, behind)),
        }
    }
}

/// The longest type at the front, in the middle of a conditional expression or not.
pub fn type_here(
    alloc: Global,
    file: u32,
    middle: bool,
    tokens: &[Token],
) -> Result<(Box<TypeTree>, &[Token]), Stop<Missing>>
    ensures end { Leaves (spec.type_at middle (kinds_of tokens.now)) result }
    ensures reads { IfOk result (λ r. Reading (type_is_formed r.0.value middle) (type_pieces r.0.value) file tokens.now r.1.now) }
    ensures settled { IfOk result (λ r. Settled (type_end r.0.value).in_int (kinds_of r.1.now)) }
{
    let (tree, rest) = longest_type(alloc, file, middle, tokens)?;
    Ok((Box::new(alloc, tree)?, rest))
}

/// The word at the front, which must be there.
pub(crate) fn word_here(file: u32, tokens: &[Token]) -> Result<(Word, &[Token]), Stop<Missing>>
    ensures end { Leaves (take_word (kinds_of tokens.now)) result }
    ensures reads { IfOk result (λ r. Reading true (word_pieces r.0) file tokens.now r.1.now) }
{
    let Some(found) = word(file, tokens) else {
        return Err(Stop::Fault(Missing));
    };
    Ok(found)
}
