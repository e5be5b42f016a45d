//! Type descriptors read from tokens, and what all parsers share.
//!
//! - [`parse_type`]: the longest type that stands at a place.
//! - [`longest_type`]: the same at the front of tokens of which it is known that none is nested too deeply, for
//!   parsers of what holds types.
//! - [`first_too_deep`]: the first token that is nested too deeply, over all tokens or over those before the first
//!   closing bracket that closes nothing of them ([`enclosed`]).
//! - [`Missing`] and [`optional`], [`place`], [`sign`], [`after_sign`], [`key`], [`after_key`], [`int`] and [`word`]:
//!   steps over the tokens at the front, which are those of `token_steps`; [`isolated_if_there`]: that word.
//! - [`rest_from`] and [`refused`]: how a parser begins at a place, and how it refuses.
//!
//! `types` reads the levels of types from the loosest to the tightest, `primary`, `lists` and `records` what is
//! tightest. `specs/Starts.antt` says what is promised, `specs/Nesting.antt` how deep a token is.
#![tactic(auto)]

ghost use Rattle.std.specs.Prelude.{◌≡◌, ◌≤◌, ◌⊎◌, None, false, length, drop, IfOk, IfErr};
ghost use Rattle.bal_base.specs.declared.stop.Stop.TheVariants.{Fault as FaultOf};
ghost use Rattle.bal_base.specs.Stops.{IfFault};
ghost use Rattle.bal_tree.specs.Spells.{kinds_of};
ghost use Rattle.bal_tree.specs.TypeRules.{type_end};
ghost use Rattle.bal_tree.specs.Reads.{ReadsType};
ghost use Rattle.parse_types.specs.Nesting as nesting_spec;
ghost use Rattle.parse_types.specs.Reaches as reader;
ghost use Rattle.parse_types.specs.Starts.{IfMissing, IsTooDeep, HasNoType, LeavesAs, Settled, StartsType, TypeReading, refusal, type_left};
ghost use Rattle.token_steps.specs.Tokens.{Kinds};

mod lists;
mod nesting;
mod primary;
mod records;
mod suffixes;
mod types;

use crate::types::TypeReader;
use bal_base::{Fault, FaultCode, Kept, Place, Stop, Token};
use bal_tree::TypeTree;
pub use lists::isolated_if_there;
pub use nesting::{depth_behind, enclosed, first_too_deep};
use std::alloc::Global;
pub use token_steps::{Missing, after_key, after_sign, int, key, optional, place, sign, word};

/// The longest type that starts at the place `from` of the tokens, and the place after it. `file` is the file's number
/// in the places.
///
/// `Depth` is answered at the first token that is nested too deeply, of those before the first closing bracket that
/// closes nothing since `from`; else `Syntax` at `from`, where no type starts there.
pub fn parse_type(
    alloc: Global,
    file: u32,
    tokens: &[Token],
    from: usize,
) -> Result<(TypeTree, usize), Stop<Fault>>
    requires { from ≤ length tokens.now }
    ensures within { IfOk result (λ r. r.1 ≤ length tokens.now) }
    ensures reads { IfOk result (λ r. ReadsType file (drop from tokens.now) r.0 (drop r.1 tokens.now)) }
    ensures longest { IfOk result (λ r. (rest : Kinds) → StartsType false (drop from tokens.now) rest → length (drop r.1 tokens.now) ≤ length rest) }
    ensures not_deep { IfOk result (λ r. nesting_spec.first_too_deep (nesting_spec.enclosed 0 (kinds_of (drop from tokens.now))) ≡ None) }
    ensures refused { IfFault result (λ f. IsTooDeep file (drop from tokens.now) f ⊎ HasNoType file (drop from tokens.now) f) }
{
    let front = rest_from(tokens, from);
    if let Some(deep) = first_too_deep(alloc, enclosed(front))? {
        let at = place(file, rest_from(front, deep));
        return Err(refused(FaultCode::Depth, at));
    }
    match longest_type(alloc, file, false, front) {
        Ok((tree, rest)) => Ok((tree, tokens.len() - rest.len())),
        Err(Stop::Fault(Missing)) => Err(refused(FaultCode::Syntax, place(file, front))),
        Err(Stop::Memory) => Err(Stop::Memory),
    }
}

/// The longest type at the front of the tokens, and what follows it. It goes as deep as the types are nested.
///
/// `middle` says whether it stands in the middle of a conditional expression, where no name has a prefix but `int`.
/// `Missing` is answered where no type stands there.
pub fn longest_type(
    alloc: Global,
    file: u32,
    middle: bool,
    tokens: &[Token],
) -> Result<(TypeTree, &[Token]), Stop<Missing>>
    ensures reads { IfOk result (λ r. TypeReading middle r.0 file tokens.now r.1.now) }
    ensures longest { IfOk result (λ r. (rest : Kinds) → StartsType middle tokens.now rest → length r.1.now ≤ length rest) }
    ensures none { IfErr result (λ stop. IfMissing stop ((rest : Kinds) → StartsType middle tokens.now rest → ⊥)) }

    // For the proofs of parsers of what holds types: how far it goes is a function of the kinds of the tokens alone, and what
    // cannot stand behind it.
    ensures settled { IfOk result (λ r. Settled (type_end r.0).in_int (kinds_of r.1.now)) }
    ensures reaches { LeavesAs type_left (reader.longest_type middle (kinds_of tokens.now)) result }
{
    let reader = TypeReader {
        alloc,
        file,
        middle,
    };
    reader.type_tree(tokens.len(), tokens)
}

/// The tokens from this place on.
pub fn rest_from(tokens: &[Token], from: usize) -> &[Token]
    requires { from ≤ length tokens.now }
    ensures { result.now ≡ drop from tokens.now }
{
    &tokens[from..]
}

/// The answer of a parser that refuses what stands at this place.
pub fn refused(code: FaultCode, at: Place) -> Stop<Fault>
    ensures { result ≡ FaultOf (refusal code at) }
{
    Stop::Fault(Fault {
        code,
        at: Some(at),
        kept: Kept::Nothing,
    })
}
