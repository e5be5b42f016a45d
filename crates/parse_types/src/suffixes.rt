//! The signs behind a type that make another one of it.
#![tactic(auto, using(crate::proofs::Readings::spelling, crate::proofs::TypeReadings::type_readings))]

ghost use Rattle.std.specs.Prelude.{◌≡◌, true, false, option_map, IfOk, IfSome, ℕ};
ghost use Rattle.bal_tree.specs.Pieces.{starts as starts_piece, ◌&◌};
ghost use Rattle.bal_tree.specs.Spells.{kinds_of};
ghost use Rattle.bal_tree.specs.TypePieces.{postfix_type_pieces};
ghost use Rattle.bal_tree.specs.TypeRules.{postfix_type_end, postfix_type_is_formed, is_length as is_array_length};
ghost use Rattle.parse_types.specs.Reaches as spec;
ghost use Rattle.parse_types.specs.Reaches.{open_at};
ghost use Rattle.parse_types.specs.Starts.{postfix_left, Reading};
ghost use Rattle.parse_types.specs.Suffixes.{suffix_pieces, suffix_fits};

use bal_base::{Memory, Place, Sign, Token};
use bal_tree::PostfixType;
use std::alloc::Global;
use token_steps::{after_sign, int};

/// A suffix of a type.
#[derive(Clone, Copy)]
pub(crate) enum Suffix {
    /// `?`
    Optional,
    /// `[]`
    Array,
    /// `[3]`
    FixedArray(i64),
}

/// The suffix at the front, where the type so far may go on with it.
pub(crate) fn suffix_behind<'t>(
    left: &PostfixType,
    tokens: &'t [Token],
) -> Option<(Suffix, &'t [Token])>
    ensures end { option_map (λ r. open_at (kinds_of r.1.now)) result ≡ spec.suffix_step (postfix_left left.now (kinds_of tokens.now)) }
    ensures was_open { IfSome result (λ r. (postfix_type_end left.now).in_result ≡ false) }
    ensures reads { (file : ℕ) → IfSome result (λ r. Reading (suffix_fits r.0) (suffix_pieces r.0) file tokens.now r.1.now) }
{
    if left.ends_in_result() {
        return None;
    }
    if let Some(rest) = after_sign(tokens, Sign::Question) {
        return Some((Suffix::Optional, rest));
    }
    let inside = after_sign(tokens, Sign::OpenBracket)?;
    if let Some(rest) = after_sign(inside, Sign::CloseBracket) {
        return Some((Suffix::Array, rest));
    }
    let (length, behind) = int(inside)?;
    if !is_length(length) {
        return None;
    }
    let rest = after_sign(behind, Sign::CloseBracket)?;
    Some((Suffix::FixedArray(length), rest))
}

/// Whether an array may have so many members by its type.
#[tactic(auto, unfolding(bal_tree::specs::TypeRules::is_length))]
fn is_length(length: i64) -> bool
    ensures { result ≡ is_array_length length }
{
    length <= 1024
}

/// The type with the suffix behind it.
pub(crate) fn suffixed(
    alloc: Global,
    left: PostfixType,
    suffix: Suffix,
    at: Place,
) -> Result<PostfixType, Memory>
    ensures pieces { IfOk result (λ t. postfix_type_pieces t ≡ (starts_piece at & postfix_type_pieces left & suffix_pieces suffix)) }
    ensures formed { (m : _) → (postfix_type_end left).in_result ≡ false → postfix_type_is_formed left m ≡ true → suffix_fits suffix ≡ true → IfOk result (λ t. postfix_type_is_formed t m ≡ true) }
    ensures stays_open { IfOk result (λ t. (postfix_type_end t).in_result ≡ false) }
{
    let of = Box::new(alloc, left)?;
    match suffix {
        Suffix::Optional => Ok(PostfixType::Optional { of, at }),
        Suffix::Array => Ok(PostfixType::Array { member: of, at }),
        Suffix::FixedArray(length) => {
            let member = of;
            Ok(PostfixType::FixedArray { member, length, at })
        }
    }
}
