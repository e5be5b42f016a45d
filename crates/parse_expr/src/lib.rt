//! Expressions read from tokens.
//!
//! - [`parse_expr`]: the longest expression that stands at a place.
//! - [`longest_expr`]: the same at the front of tokens of which it is known that none is nested too deeply, for parsers of what
//!   holds expressions; [`params`]: the same of the parameters of a function.
//! - [`name`] and [`int_name`]: a name at the front of the tokens; [`type_here`]: a type there.
//! - [`parse_type`]: the longest type that stands at a place.
//!
//! | Module | What it reads |
//! |---|---|
//! | `reader` | an expression whose operators bind at least as tightly as a level: which construct begins here |
//! | `operators` | operands and the operators between them, level by level |
//! | `prefixes` | operators before an operand, casts, `trap`, anonymous functions |
//! | `suffixes` | calls, fields and indices behind an expression |
//! | `primary` | literals, names, parentheses, lists, mappings and errors |
//! | `lists` | the parts of those, with commas between them |
//! | `parameters` | the parameters of a function, and the type behind `returns` |
//! | `names` | names |
//!
//! `specs/Starts.antt` says what is promised.
#![tactic(auto)]

ghost use Rattle.std.specs.Prelude.{◌≡◌, ◌≤◌, ◌<◌, ◌⊎◌, List, None, true, false, length, drop, IfOk, IfErr};
ghost use Rattle.bal_base.specs.Stops.{IfFault};
ghost use Rattle.bal_tree.specs.Spells.{kinds_of};
ghost use Rattle.bal_tree.specs.Reads.{ReadsExpr};
ghost use Rattle.parse_types.specs.Nesting as nesting_spec;
ghost use Rattle.parse_types.specs.Starts.{IfMissing, IsTooDeep, Leaves};
ghost use Rattle.token_steps.specs.Tokens.{Kinds};
ghost use Rattle.parse_expr.specs.Reaches as spec;
ghost use Rattle.parse_expr.specs.Starts.{StartsExpr, HasNoExpr, ExprReading};

mod lists;
mod names;
mod operators;
mod parameters;
mod prefixes;
mod primary;
mod reader;
mod suffixes;

use crate::reader::ExprReader;
use bal_base::{Fault, FaultCode, Stop, Token};
use bal_tree::{Expr, Level};
pub use names::{int_name, name};
pub use parameters::{params, type_here};
pub use parse_types::parse_type;
use parse_types::{Missing, enclosed, first_too_deep, place, refused, rest_from};
use std::alloc::Global;

/// The longest expression that starts at the place `from` of the tokens, and the place after it. `file` is the file's number
/// in the places.
///
/// `Depth` is answered at the first token that is nested too deeply, of those before the first closing bracket that
/// closes nothing since `from`; else `Syntax` at `from`, where no expression starts there.
pub fn parse_expr(
    alloc: Global,
    file: u32,
    tokens: &[Token],
    from: usize,
) -> Result<(Expr, usize), Stop<Fault>>
    requires { from ≤ length tokens.now }
    ensures within { IfOk result (λ r. r.1 ≤ length tokens.now) }
    ensures reads { IfOk result (λ r. ReadsExpr file (drop from tokens.now) r.0 (drop r.1 tokens.now)) }
    ensures longest { IfOk result (λ r. (rest : Kinds) → StartsExpr (drop from tokens.now) rest → length (drop r.1 tokens.now) ≤ length rest) }
    ensures not_deep { IfOk result (λ r. nesting_spec.first_too_deep (nesting_spec.enclosed 0 (kinds_of (drop from tokens.now))) ≡ None) }
    ensures refused { IfFault result (λ f. IsTooDeep file (drop from tokens.now) f ⊎ HasNoExpr file (drop from tokens.now) f) }
{
    let front = rest_from(tokens, from);
    if let Some(deep) = first_too_deep(alloc, enclosed(front))? {
        let at = place(file, rest_from(front, deep));
        return Err(refused(FaultCode::Depth, at));
    }
    match longest_expr(alloc, file, front) {
        Ok((tree, rest)) => Ok((Box::into_inner(tree), tokens.len() - rest.len())),
        Err(Stop::Fault(Missing)) => Err(refused(FaultCode::Syntax, place(file, front))),
        Err(Stop::Memory) => Err(Stop::Memory),
    }
}

/// The longest expression at the front of the tokens, and what follows it. It goes as deep as the expressions are nested.
///
/// `Missing` is answered where no expression stands there.
pub fn longest_expr(
    alloc: Global,
    file: u32,
    tokens: &[Token],
) -> Result<(Box<Expr>, &[Token]), Stop<Missing>>
    ensures reads { IfOk result (λ r. ExprReading false r.0.value file tokens.now r.1.now) }
    ensures longest { IfOk result (λ r. (rest : Kinds) → StartsExpr tokens.now rest → length r.1.now ≤ length rest) }
    ensures none { IfErr result (λ stop. IfMissing stop ((rest : Kinds) → StartsExpr tokens.now rest → ⊥)) }

    // For the proofs of parsers of what holds expressions: how far it goes is a function of the tokens alone.
    ensures reaches { Leaves (spec.expr (kinds_of tokens.now)) result }
{
    let reader = ExprReader {
        alloc,
        file,
        middle: false,
    };
    reader.up_to(tokens.len(), Level::Loosest, tokens)
}
