//! What stands before an operand: operators, casts, `trap`, and the heads of anonymous functions.
#![tactic(auto, using(parse_types::proofs::Readings::spelling, crate::proofs::ExprReadings::expr_readings, crate::proofs::Rooms::rooms))]

ghost use Rattle.std.specs.Prelude.{◌≡◌, ◌≤◌, ◌<◌, ◌&&◌, ℕ, length, true, false, option_map, IfSome, IfOk};
ghost use Rattle.bal_tree.specs.ExprPieces.{prefix_op as prefix_pieces, expr_pieces, function_head as head_pieces};
ghost use Rattle.bal_tree.specs.ExprRules.{expr_is_formed, level as level_of};
ghost use Rattle.bal_tree.specs.Levels.{rank};
ghost use Rattle.bal_tree.specs.Spells.{Spells, kinds_of};
ghost use Rattle.bal_tree.specs.TypePieces.{type_pieces, in_angles as angle_pieces};
ghost use Rattle.bal_tree.specs.TypeRules.{type_is_formed, params_are_formed};
ghost use Rattle.parse_types.specs.Starts.{Leaves, Reading};
ghost use Rattle.bal_base.specs.declared.token.Sign.TheVariants.{FatArrow};
ghost use Rattle.bal_tree.specs.Pieces.{starts as starts_piece, sign as sign_piece, ◌&◌};
ghost use Rattle.parse_expr.specs.Reaches as spec;
ghost use Rattle.parse_expr.specs.Starts.{ExprReading, Binds, Ended, end_of};

use crate::parameters::{params, type_here};
use crate::reader::ExprReader;
use bal_base::{Keyword, Memory, Place, Sign, Stop, Token, TokenKind};
use bal_tree::{Expr, Level, Params, PrefixOp, TypeTree};
use parse_types::{Missing, after_sign, isolated_if_there, key, place, sign};
use std::alloc::Global;

impl ExprReader {
    /// An operand with what stands before it.
    #[cycle(exprs)]
    pub(crate) fn tight(
        self,
        room: usize,
        tokens: &[Token],
    ) -> Result<(Box<Expr>, &[Token]), Stop<Missing>>
        ensures end { Leaves (spec.tight (spec.inside room) self.middle (kinds_of tokens.now)) result }
        ensures reads { IfOk result (λ r. ExprReading self.middle r.0.value self.file tokens.now r.1.now) }
        ensures binds { IfOk result (λ r. rank (level_of r.0.value) ≤ 1) }
        ensures ended { IfOk result (λ r. Ended (end_of r.0.value) (kinds_of r.1.now)) }
    {
        if let Some((op, after)) = prefix_op(tokens) {
            let at = place(self.file, tokens);
            let (operand, rest) = self.inner(room, Level::Prefix, after)?;
            let whole = Box::new(self.alloc, Expr::Prefix { op, operand, at })?;
            return Ok((whole, rest));
        }
        if after_sign(tokens, Sign::Less).is_some() {
            return self.cast(room, tokens);
        }
        self.suffixed(room, tokens)
    }

    /// `<T>e`
    #[cycle(exprs)]
    fn cast(self, room: usize, tokens: &[Token]) -> Result<(Box<Expr>, &[Token]), Stop<Missing>>
        ensures end { Leaves (spec.cast (spec.inside room) self.middle (kinds_of tokens.now)) result }
        ensures reads { IfOk result (λ r. ExprReading self.middle r.0.value self.file tokens.now r.1.now) }
        ensures binds { IfOk result (λ r. rank (level_of r.0.value) ≤ 1) }
        ensures ended { IfOk result (λ r. Ended (end_of r.0.value) (kinds_of r.1.now)) }
    {
        let at = place(self.file, tokens);
        let rest = sign(tokens, Sign::Less)?;
        let (ty, rest) = type_here(self.alloc, self.file, self.middle, rest)?;
        let rest = sign(rest, Sign::Greater)?;
        let (operand, rest) = self.inner(room, Level::Prefix, rest)?;
        let whole = Box::new(self.alloc, Expr::Cast { ty, operand, at })?;
        Ok((whole, rest))
    }

    /// `trap e`
    #[cycle(exprs)]
    pub(crate) fn trap(
        self,
        room: usize,
        tokens: &[Token],
    ) -> Result<(Box<Expr>, &[Token]), Stop<Missing>>
        ensures end { Leaves (spec.trap (spec.inside room) self.middle (kinds_of tokens.now)) result }
        ensures reads { IfOk result (λ r. ExprReading self.middle r.0.value self.file tokens.now r.1.now) }
        ensures ended { IfOk result (λ r. Ended (end_of r.0.value) (kinds_of r.1.now)) }
    {
        let at = place(self.file, tokens);
        let rest = key(tokens, Keyword::Trap)?;
        let (operand, rest) = self.inner(room, Level::Loosest, rest)?;
        let whole = Box::new(self.alloc, Expr::Trap { operand, at })?;
        Ok((whole, rest))
    }

    /// `function (T a) returns R => e`, where `isolated` may stand before it.
    #[cycle(exprs)]
    pub(crate) fn function(
        self,
        room: usize,
        tokens: &[Token],
    ) -> Result<(Box<Expr>, &[Token]), Stop<Missing>>
        ensures end { Leaves (spec.function (spec.inside room) self.middle (kinds_of tokens.now)) result }
        ensures reads { IfOk result (λ r. ExprReading self.middle r.0.value self.file tokens.now r.1.now) }
        ensures ended { IfOk result (λ r. Ended (end_of r.0.value) (kinds_of r.1.now)) }
    {
        let at = place(self.file, tokens);
        let (head, rest) = function_head(self.alloc, self.file, self.middle, tokens)?;
        let rest = sign(rest, Sign::FatArrow)?;
        let (value, rest) = self.inner(room, Level::Loosest, rest)?;
        let whole = function_of(self.alloc, head, value, at)?;
        Ok((whole, rest))
    }
}

/// What stands before the `=>` of an anonymous function.
#[derive(Drop)]
struct Head {
    isolated: bool,
    params: Params,
    result: Box<TypeTree>,
}

fn function_head(
    alloc: Global,
    file: u32,
    middle: bool,
    tokens: &[Token],
) -> Result<(Head, &[Token]), Stop<Missing>>
    ensures end { Leaves (spec.function_head middle (kinds_of tokens.now)) result }
    ensures reads { IfOk result (λ r. Reading (params_are_formed r.0.params && type_is_formed r.0.result.value middle) (head_pieces r.0.isolated r.0.params r.0.result.value) file tokens.now r.1.now) }
{
    let (isolated, rest) = isolated_if_there(tokens);
    let rest = key(rest, Keyword::Function)?;
    let (params, rest) = params(alloc, file, rest)?;
    let rest = key(rest, Keyword::Returns)?;
    let (result, rest) = type_here(alloc, file, middle, rest)?;
    let head = Head {
        isolated,
        params,
        result,
    };
    Ok((head, rest))
}

fn function_of(alloc: Global, head: Head, value: Box<Expr>, at: Place) -> Result<Box<Expr>, Memory>
    ensures pieces { IfOk result (λ e. expr_pieces e.value ≡ (starts_piece at & head_pieces head.isolated head.params head.result.value & sign_piece FatArrow & expr_pieces value.value)) }
    ensures formed { (m : _) → params_are_formed head.params ≡ true → type_is_formed head.result.value m ≡ true → expr_is_formed value.value m ≡ true → IfOk result (λ e. expr_is_formed e.value m ≡ true) }
    ensures end { IfOk result (λ e. end_of e.value ≡ end_of value.value) }
{
    let Head {
        isolated,
        params,
        result,
    } = head;
    let whole = Expr::Function {
        isolated,
        params,
        result,
        value,
        at,
    };
    Ok(Box::new(alloc, whole)?)
}

/// The operator before an operand.
fn prefix_op(tokens: &[Token]) -> Option<(PrefixOp, &[Token])>
    ensures end { option_map (λ r. kinds_of r.1.now) result ≡ spec.take_prefix (kinds_of tokens.now) }
    ensures spells { (file : ℕ) → IfSome result (λ r. Spells file (prefix_pieces r.0) tokens.now r.1.now) }
    ensures shorter { IfSome result (λ r. length r.1.now < length tokens.now) }
{
    let (first, rest) = tokens.split_first()?;
    match &first.kind {
        TokenKind::Sign(Sign::Minus) => Some((PrefixOp::Negate, rest)),
        TokenKind::Sign(Sign::Not) => Some((PrefixOp::Not, rest)),
        TokenKind::Keyword(Keyword::Check) => Some((PrefixOp::Check, rest)),
        TokenKind::Keyword(Keyword::CheckPanic) => Some((PrefixOp::CheckPanic, rest)),
        _ => None,
    }
}
