//! Operands and the operators between them. Each level but the last begins with an operand of the next tighter one.
#![tactic(auto, using(parse_types::proofs::Readings::spelling, crate::proofs::ExprReadings::expr_readings, crate::proofs::Rooms::rooms, crate::proofs::Shapes::ranks))]

ghost use Rattle.std.specs.Prelude.{◌≡◌, ◌<◌, ◌≤◌, ◌&&◌, List, length, suc, true, false, option_map, is_some, IfSome, IfOk, MatchOption};
ghost use Rattle.bal_base.specs.declared.token.Keyword.TheVariants.{Is as IsKey};
ghost use Rattle.bal_base.specs.declared.token.Sign.TheVariants.{Question, Colon};
ghost use Rattle.bal_base.specs.declared.token.Token.{Token as TokenOf};
ghost use Rattle.bal_base.specs.declared.token.TokenKind.TheVariants.{Sign as SignKind};
ghost use Rattle.bal_tree.specs.ExprPieces.{binary_sign, expr_pieces, type_test};
ghost use Rattle.bal_tree.specs.ExprRules.{expr_facts, expr_is_formed, level as level_of};
ghost use Rattle.bal_tree.specs.Levels.{rank, binding, takes};
ghost use Rattle.bal_tree.specs.Pieces.{starts as starts_piece, sign as sign_piece, ◌&◌};
ghost use Rattle.bal_tree.specs.Spells.{Heads, kinds_of};
ghost use Rattle.bal_tree.specs.TypePieces.{type_pieces};
ghost use Rattle.bal_tree.specs.TypeRules.{type_is_formed, type_end};
ghost use Rattle.parse_types.specs.Starts.{Leaves, Reading};
ghost use Rattle.token_steps.specs.Tokens.{take_key, take_sign};
ghost use Rattle.parse_expr.specs.Operators as operators_spec;
ghost use Rattle.parse_expr.specs.Ranks.{take_op, sign_level, op_rank};
ghost use Rattle.parse_expr.specs.Reaches as spec;
ghost use Rattle.parse_expr.specs.Starts.{ExprReading, Binds, Ended, end_of};

use crate::parameters::type_here;
use crate::reader::ExprReader;
use bal_base::{Keyword, Memory, Place, Sign, Stop, Token, TokenKind};
use bal_tree::{BinaryOp, Expr, Level, TypeTree};
use parse_types::{Missing, key, optional, place, sign};
use std::alloc::Global;

/// An operator and its right operand.
pub(crate) type Right = (BinaryOp, Box<Expr>);

/// The middle and the last part of a conditional expression.
pub(crate) type Branches = (Box<Expr>, Box<Expr>);

impl ExprReader {
    /// Operands with operators of a level that groups to the left, over operands of the next tighter one.
    #[cycle(exprs)]
    pub(crate) fn chain(
        self,
        room: usize,
        level: Level,
        tighter: Level,
        tokens: &[Token],
    ) -> Result<(Box<Expr>, &[Token]), Stop<Missing>>
        requires next { rank level ≡ suc (rank tighter) }
        requires groups { operators_spec.is_chain (rank level) ≡ true }
        requires lower { 0 < rank tighter }
        requires upper { rank tighter < 9 }
        ensures end { Leaves (spec.up_to (spec.inside room) self.middle (rank level) (kinds_of tokens.now)) result }
        ensures reads { IfOk result (λ r. ExprReading self.middle r.0.value self.file tokens.now r.1.now) }
        ensures binds { IfOk result (λ r. Binds level r.0.value) }
        ensures ended { IfOk result (λ r. Ended (end_of r.0.value) (kinds_of r.1.now)) }
    {
        let at = place(self.file, tokens);
        let (mut whole, mut rest) = self.up_to(room, tighter, tokens)?;
        while let Some((right, after)) = self.right(room, level, tighter, rest)? {
            whole = binary_of(self.alloc, whole, right, at)?;
            rest = after;
        }
        Ok((whole, rest))
    }

    /// An operator of the level with its right operand, which is of the next tighter one.
    #[cycle(exprs)]
    fn right<'t>(
        self,
        room: usize,
        level: Level,
        tighter: Level,
        tokens: &'t [Token],
    ) -> Result<Option<(Right, &'t [Token])>, Memory>
        requires { 0 < rank level }
        ensures end { IfOk result (λ o. option_map (λ r. kinds_of r.1.now) o
            ≡ operators_spec.step (rank level) (spec.up_to (spec.inside room) self.middle (rank tighter)) (kinds_of tokens.now)) }
        ensures reads { IfOk result (λ o. IfSome o (λ r. (mid : List TokenOf) × Heads (SignKind (binary_sign r.0.0)) tokens.now mid × ExprReading self.middle r.0.1.value self.file mid r.1.now)) }
        ensures operator { IfOk result (λ o. IfSome o (λ r. (binding r.0.0).level ≡ level)) }
        ensures binds { IfOk result (λ o. IfSome o (λ r. Binds tighter r.0.1.value)) }
        ensures ended { IfOk result (λ o. IfSome o (λ r. Ended (end_of r.0.1.value) (kinds_of r.1.now))) }
    {
        let Some((op, after)) = operator(level, tokens) else {
            return Ok(None);
        };
        match optional(self.up_to(room, tighter, after))? {
            Some((operand, rest)) => Ok(Some(((op, operand), rest))),
            None => Ok(None),
        }
    }

    /// An operand, or two with a comparison between them, or one and `is T`.
    #[cycle(exprs)]
    pub(crate) fn comparison(
        self,
        room: usize,
        tokens: &[Token],
    ) -> Result<(Box<Expr>, &[Token]), Stop<Missing>>
        ensures end { Leaves (spec.up_to (spec.inside room) self.middle 4 (kinds_of tokens.now)) result }
        ensures reads { IfOk result (λ r. ExprReading self.middle r.0.value self.file tokens.now r.1.now) }
        ensures binds { IfOk result (λ r. rank (level_of r.0.value) ≤ 4) }
        ensures ended { IfOk result (λ r. Ended (end_of r.0.value) (kinds_of r.1.now)) }
    {
        let at = place(self.file, tokens);
        let (left, rest) = self.up_to(room, Level::Sum, tokens)?;
        if let Some((right, after)) = self.right(room, Level::Comparison, Level::Sum, rest)? {
            return Ok((binary_of(self.alloc, left, right, at)?, after));
        }
        match optional(self.tested(rest))? {
            Some((ty, after)) => Ok((test_of(self.alloc, left, ty, at)?, after)),
            None => Ok((left, rest)),
        }
    }

    /// `is T`
    fn tested(self, tokens: &[Token]) -> Result<(Box<TypeTree>, &[Token]), Stop<Missing>>
        ensures end { Leaves (operators_spec.test (spec.type_at self.middle) (kinds_of tokens.now)) result }
        ensures reads { IfOk result (λ r. Reading (type_is_formed r.0.value self.middle) (type_test r.0.value) self.file tokens.now r.1.now) }
        ensures ended { IfOk result (λ r. Ended record { in_type = true; in_int = (type_end r.0.value).in_int } (kinds_of r.1.now)) }
    {
        let rest = key(tokens, Keyword::Is)?;
        type_here(self.alloc, self.file, self.middle, rest)
    }

    /// `a ?: b`, or what is tighter.
    #[cycle(exprs)]
    pub(crate) fn elvis(
        self,
        room: usize,
        tokens: &[Token],
    ) -> Result<(Box<Expr>, &[Token]), Stop<Missing>>
        ensures end { Leaves (spec.up_to (spec.inside room) self.middle 8 (kinds_of tokens.now)) result }
        ensures reads { IfOk result (λ r. ExprReading self.middle r.0.value self.file tokens.now r.1.now) }
        ensures binds { IfOk result (λ r. rank (level_of r.0.value) ≤ 8) }
        ensures ended { IfOk result (λ r. Ended (end_of r.0.value) (kinds_of r.1.now)) }
    {
        let at = place(self.file, tokens);
        let (left, rest) = self.up_to(room, Level::Disjunction, tokens)?;
        let Some((op, after)) = operator(Level::Elvis, rest) else {
            return Ok((left, rest));
        };
        match optional(self.inner(room, Level::Elvis, after))? {
            Some((right, after)) => Ok((binary_of(self.alloc, left, (op, right), at)?, after)),
            None => Ok((left, rest)),
        }
    }

    /// `c ? a : b`, or what is tighter.
    #[cycle(exprs)]
    pub(crate) fn conditional(
        self,
        room: usize,
        tokens: &[Token],
    ) -> Result<(Box<Expr>, &[Token]), Stop<Missing>>
        ensures end { Leaves (spec.up_to (spec.inside room) self.middle 9 (kinds_of tokens.now)) result }
        ensures reads { IfOk result (λ r. ExprReading self.middle r.0.value self.file tokens.now r.1.now) }
        ensures binds { IfOk result (λ r. rank (level_of r.0.value) ≤ 9) }
        ensures ended { IfOk result (λ r. Ended (end_of r.0.value) (kinds_of r.1.now)) }
    {
        let at = place(self.file, tokens);
        let (condition, rest) = self.up_to(room, Level::Elvis, tokens)?;
        match optional(self.branches(room, rest))? {
            Some((branches, after)) => {
                Ok((conditional_of(self.alloc, condition, branches, at)?, after))
            }
            None => Ok((condition, rest)),
        }
    }

    /// `? a : b`
    #[cycle(exprs)]
    fn branches(self, room: usize, tokens: &[Token]) -> Result<(Branches, &[Token]), Stop<Missing>>
        ensures end { Leaves (operators_spec.branches (spec.inside room 9 true) (spec.inside room 9 self.middle) (kinds_of tokens.now)) result }
        ensures reads { IfOk result (λ r. Reading (expr_is_formed r.0.0.value true && expr_is_formed r.0.1.value self.middle)
            (sign_piece Question & expr_pieces r.0.0.value & sign_piece Colon & expr_pieces r.0.1.value) self.file tokens.now r.1.now) }
        ensures fits { IfOk result (λ r. ((expr_facts r.0.0.value).end.in_int && (expr_facts r.0.1.value).begins_with_word) ≡ false) }
        ensures behind { IfOk result (λ r. is_some (take_sign Question (kinds_of tokens.now)) ≡ true) }
        ensures middle_binds { IfOk result (λ r. rank (level_of r.0.0.value) ≤ 9) }
        ensures last_binds { IfOk result (λ r. rank (level_of r.0.1.value) ≤ 9) }
        ensures ended { IfOk result (λ r. Ended (end_of r.0.1.value) (kinds_of r.1.now)) }
    {
        let rest = sign(tokens, Sign::Question)?;
        let (middle, rest) = self.between().inner(room, Level::Conditional, rest)?;
        let rest = sign(rest, Sign::Colon)?;
        let (last, rest) = self.inner(room, Level::Conditional, rest)?;
        Ok(((middle, last), rest))
    }
}

/// The operator of the level at the front.
fn operator(level: Level, tokens: &[Token]) -> Option<(BinaryOp, &[Token])>
    requires { 0 < rank level }
    ensures end { option_map (λ r. kinds_of r.1.now) result ≡ take_op (rank level) (kinds_of tokens.now) }
    ensures heads { IfSome result (λ r. Heads (SignKind (binary_sign r.0)) tokens.now r.1.now) }
    ensures level { IfSome result (λ r. (binding r.0).level ≡ level) }
    ensures shorter { IfSome result (λ r. length r.1.now < length tokens.now) }
{
    let (first, rest) = tokens.split_first()?;
    let TokenKind::Sign(s) = &first.kind else {
        return None;
    };
    let op = operator_of(*s)?;
    if op.level() != level {
        return None;
    }
    Some((op, rest))
}

/// The operator with this sign.
fn operator_of(sign: Sign) -> Option<BinaryOp>
    ensures { MatchOption result (sign_level sign ≡ 0) (λ op. sign ≡ binary_sign op) }
{
    match sign {
        Sign::Star => Some(BinaryOp::Multiply),
        Sign::Slash => Some(BinaryOp::Divide),
        Sign::Percent => Some(BinaryOp::Remainder),
        Sign::Plus => Some(BinaryOp::Add),
        Sign::Minus => Some(BinaryOp::Subtract),
        Sign::Less => Some(BinaryOp::Less),
        Sign::LessEqual => Some(BinaryOp::LessEqual),
        Sign::Greater => Some(BinaryOp::Greater),
        Sign::GreaterEqual => Some(BinaryOp::GreaterEqual),
        Sign::DoubleEqual => Some(BinaryOp::Equal),
        Sign::NotEqual => Some(BinaryOp::NotEqual),
        Sign::TripleEqual => Some(BinaryOp::Same),
        Sign::NotTripleEqual => Some(BinaryOp::NotSame),
        Sign::DoubleAmpersand => Some(BinaryOp::And),
        Sign::DoubleBar => Some(BinaryOp::Or),
        Sign::Elvis => Some(BinaryOp::Elvis),
        _ => None,
    }
}

/// `a + b`
fn binary_of(alloc: Global, left: Box<Expr>, right: Right, at: Place) -> Result<Box<Expr>, Memory>
    ensures pieces { IfOk result (λ e. expr_pieces e.value ≡ (starts_piece at & expr_pieces left.value & sign_piece (binary_sign right.0) & expr_pieces right.1.value)) }
    ensures formed { (m : _) → takes right.0 (level_of left.value) (level_of right.1.value) ≡ true → expr_is_formed left.value m ≡ true → expr_is_formed right.1.value m ≡ true → IfOk result (λ e. expr_is_formed e.value m ≡ true) }
    ensures level { IfOk result (λ e. level_of e.value ≡ (binding right.0).level) }
    ensures end { IfOk result (λ e. end_of e.value ≡ end_of right.1.value) }
{
    let (op, right) = right;
    let whole = Expr::Binary {
        left,
        op,
        right,
        at,
    };
    Ok(Box::new(alloc, whole)?)
}

/// `e is T`
fn test_of(
    alloc: Global,
    operand: Box<Expr>,
    ty: Box<TypeTree>,
    at: Place,
) -> Result<Box<Expr>, Memory>
    ensures pieces { IfOk result (λ e. expr_pieces e.value ≡ (starts_piece at & expr_pieces operand.value & type_test ty.value)) }
    ensures formed { (m : _) → rank (level_of operand.value) < 4 → expr_is_formed operand.value m ≡ true → type_is_formed ty.value m ≡ true → IfOk result (λ e. expr_is_formed e.value m ≡ true) }
    ensures level { IfOk result (λ e. rank (level_of e.value) ≡ 4) }
    ensures end { IfOk result (λ e. end_of e.value ≡ record { in_type = true; in_int = (type_end ty.value).in_int }) }
{
    Ok(Box::new(alloc, Expr::TypeTest { operand, ty, at })?)
}

/// `c ? a : b`
fn conditional_of(
    alloc: Global,
    condition: Box<Expr>,
    branches: Branches,
    at: Place,
) -> Result<Box<Expr>, Memory>
    ensures pieces { IfOk result (λ e. expr_pieces e.value ≡ (starts_piece at & expr_pieces condition.value & sign_piece Question & expr_pieces branches.0.value & sign_piece Colon & expr_pieces branches.1.value)) }
    ensures formed { (m : _) → rank (level_of condition.value) < 9 → (end_of condition.value).in_type ≡ false → rank (level_of branches.0.value) ≤ 9 → rank (level_of branches.1.value) ≤ 9
        → ((expr_facts branches.0.value).end.in_int && (expr_facts branches.1.value).begins_with_word) ≡ false
        → expr_is_formed condition.value m ≡ true → expr_is_formed branches.0.value true ≡ true → expr_is_formed branches.1.value m ≡ true → IfOk result (λ e. expr_is_formed e.value m ≡ true) }
    ensures level { IfOk result (λ e. rank (level_of e.value) ≡ 9) }
    ensures end { IfOk result (λ e. end_of e.value ≡ end_of branches.1.value) }
{
    let (middle, last) = branches;
    let whole = Expr::Conditional {
        condition,
        middle,
        last,
        at,
    };
    Ok(Box::new(alloc, whole)?)
}
