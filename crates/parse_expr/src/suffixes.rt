//! Expressions with suffixes: calls, fields and indices.
#![tactic(auto, using(parse_types::proofs::Readings::spelling, crate::proofs::ExprReadings::expr_readings, crate::proofs::Rooms::rooms))]

ghost use Rattle.std.specs.Prelude.{◌≡◌, ◌&&◌, true, false, map, option_map, IfSome, IfOk};
ghost use Rattle.std.specs.List.{list_all};
ghost use Rattle.bal_tree.specs.ExprPieces.{expr_pieces, postfix_pieces, arguments as argument_pieces};
ghost use Rattle.bal_tree.specs.ExprRules.{expr_is_formed, postfix_facts, postfix_is_formed, level as level_of};
ghost use Rattle.bal_tree.specs.Levels.{rank};
ghost use Rattle.bal_tree.specs.Pieces.{starts as starts_piece, ◌&◌};
ghost use Rattle.bal_tree.specs.Spells.{kinds_of};
ghost use Rattle.parse_types.specs.Starts.{Leaves, LeavesAs, Reading};
ghost use Rattle.parse_expr.specs.Reaches as spec;
ghost use Rattle.parse_expr.specs.Starts.{ExprReading, PostfixReading, Ended, end_of, postfix_left};
ghost use Rattle.parse_expr.specs.Suffixes.{suffix_pieces, suffix_is_formed, suffix_left, is_field as suffix_is_field, MayFollow};

use crate::parameters::word_here;
use crate::reader::ExprReader;
use bal_base::{Memory, Place, Sign, Stop, Token, TokenKind};
use bal_tree::{Call, Expr, Level, Postfix, Word};
use parse_types::{Missing, optional, place, sign};
use std::alloc::Global;

/// A suffix of an expression.
#[derive(Drop)]
pub(crate) enum Suffix {
    /// `(a, b)`
    Arguments(Vec<Expr>),
    /// `.f(a, b)`
    Method(Word, Vec<Expr>),
    /// `.f`
    Field(Word),
    /// `?.f`
    OptionalField(Word),
    /// `[e]`
    Index(Box<Expr>),
}

impl ExprReader {
    /// A primary expression with its suffixes, as an expression.
    #[cycle(exprs)]
    pub(crate) fn suffixed(
        self,
        room: usize,
        tokens: &[Token],
    ) -> Result<(Box<Expr>, &[Token]), Stop<Missing>>
        ensures end { Leaves (spec.suffixed (spec.inside room) self.middle (kinds_of tokens.now)) result }
        ensures reads { IfOk result (λ r. ExprReading self.middle r.0.value self.file tokens.now r.1.now) }
        ensures binds { IfOk result (λ r. rank (level_of r.0.value) ≡ 0) }
        ensures ended { IfOk result (λ r. Ended (end_of r.0.value) (kinds_of r.1.now)) }
    {
        let (e, rest) = self.postfix(room, tokens)?;
        let whole = Box::new(self.alloc, Expr::Postfix(e))?;
        Ok((whole, rest))
    }

    /// A primary expression with its suffixes.
    #[cycle(exprs)]
    pub(crate) fn postfix(
        self,
        room: usize,
        tokens: &[Token],
    ) -> Result<(Postfix, &[Token]), Stop<Missing>>
        ensures end { LeavesAs postfix_left (spec.postfix (spec.inside room 10 false) self.middle (kinds_of tokens.now)) result }
        ensures reads { IfOk result (λ r. PostfixReading self.middle r.0 self.file tokens.now r.1.now) }
    {
        let at = place(self.file, tokens);
        let (first, mut rest) = self.primary(room, tokens)?;
        let mut whole = Postfix::Primary(first);
        while let Some((suffix, after)) = self.suffix(room, whole.is_field(), rest)? {
            whole = with_suffix(self.alloc, whole, suffix, at)?;
            rest = after;
        }
        Ok((whole, rest))
    }

    /// The suffix at the front, behind an expression that ends in `.f` or not.
    #[cycle(exprs)]
    fn suffix<'t>(
        self,
        room: usize,
        ends_in_field: bool,
        tokens: &'t [Token],
    ) -> Result<Option<(Suffix, &'t [Token])>, Memory>
        ensures end { IfOk result (λ o. option_map (λ r. suffix_left r.0 (kinds_of r.1.now)) o ≡ spec.suffix (spec.inside room 10 false) ends_in_field (kinds_of tokens.now)) }
        ensures reads { IfOk result (λ o. IfSome o (λ r. Reading (suffix_is_formed r.0) (suffix_pieces r.0) self.file tokens.now r.1.now)) }
        ensures may_follow { IfOk result (λ o. IfSome o (λ r. MayFollow ends_in_field r.0)) }
    {
        let Some((first, _)) = tokens.split_first() else {
            return Ok(None);
        };
        let TokenKind::Sign(s) = &first.kind else {
            return Ok(None);
        };
        match s {
            Sign::OpenParen if !ends_in_field => optional(self.call(room, tokens)),
            Sign::Dot => optional(self.member(room, tokens)),
            Sign::QuestionDot => optional(self.optional_field(tokens)),
            Sign::OpenBracket => optional(self.index(room, tokens)),
            _ => Ok(None),
        }
    }

    /// `(a, b)`, as a suffix.
    #[cycle(exprs)]
    fn call(self, room: usize, tokens: &[Token]) -> Result<(Suffix, &[Token]), Stop<Missing>>
        ensures end { LeavesAs suffix_left (option_map spec.closed_at (spec.arguments (spec.inside room 10 false) (kinds_of tokens.now))) result }
        ensures reads { IfOk result (λ r. Reading (suffix_is_formed r.0) (suffix_pieces r.0) self.file tokens.now r.1.now) }
        ensures may_follow { IfOk result (λ r. MayFollow false r.0) }
    {
        let (args, rest) = self.arguments(room, tokens)?;
        Ok((Suffix::Arguments(args), rest))
    }

    /// `(a, b)`
    #[cycle(exprs)]
    fn arguments(
        self,
        room: usize,
        tokens: &[Token],
    ) -> Result<(Vec<Expr>, &[Token]), Stop<Missing>>
        ensures end { Leaves (spec.arguments (spec.inside room 10 false) (kinds_of tokens.now)) result }
        ensures reads { IfOk result (λ r. Reading (list_all (λ e. expr_is_formed e false) r.0.items) (argument_pieces (map expr_pieces r.0.items)) self.file tokens.now r.1.now) }
    {
        let inside = sign(tokens, Sign::OpenParen)?;
        let (args, rest) = self.items_until(room, Sign::CloseParen, inside)?;
        Ok((args, rest))
    }

    /// `.f(a, b)`, or `.f` where no arguments stand behind it.
    #[cycle(exprs)]
    fn member(self, room: usize, tokens: &[Token]) -> Result<(Suffix, &[Token]), Stop<Missing>>
        ensures end { LeavesAs suffix_left (spec.member (spec.inside room 10 false) (kinds_of tokens.now)) result }
        ensures reads { IfOk result (λ r. Reading (suffix_is_formed r.0) (suffix_pieces r.0) self.file tokens.now r.1.now) }
        ensures may_follow { (ends_in_field : _) → IfOk result (λ r. MayFollow ends_in_field r.0) }
    {
        let rest = sign(tokens, Sign::Dot)?;
        let (name, behind) = word_here(self.file, rest)?;
        match optional(self.arguments(room, behind))? {
            Some((args, rest)) => Ok((Suffix::Method(name, args), rest)),
            None => Ok((Suffix::Field(name), behind)),
        }
    }

    /// `?.f`
    fn optional_field(self, tokens: &[Token]) -> Result<(Suffix, &[Token]), Stop<Missing>>
        ensures end { LeavesAs suffix_left (option_map spec.closed_at (spec.optional_field (kinds_of tokens.now))) result }
        ensures reads { IfOk result (λ r. Reading (suffix_is_formed r.0) (suffix_pieces r.0) self.file tokens.now r.1.now) }
        ensures may_follow { (ends_in_field : _) → IfOk result (λ r. MayFollow ends_in_field r.0) }
    {
        let rest = sign(tokens, Sign::QuestionDot)?;
        let (name, rest) = word_here(self.file, rest)?;
        Ok((Suffix::OptionalField(name), rest))
    }

    /// `[e]`
    #[cycle(exprs)]
    fn index(self, room: usize, tokens: &[Token]) -> Result<(Suffix, &[Token]), Stop<Missing>>
        ensures end { LeavesAs suffix_left (option_map spec.closed_at (spec.index (spec.inside room 10 false) (kinds_of tokens.now))) result }
        ensures reads { IfOk result (λ r. Reading (suffix_is_formed r.0) (suffix_pieces r.0) self.file tokens.now r.1.now) }
        ensures may_follow { (ends_in_field : _) → IfOk result (λ r. MayFollow ends_in_field r.0) }
    {
        let rest = sign(tokens, Sign::OpenBracket)?;
        let (e, rest) = self.bracketed().inner(room, Level::Loosest, rest)?;
        let rest = sign(rest, Sign::CloseBracket)?;
        Ok((Suffix::Index(e), rest))
    }
}

/// The expression with the suffix behind it.
fn with_suffix(alloc: Global, left: Postfix, suffix: Suffix, at: Place) -> Result<Postfix, Memory>
    ensures pieces { IfOk result (λ e. postfix_pieces e ≡ (starts_piece at & postfix_pieces left & suffix_pieces suffix)) }
    ensures formed { (m : _) → MayFollow (postfix_facts left).is_field suffix → postfix_is_formed left m ≡ true → suffix_is_formed suffix ≡ true → IfOk result (λ e. postfix_is_formed e m ≡ true) }
    ensures is_field { IfOk result (λ e. (postfix_facts e).is_field ≡ suffix_is_field suffix) }
{
    let base = Box::new(alloc, left)?;
    match suffix {
        Suffix::Arguments(args) => {
            let callee = base;
            Ok(Postfix::Call(Call::Function { callee, args, at }))
        }
        Suffix::Method(method, args) => {
            let receiver = base;
            Ok(Postfix::Call(Call::Method {
                receiver,
                method,
                args,
                at,
            }))
        }
        Suffix::Field(field) => Ok(Postfix::Field { base, field, at }),
        Suffix::OptionalField(field) => Ok(Postfix::OptionalField { base, field, at }),
        Suffix::Index(index) => Ok(Postfix::Index { base, index, at }),
    }
}
