//! Expressions, by how tightly their operators bind. `room` is how many expressions may still stand inside one another.
#![tactic(auto, using(parse_types::proofs::Readings::spelling, crate::proofs::ExprReadings::expr_readings, crate::proofs::Rooms::rooms))]

ghost use Rattle.std.specs.Prelude.{◌≡◌, true, false, is_some, IfOk};
ghost use Rattle.bal_tree.specs.Levels.{rank};
ghost use Rattle.bal_tree.specs.Spells.{kinds_of};
ghost use Rattle.parse_types.specs.Starts.{Leaves};
ghost use Rattle.parse_expr.specs.Reaches as spec;
ghost use Rattle.parse_expr.specs.Starts.{ExprReading, Binds, Ended, end_of};

use bal_base::{Keyword, Stop, Token};
use bal_tree::{Expr, Level};
use parse_types::{Missing, after_key, isolated_if_there};
use std::alloc::Global;

/// What reads the expressions of one file: in the middle of a conditional expression, where a `:` outside brackets ends the
/// middle, or elsewhere.
#[derive(Clone, Copy)]
pub(crate) struct ExprReader {
    pub(crate) alloc: Global,
    pub(crate) file: u32,
    pub(crate) middle: bool,
}

impl ExprReader {
    /// The same between brackets.
    pub(crate) fn bracketed(self) -> ExprReader
        ensures file { result.file ≡ self.file }
        ensures middle { result.middle ≡ false }
    {
        ExprReader {
            middle: false,
            ..self
        }
    }

    /// The same between the `?` and the `:` of a conditional expression.
    pub(crate) fn between(self) -> ExprReader
        ensures file { result.file ≡ self.file }
        ensures middle { result.middle ≡ true }
    {
        ExprReader {
            middle: true,
            ..self
        }
    }

    /// An expression inside another one, whose operators bind at least as tightly as the level.
    #[cycle(exprs)]
    pub(crate) fn inner(
        self,
        room: usize,
        level: Level,
        tokens: &[Token],
    ) -> Result<(Box<Expr>, &[Token]), Stop<Missing>>
        ensures end { Leaves (spec.inside room (rank level) self.middle (kinds_of tokens.now)) result }
        ensures reads { IfOk result (λ r. ExprReading self.middle r.0.value self.file tokens.now r.1.now) }
        ensures binds { IfOk result (λ r. Binds level r.0.value) }
        ensures ended { IfOk result (λ r. Ended (end_of r.0.value) (kinds_of r.1.now)) }
    {
        if room == 0 {
            return Err(Stop::Fault(Missing));
        }
        self.up_to(room - 1, level, tokens)
    }

    /// The longest expression at the front whose operators bind at least as tightly as the level.
    #[cycle(exprs)]
    pub(crate) fn up_to(
        self,
        room: usize,
        level: Level,
        tokens: &[Token],
    ) -> Result<(Box<Expr>, &[Token]), Stop<Missing>>
        ensures end { Leaves (spec.up_to (spec.inside room) self.middle (rank level) (kinds_of tokens.now)) result }
        ensures reads { IfOk result (λ r. ExprReading self.middle r.0.value self.file tokens.now r.1.now) }
        ensures binds { IfOk result (λ r. Binds level r.0.value) }
        ensures ended { IfOk result (λ r. Ended (end_of r.0.value) (kinds_of r.1.now)) }
    {
        match level {
            Level::Postfix => self.suffixed(room, tokens),
            Level::Prefix => self.tight(room, tokens),
            Level::Product => self.chain(room, Level::Product, Level::Prefix, tokens),
            Level::Sum => self.chain(room, Level::Sum, Level::Product, tokens),
            Level::Comparison => self.comparison(room, tokens),
            Level::Equality => self.chain(room, Level::Equality, Level::Comparison, tokens),
            Level::Conjunction => self.chain(room, Level::Conjunction, Level::Equality, tokens),
            Level::Disjunction => self.chain(room, Level::Disjunction, Level::Conjunction, tokens),
            Level::Elvis => self.elvis(room, tokens),
            Level::Conditional => self.conditional(room, tokens),
            Level::Loosest => self.loosest(room, tokens),
        }
    }

    /// Any expression.
    #[cycle(exprs)]
    fn loosest(self, room: usize, tokens: &[Token]) -> Result<(Box<Expr>, &[Token]), Stop<Missing>>
        ensures end { Leaves (spec.loosest (spec.inside room) self.middle (kinds_of tokens.now)) result }
        ensures reads { IfOk result (λ r. ExprReading self.middle r.0.value self.file tokens.now r.1.now) }
        ensures ended { IfOk result (λ r. Ended (end_of r.0.value) (kinds_of r.1.now)) }
    {
        if after_key(tokens, Keyword::Trap).is_some() {
            return self.trap(room, tokens);
        }
        if begins_function(tokens) {
            return self.function(room, tokens);
        }
        self.up_to(room, Level::Conditional, tokens)
    }
}

/// Whether the first tokens are `function` or `isolated function`.
fn begins_function(tokens: &[Token]) -> bool
    ensures { result ≡ is_some (spec.take_function (kinds_of tokens.now)) }
{
    let (_, rest) = isolated_if_there(tokens);
    after_key(rest, Keyword::Function).is_some()
}
