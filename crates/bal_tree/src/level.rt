//! Levels of expressions, and how operators bind.

ghost use Rattle.std.specs.Prelude.{◌≡◌};
ghost use Rattle.bal_tree.specs.Levels.{rank as rank_of, is_tighter as tighter, is_no_looser as no_looser, binding, takes as takes_operands};

use crate::expr::BinaryOp;

/// How tightly the outermost operator of an expression binds, from the tightest to the loosest.
#[derive(Clone, Copy)]
pub enum Level {
    /// No operator but suffixes.
    Postfix,
    /// `-`, `!`, `<T>`, `check` and `checkpanic`.
    Prefix,
    /// `*`, `/` and `%`.
    Product,
    /// `+` and `-`.
    Sum,
    /// `<`, `<=`, `>`, `>=` and `is`.
    Comparison,
    /// `==`, `!=`, `===` and `!==`.
    Equality,
    /// `&&`
    Conjunction,
    /// `||`
    Disjunction,
    /// `?:`
    Elvis,
    /// `c ? a : b`
    Conditional,
    /// `trap`, and anonymous functions.
    Loosest,
}

impl Level {
    /// Its place in the order, where 0 is that of the tightest.
    pub fn rank(self) -> u8
        ensures { result ≡ rank_of self }
    {
        match self {
            Level::Postfix => 0,
            Level::Prefix => 1,
            Level::Product => 2,
            Level::Sum => 3,
            Level::Comparison => 4,
            Level::Equality => 5,
            Level::Conjunction => 6,
            Level::Disjunction => 7,
            Level::Elvis => 8,
            Level::Conditional => 9,
            Level::Loosest => 10,
        }
    }

    /// Whether it binds tighter than the other.
    #[tactic(auto, unfolding(crate::specs::Levels::is_tighter))]
    pub fn is_tighter(self, other: Level) -> bool
        ensures { result ≡ tighter self other }
    {
        self.rank() < other.rank()
    }

    /// Whether it binds tighter than the other, or is the same.
    #[tactic(auto, unfolding(crate::specs::Levels::is_no_looser))]
    pub fn is_no_looser(self, other: Level) -> bool
        ensures { result ≡ no_looser self other }
    {
        self.rank() <= other.rank()
    }
}

/// How operators of one level group that stand beside one another.
#[derive(Clone, Copy)]
pub enum Grouping {
    /// `a + b + c` is `(a + b) + c`.
    ToLeft,
    /// `a ?: b ?: c` is `a ?: (b ?: c)`.
    ToRight,
    /// `a < b < c` is refused.
    NotAtAll,
}

impl BinaryOp {
    /// The operator's level.
    pub fn level(self) -> Level
        ensures { result ≡ (binding self).level }
    {
        match self {
            BinaryOp::Multiply | BinaryOp::Divide | BinaryOp::Remainder => Level::Product,
            BinaryOp::Add | BinaryOp::Subtract => Level::Sum,
            BinaryOp::Less | BinaryOp::LessEqual => Level::Comparison,
            BinaryOp::Greater | BinaryOp::GreaterEqual => Level::Comparison,
            BinaryOp::Equal | BinaryOp::NotEqual => Level::Equality,
            BinaryOp::Same | BinaryOp::NotSame => Level::Equality,
            BinaryOp::And => Level::Conjunction,
            BinaryOp::Or => Level::Disjunction,
            BinaryOp::Elvis => Level::Elvis,
        }
    }

    /// How operators of its level group.
    pub fn grouping(self) -> Grouping
        ensures { result ≡ (binding self).grouping }
    {
        match self {
            BinaryOp::Less | BinaryOp::LessEqual => Grouping::NotAtAll,
            BinaryOp::Greater | BinaryOp::GreaterEqual => Grouping::NotAtAll,
            BinaryOp::Elvis => Grouping::ToRight,
            BinaryOp::Multiply | BinaryOp::Divide | BinaryOp::Remainder => Grouping::ToLeft,
            BinaryOp::Add | BinaryOp::Subtract => Grouping::ToLeft,
            BinaryOp::Equal | BinaryOp::NotEqual => Grouping::ToLeft,
            BinaryOp::Same | BinaryOp::NotSame => Grouping::ToLeft,
            BinaryOp::And | BinaryOp::Or => Grouping::ToLeft,
        }
    }

    /// Whether operands of these levels may stand on its two sides.
    #[tactic(auto, unfolding(crate::specs::Levels::takes))]
    pub fn takes(self, left: Level, right: Level) -> bool
        ensures { result ≡ takes_operands self left right }
    {
        let level = self.level();
        match self.grouping() {
            Grouping::ToLeft => left.is_no_looser(level) && right.is_tighter(level),
            Grouping::ToRight => left.is_tighter(level) && right.is_no_looser(level),
            Grouping::NotAtAll => left.is_tighter(level) && right.is_tighter(level),
        }
    }
}
