//! What operators are alike in what they need.
ghost use Rattle.std.specs.Prelude.{◌≡◌};
ghost use Rattle.expr_needs.specs.Operators.{family_of as has_family, left_expects as left_as, prefix_expects as prefix_as, right_expects as right_as};

use crate::expected::Expected;
use bal_tree::{BinaryOp, PrefixOp};
use typed_tree::Operator;

/// Operators between two operands, by what they need of them.
#[derive(Clone, Copy)]
pub enum Family {
    /// Both operands are ints: `*`, `/`, `%` and `-`.
    Arithmetic(Operator),
    /// `+`, of two ints or of two strings.
    Sum,
    /// `<` and its kin, of two ints or of two strings.
    Order(Operator),
    /// `==` and `!=`, of anydata.
    Equality(Operator),
    /// `===` and `!==`, of any values.
    Identity(Operator),
    /// `&&`, whose right operand stands where the left one holds, and `||`, where it stands where the left one doesn't.
    Condition { holds: bool },
    /// `?:`
    Elvis,
}

/// The family of an operator.
pub fn family_of(op: BinaryOp) -> Family
    ensures { result ≡ has_family op }
{
    match op {
        BinaryOp::Multiply => Family::Arithmetic(Operator::Multiply),
        BinaryOp::Divide => Family::Arithmetic(Operator::Divide),
        BinaryOp::Remainder => Family::Arithmetic(Operator::Remainder),
        BinaryOp::Subtract => Family::Arithmetic(Operator::Subtract),
        BinaryOp::Add => Family::Sum,
        BinaryOp::Less => Family::Order(Operator::Less),
        BinaryOp::LessEqual => Family::Order(Operator::LessEqual),
        BinaryOp::Greater => Family::Order(Operator::Greater),
        BinaryOp::GreaterEqual => Family::Order(Operator::GreaterEqual),
        BinaryOp::Equal => Family::Equality(Operator::Equal),
        BinaryOp::NotEqual => Family::Equality(Operator::NotEqual),
        BinaryOp::Same => Family::Identity(Operator::Same),
        BinaryOp::NotSame => Family::Identity(Operator::NotSame),
        BinaryOp::And => Family::Condition { holds: true },
        BinaryOp::Or => Family::Condition { holds: false },
        BinaryOp::Elvis => Family::Elvis,
    }
}

/// What is expected of the operand behind a prefix.
pub fn prefix_expects(op: PrefixOp) -> Expected
    ensures { result ≡ prefix_as op }
{
    match op {
        PrefixOp::Negate | PrefixOp::Not => Expected::Immutable,
        PrefixOp::Check | PrefixOp::CheckPanic => Expected::Nothing,
    }
}

/// What is expected of the left operand.
pub fn left_expects(family: Family) -> Expected
    ensures { result ≡ left_as family }
{
    match family {
        Family::Arithmetic(_) | Family::Sum | Family::Order(_) => Expected::Immutable,
        Family::Condition { .. } => Expected::Immutable,
        Family::Equality(_) | Family::Identity(_) | Family::Elvis => Expected::Nothing,
    }
}

/// What is expected of the right one, where so much is expected of the whole.
pub fn right_expects(family: Family, expected: Expected) -> Expected
    ensures { result ≡ right_as family expected }
{
    match family {
        Family::Arithmetic(_) | Family::Sum | Family::Order(_) => Expected::Immutable,
        Family::Condition { .. } => Expected::Immutable,
        Family::Equality(_) | Family::Identity(_) => Expected::Nothing,
        Family::Elvis => expected,
    }
}
