//! Constants, as literals write them. Each call takes no memory.
ghost use Rattle.std.specs.Prelude.{◌≡◌};
ghost use Rattle.check_words.specs.Branches.{place_of_value as place_of_value_of, value_constant as value_constant_of};
ghost use Rattle.check_words.specs.Values.{constant_of as constant_of_literal};

use bal_base::Place;
use bal_tree::{ConstValue, Literal};
use operations::Constant;
use tree_places::place_of_literal;

/// The constant that a literal is.
pub fn constant_of(literal: &Literal) -> Constant
    ensures { result ≡ constant_of_literal literal.now }
{
    match literal {
        Literal::Int { value, .. } => Constant::Int(*value),
        Literal::Str { text, .. } => Constant::Str(text.share()),
        Literal::True { .. } => Constant::Bool(true),
        Literal::False { .. } => Constant::Bool(false),
        Literal::Nil { .. } => Constant::Nil,
    }
}

/// The constant that a literal with or without a minus is; that of the least int is itself.
pub fn value_constant(value: &ConstValue) -> Constant
    ensures { result ≡ value_constant_of value.now }
{
    match value {
        ConstValue::Literal(literal) => constant_of(literal),
        ConstValue::Negative { int, .. } => Constant::Int(int.wrapping_neg()),
    }
}

/// The place of its first token.
pub fn place_of_value(value: &ConstValue) -> Place
    ensures { result ≡ place_of_value_of value.now }
{
    match value {
        ConstValue::Literal(literal) => place_of_literal(literal),
        ConstValue::Negative { at, .. } => *at,
    }
}
