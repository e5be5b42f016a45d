//! How expressions begin and end, as far as that decides how far a part reaches, and which may be statements.
#![tactic(auto, using(crate::proofs::ExprLayers::expr_layers))]

ghost use Rattle.std.specs.Prelude.{◌≡◌};
ghost use Rattle.bal_tree.specs.ExprRules.{expr_facts, postfix_facts, call_facts, primary_facts, level as level_of, is_check as checks, name_begins_with_word};

use crate::expr::{Call, Expr, Postfix, PrefixOp, Primary};
use crate::level::Level;
use crate::name::{Prefix, QualifiedName};

impl Expr {
    /// How tightly its outermost operator binds.
    pub fn level(&self) -> Level
        ensures { result ≡ level_of self.now }
    {
        match self {
            Expr::Postfix(_) => Level::Postfix,
            Expr::Prefix { .. } | Expr::Cast { .. } => Level::Prefix,
            Expr::Binary { op, .. } => op.level(),
            Expr::TypeTest { .. } => Level::Comparison,
            Expr::Conditional { .. } => Level::Conditional,
            Expr::Trap { .. } | Expr::Function { .. } => Level::Loosest,
        }
    }

    /// Whether the expression ends in a type, as `x is T` does.
    pub fn ends_in_type(&self) -> bool
        ensures { result ≡ (expr_facts self.now).end.in_type }
    {
        match self {
            Expr::Postfix(_) => false,
            Expr::Prefix { operand, .. } => operand.ends_in_type(),
            Expr::Cast { operand, .. } => operand.ends_in_type(),
            Expr::Binary { right, .. } => right.ends_in_type(),
            Expr::TypeTest { .. } => true,
            Expr::Conditional { last, .. } => last.ends_in_type(),
            Expr::Trap { operand, .. } => operand.ends_in_type(),
            Expr::Function { value, .. } => value.ends_in_type(),
        }
    }

    /// Whether the expression ends in a type whose last token is the keyword `int`.
    pub fn ends_in_int(&self) -> bool
        ensures { result ≡ (expr_facts self.now).end.in_int }
    {
        match self {
            Expr::Postfix(_) => false,
            Expr::Prefix { operand, .. } => operand.ends_in_int(),
            Expr::Cast { operand, .. } => operand.ends_in_int(),
            Expr::Binary { right, .. } => right.ends_in_int(),
            Expr::TypeTest { ty, .. } => ty.ends_in_int(),
            Expr::Conditional { last, .. } => last.ends_in_int(),
            Expr::Trap { operand, .. } => operand.ends_in_int(),
            Expr::Function { value, .. } => value.ends_in_int(),
        }
    }

    /// Whether the first token of the expression is a word that is no keyword.
    pub fn begins_with_word(&self) -> bool
        ensures { result ≡ (expr_facts self.now).begins_with_word }
    {
        match self {
            Expr::Postfix(e) => e.begins_with_word(),
            Expr::Binary { left, .. } => left.begins_with_word(),
            Expr::TypeTest { operand, .. } => operand.begins_with_word(),
            Expr::Conditional { condition, .. } => condition.begins_with_word(),
            Expr::Prefix { .. } | Expr::Cast { .. } => false,
            Expr::Trap { .. } | Expr::Function { .. } => false,
        }
    }

    /// Whether the first token of the expression is `check` or `checkpanic`.
    pub fn begins_with_check(&self) -> bool
        ensures { result ≡ (expr_facts self.now).begins_with_check }
    {
        match self {
            Expr::Prefix { op, .. } => op.is_check(),
            Expr::Binary { left, .. } => left.begins_with_check(),
            Expr::TypeTest { operand, .. } => operand.begins_with_check(),
            Expr::Conditional { condition, .. } => condition.begins_with_check(),
            Expr::Postfix(_) | Expr::Cast { .. } => false,
            Expr::Trap { .. } | Expr::Function { .. } => false,
        }
    }

    /// Whether the expression ends in arguments, and has no operator outside brackets.
    pub fn is_call(&self) -> bool
        ensures { result ≡ (expr_facts self.now).is_call }
    {
        match self {
            Expr::Postfix(e) => e.is_call(),
            Expr::Prefix { .. } | Expr::Cast { .. } | Expr::Binary { .. } => false,
            Expr::TypeTest { .. } | Expr::Conditional { .. } => false,
            Expr::Trap { .. } | Expr::Function { .. } => false,
        }
    }

    /// Whether the expression may be a statement: a call, or a `check`, `checkpanic` or `trap` of one.
    pub fn stands_alone(&self) -> bool
        ensures { result ≡ (expr_facts self.now).stands_alone }
    {
        match self {
            Expr::Postfix(e) => e.is_call(),
            Expr::Prefix { op, operand, .. } => op.is_check() && operand.is_call(),
            Expr::Trap { operand, .. } => operand.is_call(),
            Expr::Cast { .. } | Expr::Binary { .. } | Expr::TypeTest { .. } => false,
            Expr::Conditional { .. } | Expr::Function { .. } => false,
        }
    }
}

impl PrefixOp {
    /// Whether the operator is `check` or `checkpanic`.
    pub fn is_check(self) -> bool
        ensures { result ≡ checks self }
    {
        matches!(self, PrefixOp::Check | PrefixOp::CheckPanic)
    }
}

impl Postfix {
    /// Whether it is `e.f`: with arguments behind it that would be the call of a method.
    pub fn is_field(&self) -> bool
        ensures { result ≡ (postfix_facts self.now).is_field }
    {
        match self {
            Postfix::Field { .. } => true,
            Postfix::Primary(_) | Postfix::Call(_) => false,
            Postfix::OptionalField { .. } | Postfix::Index { .. } => false,
        }
    }

    /// Whether it ends in arguments.
    pub fn is_call(&self) -> bool
        ensures { result ≡ (postfix_facts self.now).is_call }
    {
        match self {
            Postfix::Call(_) => true,
            Postfix::Primary(_) | Postfix::Field { .. } => false,
            Postfix::OptionalField { .. } | Postfix::Index { .. } => false,
        }
    }

    /// Whether its first token is a word that is no keyword.
    #[cycle(word)]
    pub fn begins_with_word(&self) -> bool
        ensures { result ≡ (postfix_facts self.now).begins_with_word }
    {
        match self {
            Postfix::Primary(e) => e.begins_with_word(),
            Postfix::Call(e) => e.begins_with_word(),
            Postfix::Field { base, .. } => base.begins_with_word(),
            Postfix::OptionalField { base, .. } => base.begins_with_word(),
            Postfix::Index { base, .. } => base.begins_with_word(),
        }
    }
}

impl Call {
    /// Whether its first token is a word that is no keyword.
    #[cycle(word)]
    pub fn begins_with_word(&self) -> bool
        ensures { result ≡ (call_facts self.now).begins_with_word }
    {
        match self {
            Call::Function { callee, .. } => callee.begins_with_word(),
            Call::Method { receiver, .. } => receiver.begins_with_word(),
        }
    }
}

impl Primary {
    /// Whether its first token is a word that is no keyword.
    pub fn begins_with_word(&self) -> bool
        ensures { result ≡ (primary_facts self.now).begins_with_word }
    {
        match self {
            Primary::Name(n) => n.begins_with_word(),
            Primary::Literal(_) | Primary::Parens { .. } | Primary::List { .. } => false,
            Primary::Mapping { .. } | Primary::Error { .. } => false,
        }
    }
}

impl QualifiedName {
    /// Whether its first token is a word, which `int` is not.
    pub fn begins_with_word(&self) -> bool
        ensures { result ≡ name_begins_with_word self.now.prefix }
    {
        match &self.prefix {
            None | Some(Prefix::Word(_)) => true,
            Some(Prefix::Int { .. }) => false,
        }
    }
}
