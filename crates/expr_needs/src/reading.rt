//! The places of expressions, as the table reads them. Each call takes no memory, and looks at the outermost form alone.
#![tactic(auto, using(bal_tree::proofs::ExprLayers::expr_layers))]

ghost use Rattle.std.specs.Prelude.{◌≡◌};
ghost use Rattle.expr_needs.specs.ExprTable.{read_call, read_expr, read_postfix, read_primary};

use bal_base::Place;
use bal_tree::{Call, Expr, Postfix, Primary};
use tree_places::place_of_literal;

/// The place of an expression's first token.
pub fn place(e: &Expr) -> Place
    ensures { result ≡ (read_expr e.now).at }
{
    match e {
        Expr::Postfix(e) => postfix_place(e),
        Expr::Prefix { at, .. } | Expr::Cast { at, .. } | Expr::Binary { at, .. } => *at,
        Expr::TypeTest { at, .. } | Expr::Conditional { at, .. } => *at,
        Expr::Trap { at, .. } | Expr::Function { at, .. } => *at,
    }
}

/// The place of the first token of an expression with suffixes.
pub fn postfix_place(e: &Postfix) -> Place
    ensures { result ≡ (read_postfix e.now).at }
{
    match e {
        Postfix::Primary(e) => primary_place(e),
        Postfix::Call(e) => call_place(e),
        Postfix::Field { at, .. } | Postfix::OptionalField { at, .. } => *at,
        Postfix::Index { at, .. } => *at,
    }
}

/// The place of a call's first token.
pub fn call_place(e: &Call) -> Place
    ensures { result ≡ (read_call e.now).at }
{
    match e {
        Call::Function { at, .. } | Call::Method { at, .. } => *at,
    }
}

/// The place of the first token of an expression without suffixes.
pub fn primary_place(e: &Primary) -> Place
    ensures { result ≡ (read_primary e.now).at }
{
    match e {
        Primary::Literal(l) => place_of_literal(l),
        Primary::Name(n) => n.at,
        Primary::Parens { at, .. } | Primary::List { at, .. } => *at,
        Primary::Mapping { at, .. } | Primary::Error { at, .. } => *at,
    }
}
