//! The places of expressions: those of their first tokens. Each takes no memory, and looks at the outermost form alone.
#![tactic(auto, using(bal_tree::proofs::ExprLayers::expr_layers))]

ghost use Rattle.std.specs.Prelude.{◌≡◌};
ghost use Rattle.tree_places.specs.ExprPlaces.{place_of_call as of_call, place_of_expr as of_expr, place_of_key as of_key, place_of_literal as of_literal, place_of_postfix as of_postfix, place_of_primary as of_primary};

use bal_base::Place;
use bal_tree::{Call, Expr, Key, Literal, Postfix, Primary};

/// The place of a literal.
pub fn place_of_literal(l: &Literal) -> Place
    ensures { result ≡ of_literal l.now }
{
    match l {
        Literal::Int { at, .. } | Literal::Str { at, .. } => *at,
        Literal::True { at } | Literal::False { at } | Literal::Nil { at } => *at,
    }
}

/// The place of an expression's first token.
pub fn place_of_expr(e: &Expr) -> Place
    ensures { result ≡ of_expr e.now }
{
    match e {
        Expr::Postfix(e) => place_of_postfix(e),
        Expr::Prefix { at, .. } | Expr::Cast { at, .. } | Expr::Binary { at, .. } => *at,
        Expr::TypeTest { at, .. } | Expr::Conditional { at, .. } => *at,
        Expr::Trap { at, .. } | Expr::Function { at, .. } => *at,
    }
}

/// The place of the first token of an expression with suffixes.
pub fn place_of_postfix(e: &Postfix) -> Place
    ensures { result ≡ of_postfix e.now }
{
    match e {
        Postfix::Primary(e) => place_of_primary(e),
        Postfix::Call(e) => place_of_call(e),
        Postfix::Field { at, .. } | Postfix::OptionalField { at, .. } => *at,
        Postfix::Index { at, .. } => *at,
    }
}

/// The place of a call's first token.
pub fn place_of_call(e: &Call) -> Place
    ensures { result ≡ of_call e.now }
{
    match e {
        Call::Function { at, .. } | Call::Method { at, .. } => *at,
    }
}

/// The place of the first token of an expression without suffixes.
pub fn place_of_primary(e: &Primary) -> Place
    ensures { result ≡ of_primary e.now }
{
    match e {
        Primary::Literal(l) => place_of_literal(l),
        Primary::Name(n) => n.at,
        Primary::Parens { at, .. } | Primary::List { at, .. } => *at,
        Primary::Mapping { at, .. } | Primary::Error { at, .. } => *at,
    }
}

/// The place of the first token of a member's key.
pub fn place_of_key(k: &Key) -> Place
    ensures { result ≡ of_key k.now }
{
    match k {
        Key::Word(w) => w.at,
        Key::Str { at, .. } | Key::Computed { at, .. } => *at,
    }
}
