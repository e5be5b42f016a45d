//! The name that an expression is. Each takes no memory, and looks at the outermost form alone.
#![tactic(auto, using(bal_tree::proofs::ExprLayers::expr_layers))]

ghost use Rattle.std.specs.Prelude.{◌≡◌};
ghost use Rattle.std.specs.Option.{option_copied};
ghost use Rattle.tree_places.specs.NameOf.{name_of_expr as of_expr, name_of_postfix as of_postfix, name_of_primary as of_primary};

use bal_tree::{Expr, Postfix, Primary, QualifiedName};

/// The name that the expression is, where it is one and nothing else.
pub fn name_of_expr(e: &Expr) -> Option<&QualifiedName>
    ensures { option_copied result ≡ of_expr e.now }
{
    match e {
        Expr::Postfix(e) => name_of_postfix(e),
        Expr::Prefix { .. } | Expr::Cast { .. } | Expr::Binary { .. } => None,
        Expr::TypeTest { .. } | Expr::Conditional { .. } => None,
        Expr::Trap { .. } | Expr::Function { .. } => None,
    }
}

/// The same of what may have suffixes.
pub fn name_of_postfix(e: &Postfix) -> Option<&QualifiedName>
    ensures { option_copied result ≡ of_postfix e.now }
{
    match e {
        Postfix::Primary(e) => name_of_primary(e),
        Postfix::Call(_) | Postfix::Field { .. } | Postfix::OptionalField { .. } => None,
        Postfix::Index { .. } => None,
    }
}

fn name_of_primary(e: &Primary) -> Option<&QualifiedName>
    ensures { option_copied result ≡ of_primary e.now }
{
    match e {
        Primary::Name(n) => Some(n),
        Primary::Literal(_) | Primary::Parens { .. } | Primary::List { .. } => None,
        Primary::Mapping { .. } | Primary::Error { .. } => None,
    }
}
