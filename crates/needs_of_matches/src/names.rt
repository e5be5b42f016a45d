//! The name that an expression is, as the table of needs reads it. Each call takes no memory, and looks at the outermost form alone.
#![tactic(auto, using(bal_tree::proofs::ExprLayers::expr_layers))]

ghost use Rattle.std.specs.Prelude.{◌≡◌};
ghost use Rattle.std.specs.Option.{option_copied};
ghost use Rattle.expr_needs.specs.ExprTable.{read_expr, read_postfix, read_primary};

use bal_tree::{Expr, Postfix, Primary, QualifiedName};

/// The name that an expression is, where it is one and nothing else.
pub(crate) fn name_of(e: &Expr) -> Option<&QualifiedName>
    ensures { option_copied result ≡ (read_expr e.now).name }
{
    match e {
        Expr::Postfix(e) => postfix_name(e),
        Expr::Prefix { .. } | Expr::Cast { .. } | Expr::Binary { .. } => None,
        Expr::TypeTest { .. } | Expr::Conditional { .. } => None,
        Expr::Trap { .. } | Expr::Function { .. } => None,
    }
}

/// The same of what may have suffixes.
fn postfix_name(e: &Postfix) -> Option<&QualifiedName>
    ensures { option_copied result ≡ (read_postfix e.now).name }
{
    match e {
        Postfix::Primary(e) => primary_name(e),
        Postfix::Call(_) | Postfix::Field { .. } | Postfix::OptionalField { .. } => None,
        Postfix::Index { .. } => None,
    }
}

/// The same of what has none.
fn primary_name(e: &Primary) -> Option<&QualifiedName>
    ensures { option_copied result ≡ (read_primary e.now).name }
{
    match e {
        Primary::Name(name) => Some(name),
        Primary::Literal(_) | Primary::Parens { .. } | Primary::List { .. } => None,
        Primary::Mapping { .. } | Primary::Error { .. } => None,
    }
}
