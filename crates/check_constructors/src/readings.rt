//! What is seen of members in the text.
#![tactic(auto, using(bal_tree::proofs::ExprLayers::expr_layers))]

ghost use Rattle.std.specs.Prelude.{◌≡◌};
ghost use Rattle.std.specs.Option.{option_copied};
ghost use Rattle.expr_needs.specs.ExprTable.{read_expr, read_key, read_member, read_postfix, read_primary, seen_of};

use bal_base::Text;
use bal_tree::{Expr, Key, Literal, Member, Postfix, Primary};

/// The literal that an expression is, if it is one.
pub fn literal(e: &Expr) -> Option<&Literal>
    ensures { option_copied result ≡ (read_expr e.now).literal }
{
    match e {
        Expr::Postfix(e) => postfix_literal(e),
        Expr::Prefix { .. } | Expr::Cast { .. } | Expr::Binary { .. } => None,
        Expr::TypeTest { .. } | Expr::Conditional { .. } => None,
        Expr::Trap { .. } | Expr::Function { .. } => None,
    }
}

fn postfix_literal(e: &Postfix) -> Option<&Literal>
    ensures { option_copied result ≡ (read_postfix e.now).literal }
{
    match e {
        Postfix::Primary(e) => primary_literal(e),
        Postfix::Call(_) | Postfix::Field { .. } => None,
        Postfix::OptionalField { .. } | Postfix::Index { .. } => None,
    }
}

fn primary_literal(e: &Primary) -> Option<&Literal>
    ensures { option_copied result ≡ (read_primary e.now).literal }
{
    match e {
        Primary::Literal(l) => Some(l),
        Primary::Name(_) | Primary::Parens { .. } => None,
        Primary::List { .. } | Primary::Mapping { .. } | Primary::Error { .. } => None,
    }
}

/// The key, where it isn't computed.
fn key(k: &Key) -> Option<&Text>
    ensures { option_copied result ≡ (read_key k.now).key }
{
    match k {
        Key::Word(w) => Some(w.name.as_text()),
        Key::Str { text, .. } => Some(text),
        Key::Computed { .. } => None,
    }
}

/// The key of a member of a mapping constructor, where it isn't computed.
pub fn member_key(m: &Member) -> Option<&Text>
    ensures { option_copied result ≡ (seen_of (read_member m.now)).key }
{
    key(&m.key)
}

/// The literal that a member of a mapping constructor is, if it is one.
pub fn member_literal(m: &Member) -> Option<&Literal>
    ensures { option_copied result ≡ (seen_of (read_member m.now)).literal }
{
    literal(&m.value)
}
