//! What lines of the table say of parts of a statement, as tests. Each takes no memory; those of bodies and clauses step once through them.
#![tactic(auto, using(crate::proofs::SameWords::telling))]

ghost use Rattle.std.specs.Prelude.{◌≡◌, Some, map};
ghost use Rattle.std.specs.List.{list_any};
ghost use Rattle.expr_needs.specs.ExprTable.{read_expr, read_postfix, read_primary};
ghost use Rattle.stmt_needs.specs.StmtTable.{is_any as takes_all_of, is_true as is_word_true, leaves as leaves_by, read_block, read_clause};

use bal_tree::{Block, Clause, Expr, Literal, Pattern, Postfix, Primary};
use tree_places::ends_loop;

/// Whether something goes on behind a loop with this condition and body.
pub(crate) fn leaves(condition: &Expr, body: &Block) -> bool
    ensures { result ≡ leaves_by (read_expr condition.now).literal (read_block body.now).breaks }
{
    !is_true(condition) || ends_loop(body)
}

/// Whether the expression is the word `true`.
fn is_true(e: &Expr) -> bool
    ensures { result ≡ is_word_true (read_expr e.now).literal }
{
    match e {
        Expr::Postfix(e) => postfix_is_true(e),
        Expr::Prefix { .. } | Expr::Cast { .. } | Expr::Binary { .. } => false,
        Expr::TypeTest { .. } | Expr::Conditional { .. } => false,
        Expr::Trap { .. } | Expr::Function { .. } => false,
    }
}

fn postfix_is_true(e: &Postfix) -> bool
    ensures { result ≡ is_word_true (read_postfix e.now).literal }
{
    match e {
        Postfix::Primary(e) => primary_is_true(e),
        Postfix::Call(_) | Postfix::Field { .. } => false,
        Postfix::OptionalField { .. } | Postfix::Index { .. } => false,
    }
}

fn primary_is_true(e: &Primary) -> bool
    ensures { result ≡ is_word_true (read_primary e.now).literal }
{
    match e {
        Primary::Literal(l) => literal_is_true(l),
        Primary::Name(_) | Primary::Parens { .. } => false,
        Primary::List { .. } | Primary::Mapping { .. } | Primary::Error { .. } => false,
    }
}

fn literal_is_true(l: &Literal) -> bool
    ensures { result ≡ is_word_true (Some l.now) }
{
    match l {
        Literal::True { .. } => true,
        Literal::False { .. } | Literal::Int { .. } => false,
        Literal::Str { .. } | Literal::Nil { .. } => false,
    }
}

/// Whether a clause with these patterns takes all that is left.
pub(crate) fn takes_all(ps: &[Pattern]) -> bool
    ensures { result ≡ list_any takes_all_of ps.now }
{
    ps.iter().any(|p| is_any(p))
}

fn is_any(p: &Pattern) -> bool
    ensures { result ≡ takes_all_of p.now }
{
    match p {
        Pattern::Any { .. } => true,
        Pattern::Value(_) | Pattern::Name(_) => false,
    }
}

/// Whether one of the clauses does.
pub(crate) fn some_takes_all(cs: &[Clause]) -> bool
    ensures { result ≡ list_any (λ c. c.takes_all) (map read_clause cs.now) }
{
    any_takes_all(cs)
}

fn any_takes_all(cs: &[Clause]) -> bool
    ensures { result ≡ list_any (λ c. (read_clause c).takes_all) cs.now }
{
    cs.iter().any(|c| clause_takes_all(c))
}

fn clause_takes_all(c: &Clause) -> bool
    ensures { result ≡ (read_clause c.now).takes_all }
{
    takes_all(&c.patterns)
}
