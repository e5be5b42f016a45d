//! The anonymous functions of statements.
#![tactic(auto, using(crate::proofs::Noting::noting))]

ghost use Rattle.std.specs.Prelude.{◌≡◌, map};
ghost use Rattle.typed_tree.specs.Listed.{joined, run};
ghost use Rattle.typed_tree.specs.StmtLayers.{of_typed_clause, of_typed_stmt};
ghost use Rattle.typed_tree.specs.Units.{listing, stmts_units};
ghost use Rattle.package_units.specs.Noted.{noted, noted_of};

use crate::noted::Noted;
use crate::walk_exprs::{expr, exprs, source, target};
use typed_tree::{TypedClause, TypedStmt};

/// Notes the anonymous functions of statements.
#[cycle(stmt)]
pub fn stmts<'a>(n: &mut Noted<'a>, ss: &'a [TypedStmt])
    ensures { noted_of n.new ≡ run noted (stmts_units ss.now) (noted_of n.old) }
{
    for s in ss {
        stmt(n, s);
    }
}

/// Notes the anonymous functions of a statement.
#[cycle(stmt)]
fn stmt<'a>(n: &mut Noted<'a>, s: &'a TypedStmt)
    ensures { noted_of n.new ≡ run noted (of_typed_stmt listing s.now) (noted_of n.old) }
{
    match s {
        TypedStmt::Set { value, .. } => expr(n, value),
        TypedStmt::Perform { operands, .. } => exprs(n, operands),
        TypedStmt::Update {
            target: to,
            value,
            ..
        } => {
            target(n, to);
            expr(n, value);
        }
        TypedStmt::If {
            condition,
            first,
            second,
            ..
        } => {
            expr(n, condition);
            stmts(n, first);
            stmts(n, second);
        }
        TypedStmt::While {
            condition,
            body,
            ..
        } => {
            expr(n, condition);
            stmts(n, body);
        }
        TypedStmt::Foreach {
            source: from,
            body,
            ..
        } => {
            source(n, from);
            stmts(n, body);
        }
        TypedStmt::Match {
            subject,
            clauses: rows,
            ..
        } => {
            expr(n, subject);
            clauses(n, rows);
        }
        TypedStmt::Return { value: None, .. } => {}
        TypedStmt::Return { value: Some(e), .. } => expr(n, e),
        TypedStmt::Block { stmts: inside, .. } => stmts(n, inside),
        TypedStmt::Break { .. } | TypedStmt::Continue { .. } => {}
    }
}

/// Notes the anonymous functions of clauses.
#[cycle(stmt)]
fn clauses<'a>(n: &mut Noted<'a>, cs: &'a [TypedClause])
    ensures { noted_of n.new ≡ run noted (joined (map (of_typed_clause listing) cs.now)) (noted_of n.old) }
{
    for c in cs {
        clause(n, c);
    }
}

/// Notes the anonymous functions of a clause.
#[cycle(stmt)]
fn clause<'a>(n: &mut Noted<'a>, c: &'a TypedClause)
    ensures { noted_of n.new ≡ run noted (of_typed_clause listing c.now) (noted_of n.old) }
{
    stmts(n, &c.stmts);
}
