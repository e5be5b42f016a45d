//! A search in statements.
#![tactic(auto, using(crate::proofs::Walks::walking))]

ghost use Rattle.std.specs.Prelude.{map};
ghost use Rattle.typed_tree.specs.Listed.{joined};
ghost use Rattle.typed_tree.specs.StmtLayers.{of_typed_clause, of_typed_stmt};
ghost use Rattle.worker_pairing.specs.Marks.{marking, stmts_marks};
ghost use Rattle.event_search.specs.inner.Walking.{Goes};

use crate::exprs::{expr, exprs, source, target};
use crate::search::Search;
use typed_tree::{TypedClause, TypedStmt};

/// Statements, one behind another.
#[cycle(stmt)]
pub(crate) fn stmts<'a>(search: &mut Search<'a>, ss: &'a [TypedStmt], initial: bool)
    ensures { Goes initial (stmts_marks ss.now) search.old search.new }
{
    for s in ss {
        stmt(search, s, initial);
    }
}

#[cycle(stmt)]
fn stmt<'a>(search: &mut Search<'a>, s: &'a TypedStmt, initial: bool)
    ensures { Goes initial (of_typed_stmt marking s.now) search.old search.new }
{
    match s {
        TypedStmt::Set { value, .. } => expr(search, value, initial),
        TypedStmt::Perform { operands, .. } => exprs(search, operands, initial),
        TypedStmt::Update {
            target: to,
            value,
            ..
        } => {
            target(search, to, initial);
            expr(search, value, initial);
        }
        TypedStmt::If {
            condition,
            first,
            second,
            ..
        } => {
            expr(search, condition, initial);
            stmts(search, first, initial);
            stmts(search, second, initial);
        }
        TypedStmt::While {
            condition,
            body,
            ..
        } => {
            expr(search, condition, initial);
            stmts(search, body, initial);
        }
        TypedStmt::Foreach {
            source: from,
            body,
            ..
        } => {
            source(search, from, initial);
            stmts(search, body, initial);
        }
        TypedStmt::Match {
            subject,
            clauses: rows,
            ..
        } => {
            expr(search, subject, initial);
            clauses(search, rows, initial);
        }
        TypedStmt::Return { value: Some(e), .. } => expr(search, e, initial),
        TypedStmt::Block { stmts: inside, .. } => stmts(search, inside, initial),
        TypedStmt::Return { value: None, .. } => {}
        TypedStmt::Break { .. } | TypedStmt::Continue { .. } => {}
    }
}

#[cycle(stmt)]
fn clauses<'a>(search: &mut Search<'a>, cs: &'a [TypedClause], initial: bool)
    ensures { Goes initial (joined (map (of_typed_clause marking) cs.now)) search.old search.new }
{
    for c in cs {
        clause(search, c, initial);
    }
}

#[cycle(stmt)]
fn clause<'a>(search: &mut Search<'a>, c: &'a TypedClause, initial: bool)
    ensures { Goes initial (of_typed_clause marking c.now) search.old search.new }
{
    stmts(search, &c.stmts, initial);
}
