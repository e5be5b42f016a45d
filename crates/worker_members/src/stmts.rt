//! What is heard of statements.
#![tactic(auto, using(crate::proofs::Growing::growing))]

ghost use Rattle.std.specs.Prelude.{map};
ghost use Rattle.typed_tree.specs.Exprs.{type_of};
ghost use Rattle.typed_tree.specs.Listed.{joined, one, ◌&◌};
ghost use Rattle.typed_tree.specs.SharedTypes.{sem_of};
ghost use Rattle.typed_tree.specs.StmtLayers.{of_typed_clause, of_typed_stmt};
ghost use Rattle.worker_pairing.specs.Marks.{Early, Returns, expr_marks, marking, stmts_marks};
ghost use Rattle.worker_members.specs.inner.Hearing.{Grows};

use crate::exprs::{expr, exprs, source, target};
use crate::hearing::{Heard, Spot};
use crate::held::SaidType;
use bal_base::Place;
use typed_tree::{TypedClause, TypedExpr, TypedStmt};

/// A return of a value.
fn returned<'a>(heard: &mut Heard<'a>, e: &'a TypedExpr, at: Place, spot: Spot)
    ensures { Grows spot (expr_marks e.now & one Early & one (Returns (sem_of (type_of e.now)) at)) heard.old heard.new }
{
    expr(heard, e, spot);
    heard.end_early(spot);
    heard.give_back(spot, SaidType::Of(e.ty()), at);
}

/// Statements, one behind another.
#[cycle(stmt)]
pub(crate) fn stmts<'a>(heard: &mut Heard<'a>, ss: &'a [TypedStmt], spot: Spot)
    ensures { Grows spot (stmts_marks ss.now) heard.old heard.new }
{
    for s in ss {
        stmt(heard, s, spot);
    }
}

#[cycle(stmt)]
fn stmt<'a>(heard: &mut Heard<'a>, s: &'a TypedStmt, spot: Spot)
    ensures { Grows spot (of_typed_stmt marking s.now) heard.old heard.new }
{
    match s {
        TypedStmt::Set { value, .. } => expr(heard, value, spot),
        TypedStmt::Perform { operands, .. } => exprs(heard, operands, spot),
        TypedStmt::Update {
            target: to,
            value,
            ..
        } => {
            target(heard, to, spot);
            expr(heard, value, spot);
        }
        TypedStmt::If {
            condition,
            first,
            second,
            ..
        } => {
            expr(heard, condition, spot);
            stmts(heard, first, spot.aside());
            stmts(heard, second, spot.aside());
        }
        TypedStmt::While {
            condition,
            body,
            ..
        } => {
            expr(heard, condition, spot.aside());
            stmts(heard, body, spot.aside());
        }
        TypedStmt::Foreach {
            source: from,
            body,
            ..
        } => {
            source(heard, from, spot.aside());
            stmts(heard, body, spot.aside());
        }
        TypedStmt::Match {
            subject,
            clauses: rows,
            ..
        } => {
            expr(heard, subject, spot);
            clauses(heard, rows, spot.aside());
        }
        TypedStmt::Return { value: None, at } => heard.give_back(spot, SaidType::Nil, *at),
        TypedStmt::Return { value: Some(e), at } => returned(heard, e, *at, spot),
        TypedStmt::Block { stmts: inside, .. } => stmts(heard, inside, spot.aside()),
        TypedStmt::Break { .. } | TypedStmt::Continue { .. } => {}
    }
}

#[cycle(stmt)]
fn clauses<'a>(heard: &mut Heard<'a>, cs: &'a [TypedClause], spot: Spot)
    ensures { Grows spot (joined (map (of_typed_clause marking) cs.now)) heard.old heard.new }
{
    for c in cs {
        clause(heard, c, spot);
    }
}

#[cycle(stmt)]
fn clause<'a>(heard: &mut Heard<'a>, c: &'a TypedClause, spot: Spot)
    ensures { Grows spot (of_typed_clause marking c.now) heard.old heard.new }
{
    stmts(heard, &c.stmts, spot);
}
