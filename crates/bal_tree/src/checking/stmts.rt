//! Statements.
#![tactic(auto, using(crate::proofs::Forms::stmt_forms))]

ghost use Rattle.std.specs.Prelude.{◌≡◌, ◌&&◌, false};
ghost use Rattle.std.specs.List.{list_all};
ghost use Rattle.bal_tree.specs.ExprRules.{expr_is_formed};
ghost use Rattle.bal_tree.specs.StmtRules.{stands_alone as may_stand_alone, local_type_is_formed, target_is_formed, range_is_formed, value_is_formed, stmt_is_formed, else_is_formed, if_is_formed, block_is_formed, clause_is_formed};

use super::actions::rhs;
use super::exprs::{expr, postfix};
use super::types::type_tree;
use crate::action::Rhs;
use crate::expr::Expr;
use crate::stmt::{Block, Clause, Else, IfStmt, LocalType, Range, Stmt, Target};

#[cycle(stmt)]
pub fn stmts(stmts: &[Stmt]) -> bool
    ensures { result ≡ list_all stmt_is_formed stmts.now }
{
    for s in stmts {
        if !stmt(s) {
            return false;
        }
    }
    true
}

#[cycle(stmt)]
pub fn block(b: &Block) -> bool
    ensures { result ≡ block_is_formed b.now }
{
    stmts(&b.stmts)
}

#[cycle(stmt)]
fn stmt(s: &Stmt) -> bool
    ensures { result ≡ stmt_is_formed s.now }
{
    match s {
        Stmt::Local { ty, value, .. } => local_type(ty) && rhs(value),
        Stmt::Assign {
            target: to,
            value,
            ..
        } => target(to) && rhs(value),
        Stmt::Ignore { value, .. } => rhs(value),
        Stmt::Rhs { rhs: value, .. } => stands_alone(value) && rhs(value),
        Stmt::If(s) => if_stmt(s),
        Stmt::While {
            condition,
            body,
            ..
        } => expr(condition, false) && block(body),
        Stmt::Foreach {
            ty,
            from,
            range,
            body,
            ..
        } => over(ty, from, range) && block(body),
        Stmt::Match {
            value,
            clauses: rows,
            ..
        } => { expr(value, false) && !rows.is_empty() && clauses(rows) }
        Stmt::Return { value, .. } => rhs_if_there(value),
        Stmt::Panic { value, .. } => expr(value, false),
        Stmt::Break { .. } | Stmt::Continue { .. } => true,
        Stmt::Block(b) => block(b),
    }
}

fn local_type(ty: &LocalType) -> bool
    ensures { result ≡ local_type_is_formed ty.now }
{
    match ty {
        LocalType::Type(t) => type_tree(t, false),
        LocalType::Var { .. } => true,
    }
}

fn target(t: &Target) -> bool
    ensures { result ≡ target_is_formed t.now }
{
    match t {
        Target::Name(_) => true,
        Target::Index { base, index, .. } => postfix(base, false) && expr(index, false),
        Target::Field { base, .. } => postfix(base, false),
    }
}

/// Whether the expression or action may be a statement.
fn stands_alone(r: &Rhs) -> bool
    ensures { result ≡ may_stand_alone r.now }
{
    match r {
        Rhs::Expr(e) => e.stands_alone(),
        Rhs::Action(_) => true,
    }
}

/// Whether what stands before the block of a loop over values is well formed.
fn over(ty: &LocalType, from: &Expr, range: &Option<Range>) -> bool
    ensures { result ≡ (local_type_is_formed ty.now && expr_is_formed from.now false && range_is_formed range.now) }
{
    local_type(ty) && expr(from, false) && range_if_there(range)
}

fn range_if_there(range: &Option<Range>) -> bool
    ensures { result ≡ range_is_formed range.now }
{
    match range {
        Some(range) => expr(&range.end, false),
        None => true,
    }
}

fn rhs_if_there(r: &Option<Rhs>) -> bool
    ensures { result ≡ value_is_formed r.now }
{
    match r {
        Some(r) => rhs(r),
        None => true,
    }
}

#[cycle(stmt)]
fn if_stmt(s: &IfStmt) -> bool
    ensures { result ≡ if_is_formed s.now }
{
    match &s.otherwise {
        None => expr(&s.condition, false) && block(&s.then),
        Some(e) => expr(&s.condition, false) && block(&s.then) && behind_else(e),
    }
}

#[cycle(stmt)]
fn behind_else(e: &Else) -> bool
    ensures { result ≡ else_is_formed e.now }
{
    match e {
        Else::If(s) => if_stmt(s),
        Else::Block(b) => block(b),
    }
}

#[cycle(stmt)]
fn clauses(clauses: &[Clause]) -> bool
    ensures { result ≡ list_all clause_is_formed clauses.now }
{
    for c in clauses {
        if !clause(c) {
            return false;
        }
    }
    true
}

#[cycle(stmt)]
fn clause(c: &Clause) -> bool
    ensures { result ≡ clause_is_formed c.now }
{
    !c.patterns.is_empty() && block(&c.body)
}
