//! Statements.
#![tactic(auto, using(bal_tree::proofs::StmtLayers::stmt_layers))]

ghost use Rattle.std.specs.Prelude.{◌≡◌, OnOk, map};
ghost use Rattle.typed_tree.specs.Listed.{joined, if_there, if_boxed, run};
ghost use Rattle.typed_tree.specs.SoFar.{progress};
ghost use Rattle.typed_tree.specs.Skeleton.{block_sights, clause_sights, else_sights, if_sights, range_sights, return_sights, see, stmt_sights, stmts_sights, target_sights};

use super::actions::{expr, rhs};
use super::exprs;
use super::progress::{Observer, Seen};
use bal_base::Memory;
use bal_tree::{Block, Clause, Else, IfStmt, Range, Rhs, Stmt, Target, Worker};

#[cycle(stmts)]
pub fn stmts(
    seen: &mut Seen,
    workers: &[Worker],
    by: Observer,
    stmts: &[Stmt],
) -> Result<(), Memory>
    ensures { OnOk result (progress seen.new ≡ run (see by.own by.counts) (stmts_sights workers.now by.own stmts.now) (progress seen.old)) }
{
    for s in stmts {
        stmt(seen, workers, by, s)?;
    }
    Ok(())
}

#[cycle(stmts)]
pub fn block(seen: &mut Seen, workers: &[Worker], by: Observer, b: &Block) -> Result<(), Memory>
    ensures { OnOk result (progress seen.new ≡ run (see by.own by.counts) (block_sights workers.now by.own b.now) (progress seen.old)) }
{
    stmts(seen, workers, by, &b.stmts)
}

#[cycle(stmts)]
fn stmt(seen: &mut Seen, workers: &[Worker], by: Observer, s: &Stmt) -> Result<(), Memory>
    ensures { OnOk result (progress seen.new ≡ run (see by.own by.counts) (stmt_sights workers.now by.own s.now) (progress seen.old)) }
{
    match s {
        Stmt::Local { value, .. } | Stmt::Ignore { value, .. } => rhs(seen, workers, by, value),
        Stmt::Assign {
            target: to,
            value,
            ..
        } => {
            target(seen, by, to);
            rhs(seen, workers, by, value)
        }
        Stmt::Rhs { rhs: value, .. } => rhs(seen, workers, by, value),
        Stmt::If(s) => if_stmt(seen, workers, by, s),
        Stmt::While {
            condition,
            body,
            ..
        } => {
            expr(seen, by, condition);
            block(seen, workers, by, body)
        }
        Stmt::Foreach {
            from,
            range: to,
            body,
            ..
        } => {
            expr(seen, by, from);
            range(seen, by, to);
            block(seen, workers, by, body)
        }
        Stmt::Match {
            value,
            clauses: rows,
            ..
        } => {
            expr(seen, by, value);
            clauses(seen, workers, by, rows)
        }
        Stmt::Return { value, .. } => returned(seen, workers, by, value),
        Stmt::Panic { value, .. } => {
            expr(seen, by, value);
            Ok(())
        }
        Stmt::Break { .. } | Stmt::Continue { .. } => Ok(()),
        Stmt::Block(b) => block(seen, workers, by, b),
    }
}

#[cycle(stmts)]
fn if_stmt(seen: &mut Seen, workers: &[Worker], by: Observer, s: &IfStmt) -> Result<(), Memory>
    ensures { OnOk result (progress seen.new ≡ run (see by.own by.counts) (if_sights workers.now by.own s.now) (progress seen.old)) }
{
    expr(seen, by, &s.condition);
    block(seen, workers, by, &s.then)?;
    match &s.otherwise {
        None => Ok(()),
        Some(e) => otherwise(seen, workers, by, e),
    }
}

#[cycle(stmts)]
fn otherwise(seen: &mut Seen, workers: &[Worker], by: Observer, e: &Else) -> Result<(), Memory>
    ensures { OnOk result (progress seen.new ≡ run (see by.own by.counts) (else_sights workers.now by.own e.now) (progress seen.old)) }
{
    match e {
        Else::If(s) => if_stmt(seen, workers, by, s),
        Else::Block(b) => block(seen, workers, by, b),
    }
}

#[cycle(stmts)]
fn clauses(
    seen: &mut Seen,
    workers: &[Worker],
    by: Observer,
    clauses: &[Clause],
) -> Result<(), Memory>
    ensures { OnOk result (progress seen.new ≡ run (see by.own by.counts) (joined (map (clause_sights workers.now by.own) clauses.now)) (progress seen.old)) }
{
    for c in clauses {
        clause(seen, workers, by, c)?;
    }
    Ok(())
}

#[cycle(stmts)]
fn clause(seen: &mut Seen, workers: &[Worker], by: Observer, c: &Clause) -> Result<(), Memory>
    ensures { OnOk result (progress seen.new ≡ run (see by.own by.counts) (clause_sights workers.now by.own c.now) (progress seen.old)) }
{
    block(seen, workers, by, &c.body)
}

/// What a return gives, and the return, where it has an expression.
fn returned(
    seen: &mut Seen,
    workers: &[Worker],
    by: Observer,
    value: &Option<Rhs>,
) -> Result<(), Memory>
    ensures { OnOk result (progress seen.new ≡ run (see by.own by.counts) (return_sights workers.now by.own value.now) (progress seen.old)) }
{
    if let Some(value) = value {
        rhs(seen, workers, by, value)?;
        seen.end_early(by);
    }
    Ok(())
}

fn target(seen: &mut Seen, by: Observer, t: &Target)
    ensures { progress seen.new ≡ run (see by.own by.counts) (target_sights t.now) (progress seen.old) }
{
    match t {
        Target::Name(_) => {}
        Target::Index { base, index, .. } => {
            seen.unless(by, exprs::postfix(base));
            expr(seen, by, index);
        }
        Target::Field { base, .. } => seen.unless(by, exprs::postfix(base)),
    }
}

fn range(seen: &mut Seen, by: Observer, r: &Option<Range>)
    ensures { progress seen.new ≡ run (see by.own by.counts) (if_there range_sights r.now) (progress seen.old) }
{
    if let Some(r) = r {
        expr(seen, by, &r.end);
    }
}
