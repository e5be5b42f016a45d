//! How many nodes a package has.
#![tactic(auto, using(crate::proofs::Running::counting))]

ghost use Rattle.std.specs.Prelude.{◌≡◌, map};
ghost use Rattle.typed_tree.specs.Listed.{run, joined, if_boxed};
ghost use Rattle.typed_tree.specs.Nodes.{counted, node_count, expr_nodes, exprs_nodes, target_nodes, source_nodes, pattern_nodes, stmt_nodes, clause_nodes, stmts_nodes, worker_nodes, body_nodes, function_nodes, initial_nodes, initialiser_nodes, package_nodes};

use crate::expr::TypedExpr;
use crate::package::{Initial, Initialiser, TypedPackage};
use crate::stmt::{Source, TypedClause, TypedPattern, TypedStmt, UpdateTarget};
use crate::unit::{TypedBody, TypedFunction, TypedWorker};

/// How many nodes the package has: expressions, actions, statements and patterns. 2^64 - 1 where there are more.
/// Takes no memory.
pub fn nodes(package: &TypedPackage) -> u64
    ensures { result ≡ node_count «package».now }
{
    all(package, 0)
}

fn all(package: &TypedPackage, before: u64) -> u64
    ensures { result ≡ run counted (package_nodes «package».now) before }
{
    initialisers(&package.initialisers, functions(&package.functions, before))
}

fn functions(functions: &[TypedFunction], before: u64) -> u64
    ensures { result ≡ run counted (joined (map function_nodes functions.now)) before }
{
    let mut count = before;
    for f in functions {
        count = function(f, count);
    }
    count
}

fn function(f: &TypedFunction, before: u64) -> u64
    ensures { result ≡ run counted (function_nodes f.now) before }
{
    body(&f.body, before)
}

fn initialisers(initialisers: &[Initialiser], before: u64) -> u64
    ensures { result ≡ run counted (joined (map initialiser_nodes initialisers.now)) before }
{
    let mut count = before;
    for i in initialisers {
        count = initialiser(i, count);
    }
    count
}

fn initialiser(i: &Initialiser, before: u64) -> u64
    ensures { result ≡ run counted (initialiser_nodes i.now) before }
{
    initials(&i.values, before)
}

fn initials(initials: &[Initial], before: u64) -> u64
    ensures { result ≡ run counted (joined (map initial_nodes initials.now)) before }
{
    let mut count = before;
    for i in initials {
        count = initial(i, count);
    }
    count
}

fn initial(i: &Initial, before: u64) -> u64
    ensures { result ≡ run counted (initial_nodes i.now) before }
{
    expr(&i.value, before)
}

fn body(b: &TypedBody, before: u64) -> u64
    ensures { result ≡ run counted (body_nodes b.now) before }
{
    match b {
        TypedBody::Block {
            initial,
            workers: named,
            rest,
            ..
        } => stmts(rest, workers(named, stmts(initial, before))),
        TypedBody::Expr { value } => expr(value, before),
    }
}

fn workers(workers: &[TypedWorker], before: u64) -> u64
    ensures { result ≡ run counted (joined (map worker_nodes workers.now)) before }
{
    let mut count = before;
    for w in workers {
        count = worker(w, count);
    }
    count
}

fn worker(w: &TypedWorker, before: u64) -> u64
    ensures { result ≡ run counted (worker_nodes w.now) before }
{
    stmts(&w.stmts, before)
}

#[cycle(stmt)]
fn stmts(stmts: &[TypedStmt], before: u64) -> u64
    ensures { result ≡ run counted (stmts_nodes stmts.now) before }
{
    let mut count = before;
    for s in stmts {
        count = stmt(s, count);
    }
    count
}

#[cycle(stmt)]
fn stmt(s: &TypedStmt, before: u64) -> u64
    ensures { result ≡ run counted (stmt_nodes s.now) before }
{
    let before = before.saturating_add(1);
    match s {
        TypedStmt::Set { value, .. } => expr(value, before),
        TypedStmt::Perform { operands, .. } => exprs(operands, before),
        TypedStmt::Update {
            target: to,
            value,
            ..
        } => expr(value, target(to, before)),
        TypedStmt::If {
            condition,
            first,
            second,
            ..
        } => stmts(second, stmts(first, expr(condition, before))),
        TypedStmt::While {
            condition,
            body,
            ..
        } => stmts(body, expr(condition, before)),
        TypedStmt::Foreach {
            source: from,
            body,
            ..
        } => stmts(body, source(from, before)),
        TypedStmt::Match {
            subject,
            clauses: rows,
            ..
        } => clauses(rows, expr(subject, before)),
        TypedStmt::Return { value: None, .. } => before,
        TypedStmt::Return { value: Some(e), .. } => expr(e, before),
        TypedStmt::Block { stmts: inside, .. } => stmts(inside, before),
        TypedStmt::Break { .. } | TypedStmt::Continue { .. } => before,
    }
}

#[cycle(stmt)]
fn clauses(clauses: &[TypedClause], before: u64) -> u64
    ensures { result ≡ run counted (joined (map clause_nodes clauses.now)) before }
{
    let mut count = before;
    for c in clauses {
        count = clause(c, count);
    }
    count
}

#[cycle(stmt)]
fn clause(c: &TypedClause, before: u64) -> u64
    ensures { result ≡ run counted (clause_nodes c.now) before }
{
    stmts(&c.stmts, patterns(&c.patterns, before))
}

fn patterns(patterns: &[TypedPattern], before: u64) -> u64
    ensures { result ≡ run counted (joined (map pattern_nodes patterns.now)) before }
{
    let mut count = before;
    for p in patterns {
        count = pattern(p, count);
    }
    count
}

fn pattern(p: &TypedPattern, before: u64) -> u64
    ensures { result ≡ run counted (pattern_nodes p.now) before }
{
    before.saturating_add(1)
}

fn target(t: &UpdateTarget, before: u64) -> u64
    ensures { result ≡ run counted (target_nodes t.now) before }
{
    match t {
        UpdateTarget::Local { .. } | UpdateTarget::Variable(_) => before,
        UpdateTarget::Member { container, key, .. } => expr(key, expr(container, before)),
    }
}

fn source(s: &Source, before: u64) -> u64
    ensures { result ≡ run counted (source_nodes s.now) before }
{
    match s {
        Source::Range { from, to, .. } => expr(to, expr(from, before)),
        Source::List { list, .. } => expr(list, before),
    }
}

#[cycle(expr)]
fn exprs(exprs: &[TypedExpr], before: u64) -> u64
    ensures { result ≡ run counted (exprs_nodes exprs.now) before }
{
    let mut count = before;
    for e in exprs {
        count = expr(e, count);
    }
    count
}

#[cycle(expr)]
fn expr(e: &TypedExpr, before: u64) -> u64
    ensures { result ≡ run counted (expr_nodes e.now) before }
{
    let more = before.saturating_add(1);
    match e {
        TypedExpr::Strict { operands, .. } => exprs(operands, more),
        TypedExpr::Implied { .. } => before,
        TypedExpr::Local { .. } => more,
        TypedExpr::And { left, right, .. } | TypedExpr::Or { left, right, .. } => {
            expr(right, expr(left, more))
        }
        TypedExpr::Conditional {
            condition,
            middle,
            last,
            ..
        } => expr(last, expr(middle, expr(condition, more))),
        TypedExpr::Elvis { left, right, .. } => expr(right, expr(left, more)),
        TypedExpr::Check { operand, .. } | TypedExpr::Trap { operand, .. } => expr(operand, more),
        TypedExpr::Function { value, .. } => expr(value, more),
        TypedExpr::Parens { inner, .. } => expr(inner, more),
    }
}
