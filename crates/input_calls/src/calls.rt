//! Whether a package calls `io:readln` anywhere.
#![tactic(auto, using(crate::proofs::Asking::asking))]

ghost use Rattle.std.specs.Prelude.{◌≡◌, ◌↔◌, IsTrue, map};
ghost use Rattle.typed_tree.specs.Listed.{joined, run};
ghost use Rattle.input_calls.specs.Calls.{CallsReadln, asked, asks, body_calls, clause_calls, expr_calls, exprs_calls, form_calls, function_calls, initial_calls, initialiser_calls, package_calls, source_calls, stmt_calls, stmts_calls, target_calls, worker_calls};

use operations::LibraryCall;
use typed_tree::{
    Initial, Initialiser, Source, StrictForm, TypedBody, TypedClause, TypedExpr, TypedFunction,
    TypedPackage, TypedStmt, TypedWorker, UpdateTarget,
};

/// Whether `io:readln` is called anywhere in the package, in a function that is never called, too. Takes no memory, and time that
/// grows with the nodes of the package.
pub fn calls_readln(package: &TypedPackage) -> bool
    ensures { IsTrue result ↔ CallsReadln «package».now }
{
    all(package, false)
}

fn all(package: &TypedPackage, before: bool) -> bool
    ensures { result ≡ run asked (package_calls «package».now) before }
{
    initialisers(&package.initialisers, functions(&package.functions, before))
}

fn functions(functions: &[TypedFunction], before: bool) -> bool
    ensures { result ≡ run asked (joined (map function_calls functions.now)) before }
{
    let mut found = before;
    for f in functions {
        found = function(f, found);
    }
    found
}

fn function(f: &TypedFunction, before: bool) -> bool
    ensures { result ≡ run asked (function_calls f.now) before }
{
    body(&f.body, before)
}

fn initialisers(initialisers: &[Initialiser], before: bool) -> bool
    ensures { result ≡ run asked (joined (map initialiser_calls initialisers.now)) before }
{
    let mut found = before;
    for i in initialisers {
        found = initialiser(i, found);
    }
    found
}

fn initialiser(i: &Initialiser, before: bool) -> bool
    ensures { result ≡ run asked (initialiser_calls i.now) before }
{
    initials(&i.values, before)
}

fn initials(initials: &[Initial], before: bool) -> bool
    ensures { result ≡ run asked (joined (map initial_calls initials.now)) before }
{
    let mut found = before;
    for i in initials {
        found = initial(i, found);
    }
    found
}

fn initial(i: &Initial, before: bool) -> bool
    ensures { result ≡ run asked (initial_calls i.now) before }
{
    expr(&i.value, before)
}

fn body(b: &TypedBody, before: bool) -> bool
    ensures { result ≡ run asked (body_calls b.now) before }
{
    match b {
        TypedBody::Block {
            initial,
            workers: named,
            rest,
            ..
        } => stmts(rest, workers(named, stmts(initial, before))),
        TypedBody::Expr { value } => expr(value, before),
    }
}

fn workers(workers: &[TypedWorker], before: bool) -> bool
    ensures { result ≡ run asked (joined (map worker_calls workers.now)) before }
{
    let mut found = before;
    for w in workers {
        found = worker(w, found);
    }
    found
}

fn worker(w: &TypedWorker, before: bool) -> bool
    ensures { result ≡ run asked (worker_calls w.now) before }
{
    stmts(&w.stmts, before)
}

#[cycle(stmt)]
fn stmts(stmts: &[TypedStmt], before: bool) -> bool
    ensures { result ≡ run asked (stmts_calls stmts.now) before }
{
    let mut found = before;
    for s in stmts {
        found = stmt(s, found);
    }
    found
}

#[cycle(stmt)]
fn stmt(s: &TypedStmt, before: bool) -> bool
    ensures { result ≡ run asked (stmt_calls s.now) before }
{
    match s {
        TypedStmt::Set { value, .. } => expr(value, before),
        TypedStmt::Perform { operands, .. } => exprs(operands, before),
        TypedStmt::Update {
            target: to,
            value,
            ..
        } => expr(value, target(to, before)),
        TypedStmt::If {
            condition,
            first,
            second,
            ..
        } => stmts(second, stmts(first, expr(condition, before))),
        TypedStmt::While {
            condition,
            body,
            ..
        } => stmts(body, expr(condition, before)),
        TypedStmt::Foreach {
            source: from,
            body,
            ..
        } => stmts(body, source(from, before)),
        TypedStmt::Match {
            subject,
            clauses: rows,
            ..
        } => clauses(rows, expr(subject, before)),
        TypedStmt::Return { value: None, .. } => before,
        TypedStmt::Return { value: Some(e), .. } => expr(e, before),
        TypedStmt::Block { stmts: inside, .. } => stmts(inside, before),
        TypedStmt::Break { .. } | TypedStmt::Continue { .. } => before,
    }
}

#[cycle(stmt)]
fn clauses(clauses: &[TypedClause], before: bool) -> bool
    ensures { result ≡ run asked (joined (map clause_calls clauses.now)) before }
{
    let mut found = before;
    for c in clauses {
        found = clause(c, found);
    }
    found
}

#[cycle(stmt)]
fn clause(c: &TypedClause, before: bool) -> bool
    ensures { result ≡ run asked (clause_calls c.now) before }
{
    stmts(&c.stmts, before)
}

fn target(t: &UpdateTarget, before: bool) -> bool
    ensures { result ≡ run asked (target_calls t.now) before }
{
    match t {
        UpdateTarget::Local { .. } | UpdateTarget::Variable(_) => before,
        UpdateTarget::Member { container, key, .. } => expr(key, expr(container, before)),
    }
}

fn source(s: &Source, before: bool) -> bool
    ensures { result ≡ run asked (source_calls s.now) before }
{
    match s {
        Source::Range { from, to, .. } => expr(to, expr(from, before)),
        Source::List { list, .. } => expr(list, before),
    }
}

#[cycle(expr)]
fn exprs(exprs: &[TypedExpr], before: bool) -> bool
    ensures { result ≡ run asked (exprs_calls exprs.now) before }
{
    let mut found = before;
    for e in exprs {
        found = expr(e, found);
    }
    found
}

#[cycle(expr)]
fn expr(e: &TypedExpr, before: bool) -> bool
    ensures { result ≡ run asked (expr_calls e.now) before }
{
    match e {
        TypedExpr::Strict {
            form: done,
            operands,
            ..
        } => form(done, exprs(operands, before)),
        TypedExpr::Implied { .. } | TypedExpr::Local { .. } => before,
        TypedExpr::And { left, right, .. } | TypedExpr::Or { left, right, .. } => {
            expr(right, expr(left, before))
        }
        TypedExpr::Conditional {
            condition,
            middle,
            last,
            ..
        } => expr(last, expr(middle, expr(condition, before))),
        TypedExpr::Elvis { left, right, .. } => expr(right, expr(left, before)),
        TypedExpr::Check { operand, .. } | TypedExpr::Trap { operand, .. } => expr(operand, before),
        TypedExpr::Function { value, .. } => expr(value, before),
        TypedExpr::Parens { inner, .. } => expr(inner, before),
    }
}

/// What a construct does with the values of its operands.
fn form(f: &StrictForm, before: bool) -> bool
    ensures { result ≡ run asked (form_calls f.now) before }
{
    match f {
        StrictForm::Library { call, .. } => before || is_readln(*call),
        StrictForm::Literal(_) | StrictForm::Constant(_) | StrictForm::Variable(_) => before,
        StrictForm::FunctionName { .. } | StrictForm::Operator(_) | StrictForm::Is(_) => before,
        StrictForm::Cast(_) | StrictForm::List { .. } | StrictForm::Mapping { .. } => before,
        StrictForm::Error | StrictForm::Read(_) | StrictForm::Call(_) => before,
        StrictForm::Start(_) | StrictForm::Send(_) | StrictForm::SyncSend(_) => before,
        StrictForm::Receive(_) | StrictForm::Flush(_) => before,
        StrictForm::WaitAny(_) | StrictForm::WaitAll { .. } => before,
    }
}

fn is_readln(call: LibraryCall) -> bool
    ensures { result ≡ asks call }
{
    matches!(call, LibraryCall::Readln)
}
