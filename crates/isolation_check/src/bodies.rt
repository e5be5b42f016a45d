//! The parts of statements and bodies.
#![tactic(auto, using(crate::proofs::Growing::growing))]

ghost use Rattle.std.specs.Prelude.{map};
ghost use Rattle.typed_tree.specs.Listed.{joined};
ghost use Rattle.typed_tree.specs.StmtLayers.{of_typed_clause, of_typed_stmt};
ghost use Rattle.isolation_check.specs.Parts.{body_parts, initial_parts, initialiser_parts, noting, of_body, perform_parts, source_parts, stmts_parts, target_parts, worker_parts};
ghost use Rattle.isolation_check.specs.inner.Views.{Grows};

use crate::parts::{Deed, Found, Within, expr};
use bal_base::Place;
use typed_tree::{
    Initial, Initialiser, PerformForm, Source, TypedBody, TypedClause, TypedExpr, TypedStmt,
    TypedWorker, UpdateTarget,
};

/// An expression or an action of the body itself.
fn part<'a>(found: &mut Found<'a>, e: &'a TypedExpr)
    ensures { Grows (of_body e.now) found.old found.new }
{
    expr(found, e, Within::Body);
}

fn operands<'a>(found: &mut Found<'a>, es: &'a [TypedExpr])
    ensures { Grows (joined (map of_body es.now)) found.old found.new }
{
    for e in es {
        part(found, e);
    }
}

/// What a statement does with the values of its operands.
fn perform(found: &mut Found<'_>, form: PerformForm, at: Place)
    ensures { Grows (perform_parts form at) found.old found.new }
{
    match form {
        PerformForm::SetVariable(_) => found.note(Within::Body, Deed::Stores, at),
        PerformForm::SetItem | PerformForm::SetKey | PerformForm::Ignore => {}
        PerformForm::Evaluate | PerformForm::Panic => {}
    }
}

/// What a statement with an operator assigns to.
fn target<'a>(found: &mut Found<'a>, to: &'a UpdateTarget, at: Place)
    ensures { Grows (target_parts to.now at) found.old found.new }
{
    match to {
        UpdateTarget::Local { .. } => {}
        UpdateTarget::Variable(_) => found.note(Within::Body, Deed::Stores, at),
        UpdateTarget::Member { container, key, .. } => {
            part(found, container);
            part(found, key);
        }
    }
}

/// What a loop goes through.
fn source<'a>(found: &mut Found<'a>, s: &'a Source)
    ensures { Grows (source_parts s.now) found.old found.new }
{
    match s {
        Source::Range { from, to, .. } => {
            part(found, from);
            part(found, to);
        }
        Source::List { list, .. } => part(found, list),
    }
}

#[cycle(stmt)]
fn stmts<'a>(found: &mut Found<'a>, ss: &'a [TypedStmt])
    ensures { Grows (stmts_parts ss.now) found.old found.new }
{
    for s in ss {
        stmt(found, s);
    }
}

#[cycle(stmt)]
fn stmt<'a>(found: &mut Found<'a>, s: &'a TypedStmt)
    ensures { Grows (of_typed_stmt noting s.now) found.old found.new }
{
    match s {
        TypedStmt::Set { value, .. } => part(found, value),
        TypedStmt::Perform {
            form,
            operands: es,
            at,
        } => {
            perform(found, *form, *at);
            operands(found, es);
        }
        TypedStmt::Update {
            target: to,
            value,
            at,
            ..
        } => {
            target(found, to, *at);
            part(found, value);
        }
        TypedStmt::If {
            condition,
            first,
            second,
            ..
        } => {
            part(found, condition);
            stmts(found, first);
            stmts(found, second);
        }
        TypedStmt::While {
            condition,
            body,
            ..
        } => {
            part(found, condition);
            stmts(found, body);
        }
        TypedStmt::Foreach {
            source: from,
            body,
            ..
        } => {
            source(found, from);
            stmts(found, body);
        }
        TypedStmt::Match {
            subject,
            clauses: rows,
            ..
        } => {
            part(found, subject);
            clauses(found, rows);
        }
        TypedStmt::Return { value: None, .. } => {}
        TypedStmt::Return { value: Some(e), .. } => part(found, e),
        TypedStmt::Block { stmts: inside, .. } => stmts(found, inside),
        TypedStmt::Break { .. } | TypedStmt::Continue { .. } => {}
    }
}

#[cycle(stmt)]
fn clauses<'a>(found: &mut Found<'a>, cs: &'a [TypedClause])
    ensures { Grows (joined (map (of_typed_clause noting) cs.now)) found.old found.new }
{
    for c in cs {
        clause(found, c);
    }
}

#[cycle(stmt)]
fn clause<'a>(found: &mut Found<'a>, c: &'a TypedClause)
    ensures { Grows (of_typed_clause noting c.now) found.old found.new }
{
    stmts(found, &c.stmts);
}

fn worker<'a>(found: &mut Found<'a>, w: &'a TypedWorker)
    ensures { Grows (worker_parts w.now) found.old found.new }
{
    stmts(found, &w.stmts);
}

fn workers<'a>(found: &mut Found<'a>, ws: &'a [TypedWorker])
    ensures { Grows (joined (map worker_parts ws.now)) found.old found.new }
{
    for w in ws {
        worker(found, w);
    }
}

/// The body of a function, with its workers.
pub(crate) fn body<'a>(found: &mut Found<'a>, b: &'a TypedBody)
    ensures { Grows (body_parts b.now) found.old found.new }
{
    match b {
        TypedBody::Block {
            initial,
            workers: named,
            rest,
            ..
        } => {
            stmts(found, initial);
            workers(found, named);
            stmts(found, rest);
        }
        TypedBody::Expr { value } => part(found, value),
    }
}

fn initial<'a>(found: &mut Found<'a>, i: &'a Initial)
    ensures { Grows (initial_parts i.now) found.old found.new }
{
    expr(found, &i.value, Within::Free);
}

fn initials<'a>(found: &mut Found<'a>, is: &'a [Initial])
    ensures { Grows (joined (map initial_parts is.now)) found.old found.new }
{
    for i in is {
        initial(found, i);
    }
}

/// The initial values of a module.
pub(crate) fn initialiser<'a>(found: &mut Found<'a>, i: &'a Initialiser)
    ensures { Grows (initialiser_parts i.now) found.old found.new }
{
    initials(found, &i.values);
}
