//! A search in expressions and actions.
#![tactic(auto, using(crate::proofs::Walks::walking))]

ghost use Rattle.std.specs.Prelude.{◌≡◌, map};
ghost use Rattle.operations.specs.Talk.{workers_in};
ghost use Rattle.type_model.specs.declared.basic.SemType.{SemType};
ghost use Rattle.worker_pairing.specs.Marks.{alternate_marks, expr_marks, exprs_marks, form_marks, source_marks, target_marks, wait_marks};
ghost use Rattle.event_search.specs.inner.Walking.{Goes};
ghost use Rattle.worker_members.specs.inner.Hearing.{is_none};

use crate::search::Search;
use bal_base::Place;
use typed_tree::{Source, StrictForm, TypedExpr, UpdateTarget};
use worker_members::SaidKind;

/// Whether none of these names is a worker's.
fn names_none(names: &[Option<u32>]) -> bool
    ensures { result ≡ is_none (workers_in names.now) }
{
    for name in names {
        if name.is_some() {
            return false;
        }
    }
    true
}

/// A wait, where it waits for a worker.
fn wait<'a>(search: &mut Search<'a>, names: &'a [Option<u32>], at: Place, initial: bool)
    ensures { Goes initial (wait_marks (workers_in names.now) at) search.old search.new }
{
    if names_none(names) {
        return;
    }
    search.say(SaidKind::Wait(names), at, initial);
}

/// A wait for one of several.
fn alternate<'a>(search: &mut Search<'a>, names: &'a [Option<u32>], at: Place, initial: bool)
    ensures { Goes initial (alternate_marks names.now at) search.old search.new }
{
    if names.is_empty() {
        search.say(SaidKind::Wait(names), at, initial);
        return;
    }
    wait(search, names, at, initial);
}

/// What a construct does with the values of its operands.
fn form<'a>(search: &mut Search<'a>, form: &'a StrictForm, at: Place, initial: bool)
    ensures { (sent gets : SemType) → Goes initial (form_marks form.now sent gets at) search.old search.new }
{
    match form {
        StrictForm::Send(peer) => search.say(SaidKind::Send(*peer), at, initial),
        StrictForm::SyncSend(peer) => {
            search.say(SaidKind::Post(*peer), at, initial);
            search.say(SaidKind::Done(*peer), at, initial);
        }
        StrictForm::Receive(peer) => search.say(SaidKind::Receive(*peer), at, initial),
        StrictForm::Flush(peer) => search.say(SaidKind::Flush(*peer), at, initial),
        StrictForm::WaitAny(names) => alternate(search, names.as_slice(), at, initial),
        StrictForm::WaitAll { awaited, .. } => wait(search, awaited.as_slice(), at, initial),
        StrictForm::Literal(_) | StrictForm::Constant(_) | StrictForm::Variable(_) => {}
        StrictForm::FunctionName { .. } | StrictForm::Operator(_) | StrictForm::Is(_) => {}
        StrictForm::Cast(_) | StrictForm::List { .. } | StrictForm::Mapping { .. } => {}
        StrictForm::Error | StrictForm::Read(_) | StrictForm::Call(_) => {}
        StrictForm::Library { .. } | StrictForm::Start(_) => {}
    }
}

/// An expression or an action. An anonymous function is none of its worker's.
#[cycle(expr)]
pub(crate) fn expr<'a>(search: &mut Search<'a>, e: &'a TypedExpr, initial: bool)
    ensures { Goes initial (expr_marks e.now) search.old search.new }
{
    match e {
        TypedExpr::Strict {
            form: done,
            operands,
            at,
            ..
        } => {
            exprs(search, operands, initial);
            form(search, done, *at, initial);
        }
        TypedExpr::Implied { .. } | TypedExpr::Local { .. } | TypedExpr::Function { .. } => {}
        TypedExpr::And { left, right, .. } | TypedExpr::Or { left, right, .. } => {
            expr(search, left, initial);
            expr(search, right, initial);
        }
        TypedExpr::Conditional {
            condition,
            middle,
            last,
            ..
        } => {
            expr(search, condition, initial);
            expr(search, middle, initial);
            expr(search, last, initial);
        }
        TypedExpr::Elvis { left, right, .. } => {
            expr(search, left, initial);
            expr(search, right, initial);
        }
        TypedExpr::Check { operand, .. } | TypedExpr::Trap { operand, .. } => {
            expr(search, operand, initial);
        }
        TypedExpr::Parens { inner, .. } => expr(search, inner, initial),
    }
}

/// Expressions, one behind another.
#[cycle(expr)]
pub(crate) fn exprs<'a>(search: &mut Search<'a>, es: &'a [TypedExpr], initial: bool)
    ensures { Goes initial (exprs_marks es.now) search.old search.new }
{
    for e in es {
        expr(search, e, initial);
    }
}

/// What a statement with an operator assigns to.
pub(crate) fn target<'a>(search: &mut Search<'a>, to: &'a UpdateTarget, initial: bool)
    ensures { Goes initial (target_marks to.now) search.old search.new }
{
    match to {
        UpdateTarget::Local { .. } | UpdateTarget::Variable(_) => {}
        UpdateTarget::Member { container, key, .. } => {
            expr(search, container, initial);
            expr(search, key, initial);
        }
    }
}

/// What a loop goes through.
pub(crate) fn source<'a>(search: &mut Search<'a>, s: &'a Source, initial: bool)
    ensures { Goes initial (source_marks s.now) search.old search.new }
{
    match s {
        Source::Range { from, to, .. } => {
            expr(search, from, initial);
            expr(search, to, initial);
        }
        Source::List { list, .. } => expr(search, list, initial),
    }
}
