//! What is heard of expressions and actions.
#![tactic(auto, using(crate::proofs::Growing::growing))]

ghost use Rattle.std.specs.Prelude.{◌≡◌, false, map};
ghost use Rattle.operations.specs.Talk.{workers_in};
ghost use Rattle.typed_tree.specs.declared.event.EventKind.TheVariants.{Done, Post};
ghost use Rattle.typed_tree.specs.Listed.{one, ◌&◌};
ghost use Rattle.typed_tree.specs.SharedTypes.{sem_of};
ghost use Rattle.worker_pairing.specs.Marks.{Says, alternate_marks, expr_marks, exprs_marks, form_marks, if_checked, last_type, nil_type, source_marks, target_marks, typed_marks, wait_marks};
ghost use Rattle.worker_members.specs.Held.{sem_said};
ghost use Rattle.worker_members.specs.inner.Hearing.{Grows, is_none};

use crate::hearing::{Heard, Spot};
use crate::held::{SaidKind, SaidType};
use bal_base::Place;
use typed_tree::{SharedTy, Source, StrictForm, TypedExpr, UpdateTarget};

/// The type of the last operand, which is what is sent.
fn sent_type<'a>(operands: &'a [TypedExpr]) -> SaidType<'a>
    ensures { sem_said result ≡ last_type (map typed_marks operands.now) }
{
    match operands.last() {
        Some(e) => SaidType::Of(e.ty()),
        None => SaidType::Nil,
    }
}

/// Whether none of these names is a worker's.
fn names_none(names: &[Option<u32>]) -> bool
    ensures { result ≡ is_none (workers_in names.now) }
{
    for name in names {
        if name.is_some() {
            return false;
        }
    }
    true
}

/// A wait, where it waits for a worker.
fn wait<'a>(heard: &mut Heard<'a>, names: &'a [Option<u32>], at: Place, spot: Spot)
    ensures { Grows spot (wait_marks (workers_in names.now) at) heard.old heard.new }
{
    if names_none(names) {
        return;
    }
    heard.say(spot, SaidKind::Wait(names), at, SaidType::Nil);
}

/// A wait for one of several.
fn alternate<'a>(heard: &mut Heard<'a>, names: &'a [Option<u32>], at: Place, spot: Spot)
    ensures { Grows spot (alternate_marks names.now at) heard.old heard.new }
{
    if names.is_empty() {
        heard.say(spot.aside(), SaidKind::Wait(names), at, SaidType::Nil);
        return;
    }
    wait(heard, names, at, spot);
}

/// A message that is sent and received.
fn sync_send<'a>(
    heard: &mut Heard<'a>,
    peer: Option<u32>,
    sent: SaidType<'a>,
    at: Place,
    spot: Spot,
)
    ensures { Grows spot (one (Says (Post peer) at false (sem_said sent.entry)) & one (Says (Done peer) at false nil_type)) heard.old heard.new }
{
    heard.say(spot, SaidKind::Post(peer), at, sent);
    heard.say(spot, SaidKind::Done(peer), at, SaidType::Nil);
}

/// What a construct does with the values of its operands.
fn form<'a>(
    heard: &mut Heard<'a>,
    form: &'a StrictForm,
    sent: SaidType<'a>,
    ty: &'a SharedTy,
    at: Place,
    spot: Spot,
)
    ensures { Grows spot (form_marks form.now (sem_said sent.entry) (sem_of ty.now) at) heard.old heard.new }
{
    match form {
        StrictForm::Send(peer) => heard.say(spot, SaidKind::Send(*peer), at, sent),
        StrictForm::SyncSend(peer) => sync_send(heard, *peer, sent, at, spot),
        StrictForm::Receive(peer) => {
            heard.say(spot, SaidKind::Receive(*peer), at, SaidType::Of(ty));
        }
        StrictForm::Flush(peer) => heard.say(spot, SaidKind::Flush(*peer), at, SaidType::Nil),
        StrictForm::WaitAny(names) => alternate(heard, names.as_slice(), at, spot),
        StrictForm::WaitAll { awaited, .. } => wait(heard, awaited.as_slice(), at, spot),
        StrictForm::Literal(_) | StrictForm::Constant(_) | StrictForm::Variable(_) => {}
        StrictForm::FunctionName { .. } | StrictForm::Operator(_) | StrictForm::Is(_) => {}
        StrictForm::Cast(_) | StrictForm::List { .. } | StrictForm::Mapping { .. } => {}
        StrictForm::Error | StrictForm::Read(_) | StrictForm::Call(_) => {}
        StrictForm::Library { .. } | StrictForm::Start(_) => {}
    }
}

/// A `check` may end the worker early, a `checkpanic` doesn't.
fn checked(heard: &mut Heard<'_>, panics: bool, spot: Spot)
    ensures { Grows spot (if_checked panics) heard.old heard.new }
{
    if panics {
        return;
    }
    heard.end_early(spot);
}

/// An expression or an action. An anonymous function is none of its worker's.
#[cycle(expr)]
pub(crate) fn expr<'a>(heard: &mut Heard<'a>, e: &'a TypedExpr, spot: Spot)
    ensures { Grows spot (expr_marks e.now) heard.old heard.new }
{
    match e {
        TypedExpr::Strict {
            form: done,
            operands,
            ty,
            at,
        } => {
            exprs(heard, operands, spot);
            form(heard, done, sent_type(operands), ty, *at, spot);
        }
        TypedExpr::Implied { .. } | TypedExpr::Local { .. } | TypedExpr::Function { .. } => {}
        TypedExpr::And { left, right, .. } | TypedExpr::Or { left, right, .. } => {
            expr(heard, left, spot);
            expr(heard, right, spot.aside());
        }
        TypedExpr::Conditional {
            condition,
            middle,
            last,
            ..
        } => {
            expr(heard, condition, spot);
            expr(heard, middle, spot.aside());
            expr(heard, last, spot.aside());
        }
        TypedExpr::Elvis { left, right, .. } => {
            expr(heard, left, spot);
            expr(heard, right, spot.aside());
        }
        TypedExpr::Check {
            panics,
            operand,
            ..
        } => {
            expr(heard, operand, spot);
            checked(heard, *panics, spot);
        }
        TypedExpr::Trap { operand, .. } => expr(heard, operand, spot.trapped()),
        TypedExpr::Parens { inner, .. } => expr(heard, inner, spot),
    }
}

/// Expressions, one behind another.
#[cycle(expr)]
pub(crate) fn exprs<'a>(heard: &mut Heard<'a>, es: &'a [TypedExpr], spot: Spot)
    ensures { Grows spot (exprs_marks es.now) heard.old heard.new }
{
    for e in es {
        expr(heard, e, spot);
    }
}

/// What a statement with an operator assigns to.
pub(crate) fn target<'a>(heard: &mut Heard<'a>, to: &'a UpdateTarget, spot: Spot)
    ensures { Grows spot (target_marks to.now) heard.old heard.new }
{
    match to {
        UpdateTarget::Local { .. } | UpdateTarget::Variable(_) => {}
        UpdateTarget::Member { container, key, .. } => {
            expr(heard, container, spot);
            expr(heard, key, spot);
        }
    }
}

/// What a loop goes through.
pub(crate) fn source<'a>(heard: &mut Heard<'a>, s: &'a Source, spot: Spot)
    ensures { Grows spot (source_marks s.now) heard.old heard.new }
{
    match s {
        Source::Range { from, to, .. } => {
            expr(heard, from, spot);
            expr(heard, to, spot);
        }
        Source::List { list, .. } => expr(heard, list, spot),
    }
}
