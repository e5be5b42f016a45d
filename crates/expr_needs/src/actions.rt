//! What actions need is met, in the order of the text.
#![tactic(auto, using(crate::proofs::Walking::walking))]

ghost use Rattle.std.specs.Prelude.{◌≡◌};
ghost use Rattle.needs.specs.Needs.{Runs, in_turn};
ghost use Rattle.expr_needs.specs.ActionTable.{action_needs, await_member_needs, await_needs, checked_needs, read_rhs};
ghost use Rattle.expr_needs.specs.ExprTable.{as_wanted};

use crate::expected::Expected;
use crate::exprs::{expr, of_kind, started};
use crate::kind::Kind;
use crate::meets::MeetsExprs;
use crate::reading::{call_place, place};
use bal_base::Place;
use bal_tree::{Action, ActionOp, QualifiedName, Rhs, WaitMember};
use tree_places::place_of_action;

/// The place of what stands at the right of an assignment.
pub fn rhs_place(r: &Rhs) -> Place
    ensures { result ≡ (read_rhs r.now).at }
{
    match r {
        Rhs::Expr(e) => place(e),
        Rhs::Action(a) => place_of_action(a),
    }
}

/// What stands at the right of an assignment: what it needs is met, where so much is expected of it.
pub fn rhs<M: MeetsExprs>(work: &mut M, r: &Rhs, expected: Expected)
    requires { M.stands work.old }
    ensures stands { M.stands work.new }
    ensures met { Runs M.meaning ((read_rhs r.now).needs expected) (M.going work.old) (M.going work.new) }
{
    match r {
        Rhs::Expr(e) => expr(work, e, expected),
        Rhs::Action(a) => action(work, a, expected),
    }
}

/// The same of what has to be of the wanted type.
pub fn wanted_rhs<M: MeetsExprs>(work: &mut M, r: &Rhs)
    requires { M.stands work.old }
    ensures stands { M.stands work.new }
    ensures met { Runs M.meaning (as_wanted (read_rhs r.now)) (M.going work.old) (M.going work.new) }
{
    rhs(work, r, Expected::Wanted);
    work.is_wanted(rhs_place(r))
}

/// The same of an action.
#[cycle(actions)]
fn action<M: MeetsExprs>(work: &mut M, a: &Action, expected: Expected)
    requires { M.stands work.old }
    ensures stands { M.stands work.new }
    ensures met { Runs M.meaning (action_needs a.now expected) (M.going work.old) (M.going work.new) }
{
    match a {
        Action::Prefix {
            op: ActionOp::Check,
            action: b,
            at,
        } => checked(work, b, expected, *at),
        Action::Prefix {
            op: ActionOp::CheckPanic,
            action: b,
            at,
        } => {
            action(work, b, Expected::Nothing);
            work.checks_panicking(*at)
        }
        Action::Prefix {
            op: ActionOp::Trap,
            action: b,
            at,
        } => {
            action(work, b, Expected::Nothing);
            work.traps(*at)
        }
        Action::Start { call, at } => {
            started(work, call);
            work.starts(call_place(call), *at)
        }
        Action::WaitAny { names, at } => {
            awaited(work, names);
            work.waits_for_any(names, *at)
        }
        Action::WaitAll { members, at } => {
            work.begins_keys();
            awaited_members(work, members);
            work.waits_for_all(members, *at)
        }
        Action::Flush { peer, at } => work.flushes(peer, *at),
        Action::Receive { peer, at } => work.receives(expected, peer, *at),
        Action::Send { value, peer, at } => {
            of_kind(work, Kind::Sendable, value);
            work.sends(peer, *at)
        }
        Action::SyncSend { value, peer, at } => {
            of_kind(work, Kind::Sendable, value);
            work.sends_and_waits(peer, *at)
        }
    }
}

/// An action behind `check`: an error may come beside what is expected.
#[cycle(actions)]
fn checked<M: MeetsExprs>(work: &mut M, a: &Action, expected: Expected, at: Place)
    requires { M.stands work.old }
    ensures stands { M.stands work.new }
    ensures met { Runs M.meaning (checked_needs (action_needs a.now) expected at) (M.going work.old) (M.going work.new) }
{
    match expected {
        Expected::Wanted => {
            work.wants_error_too();
            action(work, a, Expected::Wanted);
            work.drops_want();
            work.checks(at)
        }
        Expected::Nothing | Expected::Immutable => {
            action(work, a, Expected::Nothing);
            work.checks(at)
        }
    }
}

fn awaited<M: MeetsExprs>(work: &mut M, names: &[QualifiedName])
    requires { M.stands work.old }
    ensures stands { M.stands work.new }
    ensures met { Runs M.meaning (in_turn await_needs names.now) (M.going work.old) (M.going work.new) }
{
    for q in names {
        work.awaits(q);
    }
}

fn awaited_members<M: MeetsExprs>(work: &mut M, members: &[WaitMember])
    requires { M.stands work.old }
    ensures stands { M.stands work.new }
    ensures met { Runs M.meaning (in_turn await_member_needs members.now) (M.going work.old) (M.going work.new) }
{
    for m in members {
        awaited_member(work, m);
    }
}

fn awaited_member<M: MeetsExprs>(work: &mut M, m: &WaitMember)
    requires { M.stands work.old }
    ensures stands { M.stands work.new }
    ensures met { Runs M.meaning (await_member_needs m.now) (M.going work.old) (M.going work.new) }
{
    work.takes_key(m.key.name.as_text(), m.key.at);
    work.awaits(&m.name)
}
