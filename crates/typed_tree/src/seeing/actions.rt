//! Actions, and what may stand at the right of an assignment.
ghost use Rattle.std.specs.Prelude.{◌≡◌, OnOk};
ghost use Rattle.typed_tree.specs.Listed.{run};
ghost use Rattle.typed_tree.specs.SoFar.{progress};
ghost use Rattle.typed_tree.specs.Skeleton.{action_sights, in_expr, op_sights, rhs_sights, see, waits};

use super::exprs;
use super::names::{among, among_members, peer as peer_number};
use super::progress::{Observer, Seen};
use crate::event::EventKind;
use bal_base::{Memory, Numbers, Place};
use bal_tree::{Action, ActionOp, Expr, Peer, Rhs, Worker};

pub fn rhs(seen: &mut Seen, workers: &[Worker], by: Observer, r: &Rhs) -> Result<(), Memory>
    ensures { OnOk result (progress seen.new ≡ run (see by.own by.counts) (rhs_sights workers.now by.own r.now) (progress seen.old)) }
{
    match r {
        Rhs::Expr(e) => {
            expr(seen, by, e);
            Ok(())
        }
        Rhs::Action(a) => action(seen, workers, by, a),
    }
}

/// An expression, which shows no event.
pub fn expr(seen: &mut Seen, by: Observer, e: &Expr)
    ensures { progress seen.new ≡ run (see by.own by.counts) (in_expr e.now) (progress seen.old) }
{
    seen.unless(by, exprs::expr(e));
}

fn action(seen: &mut Seen, workers: &[Worker], by: Observer, a: &Action) -> Result<(), Memory>
    ensures { OnOk result (progress seen.new ≡ run (see by.own by.counts) (action_sights workers.now by.own a.now) (progress seen.old)) }
{
    match a {
        Action::Prefix {
            op,
            action: behind,
            ..
        } => {
            action(seen, workers, by, behind)?;
            prefix(seen, by, *op);
            Ok(())
        }
        Action::Start { call, .. } => {
            seen.unless(by, exprs::call(call));
            Ok(())
        }
        Action::WaitAny { names, at } => { wait(seen, by, among(by.alloc, workers, names)?, *at) }
        Action::WaitAll { members, at } => {
            wait(seen, by, among_members(by.alloc, workers, members)?, *at)
        }
        Action::Flush { peer, at } => {
            let number = peer_number(workers, by.own, peer)?;
            seen.see(by, EventKind::Flush(number), *at)
        }
        Action::Receive { peer, at } => {
            let number = peer_number(workers, by.own, peer)?;
            seen.see(by, EventKind::Receive(number), *at)
        }
        Action::Send { value, peer, at } => {
            expr(seen, by, value);
            let number = peer_number(workers, by.own, peer)?;
            seen.see(by, EventKind::Send(number), *at)
        }
        Action::SyncSend { value, peer, at } => {
            expr(seen, by, value);
            let number = peer_number(workers, by.own, peer)?;
            seen.see(by, EventKind::Post(number), *at)?;
            seen.see(by, EventKind::Done(number), *at)
        }
    }
}

/// A word before an action, behind what the action shows.
fn prefix(seen: &mut Seen, by: Observer, op: ActionOp)
    ensures { progress seen.new ≡ run (see by.own by.counts) (op_sights op) (progress seen.old) }
{
    match op {
        ActionOp::Check => seen.end_early(by),
        ActionOp::CheckPanic | ActionOp::Trap => {}
    }
}

/// A wait, which is an event where it is one on workers.
fn wait(seen: &mut Seen, by: Observer, numbers: Vec<u32>, at: Place) -> Result<(), Memory>
    ensures { OnOk result (progress seen.new ≡ run (see by.own by.counts) (waits numbers.items at) (progress seen.old)) }
{
    if numbers.is_empty() {
        return Ok(());
    }
    seen.see(by, EventKind::Wait(Numbers::of(numbers)), at)
}
