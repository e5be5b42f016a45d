//! Actions, and what may stand at the right of an assignment.
ghost use Rattle.std.specs.Prelude.{◌≡◌};
ghost use Rattle.bal_tree.specs.ActionRules.{sending as how_it_sends, action_is_formed, rhs_is_formed};

use super::exprs::{call, expr};
use crate::action::{Action, Rhs, Sending};

pub fn rhs(r: &Rhs) -> bool
    ensures { result ≡ rhs_is_formed r.now }
{
    match r {
        Rhs::Expr(e) => expr(e, false),
        Rhs::Action(a) => action(a, a.sending()),
    }
}

/// Whether the action is well formed, which sends so.
fn action(a: &Action, sending: Sending) -> bool
    requires { sending ≡ how_it_sends a.now }
    ensures { result ≡ action_is_formed a.now }
{
    match a {
        Action::Prefix {
            op,
            action: behind,
            ..
        } => { op.may_stand_before(sending) && action(behind, sending) }
        Action::Start { call: started, .. } => call(started, false),
        Action::WaitAny { names, .. } => !names.is_empty(),
        Action::WaitAll { members, .. } => !members.is_empty(),
        Action::Flush { .. } | Action::Receive { .. } => true,
        Action::Send { value, .. } => expr(value, false),
        Action::SyncSend { value, .. } => !value.begins_with_check() && expr(value, false),
    }
}
