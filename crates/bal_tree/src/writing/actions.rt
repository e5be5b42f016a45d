//! Actions, and what may stand at the right of an assignment.
#![tactic(auto, using(crate::proofs::Adding::adding))]

ghost use Rattle.std.specs.Prelude.{◌≡◌, map};
ghost use Rattle.bal_base.specs.declared.token.Sign.TheVariants.{Bar, Comma};
ghost use Rattle.bal_tree.specs.Pieces.{◌&◌, sign as sign_piece, separated};
ghost use Rattle.bal_tree.specs.Writing.{Writes};
ghost use Rattle.bal_tree.specs.NamePieces.{name_pieces};
ghost use Rattle.bal_tree.specs.ExprPieces.{expr_pieces};
ghost use Rattle.bal_tree.specs.ActionPieces.{action_key as key_of_op, peer_pieces, wait_member_pieces, action_pieces, rhs_pieces};

use super::exprs::{call, expr};
use super::names::{name, word};
use super::output::Output;
use super::signs::{key, sign, sign_if};
use crate::action::{Action, ActionOp, Peer, Rhs, WaitMember};
use crate::expr::Expr;
use crate::name::QualifiedName;
use bal_base::{Keyword, Sign};

pub fn rhs(out: &mut Output, r: &Rhs)
    ensures { Writes out.old (rhs_pieces r.now) out.new }
{
    match r {
        Rhs::Expr(e) => expr(out, e),
        Rhs::Action(a) => action(out, a),
    }
}

fn action(out: &mut Output, a: &Action)
    ensures { Writes out.old (action_pieces a.now) out.new }
{
    match a {
        Action::Prefix {
            op,
            action: behind,
            ..
        } => {
            key(out, action_key(*op));
            action(out, behind);
        }
        Action::Start { call: started, .. } => {
            key(out, Keyword::Start);
            call(out, started);
        }
        Action::WaitAny { names, .. } => {
            key(out, Keyword::Wait);
            alternatives(out, names);
        }
        Action::WaitAll { members, .. } => {
            key(out, Keyword::Wait);
            sign(out, Sign::OpenBrace);
            wait_members(out, members);
            sign(out, Sign::CloseBrace);
        }
        Action::Flush { peer: with, .. } => {
            key(out, Keyword::Flush);
            peer(out, with);
        }
        Action::Receive { peer: from, .. } => {
            sign(out, Sign::LeftArrow);
            peer(out, from);
        }
        Action::Send {
            value,
            peer: to,
            ..
        } => send(out, value, Sign::Arrow, to),
        Action::SyncSend {
            value,
            peer: to,
            ..
        } => send(out, value, Sign::DoubleArrow, to),
    }
}

/// The sent expression, the arrow, and the worker that it goes to.
fn send(out: &mut Output, value: &Expr, arrow: Sign, to: &Peer)
    ensures { Writes out.old (expr_pieces value.now & sign_piece arrow & peer_pieces to.now) out.new }
{
    expr(out, value);
    sign(out, arrow);
    peer(out, to);
}

fn action_key(op: ActionOp) -> Keyword
    ensures { result ≡ key_of_op op }
{
    match op {
        ActionOp::Check => Keyword::Check,
        ActionOp::CheckPanic => Keyword::CheckPanic,
        ActionOp::Trap => Keyword::Trap,
    }
}

fn peer(out: &mut Output, p: &Peer)
    ensures { Writes out.old (peer_pieces p.now) out.new }
{
    match p {
        Peer::Word(w) => word(out, w),
        Peer::Function { .. } => key(out, Keyword::Function),
    }
}

/// The names of an alternate wait, with `|` between each two.
fn alternatives(out: &mut Output, names: &[QualifiedName])
    ensures { Writes out.old (separated Bar (map name_pieces names.now)) out.new }
{
    for (i, n) in names.iter().enumerate() {
        sign_if(out, i > 0, Sign::Bar);
        name(out, n);
    }
}

/// The members of a multiple wait, with a comma between each two.
fn wait_members(out: &mut Output, members: &[WaitMember])
    ensures { Writes out.old (separated Comma (map wait_member_pieces members.now)) out.new }
{
    for (i, m) in members.iter().enumerate() {
        sign_if(out, i > 0, Sign::Comma);
        wait_member(out, m);
    }
}

fn wait_member(out: &mut Output, m: &WaitMember)
    ensures { Writes out.old (wait_member_pieces m.now) out.new }
{
    word(out, &m.key);
    sign(out, Sign::Colon);
    name(out, &m.name);
}
