//! The places of statements, of what they assign to, and of right sides: those of their first tokens. Each takes no memory.
#![tactic(auto, using(bal_tree::proofs::StmtLayers::stmt_layers))]

ghost use Rattle.std.specs.Prelude.{◌≡◌};
ghost use Rattle.tree_places.specs.StmtPlaces.{place_of_action as of_action, place_of_rhs as of_rhs, place_of_stmt as of_stmt, place_of_target as of_target};

use crate::expr_places::place_of_expr;
use bal_base::Place;
use bal_tree::{Action, Rhs, Stmt, Target};

/// The place of a statement's first token.
pub fn place_of_stmt(s: &Stmt) -> Place
    ensures { result ≡ of_stmt s.now }
{
    match s {
        Stmt::If(s) => s.at,
        Stmt::Block(b) => b.at,
        Stmt::Local { at, .. } | Stmt::Assign { at, .. } => *at,
        Stmt::Ignore { at, .. } | Stmt::Rhs { at, .. } => *at,
        Stmt::While { at, .. } | Stmt::Foreach { at, .. } | Stmt::Match { at, .. } => *at,
        Stmt::Return { at, .. } | Stmt::Panic { at, .. } => *at,
        Stmt::Break { at } | Stmt::Continue { at } => *at,
    }
}

/// The place of the first token of a right side.
pub fn place_of_rhs(r: &Rhs) -> Place
    ensures { result ≡ of_rhs r.now }
{
    match r {
        Rhs::Expr(e) => place_of_expr(e),
        Rhs::Action(a) => place_of_action(a),
    }
}

/// The place of an action's first token.
pub fn place_of_action(a: &Action) -> Place
    ensures { result ≡ of_action a.now }
{
    match a {
        Action::Prefix { at, .. } | Action::Start { at, .. } => *at,
        Action::WaitAny { at, .. } | Action::WaitAll { at, .. } => *at,
        Action::Flush { at, .. } | Action::Receive { at, .. } => *at,
        Action::Send { at, .. } | Action::SyncSend { at, .. } => *at,
    }
}

/// The place of the first token of what is assigned to.
pub fn place_of_target(t: &Target) -> Place
    ensures { result ≡ of_target t.now }
{
    match t {
        Target::Name(n) => n.at,
        Target::Index { at, .. } | Target::Field { at, .. } => *at,
    }
}
