//! Actions: what workers do to one another, and what may stand at the right of an assignment.
ghost use Rattle.std.specs.Prelude.{◌≡◌};
ghost use Rattle.bal_tree.specs.Places.{BeginsAt};
ghost use Rattle.bal_tree.specs.ActionRules.{sending as how_it_sends, may_stand_before as stands_before};
ghost use Rattle.bal_tree.specs.ActionPieces.{rhs_pieces, action_pieces, peer_pieces};

use crate::expr::{Call, Expr};
use crate::name::{QualifiedName, Word};
use bal_base::Place;

/// What may stand at the right of an assignment.
#[derive(Drop)]
pub enum Rhs {
    /// An expression.
    Expr(Box<Expr>),
    /// An action.
    Action(Box<Action>),
}

impl Rhs {
    /// The place of the expression or action's first token.
    pub fn place(&self) -> Place
        ensures { BeginsAt (rhs_pieces self.now) result }
    {
        match self {
            Rhs::Expr(e) => e.place(),
            Rhs::Action(a) => a.place(),
        }
    }
}

/// An action.
#[derive(Drop)]
pub enum Action {
    /// A word before an action, as `check wait f`.
    Prefix {
        op: ActionOp,
        action: Box<Action>,
        at: Place,
    },
    /// `start f(a)`
    Start {
        call: Call,
        at: Place,
    },
    /// `wait f`, or an alternate wait, `wait f|g`.
    WaitAny {
        names: Vec<QualifiedName>,
        at: Place,
    },
    /// `wait {a: f, b: g}`
    WaitAll {
        members: Vec<WaitMember>,
        at: Place,
    },
    /// `flush A`
    Flush {
        peer: Peer,
        at: Place,
    },
    /// `<- A`
    Receive {
        peer: Peer,
        at: Place,
    },
    /// `e -> A`
    Send {
        value: Box<Expr>,
        peer: Peer,
        at: Place,
    },
    /// `e ->> A`
    SyncSend {
        value: Box<Expr>,
        peer: Peer,
        at: Place,
    },
}

impl Action {
    /// The place of the action's first token.
    pub fn place(&self) -> Place
        ensures { BeginsAt (action_pieces self.now) result }
    {
        match self {
            Action::Prefix { at, .. } | Action::Start { at, .. } => *at,
            Action::WaitAny { at, .. } | Action::WaitAll { at, .. } => *at,
            Action::Flush { at, .. } | Action::Receive { at, .. } => *at,
            Action::Send { at, .. } | Action::SyncSend { at, .. } => *at,
        }
    }

    /// How the action sends, behind any words.
    pub fn sending(&self) -> Sending
        ensures { result ≡ how_it_sends self.now }
    {
        match self {
            Action::Prefix { action, .. } => action.sending(),
            Action::Send { .. } => Sending::Async,
            Action::SyncSend { .. } => Sending::Sync,
            Action::Start { .. } | Action::WaitAny { .. } | Action::WaitAll { .. } => {
                Sending::Nothing
            }
            Action::Flush { .. } | Action::Receive { .. } => Sending::Nothing,
        }
    }
}

/// How an action sends, behind any words.
#[derive(Clone, Copy)]
pub enum Sending {
    /// It is no send.
    Nothing,
    /// By `->`.
    Async,
    /// By `->>`.
    Sync,
}

/// A word before an action.
#[derive(Clone, Copy, PartialEq, Eq)]
pub enum ActionOp {
    /// `check`
    Check,
    /// `checkpanic`
    CheckPanic,
    /// `trap`
    Trap,
}

impl ActionOp {
    /// Whether the word may stand before an action that sends so.
    pub fn may_stand_before(self, sending: Sending) -> bool
        ensures { result ≡ stands_before self sending }
    {
        match self {
            ActionOp::Check | ActionOp::CheckPanic => match sending {
                Sending::Nothing | Sending::Sync => true,
                Sending::Async => false,
            },
            ActionOp::Trap => match sending {
                Sending::Nothing => true,
                Sending::Async | Sending::Sync => false,
            },
        }
    }
}

/// The worker at the other end of a message.
#[derive(Drop)]
pub enum Peer {
    /// A named worker, as `A`.
    Word(Word),
    /// The default worker, `function`.
    Function { at: Place },
}

impl Peer {
    /// The place of the worker's first token.
    pub fn place(&self) -> Place
        ensures { BeginsAt (peer_pieces self.now) result }
    {
        match self {
            Peer::Word(w) => w.at,
            Peer::Function { at, .. } => *at,
        }
    }
}

/// A member of a multiple wait, as `a: f`.
#[derive(Drop)]
pub struct WaitMember {
    pub key: Word,
    pub name: QualifiedName,
    pub at: Place,
}
