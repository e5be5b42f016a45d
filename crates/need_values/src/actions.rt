//! Needs of messages and waits.

use bal_base::Place;
use bal_tree::{Peer, QualifiedName, WaitMember};
use expr_needs::Expected;

/// A need of messages and waits, as a value: a variant for each call of `MeetsExprs` and `MeetsStmts` that is about these.
pub enum ActionNeed<'t> {
    /// The name stands in a wait.
    Awaits(&'t QualifiedName),
    /// One of the names is waited for.
    WaitsForAny(&'t [QualifiedName], Place),
    /// All of the names are waited for.
    WaitsForAll(&'t [WaitMember], Place),
    /// A message of the peer is received.
    Receives(Expected, &'t Peer, Place),
    /// The last part is sent to the peer.
    Sends(&'t Peer, Place),
    /// The same, and its receive is waited for.
    SendsAndWaits(&'t Peer, Place),
    /// The receives of what was sent to the peer are waited for.
    Flushes(&'t Peer, Place),
}
