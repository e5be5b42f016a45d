//! Events and returns of workers, as references to a tree.

use bal_base::Place;
use typed_tree::{Peer, SharedTy};

/// What an event is.
#[derive(Clone, Copy)]
pub enum SaidKind<'a> {
    /// `e -> W`
    Send(Peer),
    /// The first half of `e ->> W`: the message is sent.
    Post(Peer),
    /// The second half of `e ->> W`: the message was received.
    Done(Peer),
    /// `<- W`
    Receive(Peer),
    /// `flush W`
    Flush(Peer),
    /// A wait on those of these names that are workers.
    Wait(&'a [Option<u32>]),
    /// The end of the worker.
    End,
}

/// A type as the tree holds it.
#[derive(Clone, Copy)]
pub enum SaidType<'a> {
    /// Nil, where nothing stands in the tree.
    Nil,
    Of(&'a SharedTy),
}

/// An event of a worker.
#[derive(Clone, Copy)]
pub struct Said<'a> {
    pub kind: SaidKind<'a>,
    pub at: Place,
    /// Whether it stands in the initial part.
    pub initial: bool,
    /// Whether it stands in a part that may be left out or done again.
    pub inner: bool,
    /// Whether its worker may have ended early before it.
    pub early: bool,
    /// The type of what is sent or received.
    pub ty: SaidType<'a>,
}

/// A return outside the initial part.
#[derive(Clone, Copy)]
pub struct Returned<'a> {
    /// How many events of its worker stand before it.
    pub before: usize,
    pub ty: SaidType<'a>,
    pub at: Place,
}

/// A worker: its events and returns in text order, and its result type.
#[derive(Drop)]
pub struct HeldMember<'a> {
    pub sayings: Vec<Said<'a>>,
    pub returns: Vec<Returned<'a>>,
    pub result: &'a SharedTy,
}

/// The workers of a function, the default one first.
#[derive(Drop)]
pub struct HeldMembers<'a> {
    pub workers: Vec<HeldMember<'a>>,
}
