//! Events of workers, and which of them belong together.

use bal_base::{Event, Numbers, Row};

/// What an event is. The number is that of the worker at the other end, and `None` where the action names no other
/// worker of the function.
#[derive(Drop)]
pub enum EventKind {
    /// `e -> W`
    Send(Option<u32>),
    /// The first half of `e ->> W`: the message is sent.
    Post(Option<u32>),
    /// The second half of `e ->> W`: the message was received.
    Done(Option<u32>),
    /// `<- W`
    Receive(Option<u32>),
    /// `flush W`
    Flush(Option<u32>),
    /// A wait on these workers, in order, among what else it waits for.
    Wait(Numbers),
    /// The end of the worker.
    End,
}

/// An event as the syntax shows it.
#[derive(Drop)]
pub struct SeenEvent {
    pub event: Event,
    pub kind: EventKind,
    /// Whether a `check`, or a `return` with an expression, stands before the event in its worker, outside the
    /// initial part.
    pub after_early: bool,
}

/// The events of a function by worker, the default worker first, and by text order within a worker.
pub type SeenEvents = Row<SeenEvent>;

/// A send or a post, and the receive that gets its message.
#[derive(Clone, Copy)]
pub struct Pair {
    pub send: Event,
    pub receive: Event,
}

/// Pairs, in order.
pub type Pairs = Row<Pair>;

/// How the messages of a function are paired, and a rank for each of its events, in the order of [`SeenEvents`]. Ranks
/// rise along each worker, and from what an event needs to it.
#[derive(Drop)]
pub struct Plan {
    pub pairs: Pairs,
    pub ranks: Numbers,
}
