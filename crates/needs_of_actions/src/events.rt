//! The messages of a function, and whether the worker at the other end may have failed.
ghost use Rattle.std.specs.Prelude.{◌≡◌, ◌≤◌, ◌==◌, ◌&&◌};
ghost use Rattle.check_words.specs.Actions.{is_at as is_at_of, may_fail as may_fail_of, sent_before as sent_before_of};
ghost use Rattle.worker_pairing.specs.Events.{is_peer as is_peer_of, receives_from as receives_from_of, sends_to as sends_to_of};
ghost use Rattle.needs_of_actions.specs.Failing.{flush_fails_at, one_if as one_if_of, sync_fails as sync_fails_of};

use bal_base::Place;
use typed_tree::{EventKind, SeenEvent};

/// Whether the worker at the other end is this one.
fn is_peer(worker: u32, peer: Option<u32>) -> bool
    ensures { result ≡ is_peer_of worker peer }
{
    match peer {
        Some(number) => number == worker,
        None => false,
    }
}

/// Whether a message goes to this worker.
fn sends_to(worker: u32, kind: &EventKind) -> bool
    ensures { result ≡ sends_to_of worker kind.now }
{
    match kind {
        EventKind::Send(peer) | EventKind::Post(peer) => is_peer(worker, *peer),
        EventKind::Done(_) | EventKind::Receive(_) => false,
        EventKind::Flush(_) | EventKind::Wait(_) | EventKind::End => false,
    }
}

/// Whether a message of this worker is received.
fn receives_from(worker: u32, kind: &EventKind) -> bool
    ensures { result ≡ receives_from_of worker kind.now }
{
    match kind {
        EventKind::Receive(peer) => is_peer(worker, *peer),
        EventKind::Send(_) | EventKind::Post(_) | EventKind::Done(_) => false,
        EventKind::Flush(_) | EventKind::Wait(_) | EventKind::End => false,
    }
}

/// Whether the event stands at the place.
fn is_at(at: Place, event: &SeenEvent) -> bool
    ensures { result ≡ is_at_of at event.now }
{
    event.event.at.file == at.file && event.event.at.at == at.at
}

/// Whether it is an event of the worker.
fn is_of(worker: u32, event: &SeenEvent) -> bool
    ensures { result ≡ (event.now.event.worker == worker) }
{
    event.event.worker == worker
}

/// Whether both are so.
fn both(first: bool, second: bool) -> bool
    ensures { result ≡ (first && second) }
{
    match first {
        true => second,
        false => false,
    }
}

fn one_if(so: bool) -> usize
    ensures is { result ≡ one_if_of so }
    ensures small { result ≤ 1 }
{
    match so {
        true => 1,
        false => 0,
    }
}

/// Whether the event is the one at the place.
fn ends(own: u32, at: Place, event: &SeenEvent) -> bool
    ensures { result ≡ ((event.now.event.worker == own) && is_at_of at event.now) }
{
    both(is_of(own, event), is_at(at, event))
}

/// Whether the event is a message from the one worker to the other.
fn sends_here(own: u32, peer: u32, event: &SeenEvent) -> bool
    ensures { result ≡ ((event.now.event.worker == own) && sends_to_of peer event.now.kind) }
{
    both(is_of(own, event), sends_to(peer, &event.kind))
}

/// Whether the event is a receive of a message from the one worker to the other.
fn receives_here(own: u32, peer: u32, event: &SeenEvent) -> bool
    ensures { result ≡ ((event.now.event.worker == peer) && receives_from_of own event.now.kind) }
{
    both(is_of(peer, event), receives_from(own, &event.kind))
}

/// How many messages to the worker stand before the place in the worker `own`.
fn sent_before(own: u32, peer: u32, at: Place, events: &[SeenEvent]) -> usize
    ensures { result ≡ sent_before_of own peer at events.now }
{
    let mut sent: usize = 0;
    for event in events {
        if ends(own, at, event) {
            return sent;
        }
        sent += one_if(sends_here(own, peer, event));
    }
    sent
}

/// Whether the worker `peer` may have failed before it receives the message with this number from the worker `own`.
fn may_fail(own: u32, peer: u32, number: usize, events: &[SeenEvent]) -> bool
    ensures { result ≡ may_fail_of own peer number events.now }
{
    let mut seen: usize = 0;
    for event in events {
        let receives = receives_here(own, peer, event);
        if both(receives, seen == number) {
            return event.after_early;
        }
        seen += one_if(receives);
    }
    false
}

/// Whether the receive of a synchronous send may fail. It costs a look through the events.
pub(crate) fn sync_fails(at: Place, own: u32, peer: u32, events: &[SeenEvent]) -> bool
    ensures { result ≡ sync_fails_of at own peer events.now }
{
    may_fail(own, peer, sent_before(own, peer, at, events), events)
}

/// Whether one of the receives that a flush waits for may fail. It costs a look through the events.
pub(crate) fn flush_fails(at: Place, own: u32, peer: u32, events: &[SeenEvent]) -> bool
    ensures { result ≡ flush_fails_at at own peer events.now }
{
    match sent_before(own, peer, at, events) {
        0 => false,
        count => may_fail(own, peer, count - 1, events),
    }
}
