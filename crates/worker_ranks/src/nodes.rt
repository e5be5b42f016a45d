//! Events as the vertices of a graph.
#![tactic(auto)]

ghost use Rattle.std.specs.Prelude.{◌≡◌, ◌++◌, ◌∷◌, ◌&&◌, ◌+◌, ◌==◌, [], IfOk, OnOk, if◌then◌else◌, length, map, nat_lt};
ghost use Rattle.operations.specs.Talk.{workers_in};
ghost use Rattle.worker_pairing.specs.Events.{is_peer as is_peer_of, receives_from as receives_from_of, sends_to as sends_to_of};
ghost use Rattle.worker_pairing.specs.Faults.{crew_of, kinds_of};
ghost use Rattle.worker_members.specs.Held.{kind_of, member_held, numbered_held};
ghost use Rattle.worker_ranks.specs.inner.Vertices.{is_among, is_edge_by, needs_other, place_in, vertex_held, vertex_of};

use bal_base::Memory;
use std::alloc::Global;
use worker_faults::{receives_from, sends_to};
use worker_members::{HeldMember, SaidKind, Standing};
use worker_partners::{Side, before};

/// An event, with how many messages on its way stand before it in its worker, and whether it is the last one there.
#[derive(Clone, Copy)]
pub(crate) struct Node<'a> {
    pub worker: u32,
    pub number: u32,
    pub kind: SaidKind<'a>,
    pub place: usize,
    pub last: bool,
}

/// Which edges a graph has besides those to what an event needs.
#[derive(Clone, Copy)]
pub(crate) enum Edges {
    /// To each event before it in its worker.
    Every,
    /// To the one right before it.
    Close,
}

/// How many messages on its way stand before an event in its worker.
fn place_of(workers: &[HeldMember<'_>], event: Standing<'_>) -> usize
    ensures { result ≡ place_in (crew_of (map member_held workers.now)) event.entry.worker event.entry.number (kind_of event.entry.said.kind) }
{
    let number = event.number as usize;
    match event.said.kind {
        SaidKind::Send(Some(to)) | SaidKind::Post(Some(to)) => {
            before(workers, event.worker, Side::SentTo(to), number)
        }
        SaidKind::Done(Some(to)) | SaidKind::Flush(Some(to)) => {
            before(workers, event.worker, Side::SentTo(to), number)
        }
        SaidKind::Receive(Some(from)) => {
            before(workers, event.worker, Side::ReceivedFrom(from), number)
        }
        SaidKind::Send(None) | SaidKind::Post(None) | SaidKind::Done(None) => 0,
        SaidKind::Flush(None) | SaidKind::Receive(None) => 0,
        SaidKind::Wait(_) | SaidKind::End => 0,
    }
}

/// Whether this is the number of the last event.
fn ends_with(events: usize, number: u32) -> bool
    ensures { result ≡ (number + 1 == events) }
{
    number as usize + 1 == events
}

/// Whether it is the last event of its worker.
fn is_last(workers: &[HeldMember<'_>], worker: u32, number: u32) -> bool
    ensures { result ≡ (number + 1 == length (kinds_of (map member_held workers.now) worker)) }
{
    match workers.get(worker as usize) {
        Some(member) => ends_with(member.sayings.len(), number),
        None => false,
    }
}

fn node_of<'a>(workers: &[HeldMember<'_>], event: Standing<'a>) -> Node<'a>
    ensures { vertex_held result ≡ vertex_of (map member_held workers.now) (numbered_held event.entry) }
{
    let place = place_of(workers, event);
    let last = is_last(workers, event.worker, event.number);
    Node {
        worker: event.worker,
        number: event.number,
        kind: event.said.kind,
        place,
        last,
    }
}

/// These events as vertices. Each costs a look at the events of its worker.
pub(crate) fn nodes<'a>(
    alloc: Global,
    workers: &[HeldMember<'_>],
    events: &[Standing<'a>],
) -> Result<Vec<Node<'a>>, Memory>
    ensures { IfOk result (λ nodes. map vertex_held nodes.items ≡ map (vertex_of (map member_held workers.now)) (map numbered_held events.now)) }
{
    let mut nodes = Vec::new(alloc);
    for event in events {
        let node = node_of(workers, *event);
        nodes.push(node)?;
    }
    Ok(nodes)
}

/// Whether the name is this worker's.
pub(crate) fn is_peer(name: Option<u32>, worker: u32) -> bool
    ensures { result ≡ is_peer_of worker name }
{
    match name {
        Some(number) => number == worker,
        None => false,
    }
}

/// Whether one of these names is this worker's.
pub(crate) fn is_named(names: &[Option<u32>], worker: u32) -> bool
    ensures { result ≡ is_among (workers_in names.now) worker }
{
    for name in names {
        if is_peer(*name, worker) {
            return true;
        }
    }
    false
}

/// Whether the second, a message of this worker, is the one that the first receives.
fn is_sent(a: Node<'_>, b: Node<'_>, from: u32) -> bool
    ensures { result ≡ ((b.entry.worker == from) && (sends_to_of a.entry.worker (kind_of b.entry.kind) && (b.entry.place == a.entry.place))) }
{
    b.worker == from && sends_to(a.worker, b.kind) && b.place == a.place
}

/// Whether the second number comes next.
fn is_next(first: usize, second: usize) -> bool
    ensures { result ≡ (first + 1 == second) }
{
    if first >= second {
        return false;
    }
    first == second - 1
}

/// Whether the second is the receive at this worker of the last message before the first.
fn is_taken(a: Node<'_>, b: Node<'_>, to: u32) -> bool
    ensures { result ≡ ((b.entry.worker == to) && (receives_from_of a.entry.worker (kind_of b.entry.kind) && (b.entry.place + 1 == a.entry.place))) }
{
    b.worker == to && receives_from(a.worker, b.kind) && is_next(b.place, a.place)
}

/// Whether the second is the receive at this worker of a message before the first.
fn is_flushed(a: Node<'_>, b: Node<'_>, to: u32) -> bool
    ensures { result ≡ ((b.entry.worker == to) && (receives_from_of a.entry.worker (kind_of b.entry.kind) && nat_lt b.entry.place a.entry.place)) }
{
    b.worker == to && receives_from(a.worker, b.kind) && b.place < a.place
}

/// Whether the first needs the second.
pub(crate) fn needs(a: Node<'_>, b: Node<'_>) -> bool
    ensures { result ≡ needs_other (kind_of a.entry.kind) (vertex_held a.entry) (vertex_held b.entry) }
{
    match a.kind {
        SaidKind::Receive(Some(from)) => is_sent(a, b, from),
        SaidKind::Done(Some(to)) => is_taken(a, b, to),
        SaidKind::Flush(Some(to)) => is_flushed(a, b, to),
        SaidKind::Wait(names) => b.last && is_named(names, b.worker),
        SaidKind::Receive(None) | SaidKind::Done(None) | SaidKind::Flush(None) => false,
        SaidKind::Send(_) | SaidKind::Post(_) | SaidKind::End => false,
    }
}

/// Whether the first stands behind the second in their worker.
fn is_behind(a: Node<'_>, b: Node<'_>) -> bool
    ensures { result ≡ ((a.entry.worker == b.entry.worker) && nat_lt b.entry.number a.entry.number) }
{
    a.worker == b.worker && b.number < a.number
}

/// Whether the first stands right behind the second in their worker.
fn is_right_behind(a: Node<'_>, b: Node<'_>) -> bool
    ensures { result ≡ ((a.entry.worker == b.entry.worker) && (b.entry.number + 1 == a.entry.number)) }
{
    a.worker == b.worker && is_next(b.number as usize, a.number as usize)
}

/// Whether such an edge goes from the first to the second.
pub(crate) fn is_edge(edges: Edges, a: Node<'_>, b: Node<'_>) -> bool
    ensures { result ≡ is_edge_by edges (vertex_held a.entry) (vertex_held b.entry) }
{
    match edges {
        Edges::Every => is_behind(a, b) || needs(a, b),
        Edges::Close => is_right_behind(a, b) || needs(a, b),
    }
}

pub(crate) fn push_if(next: &mut Vec<usize>, number: usize, there: bool) -> Result<(), Memory>
    ensures { OnOk result (next.new.items ≡ next.old.items ++ (if there then number ∷ [] else [])) }
{
    if there {
        next.push(number)?;
    }
    Ok(())
}
