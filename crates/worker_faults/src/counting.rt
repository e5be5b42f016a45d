//! How many messages stand in workers.
#![tactic(auto)]

ghost use Rattle.std.specs.Prelude.{◌≡◌, ◌≤◌, ◌==◌, map, option_map, take};
ghost use Rattle.worker_pairing.specs.Events.{before as before_of, count as count_of, is_message as is_message_of, is_peer as is_peer_of, receives_from as receives_from_of, sends_to as sends_to_of};
ghost use Rattle.worker_pairing.specs.Faults.{kinds_of, other_side as other_side_of, place_on as place_on_of, received_in as received_in_of, route as route_of, sent_in as sent_in_of};
ghost use Rattle.typed_tree.specs.declared.event.EventKind.TheVariants.{Post, Receive, Send};
ghost use Rattle.worker_members.specs.Held.{kind_of, member_held, members_held, numbered_held};
ghost use Rattle.worker_faults.specs.Routes.{kinds_said, one_if as one_if_of, route_held};

use typed_tree::Peer;
use worker_members::{HeldMember, HeldMembers, Said, SaidKind, Standing, is_message};

/// From which worker to which a message goes.
#[derive(Clone, Copy)]
pub struct Route {
    pub from: u32,
    pub to: u32,
}

fn is_peer(worker: u32, peer: Peer) -> bool
    ensures { result ≡ is_peer_of worker peer }
{
    match peer {
        Some(number) => number == worker,
        None => false,
    }
}

/// Whether a message goes to this worker. Takes no memory.
pub fn sends_to(worker: u32, kind: SaidKind<'_>) -> bool
    ensures { result ≡ sends_to_of worker (kind_of kind.entry) }
{
    match kind {
        SaidKind::Send(peer) | SaidKind::Post(peer) => is_peer(worker, peer),
        SaidKind::Done(_) | SaidKind::Receive(_) => false,
        SaidKind::Flush(_) | SaidKind::Wait(_) | SaidKind::End => false,
    }
}

/// Whether a message of this worker is received. Takes no memory.
pub fn receives_from(worker: u32, kind: SaidKind<'_>) -> bool
    ensures { result ≡ receives_from_of worker (kind_of kind.entry) }
{
    match kind {
        SaidKind::Receive(peer) => is_peer(worker, peer),
        SaidKind::Send(_) | SaidKind::Post(_) | SaidKind::Done(_) => false,
        SaidKind::Flush(_) | SaidKind::Wait(_) | SaidKind::End => false,
    }
}

/// One where it is so, to be added to a count. Takes no memory.
pub fn one_if(so: bool) -> usize
    ensures is { result ≡ one_if_of so }
    ensures small { result ≤ 1 }
{
    match so {
        true => 1,
        false => 0,
    }
}

/// How many messages to this worker are sent.
fn count_sends(sayings: &[Said<'_>], to: u32) -> usize
    ensures { result ≡ count_of (sends_to_of to) (kinds_said sayings.now) }
{
    let mut sent: usize = 0;
    for said in sayings {
        sent += one_if(sends_to(to, said.kind));
    }
    sent
}

/// How many messages of this worker are received.
fn count_receives(sayings: &[Said<'_>], from: u32) -> usize
    ensures { result ≡ count_of (receives_from_of from) (kinds_said sayings.now) }
{
    let mut received: usize = 0;
    for said in sayings {
        received += one_if(receives_from(from, said.kind));
    }
    received
}

/// How many messages are sent or received. Takes time that grows with the events, and no memory.
pub fn count_messages(sayings: &[Said<'_>]) -> usize
    ensures { result ≡ count_of is_message_of (kinds_said sayings.now) }
{
    let mut messages: usize = 0;
    for said in sayings {
        messages += one_if(is_message(said.kind));
    }
    messages
}

/// The first so many events, or all where there are fewer. Takes no memory.
pub fn first_sayings<'m, 'a>(sayings: &'m [Said<'a>], count: usize) -> &'m [Said<'a>]
    ensures { result.now ≡ take count sayings.now }
{
    if count < sayings.len() {
        &sayings[..count]
    } else {
        sayings
    }
}

/// How many messages a worker sends to this one.
fn sends_of(workers: &[HeldMember<'_>], worker: u32, to: u32) -> usize
    ensures { result ≡ count_of (sends_to_of to) (kinds_of (map member_held workers.now) worker) }
{
    match workers.get(worker as usize) {
        Some(member) => count_sends(&member.sayings, to),
        None => 0,
    }
}

/// How many messages of this worker another one receives.
fn receives_of(workers: &[HeldMember<'_>], worker: u32, from: u32) -> usize
    ensures { result ≡ count_of (receives_from_of from) (kinds_of (map member_held workers.now) worker) }
{
    match workers.get(worker as usize) {
        Some(member) => count_receives(&member.sayings, from),
        None => 0,
    }
}

/// How many messages a worker sends to this one before the event with this number. Takes time that grows with the worker's events, and
/// no memory.
pub fn sends_before(workers: &[HeldMember<'_>], worker: u32, number: usize, to: u32) -> usize
    ensures { result ≡ before_of (sends_to_of to) (kinds_of (map member_held workers.now) worker) number }
{
    match workers.get(worker as usize) {
        Some(member) => count_sends(first_sayings(&member.sayings, number), to),
        None => 0,
    }
}

/// How many messages of this worker another one receives before the event with this number. Takes time that grows with the worker's
/// events, and no memory.
pub fn receives_before(workers: &[HeldMember<'_>], worker: u32, number: usize, from: u32) -> usize
    ensures { result ≡ before_of (receives_from_of from) (kinds_of (map member_held workers.now) worker) number }
{
    match workers.get(worker as usize) {
        Some(member) => count_receives(first_sayings(&member.sayings, number), from),
        None => 0,
    }
}

/// The route of what is sent to this peer.
fn sent_route(worker: u32, peer: Peer) -> Option<Route>
    ensures send { option_map route_held result ≡ route_of worker (Send peer) }
    ensures post { option_map route_held result ≡ route_of worker (Post peer) }
{
    match peer {
        Some(to) => Some(Route { from: worker, to }),
        None => None,
    }
}

/// The route of what is received from this peer.
fn received_route(worker: u32, peer: Peer) -> Option<Route>
    ensures { option_map route_held result ≡ route_of worker (Receive peer) }
{
    match peer {
        Some(from) => Some(Route { from, to: worker }),
        None => None,
    }
}

/// The route of the message that an event sends or receives. Takes no memory.
pub fn message_route(event: Standing<'_>) -> Option<Route>
    ensures { option_map route_held result ≡ route_of event.entry.worker (kind_of event.entry.said.kind) }
{
    match event.said.kind {
        SaidKind::Send(peer) | SaidKind::Post(peer) => sent_route(event.worker, peer),
        SaidKind::Receive(peer) => received_route(event.worker, peer),
        SaidKind::Done(_) | SaidKind::Flush(_) | SaidKind::Wait(_) | SaidKind::End => None,
    }
}

/// How many messages are sent on a route.
pub(crate) fn sent_in(members: &HeldMembers<'_>, route: Route) -> usize
    ensures { result ≡ sent_in_of (members_held members.now) route.from route.to }
{
    sends_of(&members.workers, route.from, route.to)
}

/// How many messages are received on a route.
pub(crate) fn received_in(members: &HeldMembers<'_>, route: Route) -> usize
    ensures { result ≡ received_in_of (members_held members.now) route.from route.to }
{
    receives_of(&members.workers, route.to, route.from)
}

/// Whether the event sends on this route of its own.
fn is_sender(event: Standing<'_>, route: Route) -> bool
    ensures { result ≡ (event.entry.worker == route.from) }
{
    event.worker == route.from
}

/// How many of its kind stand before an event on its route. Takes time that grows with the events of its worker, and no memory.
pub fn place_on(members: &HeldMembers<'_>, event: Standing<'_>, route: Route) -> usize
    ensures { result ≡ place_on_of (members_held members.now) (numbered_held event.entry) (route_held route) }
{
    let number = event.number as usize;
    if is_sender(event, route) {
        return sends_before(&members.workers, event.worker, number, route.to);
    }
    receives_before(&members.workers, event.worker, number, route.from)
}

/// How many there are at the other end of an event's route.
pub(crate) fn other_side(members: &HeldMembers<'_>, event: Standing<'_>, route: Route) -> usize
    ensures { result ≡ other_side_of (members_held members.now) (numbered_held event.entry) (route_held route) }
{
    if is_sender(event, route) {
        return received_in(members, route);
    }
    sent_in(members, route)
}
