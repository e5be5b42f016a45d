//! The ring of events that allows no ranks.
#![tactic(auto)]

ghost use Rattle.std.specs.Prelude.{◌≡◌, ◌++◌, ◌∷◌, IfOk, OnOk, map};
ghost use Rattle.std.specs.List.{flat_map};
ghost use Rattle.bal_base.specs.declared.fault.FaultCode.TheVariants.{WaitCycle};
ghost use Rattle.bal_base.specs.declared.fault.Kept.TheVariants.{Events as ShowsEvents};
ghost use Rattle.checks.specs.Questions.{IsFault};
ghost use Rattle.graphs.specs.Cycles.{IsOnCycle};
ghost use Rattle.graphs.specs.Distances.{IsReversed};
ghost use Rattle.worker_pairing.specs.Events.{IsOrderable};
ghost use Rattle.worker_pairing.specs.Faults.{IsRingFault, crew_of, event_of as event_held};
ghost use Rattle.worker_pairing.specs.Marks.{in_text};
ghost use Rattle.worker_members.specs.Held.{member_held, numbered_held};
ghost use Rattle.worker_ranks.specs.inner.SideBySide.{AreRuns};
ghost use Rattle.worker_ranks.specs.inner.Turned.{groups_held, laid};
ghost use Rattle.worker_ranks.specs.inner.Vertices.{IsCyclic, IsFirstOnCycle, IsRingAt, IsRingOf, ShowsRing, close_of, graph_of, place_in_text, shown, vertex_of};

use crate::nodes::{Edges, Node, nodes};
use crate::peel::freed_numbers;
use crate::runs::{graph, runs};
use bal_base::{Event, Fault, FaultCode, Kept, Memory, Place, Row};
use graphs::{first_cycle, reversed};
use std::alloc::Global;
use worker_members::{HeldMember, Standing};

/// A ring by the numbers of its events in text order.
#[derive(Drop)]
pub(crate) struct Ring {
    first: usize,
    others: Vec<usize>,
}

/// The first number that lies on a cycle, where any does. A number in front that lies on none costs a search of the graph where a way leads
/// from a cycle to it and from it to one.
fn first_on_cycle(alloc: Global, next: &[Vec<usize>], back: &[Vec<usize>]) -> Result<usize, Memory>
    requires reversed { IsReversed (map (λ v. v.items) next.now) (map (λ v. v.items) back.now) }
    requires cyclic { IsCyclic (map (λ v. v.items) next.now) }
    ensures { IfOk result (IsFirstOnCycle (map (λ v. v.items) next.now)) }
{
    let mut freed = freed_numbers(alloc, next, back)?;
    for first in 0..back.len() {
        let on = freed.is_on_cycle(alloc, next, back, first)?;
        if on {
            return Ok(first);
        }
    }
    unreachable!()
}

/// The same of a graph that isn't turned round yet.
fn first_in(alloc: Global, next: &[Vec<usize>]) -> Result<usize, Memory>
    requires { IsCyclic (map (λ v. v.items) next.now) }
    ensures { IfOk result (IsFirstOnCycle (map (λ v. v.items) next.now)) }
{
    let back = reversed(alloc, next)?;
    first_on_cycle(alloc, next, &back)
}

/// The first of the events that lies on a ring.
fn first_of(alloc: Global, runs: &[Vec<Node<'_>>]) -> Result<usize, Memory>
    requires runs { AreRuns (groups_held runs.now) }
    requires cyclic { IsCyclic (close_of (laid (groups_held runs.now))) }
    ensures { IfOk result (IsFirstOnCycle (close_of (laid (groups_held runs.now)))) }
{
    let next = graph(alloc, Edges::Close, runs)?;
    first_in(alloc, &next)
}

/// The first of the shortest rings that begin with a number, which lies on one.
fn ring_from(
    alloc: Global,
    next: &[Vec<usize>],
    back: &[Vec<usize>],
    first: usize,
) -> Result<Ring, Memory>
    requires reversed { IsReversed (map (λ v. v.items) next.now) (map (λ v. v.items) back.now) }
    requires cycle { IsOnCycle (map (λ v. v.items) next.now) first }
    ensures { IfOk result (λ ring. IsRingAt (map (λ v. v.items) next.now) first ring.first ring.others.items) }
{
    let found = first_cycle(alloc, next, back, first)?;
    match found {
        Some(others) => Ok(Ring { first, others }),
        None => unreachable!(),
    }
}

/// The same of a graph that isn't turned round yet.
fn ring_in(alloc: Global, next: &[Vec<usize>], first: usize) -> Result<Ring, Memory>
    requires { IsOnCycle (map (λ v. v.items) next.now) first }
    ensures { IfOk result (λ ring. IsRingAt (map (λ v. v.items) next.now) first ring.first ring.others.items) }
{
    let back = reversed(alloc, next)?;
    ring_from(alloc, next, &back, first)
}

/// The same of the events.
fn ring_at(alloc: Global, runs: &[Vec<Node<'_>>], first: usize) -> Result<Ring, Memory>
    requires runs { AreRuns (groups_held runs.now) }
    requires cycle { IsOnCycle (graph_of (laid (groups_held runs.now))) first }
    ensures { IfOk result (λ ring. IsRingAt (graph_of (laid (groups_held runs.now))) first ring.first ring.others.items) }
{
    let next = graph(alloc, Edges::Every, runs)?;
    ring_in(alloc, &next, first)
}

/// The ring of the events, of which some lie on one.
fn ring_of(alloc: Global, runs: &[Vec<Node<'_>>]) -> Result<Ring, Memory>
    requires runs { AreRuns (groups_held runs.now) }
    requires cyclic { IsCyclic (close_of (laid (groups_held runs.now))) }
    ensures { IfOk result (λ ring. IsRingOf (laid (groups_held runs.now)) ring.first ring.others.items) }
{
    let first = first_of(alloc, runs)?;
    ring_at(alloc, runs, first)
}

/// An event as it is shown.
fn event_of(event: Standing<'_>) -> Event
    ensures { result ≡ event_held (numbered_held event.entry) }
{
    Event {
        worker: event.worker,
        number: event.number,
        at: event.said.at,
    }
}

/// The event with this number, where there is one, behind those that are shown.
fn show(events: &mut Vec<Event>, text: &[Standing<'_>], number: usize) -> Result<(), Memory>
    ensures { OnOk result (events.new.items ≡ events.old.items ++ shown (map numbered_held text.now) number) }
{
    match text.get(number) {
        Some(event) => {
            events.push(event_of(*event))?;
            Ok(())
        }
        None => Ok(()),
    }
}

/// The events of a ring.
fn events_of(
    alloc: Global,
    text: &[Standing<'_>],
    first: usize,
    others: &[usize],
) -> Result<Vec<Event>, Memory>
    ensures { IfOk result (λ events. events.items ≡ flat_map (shown (map numbered_held text.now)) (first ∷ others.now)) }
{
    let mut events = Vec::new(alloc);
    show(&mut events, text, first)?;
    for number in others {
        show(&mut events, text, *number)?;
    }
    Ok(events)
}

/// Where the event with this number stands.
fn place_at(text: &[Standing<'_>], number: usize) -> Option<Place>
    ensures { result ≡ place_in_text (map numbered_held text.now) number }
{
    match text.get(number) {
        Some(event) => Some(event.said.at),
        None => None,
    }
}

/// `WaitCycle` at this place with these events.
fn wait_cycle(at: Option<Place>, events: Vec<Event>) -> Fault
    ensures { IsFault WaitCycle at (ShowsEvents events.items) result }
{
    Fault {
        code: FaultCode::WaitCycle,
        at,
        kept: Kept::Events(Row::of(events)),
    }
}

/// The fault that shows a ring.
fn shown_ring(alloc: Global, text: &[Standing<'_>], ring: Ring) -> Result<Fault, Memory>
    ensures { IfOk result (ShowsRing (map numbered_held text.now) ring.first ring.others.items) }
{
    let events = events_of(alloc, text, ring.first, &ring.others)?;
    Ok(wait_cycle(place_at(text, ring.first), events))
}

/// The events of the text, by neighbours of one worker.
fn text_runs<'a>(
    alloc: Global,
    workers: &[HeldMember<'_>],
    text: &[Standing<'a>],
) -> Result<Vec<Vec<Node<'a>>>, Memory>
    ensures runs { IfOk result (λ runs. AreRuns (groups_held runs.items)) }
    ensures laid { IfOk result (λ runs. laid (groups_held runs.items) ≡ map (vertex_of (map member_held workers.now)) (map numbered_held text.now)) }
{
    let vertices = nodes(alloc, workers, text)?;
    runs(alloc, &vertices)
}

/// The ring in which events of the workers wait for one another, where there is no numbering, as `WaitCycle` at its first event: it
/// begins with the first event in text order that lies on a ring, and is a shortest one, and of those the one whose events come first in
/// text order. `text` has all events in text order. An event costs a look at those of its worker and of the workers of which it may need
/// some. The first one is sought where rounds over the events, which end when they tell no more, leave some that may lie on a ring; one of
/// these in front of it costs a search of what events need and of those right before them. The memory grows with the squares of the
/// events of each worker. Wants memory alone.
pub fn ring_fault(
    alloc: Global,
    workers: &[HeldMember<'_>],
    text: &[Standing<'_>],
) -> Result<Fault, Memory>
    requires text { map numbered_held text.now ≡ in_text (map member_held workers.now) }
    requires none { ¬ IsOrderable (crew_of (map member_held workers.now)) }
    ensures { IfOk result (IsRingFault (map member_held workers.now)) }
{
    let runs = text_runs(alloc, workers, text)?;
    let ring = ring_of(alloc, &runs)?;
    shown_ring(alloc, text, ring)
}
