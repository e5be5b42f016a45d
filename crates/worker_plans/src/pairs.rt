//! The pairs of messages.
#![tactic(auto)]

ghost use Rattle.std.specs.Prelude.{◌≡◌, ◌++◌, ◌∷◌, [], IfOk, None as Absent, OnOk, Some as There, if◌then◌else◌, map, option_map, ◌==◌};
ghost use Rattle.worker_pairing.specs.Faults.{event_of as event_held, pair_with, pairs_of, pairs_on};
ghost use Rattle.worker_pairing.specs.Marks.{in_text};
ghost use Rattle.worker_faults.specs.Routes.{route_held};
ghost use Rattle.worker_members.specs.Held.{members_held, numbered_held};
ghost use Rattle.worker_partners.specs.Partners.{found_held};
ghost use Rattle.worker_plans.specs.Sends.{pairs_at, sent_on as sent_on_of};

use bal_base::{Event, Memory};
use std::alloc::Global;
use typed_tree::Pair;
use worker_faults::{Route, message_route, place_on};
use worker_members::{HeldMembers, Standing};
use worker_partners::{Found, Side, nth};

/// The route of what an event sends.
fn sent_on(event: Standing<'_>) -> Option<Route>
    ensures { option_map route_held result ≡ sent_on_of (numbered_held event.entry) }
{
    match message_route(event) {
        Some(way) => if_sender(event.worker, way),
        None => None,
    }
}

fn if_sender(worker: u32, way: Route) -> Option<Route>
    ensures { option_map route_held result ≡ (if worker == way.from then There (route_held way) else Absent) }
{
    if worker == way.from { Some(way) } else { None }
}

/// An event as it is shown.
fn event_of(event: Standing<'_>) -> Event
    ensures { result ≡ event_held (numbered_held event.entry) }
{
    Event {
        worker: event.worker,
        number: event.number,
        at: event.said.at,
    }
}

/// An event that was found, as it is shown. Wants memory where its number is past 2^32.
fn found_event(worker: u32, found: Found<'_>) -> Result<Event, Memory>
    ensures { IfOk result (λ e. e ≡ event_held (found_held worker found.entry)) }
{
    if found.number > u32::MAX as usize {
        return Err(Memory);
    }
    Ok(Event {
        worker,
        number: found.number as u32,
        at: found.said.at,
    })
}

/// The pair of a send and what was found.
fn pair_of(event: Standing<'_>, worker: u32, found: Found<'_>) -> Result<Pair, Memory>
    ensures { IfOk result (λ p. p ≡ pair_with (numbered_held event.entry) (found_held worker found.entry)) }
{
    let receive = found_event(worker, found)?;
    Ok(Pair {
        send: event_of(event),
        receive,
    })
}

/// The pair of a message on its way, behind those that are there.
fn add_on(
    pairs: &mut Vec<Pair>,
    members: &HeldMembers<'_>,
    event: Standing<'_>,
    way: Route,
) -> Result<(), Memory>
    ensures { OnOk result (pairs.new.items ≡ pairs.old.items ++ pairs_on (members_held members.now) (numbered_held event.entry) (There (route_held way))) }
{
    let place = place_on(members, event, way);
    match nth(
        &members.workers,
        way.to,
        Side::ReceivedFrom(way.from),
        place,
    ) {
        Some(found) => {
            let pair = pair_of(event, way.to, found)?;
            pairs.push(pair)?;
            Ok(())
        }
        None => Ok(()),
    }
}

/// The pair of an event that sends, behind those that are there.
fn add_pair(
    pairs: &mut Vec<Pair>,
    members: &HeldMembers<'_>,
    event: Standing<'_>,
) -> Result<(), Memory>
    ensures { OnOk result (pairs.new.items ≡ pairs.old.items ++ pairs_at (members_held members.now) (numbered_held event.entry)) }
{
    match sent_on(event) {
        Some(way) => add_on(pairs, members, event, way),
        None => Ok(()),
    }
}

/// The pair of each send, in text order of the sends. Each costs a look at the events of its two workers. Wants memory alone.
pub(crate) fn pairs(
    alloc: Global,
    members: &HeldMembers<'_>,
    text: &[Standing<'_>],
) -> Result<Vec<Pair>, Memory>
    requires { map numbered_held text.now ≡ in_text (members_held members.now) }
    ensures { IfOk result (λ pairs. pairs.items ≡ pairs_of (members_held members.now)) }
{
    let mut pairs = Vec::new(alloc);
    for event in text {
        add_pair(&mut pairs, members, *event)?;
    }
    Ok(pairs)
}
