//! Messages that nothing at the other end belongs to.
#![tactic(auto)]

ghost use Rattle.std.specs.Prelude.{◌≡◌, Some as There, map, nat_le};
ghost use Rattle.checks.specs.Checks.{Comes};
ghost use Rattle.worker_pairing.specs.Faults.{Atoms, counts as counts_of, is_unpaired as is_unpaired_of, none_bad, other_side as other_side_of, place_on as place_on_of, route as route_of, unpaired_fault};
ghost use Rattle.worker_members.specs.Held.{kind_of, members_held, numbered_held};
ghost use Rattle.worker_faults.specs.Routes.{route_held};

use crate::counting::{Route, message_route, other_side, place_on, received_in, sent_in};
use crate::faults::fault_at;
use bal_base::{Fault, FaultCode, Kept, Stop};
use worker_members::{HeldMembers, Standing};

/// Whether no more are at the other end of a route than stand before the event.
fn is_left(members: &HeldMembers<'_>, event: Standing<'_>, way: Route) -> bool
    ensures { result ≡ nat_le (other_side_of (members_held members.now) (numbered_held event.entry) (route_held way)) (place_on_of (members_held members.now) (numbered_held event.entry) (route_held way)) }
{
    other_side(members, event, way) <= place_on(members, event, way)
}

/// Whether nothing at the other end belongs to the event.
fn is_unpaired(members: &HeldMembers<'_>, event: Standing<'_>) -> bool
    ensures { result ≡ is_unpaired_of (members_held members.now) (numbered_held event.entry) }
{
    match message_route(event) {
        Some(way) => is_left(members, event, way),
        None => false,
    }
}

/// How many are sent and how many received on a route.
fn counts_on(members: &HeldMembers<'_>, way: Route) -> Kept
    ensures { result ≡ counts_of (members_held members.now) (There (route_held way)) }
{
    let sent = sent_in(members, way) as u64;
    let received = received_in(members, way) as u64;
    Kept::Counts(sent, received)
}

/// The same of the event's route.
fn counts(members: &HeldMembers<'_>, event: Standing<'_>) -> Kept
    ensures { result ≡ counts_of (members_held members.now) (route_of event.entry.worker (kind_of event.entry.said.kind)) }
{
    match message_route(event) {
        Some(way) => counts_on(members, way),
        None => Kept::Nothing,
    }
}

/// The fault of such an event.
fn unpaired_at(members: &HeldMembers<'_>, event: Standing<'_>) -> Fault
    ensures { unpaired_fault (members_held members.now) (numbered_held event.entry) result }
{
    fault_at(event, FaultCode::Unpaired, counts(members, event))
}

/// Each message that is sent is received, and none else: else `Unpaired` at the first event in text order to which nothing at the other
/// end belongs, with how many are sent and how many received on its route. Each message costs a look at the events of its two
/// workers. Takes no memory.
pub fn none_unpaired(members: &HeldMembers<'_>, text: &[Standing<'_>]) -> Result<(), Stop<Fault>>
    ensures { (env : Atoms) → Comes (none_bad (is_unpaired_of (members_held members.now)) (unpaired_fault (members_held members.now)) (map numbered_held text.now)) env result env }
{
    for event in text {
        if is_unpaired(members, *event) {
            return Err(Stop::Fault(unpaired_at(members, *event)));
        }
    }
    Ok(())
}
