//! Messages that are received.
#![tactic(auto)]

ghost use Rattle.std.specs.Prelude.{◌≡◌, All, Some as There, map, option_map};
ghost use Rattle.checks.specs.Checks.{Comes};
ghost use Rattle.type_model.specs.Defined.{IsDefined};
ghost use Rattle.worker_pairing.specs.Faults.{all_pass, from_route as from_route_of, message_fits as message_fits_of, message_passes as message_passes_of};
ghost use Rattle.worker_pairing.specs.Marks.{in_text};
ghost use Rattle.worker_faults.specs.Routes.{route_held};
ghost use Rattle.worker_members.specs.Held.{kind_of, member_held, members_held, numbered_held, sem_said};
ghost use Rattle.worker_partners.specs.Partners.{found_held};
ghost use Rattle.worker_messages.specs.Defined.{AreDefined};
ghost use Rattle.worker_messages.specs.inner.Asked.{received_route, sender_fits as sender_fits_of};

use crate::fitting::{failure_fits, fits_said};
use bal_base::{Fault, Stop};
use std::alloc::Global;
use type_model::{BasicSet, SemType, Types};
use worker_faults::{Route, place_on};
use worker_members::{HeldMember, HeldMembers, SaidKind, Standing};
use worker_partners::{Found, Side, nth};

/// The route of what an event receives.
fn received_on(event: Standing<'_>) -> Option<Route>
    ensures { option_map route_held result ≡ received_route event.entry.worker (kind_of event.entry.said.kind) }
{
    match event.said.kind {
        SaidKind::Receive(Some(from)) => Some(Route {
            from,
            to: event.worker,
        }),
        SaidKind::Receive(None) | SaidKind::Send(_) | SaidKind::Post(_) => None,
        SaidKind::Done(_) | SaidKind::Flush(_) | SaidKind::Wait(_) | SaidKind::End => None,
    }
}

/// What a worker may return.
fn result_sem<'m>(member: &'m HeldMember<'_>) -> &'m SemType
    ensures { result.now ≡ (member_held member.now).result }
{
    &member.result.sem
}

/// How the sender of a message may fail is below what the event receives, where it may have ended early.
fn sender_fits<T: Types>(
    alloc: Global,
    types: &mut T,
    members: &HeldMembers<'_>,
    event: Standing<'_>,
    sender: u32,
    early: bool,
) -> Result<(), Stop<Fault>>
    requires members { AreDefined (T.atoms types.old) (members_held members.now) }
    requires received { IsDefined (T.atoms types.old) (sem_said event.said.ty) }
    ensures atoms { T.atoms types.new ≡ T.atoms types.old }
    ensures comes { Comes (sender_fits_of T.passes (members_held members.now) (numbered_held event.entry) sender early) (T.atoms types.old) result (T.atoms types.new) }
{
    if !early {
        return Ok(());
    }
    let received = event.said.ty;
    let at = event.said.at;
    match members.workers.get(sender as usize) {
        Some(member) => failure_fits(alloc, types, result_sem(member), received, at),
        None => failure_fits(alloc, types, &SemType::Basic(BasicSet::Never), received, at),
    }
}

/// The message that a worker sends is received as such a type.
fn message_fits<T: Types>(
    alloc: Global,
    types: &mut T,
    members: &HeldMembers<'_>,
    event: Standing<'_>,
    sender: u32,
    sent: Found<'_>,
) -> Result<(), Stop<Fault>>
    requires members { AreDefined (T.atoms types.old) (members_held members.now) }
    requires sent { IsDefined (T.atoms types.old) (sem_said sent.said.ty) }
    requires received { IsDefined (T.atoms types.old) (sem_said event.said.ty) }
    ensures atoms { T.atoms types.new ≡ T.atoms types.old }
    ensures comes { Comes (message_fits_of T.passes (members_held members.now) (numbered_held event.entry) (found_held sender sent.entry)) (T.atoms types.old) result (T.atoms types.new) }
{
    match fits_said(alloc, types, sent.said.ty, event.said.ty, event.said.at) {
        Ok(()) => sender_fits(alloc, types, members, event, sender, sent.said.early),
        Err(stop) => Err(stop),
    }
}

/// The message that comes to an event on its way fits.
fn from_route<T: Types>(
    alloc: Global,
    types: &mut T,
    members: &HeldMembers<'_>,
    event: Standing<'_>,
    way: Route,
) -> Result<(), Stop<Fault>>
    requires members { AreDefined (T.atoms types.old) (members_held members.now) }
    requires received { IsDefined (T.atoms types.old) (sem_said event.said.ty) }
    ensures atoms { T.atoms types.new ≡ T.atoms types.old }
    ensures comes { Comes (from_route_of T.passes (members_held members.now) (numbered_held event.entry) (There (route_held way))) (T.atoms types.old) result (T.atoms types.new) }
{
    let place = place_on(members, event, way);
    match nth(&members.workers, way.from, Side::SentTo(way.to), place) {
        Some(sent) => message_fits(alloc, types, members, event, way.from, sent),
        None => Ok(()),
    }
}

/// What an event receives is what its send sends.
fn message_passes<T: Types>(
    alloc: Global,
    types: &mut T,
    members: &HeldMembers<'_>,
    event: Standing<'_>,
) -> Result<(), Stop<Fault>>
    requires members { AreDefined (T.atoms types.old) (members_held members.now) }
    requires received { IsDefined (T.atoms types.old) (sem_said event.said.ty) }
    ensures atoms { T.atoms types.new ≡ T.atoms types.old }
    ensures comes { Comes (message_passes_of T.passes (members_held members.now) (numbered_held event.entry)) (T.atoms types.old) result (T.atoms types.new) }
{
    match received_on(event) {
        Some(way) => from_route(alloc, types, members, event, way),
        None => Ok(()),
    }
}

/// The same of events, one behind another.
fn messages_pass<T: Types>(
    alloc: Global,
    types: &mut T,
    members: &HeldMembers<'_>,
    events: &[Standing<'_>],
) -> Result<(), Stop<Fault>>
    requires members { AreDefined (T.atoms types.old) (members_held members.now) }
    requires received { All (λ e. IsDefined (T.atoms types.old) (sem_said e.said.ty)) events.now }
    ensures atoms { T.atoms types.new ≡ T.atoms types.old }
    ensures comes { Comes (all_pass (message_passes_of T.passes (members_held members.now)) (map numbered_held events.now)) (T.atoms types.old) result (T.atoms types.new) }
{
    for event in events {
        message_passes(alloc, types, members, *event)?;
    }
    Ok(())
}

/// What is sent is below what is received, and so are the errors of a sender that may have ended early before its send: else `BadMessage`
/// at the first receive in text order for which that is not so, with a shape that isn't received, and `TypeLimit` there where the
/// question is too large ("Single receive action"). `text` has all events in text order. One or two questions for each receive, which
/// also costs a look at the events of its two workers.
pub fn messages_fit<T: Types>(
    alloc: Global,
    types: &mut T,
    members: &HeldMembers<'_>,
    text: &[Standing<'_>],
) -> Result<(), Stop<Fault>>
    requires members { AreDefined (T.atoms types.old) (members_held members.now) }
    requires text { map numbered_held text.now ≡ in_text (members_held members.now) }
    ensures atoms { T.atoms types.new ≡ T.atoms types.old }
    ensures comes { Comes (all_pass (message_passes_of T.passes (members_held members.now)) (in_text (members_held members.now))) (T.atoms types.old) result (T.atoms types.new) }
{
    messages_pass(alloc, types, members, text)
}
