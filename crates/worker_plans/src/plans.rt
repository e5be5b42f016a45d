//! Plans, or the first fault of a function's workers.
#![tactic(auto)]

ghost use Rattle.std.specs.Prelude.{◌≡◌, Err as Stopped, IfNone, IfOk, IfSome, length, map};
ghost use Rattle.checks.specs.Checks.{Comes};
ghost use Rattle.worker_pairing.specs.Events.{IsNumbering, IsOrderable};
ghost use Rattle.worker_pairing.specs.Faults.{Atoms, crew_of, named_count, ordered as ordered_of, pairs_of, plans as plans_of, rank_in};
ghost use Rattle.worker_pairing.specs.Marks.{in_text, members_of};
ghost use Rattle.worker_members.specs.Held.{member_held, members_held, numbered_held};
ghost use Rattle.worker_messages.specs.Defined.{AreDefined};
ghost use Rattle.worker_plans.specs.inner.Chains.{conditioned as conditioned_of, from_messages as from_messages_of, from_peers as from_peers_of, from_returns as from_returns_of, settled as settled_of};

use crate::pairs::pairs;
use bal_base::{Fault, Memory, Place, Row, Stop};
use std::alloc::Global;
use type_model::Types;
use typed_tree::{Plan, TypedFunction};
use worker_faults::{none_conditional, none_unpaired, peers_named, within_limits};
use worker_members::{HeldMember, HeldMembers, Standing, events_in_text, members};
use worker_messages::{messages_fit, returns_give_errors};
use worker_ranks::{ranked, ring_fault};

/// What pairing sees of a function.
#[derive(Drop)]
pub(crate) struct Seen<'a> {
    pub members: HeldMembers<'a>,
    pub text: Vec<Standing<'a>>,
}

/// The plan with these ranks.
fn planned(
    alloc: Global,
    members: &HeldMembers<'_>,
    text: &[Standing<'_>],
    ranks: Vec<u32>,
) -> Result<Plan, Memory>
    requires { map numbered_held text.now ≡ in_text (members_held members.now) }
    ensures { IfOk result (λ p. (p.pairs ≡ pairs_of (members_held members.now)) × (p.ranks ≡ ranks.items)) }
{
    let pairs = pairs(alloc, members, text)?;
    Ok(Plan {
        pairs: Row::of(pairs),
        ranks: Row::of(ranks),
    })
}

/// The ring that allows no plan.
fn refused(alloc: Global, members: &HeldMembers<'_>, text: &[Standing<'_>]) -> Stop<Fault>
    requires text { map numbered_held text.now ≡ in_text (members_held members.now) }
    requires none { ¬ IsOrderable (crew_of (members_held members.now)) }
    ensures { (env : Atoms) → Comes (ordered_of (members_held members.now)) env (Stopped result) env }
{
    match ring_fault(alloc, &members.workers, text) {
        Ok(fault) => Stop::Fault(fault),
        Err(Memory) => Stop::Memory,
    }
}

/// The same, where there was memory for it.
fn with_ranks(
    alloc: Global,
    members: &HeldMembers<'_>,
    text: &[Standing<'_>],
    ranks: Vec<u32>,
) -> Result<Plan, Stop<Fault>>
    requires text { map numbered_held text.now ≡ in_text (members_held members.now) }
    requires long { length ranks.items ≡ length (in_text (members_held members.now)) }
    requires numbering { IsNumbering (crew_of (members_held members.now)) (rank_in (members_held members.now) ranks.items) }
    ensures { (env : Atoms) → Comes (ordered_of (members_held members.now)) env result env }
{
    match planned(alloc, members, text, ranks) {
        Ok(plan) => Ok(plan),
        Err(Memory) => Err(Stop::Memory),
    }
}

/// The pairs with these ranks, or the ring that allows none.
fn ordered_by(
    alloc: Global,
    members: &HeldMembers<'_>,
    text: &[Standing<'_>],
    found: Option<Vec<u32>>,
) -> Result<Plan, Stop<Fault>>
    requires text { map numbered_held text.now ≡ in_text (members_held members.now) }
    requires none { IfNone found (¬ IsOrderable (crew_of (members_held members.now))) }
    requires long { IfSome found (λ ranks. length ranks.items ≡ length (in_text (members_held members.now))) }
    requires numbering { IfSome found (λ ranks. IsNumbering (crew_of (members_held members.now)) (rank_in (members_held members.now) ranks.items)) }
    ensures { (env : Atoms) → Comes (ordered_of (members_held members.now)) env result env }
{
    match found {
        Some(ranks) => with_ranks(alloc, members, text, ranks),
        None => Err(refused(alloc, members, text)),
    }
}

/// The pairs and ranks, or the ring that allows none.
fn ordered(
    alloc: Global,
    members: &HeldMembers<'_>,
    text: &[Standing<'_>],
) -> Result<Plan, Stop<Fault>>
    requires { map numbered_held text.now ≡ in_text (members_held members.now) }
    ensures { (env : Atoms) → Comes (ordered_of (members_held members.now)) env result env }
{
    match ranked(alloc, &members.workers) {
        Ok(found) => ordered_by(alloc, members, text, found),
        Err(Memory) => Err(Stop::Memory),
    }
}

/// The named workers: all but the default one.
fn named_workers(workers: &[HeldMember<'_>]) -> usize
    ensures { result ≡ named_count (map member_held workers.now) }
{
    match workers.split_first() {
        Some((_, named)) => named.len(),
        None => 0,
    }
}

/// The messages fit, and then the plan.
fn from_messages<T: Types>(
    alloc: Global,
    types: &mut T,
    members: &HeldMembers<'_>,
    text: &[Standing<'_>],
) -> Result<Plan, Stop<Fault>>
    requires members { AreDefined (T.atoms types.old) (members_held members.now) }
    requires text { map numbered_held text.now ≡ in_text (members_held members.now) }
    ensures atoms { T.atoms types.new ≡ T.atoms types.old }
    ensures comes { Comes (from_messages_of T.passes (members_held members.now)) (T.atoms types.old) result (T.atoms types.new) }
{
    match messages_fit(alloc, types, members, text) {
        Ok(()) => ordered(alloc, members, text),
        Err(stop) => Err(stop),
    }
}

/// Returns in front of messages give errors, and then the same.
fn from_returns<T: Types>(
    alloc: Global,
    types: &mut T,
    members: &HeldMembers<'_>,
    text: &[Standing<'_>],
) -> Result<Plan, Stop<Fault>>
    requires members { AreDefined (T.atoms types.old) (members_held members.now) }
    requires text { map numbered_held text.now ≡ in_text (members_held members.now) }
    ensures atoms { T.atoms types.new ≡ T.atoms types.old }
    ensures comes { Comes (from_returns_of T.passes (members_held members.now)) (T.atoms types.old) result (T.atoms types.new) }
{
    match returns_give_errors(alloc, types, members) {
        Ok(()) => from_messages(alloc, types, members, text),
        Err(stop) => Err(stop),
    }
}

/// No event may be left out, and each message belongs to another one.
fn conditioned(members: &HeldMembers<'_>, text: &[Standing<'_>]) -> Result<(), Stop<Fault>>
    requires { map numbered_held text.now ≡ in_text (members_held members.now) }
    ensures { (env : Atoms) → Comes (conditioned_of (members_held members.now)) env result env }
{
    match none_conditional(text) {
        Ok(()) => none_unpaired(members, text),
        Err(stop) => Err(stop),
    }
}

/// Messages and flushes name others, and then the same.
fn settled(members: &HeldMembers<'_>, text: &[Standing<'_>]) -> Result<(), Stop<Fault>>
    requires { map numbered_held text.now ≡ in_text (members_held members.now) }
    ensures { (env : Atoms) → Comes (settled_of (members_held members.now)) env result env }
{
    match peers_named(members.workers.len(), text) {
        Ok(()) => conditioned(members, text),
        Err(stop) => Err(stop),
    }
}

/// What asks nothing about types, and then the rest.
fn from_peers<T: Types>(
    alloc: Global,
    types: &mut T,
    members: &HeldMembers<'_>,
    text: &[Standing<'_>],
) -> Result<Plan, Stop<Fault>>
    requires members { AreDefined (T.atoms types.old) (members_held members.now) }
    requires text { map numbered_held text.now ≡ in_text (members_held members.now) }
    ensures atoms { T.atoms types.new ≡ T.atoms types.old }
    ensures comes { Comes (from_peers_of T.passes (members_held members.now)) (T.atoms types.old) result (T.atoms types.new) }
{
    match settled(members, text) {
        Ok(()) => from_returns(alloc, types, members, text),
        Err(stop) => Err(stop),
    }
}

/// The whole, of the workers of a function whose name stands at the place.
fn plan_of<T: Types>(
    alloc: Global,
    types: &mut T,
    members: &HeldMembers<'_>,
    text: &[Standing<'_>],
    at: Place,
) -> Result<Plan, Stop<Fault>>
    requires members { AreDefined (T.atoms types.old) (members_held members.now) }
    requires text { map numbered_held text.now ≡ in_text (members_held members.now) }
    ensures atoms { T.atoms types.new ≡ T.atoms types.old }
    ensures comes { Comes (plans_of T.passes at (members_held members.now)) (T.atoms types.old) result (T.atoms types.new) }
{
    match within_limits(named_workers(&members.workers), text.len(), at) {
        Ok(()) => from_peers(alloc, types, members, text),
        Err(stop) => Err(stop),
    }
}

/// What pairing sees of the function, with its events in text order.
pub(crate) fn gathered<'a>(alloc: Global, f: &'a TypedFunction) -> Result<Seen<'a>, Memory>
    ensures members { IfOk result (λ s. members_held s.members ≡ members_of f.now) }
    ensures text { IfOk result (λ s. map numbered_held s.text.items ≡ in_text (members_held s.members)) }
{
    let members = members(alloc, f)?;
    let text = events_in_text(alloc, &members)?;
    Ok(Seen { members, text })
}

/// The pairs of a function's messages, and a rank for each of its events, worker by worker; or the first fault of its workers, in this
/// order: `WorkerLimit` for more than 64 named workers, and for more than 4,096 events; `NoPeer`, `Conditional` and `Unpaired` at the
/// first such event in text order; `SuccessBefore` at a return in front of a message that gives no error; `BadMessage` at a receive into
/// which a message or a failure doesn't fit; both also `TypeLimit`, where the question is too large; and `WaitCycle` at the first event
/// that lies on a ring, with a shortest one ("Async send action", "Single receive action", "Wait action"). Takes time that grows with
/// the nodes of the function and the square of its events, and one or two questions for each message and each return in front of one;
/// for a ring also a search for each event in front of it.
pub fn plan<T: Types>(alloc: Global, types: &mut T, f: &TypedFunction) -> Result<Plan, Stop<Fault>>
    requires { AreDefined (T.atoms types.old) (members_of f.now) }
    ensures atoms { T.atoms types.new ≡ T.atoms types.old }
    ensures comes { Comes (plans_of T.passes f.now.at (members_of f.now)) (T.atoms types.old) result (T.atoms types.new) }
{
    match gathered(alloc, f) {
        Ok(found) => plan_of(alloc, types, &found.members, &found.text, f.at),
        Err(Memory) => Err(Stop::Memory),
    }
}
