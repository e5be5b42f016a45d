//! Whether pairs are those of a function's messages, one event after another.
#![tactic(auto)]

ghost use Rattle.std.specs.Prelude.{◌≡◌, ◌≤◌, ◌↔◌, ◌∷◌, ◌==◌, [], IsTrue, None as Absent, Some as There, drop, if◌then◌else◌, length, option_map, slice_get};
ghost use Rattle.std.specs.List.{flat_map};
ghost use Rattle.worker_pairing.specs.Faults.{event_of, pairs_of, pairs_on};
ghost use Rattle.worker_pairing.specs.Marks.{Numbered, Saying, in_text, in_turn, members_of, numbered_from};
ghost use Rattle.worker_members.specs.Held.{kind_of};
ghost use Rattle.worker_partners.specs.Partners.{sayings_of};
ghost use Rattle.worker_plans.specs.Sends.{pairs_at, same_event as same_event_of, same_pair as same_pair_of, sent_on};
ghost use Rattle.event_search.specs.Search.{most as most_events, occurrence, occurrence_held};
ghost use Rattle.plan_checks.specs.Stripping.{Strips, event_held, is_part as is_part_of, numbered, one_event, pair_held, pairs_in, sent_by};

use bal_base::{Event, Place};
use event_search::{Happening, Which, before, event_at, nth, worker_count};
use typed_tree::{Pair, TypedFunction};
use worker_members::SaidKind;

/// Which events of a worker are gone through.
#[derive(Clone, Copy)]
pub(crate) enum Part {
    /// Those of the initial part.
    Initial,
    /// Those behind it.
    Rest,
    All,
}

/// An event at an end of a pair.
#[derive(Clone, Copy)]
pub(crate) struct PairEnd {
    pub worker: usize,
    pub number: usize,
    pub at: Place,
}

fn is_part(part: Part, initial: bool) -> bool
    ensures { result ≡ is_part_of part initial }
{
    match part {
        Part::Initial => initial,
        Part::Rest => !initial,
        Part::All => true,
    }
}

fn same_event(given: Event, due: PairEnd) -> bool
    ensures { result ≡ same_event_of given (event_held due) }
{
    given.worker as usize == due.worker
        && given.number as usize == due.number
        && given.at.file == due.at.file
        && given.at.at == due.at.at
}

fn same_pair(given: Pair, send: PairEnd, receive: PairEnd) -> bool
    ensures { result ≡ same_pair_of given (pair_held send receive) }
{
    same_event(given.send, send) && same_event(given.receive, receive)
}

/// The pairs behind this one.
fn without_pair<'p>(given: &'p [Pair], send: PairEnd, receive: PairEnd) -> Option<&'p [Pair]>
    ensures { Strips (pair_held send receive ∷ []) given.now (option_map (λ r. r.now) result) }
{
    match given.split_first() {
        Some((first, rest)) => if_same(same_pair(*first, send, receive), rest),
        None => None,
    }
}

fn if_same<'p>(same: bool, rest: &'p [Pair]) -> Option<&'p [Pair]>
    ensures { option_map (λ r. r.now) result ≡ (if same then There rest.now else Absent) }
{
    if same { Some(rest) } else { None }
}

/// The pairs behind that of a message to this worker.
fn without_message<'p>(
    f: &TypedFunction,
    given: &'p [Pair],
    send: PairEnd,
    to: usize,
) -> Option<&'p [Pair]>
    requires { length (in_text (members_of f.now)) ≤ most_events }
    ensures { (e : Numbered) → event_of e ≡ event_held send → Strips (pairs_on (members_of f.now) e (There (send.worker, to))) given.now (option_map (λ r. r.now) result) }
{
    let place = before(f, send.worker, Which::SentTo(to), send.number);
    match nth(f, to, Which::ReceivedFrom(send.worker), place) {
        Some(found) => without_pair(
            given,
            send,
            PairEnd {
                worker: to,
                number: found.number,
                at: found.event.at,
            },
        ),
        None => Some(given),
    }
}

/// The worker to which a message is sent.
fn sent_to(worker: usize, kind: SaidKind<'_>) -> Option<usize>
    ensures { result ≡ sent_by worker (kind_of kind.entry) }
{
    match kind {
        SaidKind::Send(Some(to)) | SaidKind::Post(Some(to)) => Some(to as usize),
        SaidKind::Receive(Some(from)) => if_own(worker, from as usize),
        SaidKind::Send(None) | SaidKind::Post(None) | SaidKind::Receive(None) => None,
        SaidKind::Done(_) | SaidKind::Flush(_) | SaidKind::Wait(_) | SaidKind::End => None,
    }
}

fn if_own(worker: usize, from: usize) -> Option<usize>
    ensures { result ≡ (if worker == from then There from else Absent) }
{
    if worker == from { Some(from) } else { None }
}

/// The pairs behind that of what is sent to this worker, if to any.
fn without_sent<'p>(
    f: &TypedFunction,
    given: &'p [Pair],
    send: PairEnd,
    to: Option<usize>,
) -> Option<&'p [Pair]>
    requires { length (in_text (members_of f.now)) ≤ most_events }
    ensures { (e : Numbered) → event_of e ≡ event_held send → sent_on e ≡ option_map (λ v. (send.worker, v)) to → Strips (pairs_at (members_of f.now) e) given.now (option_map (λ r. r.now) result) }
{
    match to {
        Some(to) => without_message(f, given, send, to),
        None => Some(given),
    }
}

/// The pairs behind that of an event, if it sends.
fn without_pairs<'p>(
    f: &TypedFunction,
    given: &'p [Pair],
    worker: usize,
    number: usize,
    event: Happening<'_>,
) -> Option<&'p [Pair]>
    requires { length (in_text (members_of f.now)) ≤ most_events }
    ensures { (s : Saying) → occurrence s ≡ occurrence_held event.entry → Strips (pairs_at (members_of f.now) (numbered worker number s)) given.now (option_map (λ r. r.now) result) }
{
    let send = PairEnd {
        worker,
        number,
        at: event.at,
    };
    without_sent(f, given, send, sent_to(worker, event.kind))
}

/// The same, if it is in the part.
fn without_if_part<'p>(
    f: &TypedFunction,
    given: &'p [Pair],
    worker: usize,
    number: usize,
    event: Happening<'_>,
    part: Part,
) -> Option<&'p [Pair]>
    requires { length (in_text (members_of f.now)) ≤ most_events }
    ensures { (s : Saying) → occurrence s ≡ occurrence_held event.entry → Strips (pairs_in (members_of f.now) part (numbered worker number s ∷ [])) given.now (option_map (λ r. r.now) result) }
{
    if is_part(part, event.initial) {
        without_pairs(f, given, worker, number, event)
    } else {
        Some(given)
    }
}

/// The pairs behind that of the event with this number, if there is one, it is in the part, and it sends.
fn without_event<'p>(
    f: &TypedFunction,
    given: &'p [Pair],
    worker: usize,
    number: usize,
    part: Part,
) -> Option<&'p [Pair]>
    requires { length (in_text (members_of f.now)) ≤ most_events }
    ensures { Strips (pairs_in (members_of f.now) part (one_event worker number (slice_get (sayings_of (members_of f.now) worker) number))) given.now (option_map (λ r. r.now) result) }
{
    match event_at(f, worker, number) {
        Some(event) => without_if_part(f, given, worker, number, event, part),
        None => Some(given),
    }
}

/// The pairs behind those of a part of a worker. There are no more events than so many.
fn without_events<'p>(
    f: &TypedFunction,
    given: &'p [Pair],
    worker: usize,
    part: Part,
    most: usize,
) -> Option<&'p [Pair]>
    requires { length (in_text (members_of f.now)) ≤ most }
    ensures { Strips (pairs_in (members_of f.now) part (numbered_from worker 0 (sayings_of (members_of f.now) worker))) given.now (option_map (λ r. r.now) result) }
{
    let mut left = given;
    for number in 0..most {
        left = without_event(f, left, worker, number, part)?;
    }
    Some(left)
}

/// The pairs behind those of all named workers.
fn without_named<'p>(f: &TypedFunction, given: &'p [Pair], most: usize) -> Option<&'p [Pair]>
    requires { length (in_text (members_of f.now)) ≤ most }
    ensures { Strips (flat_map (pairs_at (members_of f.now)) (in_turn 1 (drop 1 (members_of f.now)))) given.now (option_map (λ r. r.now) result) }
{
    let mut left = given;
    for worker in 1..worker_count(f) {
        left = without_events(f, left, worker, Part::All, most)?;
    }
    Some(left)
}

/// The pairs behind those of all events.
fn without_all<'p>(f: &TypedFunction, given: &'p [Pair], most: usize) -> Option<&'p [Pair]>
    requires { length (in_text (members_of f.now)) ≤ most }
    ensures { Strips (pairs_of (members_of f.now)) given.now (option_map (λ r. r.now) result) }
{
    let named = without_events(f, given, 0, Part::Initial, most)?;
    let rest = without_named(f, named, most)?;
    without_events(f, rest, 0, Part::Rest, most)
}

/// Whether these are the pairs of the function's messages, in text order of the sends. There are no more events than so many.
pub(crate) fn pairs_match(f: &TypedFunction, given: &[Pair], most: usize) -> bool
    requires { length (in_text (members_of f.now)) ≤ most }
    ensures { IsTrue result ↔ given.now ≡ pairs_of (members_of f.now) }
{
    match without_all(f, given, most) {
        Some(left) => left.is_empty(),
        None => false,
    }
}
