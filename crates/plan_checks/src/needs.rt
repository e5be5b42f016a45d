//! Whether ranks fall from each event to what it needs.
#![tactic(auto)]

ghost use Rattle.std.specs.Prelude.{◌≡◌, ◌↔◌, Contains, IsTrue, Some as There, length, min, suc, ℕ};
ghost use Rattle.operations.specs.Talk.{workers_in};
ghost use Rattle.typed_tree.specs.declared.event.EventKind.TheVariants.{Done, Flush, Receive};
ghost use Rattle.worker_pairing.specs.Events.{IsNumbering};
ghost use Rattle.worker_pairing.specs.Faults.{crew_of, rank_in};
ghost use Rattle.worker_pairing.specs.Marks.{in_text, members_of};
ghost use Rattle.worker_members.specs.Held.{kind_of};
ghost use Rattle.event_search.specs.declared.search.Which.TheVariants.{ReceivedFrom};
ghost use Rattle.plan_checks.specs.Needing.{Falls, FallsAt, FallsBelow, LastFalls, NthFalls, Rises};

use crate::counts::count;
use crate::ranks::rank;
use event_search::{Which, before, event_at, nth, worker_count};
use typed_tree::TypedFunction;
use worker_members::SaidKind;

/// An event whose needs are looked at, with its rank.
#[derive(Clone, Copy)]
pub(crate) struct Asking {
    pub worker: usize,
    pub number: usize,
    pub rank: u32,
}

/// Whether the k-th of these events has a lesser rank, if there is one.
fn nth_falls(
    f: &TypedFunction,
    ranks: &[u32],
    worker: usize,
    which: Which,
    k: usize,
    least: u32,
) -> bool
    requires { length ranks.now ≡ length (in_text (members_of f.now)) }
    ensures { IsTrue result ↔ NthFalls (members_of f.now) ranks.now worker which k least }
{
    match nth(f, worker, which, k) {
        Some(found) => rank(f, ranks, worker, found.number) < least,
        None => true,
    }
}

/// Whether the send of what is received has a lesser rank.
fn receive_falls(f: &TypedFunction, ranks: &[u32], asking: Asking, from: usize) -> bool
    requires { length ranks.now ≡ length (in_text (members_of f.now)) }
    ensures { IsTrue result ↔ FallsBelow (members_of f.now) ranks.now asking.worker asking.number (Receive (There from)) asking.rank }
{
    let k = before(f, asking.worker, Which::ReceivedFrom(from), asking.number);
    nth_falls(f, ranks, from, Which::SentTo(asking.worker), k, asking.rank)
}

/// Whether the last of so many receives of what is sent has a lesser rank.
fn last_of_falls(f: &TypedFunction, ranks: &[u32], asking: Asking, to: usize, many: usize) -> bool
    requires { length ranks.now ≡ length (in_text (members_of f.now)) }
    ensures { IsTrue result ↔ ((k : ℕ) → suc k ≡ many → NthFalls (members_of f.now) ranks.now to (ReceivedFrom asking.worker) k asking.rank) }
{
    match many.checked_sub(1) {
        Some(k) => nth_falls(
            f,
            ranks,
            to,
            Which::ReceivedFrom(asking.worker),
            k,
            asking.rank,
        ),
        None => true,
    }
}

/// Whether the receive of what was sent last has a lesser rank.
fn done_falls(f: &TypedFunction, ranks: &[u32], asking: Asking, to: usize) -> bool
    requires { length ranks.now ≡ length (in_text (members_of f.now)) }
    ensures { IsTrue result ↔ FallsBelow (members_of f.now) ranks.now asking.worker asking.number (Done (There to)) asking.rank }
{
    let sent = before(f, asking.worker, Which::SentTo(to), asking.number);
    last_of_falls(f, ranks, asking, to, sent)
}

fn lesser(a: usize, b: usize) -> usize
    ensures { result ≡ min a b }
{
    if a <= b { a } else { b }
}

/// Whether the receives of all that was sent have lesser ranks: the last of them that there is.
fn flush_falls(f: &TypedFunction, ranks: &[u32], asking: Asking, to: usize) -> bool
    requires long { length ranks.now ≡ length (in_text (members_of f.now)) }
    requires rises { (w : ℕ) → Rises (members_of f.now) ranks.now w }
    ensures { IsTrue result ↔ FallsBelow (members_of f.now) ranks.now asking.worker asking.number (Flush (There to)) asking.rank }
{
    let sent = before(f, asking.worker, Which::SentTo(to), asking.number);
    let received = before(f, to, Which::ReceivedFrom(asking.worker), ranks.len());
    last_of_falls(f, ranks, asking, to, lesser(sent, received))
}

/// Whether the end of a worker has a lesser rank.
fn end_falls(f: &TypedFunction, ranks: &[u32], worker: usize, least: u32) -> bool
    requires { length ranks.now ≡ length (in_text (members_of f.now)) }
    ensures { IsTrue result ↔ LastFalls (members_of f.now) ranks.now worker least }
{
    match count(f, worker, ranks.len()).checked_sub(1) {
        Some(last) => rank(f, ranks, worker, last) < least,
        None => true,
    }
}

/// The same of a name that may be a worker's.
fn named_falls(f: &TypedFunction, ranks: &[u32], name: Option<u32>, least: u32) -> bool
    requires { length ranks.now ≡ length (in_text (members_of f.now)) }
    ensures { IsTrue result ↔ ((u : ℕ) → name ≡ There u → LastFalls (members_of f.now) ranks.now u least) }
{
    match name {
        Some(worker) => end_falls(f, ranks, worker as usize, least),
        None => true,
    }
}

/// Whether the ends of all these workers have lesser ranks.
fn wait_falls(f: &TypedFunction, ranks: &[u32], names: &[Option<u32>], least: u32) -> bool
    requires { length ranks.now ≡ length (in_text (members_of f.now)) }
    ensures { IsTrue result ↔ ((u : ℕ) → Contains (workers_in names.now) u → LastFalls (members_of f.now) ranks.now u least) }
{
    for name in names {
        if !named_falls(f, ranks, *name, least) {
            return false;
        }
    }
    true
}

/// Whether what an event of this kind needs has lesser ranks.
fn event_falls(f: &TypedFunction, ranks: &[u32], asking: Asking, kind: SaidKind<'_>) -> bool
    requires long { length ranks.now ≡ length (in_text (members_of f.now)) }
    requires rises { (w : ℕ) → Rises (members_of f.now) ranks.now w }
    ensures { IsTrue result ↔ FallsBelow (members_of f.now) ranks.now asking.worker asking.number (kind_of kind.entry) asking.rank }
{
    match kind {
        SaidKind::Receive(Some(from)) => receive_falls(f, ranks, asking, from as usize),
        SaidKind::Done(Some(to)) => done_falls(f, ranks, asking, to as usize),
        SaidKind::Flush(Some(to)) => flush_falls(f, ranks, asking, to as usize),
        SaidKind::Wait(names) => wait_falls(f, ranks, names, asking.rank),
        SaidKind::Receive(None) | SaidKind::Done(None) | SaidKind::Flush(None) => true,
        SaidKind::Send(_) | SaidKind::Post(_) | SaidKind::End => true,
    }
}

/// Whether what the event with this number needs has lesser ranks, if there is one.
fn falls_at(f: &TypedFunction, ranks: &[u32], worker: usize, number: usize) -> bool
    requires long { length ranks.now ≡ length (in_text (members_of f.now)) }
    requires rises { (w : ℕ) → Rises (members_of f.now) ranks.now w }
    ensures { IsTrue result ↔ FallsAt (members_of f.now) ranks.now worker number }
{
    match event_at(f, worker, number) {
        Some(event) => event_falls(
            f,
            ranks,
            Asking {
                worker,
                number,
                rank: rank(f, ranks, worker, number),
            },
            event.kind,
        ),
        None => true,
    }
}

/// Whether ranks fall from each event of a worker to what it needs.
fn falls_in(f: &TypedFunction, ranks: &[u32], worker: usize) -> bool
    requires long { length ranks.now ≡ length (in_text (members_of f.now)) }
    requires rises { (w : ℕ) → Rises (members_of f.now) ranks.now w }
    ensures { IsTrue result ↔ Falls (members_of f.now) ranks.now worker }
{
    for number in 0..count(f, worker, ranks.len()) {
        if !falls_at(f, ranks, worker, number) {
            return false;
        }
    }
    true
}

/// Whether ranks that rise along workers fall from each event to what it needs.
pub(crate) fn needs_fall(f: &TypedFunction, ranks: &[u32]) -> bool
    requires long { length ranks.now ≡ length (in_text (members_of f.now)) }
    requires rises { (w : ℕ) → Rises (members_of f.now) ranks.now w }
    ensures { IsTrue result ↔ IsNumbering (crew_of (members_of f.now)) (rank_in (members_of f.now) ranks.now) }
{
    for worker in 0..worker_count(f) {
        if !falls_in(f, ranks, worker) {
            return false;
        }
    }
    true
}
