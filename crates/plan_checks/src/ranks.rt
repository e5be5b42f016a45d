//! Ranks of events, and whether they rise along each worker.
#![tactic(auto)]

ghost use Rattle.std.specs.Prelude.{◌≡◌, ◌+◌, ◌<◌, ◌↔◌, IsTrue, None as Absent, Some as There, get_or, if◌then◌else◌, length, nat_le, ℕ};
ghost use Rattle.worker_pairing.specs.Faults.{rank_in, start_of};
ghost use Rattle.worker_pairing.specs.Marks.{in_text, members_of};
ghost use Rattle.plan_checks.specs.Needing.{Rises, RisesTo};

use crate::counts::{count, left_behind};
use event_search::worker_count;
use typed_tree::TypedFunction;

/// The rank at a place, and 0 where there is none.
fn rank_at(ranks: &[u32], place: usize) -> u32
    ensures { result ≡ get_or ranks.now place 0 }
{
    match ranks.get(place) {
        Some(rank) => *rank,
        None => 0,
    }
}

/// The rank of the event with this number of a worker whose first event has its rank at this place.
fn rank_from(ranks: &[u32], start: usize, number: usize) -> u32
    ensures { result ≡ get_or ranks.now (start + number) 0 }
{
    match start.checked_add(number) {
        Some(place) => rank_at(ranks, place),
        None => 0,
    }
}

/// The number of events in front of a worker's, if these are no more than so many.
fn start_within(f: &TypedFunction, worker: usize, most: usize) -> Option<usize>
    ensures { result ≡ (if nat_le (start_of (members_of f.now) worker) most then There (start_of (members_of f.now) worker) else Absent) }
{
    match left_behind(f, worker, most) {
        Some(left) => most.checked_sub(left),
        None => None,
    }
}

/// The rank of an event, and 0 where it has none.
pub(crate) fn rank(f: &TypedFunction, ranks: &[u32], worker: usize, number: usize) -> u32
    ensures { result ≡ rank_in (members_of f.now) ranks.now worker number }
{
    match start_within(f, worker, ranks.len()) {
        Some(start) => rank_from(ranks, start, number),
        None => 0,
    }
}

/// Whether the event's rank is greater than that of the one before it.
fn rises_to(f: &TypedFunction, ranks: &[u32], worker: usize, number: usize) -> bool
    requires { 0 < number }
    ensures { IsTrue result ↔ RisesTo (members_of f.now) ranks.now worker number }
{
    rank(f, ranks, worker, number - 1) < rank(f, ranks, worker, number)
}

/// Whether ranks rise along a worker.
fn rises_in(f: &TypedFunction, ranks: &[u32], worker: usize) -> bool
    requires { length ranks.now ≡ length (in_text (members_of f.now)) }
    ensures { IsTrue result ↔ Rises (members_of f.now) ranks.now worker }
{
    for number in 1..count(f, worker, ranks.len()) {
        if !rises_to(f, ranks, worker, number) {
            return false;
        }
    }
    true
}

/// Whether ranks rise along each worker.
pub(crate) fn ranks_rise(f: &TypedFunction, ranks: &[u32]) -> bool
    requires { length ranks.now ≡ length (in_text (members_of f.now)) }
    ensures { IsTrue result ↔ ((w : ℕ) → Rises (members_of f.now) ranks.now w) }
{
    for worker in 0..worker_count(f) {
        if !rises_in(f, ranks, worker) {
            return false;
        }
    }
    true
}
