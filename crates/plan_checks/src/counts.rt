//! How many events there are, counted down from a number.
#![tactic(auto)]

ghost use Rattle.std.specs.Prelude.{◌≡◌, ◌↔◌, ◌≤◌, ◌-◌, IsTrue, None as Absent, Some as There, if◌then◌else◌, length, nat_le};
ghost use Rattle.worker_pairing.specs.Faults.{kinds_of, start_of};
ghost use Rattle.worker_pairing.specs.Marks.{in_text, members_of};

use event_search::{count_within, worker_count};
use typed_tree::TypedFunction;

/// The number less the events of a worker, where these aren't more.
fn without(f: &TypedFunction, worker: usize, left: usize) -> Option<usize>
    ensures { result ≡ (if nat_le (length (kinds_of (members_of f.now) worker)) left then There (left - length (kinds_of (members_of f.now) worker)) else Absent) }
{
    match count_within(f, worker, left) {
        Some(count) => left.checked_sub(count),
        None => None,
    }
}

/// The number less the events of so many workers, where these aren't more.
pub(crate) fn left_behind(f: &TypedFunction, workers: usize, many: usize) -> Option<usize>
    ensures { result ≡ (if nat_le (start_of (members_of f.now) workers) many then There (many - start_of (members_of f.now) workers) else Absent) }
{
    let mut left = many;
    for worker in 0..workers {
        left = without(f, worker, left)?;
    }
    Some(left)
}

/// Whether there are so many events in all.
pub(crate) fn has_as_many(f: &TypedFunction, many: usize) -> bool
    ensures { IsTrue result ↔ many ≡ length (in_text (members_of f.now)) }
{
    match left_behind(f, worker_count(f), many) {
        Some(left) => left == 0,
        None => false,
    }
}

/// How many events a worker has. There are no more in all than so many.
pub(crate) fn count(f: &TypedFunction, worker: usize, most: usize) -> usize
    requires { length (in_text (members_of f.now)) ≤ most }
    ensures { result ≡ length (kinds_of (members_of f.now) worker) }
{
    match count_within(f, worker, most) {
        Some(count) => count,
        None => 0,
    }
}
