//! Numbers of messages at places.
ghost use Rattle.std.specs.Option.{option_copied};
ghost use Rattle.std.specs.Prelude.{◌≡◌, ◌≢◌, ◌↔◌, ◌<◌, suc, false, None as Absent, Some as There, All, IsTrue, get_or, length, option_map, replicate, slice_get};
ghost use Rattle.stack_code.specs.Flow.{no_messages, one_more};
ghost use Rattle.stack_code.specs.Places.{crew, tally_at, tally_of};
ghost use Rattle.place_numbers.specs.inner.Changing.{changed, more_by, more_of, tally_from, tally_in};
ghost use Rattle.place_numbers.specs.inner.Parts.{GoesUp};

use crate::changes::Change;
use needs_of_commands::map_at;
use stack_code::{Code, StackMap, Unit};

/// The numbers of messages so far: sent to each worker, and received from each.
#[derive(Clone, Copy)]
pub(crate) struct Counts<'c> {
    pub(crate) sent: &'c [u32],
    pub(crate) received: &'c [u32],
}

// ---- what is known at places

/// The numbers of a map, where it has some.
fn counts_of<'c>(map: &'c StackMap) -> Option<Counts<'c>>
    ensures { option_map tally_from result ≡ tally_of map.now }
{
    match map.counted {
        true => Some(Counts {
            sent: map.sent.as_slice(),
            received: map.received.as_slice(),
        }),
        false => None,
    }
}

/// The same, where there is a map.
fn counts_in<'c>(map: Option<&'c StackMap>) -> Option<Counts<'c>>
    ensures { option_map tally_from result ≡ tally_in (option_copied map.entry) }
{
    match map {
        Some(map) => counts_of(map),
        None => None,
    }
}

/// The numbers at a place, where it has some.
pub(crate) fn counts_at<'c>(code: &'c Code, place: usize) -> Option<Counts<'c>>
    ensures { option_map tally_from result ≡ tally_at code.now place }
{
    counts_in(map_at(code, place))
}

/// The unit with the number.
fn unit_at<'c>(code: &'c Code, number: u32) -> Option<&'c Unit>
    ensures { option_copied result ≡ slice_get code.now.units number }
{
    code.units.as_slice().get(number as usize)
}

/// How many workers the function has, itself one of them; none where there is no such unit.
pub fn crew_size(code: &Code, function: u32) -> usize
    ensures { result ≡ length (crew code.now function) }
{
    match unit_at(code, function) {
        Some(unit) => 1 + unit.workers.as_slice().len(),
        None => 0,
    }
}

// ---- lists of numbers

/// Whether they are the same numbers in the same order.
fn are_same(ns: &[u32], ms: &[u32]) -> bool
    ensures { IsTrue result ↔ (ns.now ≡ ms.now) }
{
    ns == ms
}

/// Whether there are as many.
fn are_as_many(ns: &[u32], ms: &[u32]) -> bool
    ensures { IsTrue result ↔ (length ns.now ≡ length ms.now) }
{
    ns.len() == ms.len()
}

/// Whether it is the worker's place.
fn is_own(worker: u32, k: usize) -> bool
    ensures own { IsTrue result → k ≡ worker }
    ensures other { result ≡ false → k ≢ worker }
{
    k == worker as usize
}

/// Whether the second number is one more than the first.
fn is_next(n: u32, m: u32) -> bool
    ensures { IsTrue result ↔ (m ≡ suc n) }
{
    m as u64 == n as u64 + 1
}

/// Whether the numbers are the same.
fn is_equal(n: u32, m: u32) -> bool
    ensures { IsTrue result ↔ (m ≡ n) }
{
    m == n
}

/// The number in the place.
fn number_at(ns: &[u32], k: usize) -> u32
    requires { k < length ns.now }
    ensures { result ≡ get_or ns.now k 0 }
{
    ns[k]
}

/// Whether the second number in the place is one more than the first where it is the worker's, and the same where it is another's.
fn is_counted(ns: &[u32], ms: &[u32], worker: u32, k: usize) -> bool
    requires here { k < length ns.now }
    requires there { k < length ms.now }
    ensures { IsTrue result ↔ GoesUp ns.now ms.now worker k }
{
    let n = number_at(ns, k);
    let m = number_at(ms, k);
    match is_own(worker, k) {
        true => is_next(n, m),
        false => is_equal(n, m),
    }
}

/// Whether the second numbers are the first, with one more for the worker.
fn is_one_more(ns: &[u32], ms: &[u32], worker: u32) -> bool
    ensures { IsTrue result ↔ (ms.now ≡ one_more ns.now worker) }
{
    if !are_as_many(ns, ms) {
        return false;
    }
    for k in 0..ns.len() {
        if !is_counted(ns, ms, worker, k) {
            return false;
        }
    }
    true
}

/// Whether the second numbers are the first, with one more for the worker, if there is one.
fn is_more(ns: &[u32], ms: &[u32], worker: Option<u32>) -> bool
    ensures { IsTrue result ↔ (ms.now ≡ more_by worker ns.now) }
{
    match worker {
        Some(w) => is_one_more(ns, ms, w),
        None => are_same(ms, ns),
    }
}

/// Whether there are so many.
fn are_so_many(ns: &[u32], count: usize) -> bool
    ensures { IsTrue result ↔ (length ns.now ≡ count) }
{
    ns.len() == count
}

/// Whether each number is 0.
fn all_zero(ns: &[u32]) -> bool
    ensures { IsTrue result ↔ All (λ n. n ≡ 0) ns.now }
{
    ns.iter().all(|n| *n == 0)
}

/// Whether there are so many numbers, each of them 0.
fn are_zero(ns: &[u32], count: usize) -> bool
    ensures { IsTrue result ↔ (ns.now ≡ replicate count 0) }
{
    are_so_many(ns, count) && all_zero(ns)
}

// ---- how they change

/// Whether one more was sent to the worker, if there is one.
fn is_sent<'c>(before: Counts<'c>, behind: Counts<'c>, worker: Option<u32>) -> bool
    ensures { IsTrue result ↔ (behind.entry.sent.now ≡ more_by worker before.entry.sent.now) }
{
    is_more(before.sent, behind.sent, worker)
}

/// Whether one more was received from the worker, if there is one.
fn is_received<'c>(before: Counts<'c>, behind: Counts<'c>, worker: Option<u32>) -> bool
    ensures { IsTrue result ↔ (behind.entry.received.now ≡ more_by worker before.entry.received.now) }
{
    is_more(before.received, behind.received, worker)
}

/// Both.
fn are_more<'c>(
    before: Counts<'c>,
    behind: Counts<'c>,
    sent: Option<u32>,
    received: Option<u32>,
) -> bool
    ensures { IsTrue result ↔ (tally_from behind.entry ≡ more_of sent received (tally_from before.entry)) }
{
    is_sent(before, behind, sent) && is_received(before, behind, received)
}

/// Both, where there are numbers behind.
fn grows<'c>(
    before: Counts<'c>,
    behind: Option<Counts<'c>>,
    sent: Option<u32>,
    received: Option<u32>,
) -> bool
    ensures { IsTrue result ↔ (option_map tally_from behind.entry ≡ There (more_of sent received (tally_from before.entry))) }
{
    match behind {
        Some(behind) => are_more(before, behind, sent, received),
        None => false,
    }
}

/// Whether there are no numbers.
pub(crate) fn is_absent<'c>(counts: Option<Counts<'c>>) -> bool
    ensures { IsTrue result ↔ (option_map tally_from counts.entry ≡ Absent) }
{
    match counts {
        Some(_) => false,
        None => true,
    }
}

/// The same, where there are numbers at the one place; there are none at the other where there are none at the first.
fn has_more<'c>(
    before: Option<Counts<'c>>,
    behind: Option<Counts<'c>>,
    sent: Option<u32>,
    received: Option<u32>,
) -> bool
    ensures { IsTrue result ↔ (option_map tally_from behind.entry ≡ option_map (more_of sent received) (option_map tally_from before.entry)) }
{
    match before {
        Some(before) => grows(before, behind, sent, received),
        None => is_absent(behind),
    }
}

/// Whether none was sent to so many workers.
fn none_sent<'c>(counts: Counts<'c>, workers: usize) -> bool
    ensures { IsTrue result ↔ (counts.entry.sent.now ≡ replicate workers 0) }
{
    are_zero(counts.sent, workers)
}

/// Whether none was received from so many workers.
fn none_received<'c>(counts: Counts<'c>, workers: usize) -> bool
    ensures { IsTrue result ↔ (counts.entry.received.now ≡ replicate workers 0) }
{
    are_zero(counts.received, workers)
}

/// Both.
fn are_none<'c>(counts: Counts<'c>, workers: usize) -> bool
    ensures { IsTrue result ↔ (tally_from counts.entry ≡ no_messages workers) }
{
    none_sent(counts, workers) && none_received(counts, workers)
}

/// Whether there are numbers, as they begin in a function of so many workers.
fn has_begun<'c>(behind: Option<Counts<'c>>, workers: usize) -> bool
    ensures { IsTrue result ↔ (option_map tally_from behind.entry ≡ There (no_messages workers)) }
{
    match behind {
        Some(counts) => are_none(counts, workers),
        None => false,
    }
}

/// Whether the second are what becomes of the first, in a function of so many workers.
pub(crate) fn has_changed<'c>(
    before: Option<Counts<'c>>,
    behind: Option<Counts<'c>>,
    change: Change,
    workers: usize,
) -> bool
    ensures { IsTrue result ↔ (option_map tally_from behind.entry ≡ changed workers change (option_map tally_from before.entry)) }
{
    match change {
        Change::More(sent, received) => has_more(before, behind, sent, received),
        Change::Begun => has_begun(behind, workers),
    }
}
