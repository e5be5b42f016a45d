//! The ring of strands that wait for one another.
#![tactic(auto, using(crate::proofs::Ringing::ringing))]

ghost use Rattle.std.specs.Prelude.{◌≡◌, IfOk, position, slice_get};
ghost use Rattle.machine_model.specs.Outcomes as model;
ghost use Rattle.plain_run.specs.Held.{common_of, need_of, status_of};
ghost use Rattle.code_steps.specs.Rings.{LeadsFrom, is_number};

use bal_base::Memory;
use plain_run::{Common, Need, Status, has_ended};
use std::alloc::Global;

/// The number at this place.
pub(crate) fn number_at(numbers: &[u64], place: u64) -> Option<u64>
    ensures { result ≡ slice_get numbers.now place }
{
    match numbers.get(place as usize) {
        None => None,
        Some(n) => Some(*n),
    }
}

/// The strand of a worker.
fn strand_of_worker(common: &Common, activation: u64, worker: u64) -> Option<u64>
    ensures { result ≡ model.strand_of_worker (common_of common.now) activation worker }
{
    match common.activations.get(activation as usize) {
        None => None,
        Some(a) => number_at(a.strands.as_slice(), worker),
    }
}

/// The first of the strands that has not ended.
fn first_unended(common: &Common, strands: &[u64]) -> Option<u64>
    ensures { result ≡ model.first_unended (common_of common.now) strands.now }
{
    for n in strands {
        if !has_ended(common, *n) {
            return Some(*n);
        }
    }
    None
}

/// The strand that one with this need waits for.
fn awaited_by(common: &Common, need: &Need) -> Option<u64>
    ensures { result ≡ model.awaited_by (common_of common.now) (need_of need.now) }
{
    match need {
        Need::Message {
            activation,
            from,
            ..
        } => strand_of_worker(common, *activation, *from),
        Need::Received { activation, to, .. } => strand_of_worker(common, *activation, *to),
        Need::AllEnded(strands) => first_unended(common, strands.as_slice()),
        Need::AnyGiven(strands) => first_unended(common, strands.as_slice()),
    }
}

fn awaited_in(common: &Common, status: &Status) -> Option<u64>
    ensures { result ≡ model.awaited_in (common_of common.now) (status_of status.now) }
{
    match status {
        Status::Active | Status::Ended(_, _) => None,
        Status::Blocked(need) => awaited_by(common, need),
    }
}

/// The strand that this one waits for.
fn awaited(common: &Common, n: u64) -> Option<u64>
    ensures { result ≡ model.awaited (common_of common.now) n }
{
    match common.strands.get(n as usize) {
        None => None,
        Some(strand) => awaited_in(common, &strand.status),
    }
}

/// Where the way from strand 0 leads.
#[derive(Drop)]
pub enum Way {
    /// To a strand that waits for none.
    Stops,
    /// Into this ring.
    Returns(Vec<u64>),
}

/// The place of the number among these.
fn place_of(numbers: &[u64], n: u64) -> Option<usize>
    ensures { result ≡ position (is_number n) numbers.now }
{
    numbers.iter().position(|m| *m == n)
}

/// Where the way from strand 0 leads, on which each waits for the next.
pub(crate) fn follow(alloc: Global, common: &Common) -> Result<Way, Memory>
    ensures { IfOk result (LeadsFrom (common_of common.now)) }
{
    let mut way: Vec<u64> = Vec::new(alloc);
    let mut n = 0;
    for _ in 0..u64::MAX {
        if let Some(place) = place_of(way.as_slice(), n) {
            return Ok(Way::Returns(Vec::from_slice(alloc, &way[place..])?));
        }
        way.push(n)?;
        match awaited(common, n) {
            None => return Ok(Way::Stops),
            Some(next) => n = next,
        }
    }
    Err(Memory)
}
