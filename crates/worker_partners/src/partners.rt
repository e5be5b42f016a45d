//! The messages of a worker to another one, or of another one to it.
#![tactic(auto)]

ghost use Rattle.std.specs.Prelude.{◌≡◌, ◌↔◌, IfNone, IfSome, Some as There, map, slice_get, true, ℕ};
ghost use Rattle.worker_pairing.specs.Events.{IsNth, before as before_of};
ghost use Rattle.worker_pairing.specs.Faults.{kinds_of};
ghost use Rattle.worker_faults.specs.Routes.{kinds_said};
ghost use Rattle.worker_members.specs.Held.{kind_of, member_held};
ghost use Rattle.worker_partners.specs.Partners.{IsNthFound, is_on as is_on_of};

use worker_faults::{one_if, receives_before, receives_from, sends_before, sends_to};
use worker_members::{HeldMember, Said, SaidKind};

/// Which messages of a worker are meant.
#[derive(Clone, Copy)]
pub enum Side {
    /// Those that it sends to this worker.
    SentTo(u32),
    /// Those that it receives from this worker.
    ReceivedFrom(u32),
}

/// An event of a worker, with its number there.
#[derive(Clone, Copy)]
pub struct Found<'a> {
    pub number: usize,
    pub said: Said<'a>,
}

/// Whether an event is such a message.
fn is_on(side: Side, kind: SaidKind<'_>) -> bool
    ensures { result ≡ is_on_of side (kind_of kind.entry) }
{
    match side {
        Side::SentTo(to) => sends_to(to, kind),
        Side::ReceivedFrom(from) => receives_from(from, kind),
    }
}

/// How many such messages of a worker stand before the event with this number. Takes time that grows with the worker's events, and no
/// memory.
pub fn before(workers: &[HeldMember<'_>], worker: u32, side: Side, number: usize) -> usize
    ensures { result ≡ before_of (is_on_of side) (kinds_of (map member_held workers.now) worker) number }
{
    match side {
        Side::SentTo(to) => sends_before(workers, worker, number, to),
        Side::ReceivedFrom(from) => receives_before(workers, worker, number, from),
    }
}

/// Whether this is the one that is looked for.
fn is_it(here: bool, seen: usize, k: usize) -> bool
    ensures { result ≡ true ↔ ((here ≡ true) × (seen ≡ k)) }
{
    here && seen == k
}

/// The k-th of such messages, from 0, among these events.
fn nth_among<'a>(sayings: &[Said<'a>], side: Side, k: usize) -> Option<Found<'a>>
    ensures found { IfSome result (λ f. IsNth (is_on_of side) (kinds_said sayings.now) k f.number × (slice_get sayings.now f.number ≡ There f.said)) }
    ensures none { IfNone result ((i : ℕ) → ¬ IsNth (is_on_of side) (kinds_said sayings.now) k i) }
{
    let mut seen: usize = 0;
    let mut number: usize = 0;
    for said in sayings {
        let here = is_on(side, said.kind);
        if is_it(here, seen, k) {
            return Some(Found {
                number,
                said: *said,
            });
        }
        seen += one_if(here);
        number += 1;
    }
    None
}

/// The k-th of such messages of a worker, from 0, or none where there are no more than k. Takes time that grows with the worker's
/// events, and no memory.
pub fn nth<'a>(workers: &[HeldMember<'a>], worker: u32, side: Side, k: usize) -> Option<Found<'a>>
    ensures { IsNthFound (map member_held workers.now) worker side k result }
{
    match workers.get(worker as usize) {
        Some(member) => nth_among(&member.sayings, side, k),
        None => None,
    }
}
