//! A search among the events of a worker, one after another.
#![tactic(auto, using(crate::proofs::Walks::walking))]

ghost use Rattle.std.specs.Prelude.{◌≡◌, ◌+◌, ◌-◌, None as Absent, false, min};
ghost use Rattle.typed_tree.specs.Listed.{one};
ghost use Rattle.worker_pairing.specs.Events.{is_peer as is_peer_of, receives_from as receives_from_of, sends_to as sends_to_of};
ghost use Rattle.worker_pairing.specs.Marks.{Says, nil_type};
ghost use Rattle.worker_members.specs.Held.{kind_of};
ghost use Rattle.event_search.specs.Search.{most, is_in as is_in_of, occurrence_held};
ghost use Rattle.event_search.specs.inner.Walking.{Goes, note as note_of, note_behind, one_if as one_if_of, sought};

use bal_base::Place;
use worker_members::SaidKind;

/// Which events of a worker are meant.
#[derive(Clone, Copy)]
pub enum Which {
    /// All of them.
    Any,
    /// The messages that it sends to this worker.
    SentTo(usize),
    /// The messages that it receives from this worker.
    ReceivedFrom(usize),
}

/// An event of a worker.
#[derive(Clone, Copy)]
pub struct Happening<'a> {
    pub kind: SaidKind<'a>,
    pub at: Place,
    /// Whether it stands in the initial part.
    pub initial: bool,
}

/// An event of a worker, with its number there.
#[derive(Clone, Copy)]
pub struct Found<'a> {
    pub number: usize,
    pub event: Happening<'a>,
}

/// A search that passes a number of events of one kind, counts those of another kind that it passes, and finds the next one of the first.
#[derive(Clone, Copy)]
pub(crate) struct Search<'a> {
    pub counted: Which,
    pub tallied: Which,
    /// How many are still to be passed.
    pub left: usize,
    /// How many of the second kind were passed, up to the greatest number.
    pub tally: usize,
    pub found: Option<Happening<'a>>,
}

/// Whether this worker is named.
fn is_peer(worker: usize, peer: Option<u32>) -> bool
    ensures { result ≡ is_peer_of worker peer }
{
    match peer {
        Some(number) => number as usize == worker,
        None => false,
    }
}

fn sends_to(worker: usize, kind: SaidKind<'_>) -> bool
    ensures { result ≡ sends_to_of worker (kind_of kind.entry) }
{
    match kind {
        SaidKind::Send(peer) | SaidKind::Post(peer) => is_peer(worker, peer),
        SaidKind::Done(_) | SaidKind::Receive(_) => false,
        SaidKind::Flush(_) | SaidKind::Wait(_) | SaidKind::End => false,
    }
}

fn receives_from(worker: usize, kind: SaidKind<'_>) -> bool
    ensures { result ≡ receives_from_of worker (kind_of kind.entry) }
{
    match kind {
        SaidKind::Receive(peer) => is_peer(worker, peer),
        SaidKind::Send(_) | SaidKind::Post(_) | SaidKind::Done(_) => false,
        SaidKind::Flush(_) | SaidKind::Wait(_) | SaidKind::End => false,
    }
}

fn is_in(which: Which, kind: SaidKind<'_>) -> bool
    ensures { result ≡ is_in_of which (kind_of kind.entry) }
{
    match which {
        Which::Any => true,
        Which::SentTo(to) => sends_to(to, kind),
        Which::ReceivedFrom(from) => receives_from(from, kind),
    }
}

/// One more where it counts, up to the greatest number.
fn more(number: usize, counts: bool) -> usize
    ensures { result ≡ min (number + one_if_of counts) most }
{
    if counts {
        number.saturating_add(1)
    } else {
        number
    }
}

/// One less where it counts.
fn less(number: usize, counts: bool) -> usize
    ensures { result ≡ number - one_if_of counts }
{
    if counts {
        number.saturating_sub(1)
    } else {
        number
    }
}

impl<'a> Search<'a> {
    /// One event more, where none was found.
    fn go_on(self, event: Happening<'a>) -> Search<'a>
        ensures { sought result ≡ note_behind Absent (occurrence_held event.entry) (sought self.entry) }
    {
        let counts = is_in(self.counted, event.kind);
        if counts && self.left == 0 {
            return Search {
                counted: self.counted,
                tallied: self.tallied,
                left: self.left,
                tally: self.tally,
                found: Some(event),
            };
        }
        let tallies = is_in(self.tallied, event.kind);
        Search {
            counted: self.counted,
            tallied: self.tallied,
            left: less(self.left, counts),
            tally: more(self.tally, tallies),
            found: None,
        }
    }

    /// One event more.
    fn noted(self, event: Happening<'a>) -> Search<'a>
        ensures { sought result ≡ note_of (occurrence_held event.entry) (sought self.entry) }
    {
        match self.found {
            Some(_) => self,
            None => self.go_on(event),
        }
    }

    /// One event more, in the initial part or behind it.
    pub(crate) fn say(&mut self, kind: SaidKind<'a>, at: Place, initial: bool)
        ensures { Goes initial (one (Says (kind_of kind.entry) at false nil_type)) self.old self.new }
    {
        *self = self.noted(Happening { kind, at, initial });
    }
}
