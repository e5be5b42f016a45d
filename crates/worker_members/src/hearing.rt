//! What is heard of a worker in one walk over its tree.
#![tactic(auto, using(crate::proofs::Growing::growing))]

ghost use Rattle.std.specs.Prelude.{◌≡◌, ◌++◌, ◌∷◌, ◌&&◌, ◌||◌, [], false};
ghost use Rattle.typed_tree.specs.Listed.{one};
ghost use Rattle.worker_pairing.specs.Events.{is_message as is_message_of};
ghost use Rattle.worker_pairing.specs.Marks.{Early, Returns, Says};
ghost use Rattle.worker_members.specs.Held.{kind_of, sem_said};
ghost use Rattle.worker_members.specs.inner.Hearing.{Grows, set_aside, under_trap};

use crate::held::{Returned, Said, SaidKind, SaidType};
use bal_base::Place;

/// Where a part stands in its worker.
#[derive(Clone, Copy)]
pub(crate) struct Spot {
    /// In the initial part.
    pub initial: bool,
    /// In what may be left out or done again.
    pub aside: bool,
    /// In what a trap guards.
    pub trapped: bool,
}

impl Spot {
    /// The same in what may be left out or done again.
    pub(crate) fn aside(self) -> Spot
        ensures { result ≡ set_aside self }
    {
        Spot {
            initial: self.initial,
            aside: true,
            trapped: self.trapped,
        }
    }

    /// The same in what a trap guards.
    pub(crate) fn trapped(self) -> Spot
        ensures { result ≡ under_trap self }
    {
        Spot {
            initial: self.initial,
            aside: self.aside,
            trapped: true,
        }
    }
}

/// Whether a message is sent or received. Takes no memory.
pub fn is_message(kind: SaidKind<'_>) -> bool
    ensures { result ≡ is_message_of (kind_of kind.entry) }
{
    match kind {
        SaidKind::Send(_) | SaidKind::Post(_) | SaidKind::Receive(_) => true,
        SaidKind::Done(_) | SaidKind::Flush(_) | SaidKind::Wait(_) | SaidKind::End => false,
    }
}

/// Whether an event there may be left out or done again.
fn is_inner(spot: Spot, kind: SaidKind<'_>) -> bool
    ensures { result ≡ (spot.aside || ((spot.trapped && is_message_of (kind_of kind.entry)) || false)) }
{
    spot.aside || spot.trapped && is_message(kind)
}

/// The events and returns that were heard so far.
#[derive(Drop)]
pub(crate) struct Heard<'a> {
    pub sayings: Vec<Said<'a>>,
    pub returns: Vec<Returned<'a>>,
    /// Whether the worker may have ended early.
    pub early: bool,
    /// Whether there was no memory for one of them.
    pub full: bool,
}

/// An event more, or it is noted that there was no memory for it.
fn put_said<'a>(sayings: &mut Vec<Said<'a>>, said: Said<'a>, full: &mut bool)
    ensures { full.new ≡ false → (full.old ≡ false) × (sayings.new.items ≡ sayings.old.items ++ said.entry ∷ []) }
{
    if sayings.push(said).is_err() {
        *full = true;
    }
}

/// A return more, or it is noted that there was no memory for it.
fn put_returned<'a>(returns: &mut Vec<Returned<'a>>, returned: Returned<'a>, full: &mut bool)
    ensures { full.new ≡ false → (full.old ≡ false) × (returns.new.items ≡ returns.old.items ++ returned.entry ∷ []) }
{
    if returns.push(returned).is_err() {
        *full = true;
    }
}

impl<'a> Heard<'a> {
    /// An event.
    pub(crate) fn say(&mut self, spot: Spot, kind: SaidKind<'a>, at: Place, ty: SaidType<'a>)
        ensures { Grows spot (one (Says (kind_of kind.entry) at false (sem_said ty.entry))) self.old self.new }
    {
        let inner = is_inner(spot, kind);
        let said = Said {
            kind,
            at,
            initial: spot.initial,
            inner,
            early: self.early,
            ty,
        };
        put_said(&mut self.sayings, said, &mut self.full);
    }

    /// What may end the worker early.
    pub(crate) fn end_early(&mut self, spot: Spot)
        ensures { Grows spot (one Early) self.old self.new }
    {
        if spot.initial {
            return;
        }
        self.early = true;
    }

    /// A return.
    pub(crate) fn give_back(&mut self, spot: Spot, ty: SaidType<'a>, at: Place)
        ensures { Grows spot (one (Returns (sem_said ty.entry) at)) self.old self.new }
    {
        if spot.initial {
            return;
        }
        let before = self.sayings.len();
        let returned = Returned { before, ty, at };
        put_returned(&mut self.returns, returned, &mut self.full);
    }
}
