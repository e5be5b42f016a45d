//! What has been seen of a worker so far.
ghost use Rattle.std.specs.Prelude.{◌≡◌, OnOk};
ghost use Rattle.typed_tree.specs.Listed.{run};
ghost use Rattle.typed_tree.specs.SoFar.{progress};
ghost use Rattle.typed_tree.specs.Skeleton.{at_first, early_unless, see, Early, Sees};

use crate::event::{EventKind, SeenEvent};
use bal_base::{Event, Memory, Place};
use std::alloc::Global;

/// The worker that is looked at, and whether what may end it early counts, which it doesn't in the initial part.
#[derive(Clone, Copy)]
pub struct Observer {
    pub alloc: Global,
    pub own: u32,
    pub counts: bool,
}

/// The events so far, the number of the next one, and whether something before it may end the worker early.
#[derive(Drop)]
pub struct Seen {
    pub events: Vec<SeenEvent>,
    pub number: u32,
    pub early: bool,
}

impl Seen {
    pub fn new(alloc: Global) -> Seen
        ensures { progress result ≡ at_first }
    {
        Seen {
            events: Vec::new(alloc),
            number: 0,
            early: false,
        }
    }

    /// An event.
    pub fn see(&mut self, by: Observer, kind: EventKind, at: Place) -> Result<(), Memory>
        ensures { OnOk result (progress self.new ≡ see by.own by.counts (Sees kind at) (progress self.old)) }
    {
        let next = self.number.checked_add(1).ok_or(Memory)?;
        let event = Event {
            worker: by.own,
            number: self.number,
            at,
        };
        self.events.push(SeenEvent {
            event,
            kind,
            after_early: self.early,
        })?;
        self.number = next;
        Ok(())
    }

    /// Something that may end the worker early.
    pub fn end_early(&mut self, by: Observer)
        ensures { progress self.new ≡ see by.own by.counts Early (progress self.old) }
    {
        if by.counts {
            self.early = true;
        }
    }

    /// Something that may end the worker early, unless it keeps on.
    pub fn unless(&mut self, by: Observer, keeps_on: bool)
        ensures { progress self.new ≡ run (see by.own by.counts) (early_unless keeps_on) (progress self.old) }
    {
        if !keeps_on {
            self.end_early(by);
        }
    }
}
