//! Traces: what a walk tells of operands.
#![tactic(auto, using(crate::proofs::Tracing::tracing))]

ghost use Rattle.std.specs.Prelude.{◌≡◌, OnOk};
ghost use Rattle.map_traces.specs.Events.{traced, tracing_of, type_of};
ghost use Rattle.map_traces.specs.Tracing.{becomes as becomes_of, drops, gives as gives_of, leaves as leaves_of, place as place_of, push as push_of, takes as takes_of};

use crate::entry::Entry;
use bal_base::Memory;

/// What happens to the operands.
#[derive(Clone, Copy)]
pub enum Event<'a> {
    /// A place, at which they are as they are now.
    Place,
    /// One more operand.
    Push(Entry<'a>),
    /// The last so many are taken away.
    Take(usize),
}

/// Events, one after another. Each call takes constant time, but for the room of a longer vector, and answers want of memory alone.
#[derive(Drop)]
pub struct Trace<'a> {
    pub events: Vec<Event<'a>>,
}

impl<'a> Trace<'a> {
    /// One more event.
    pub fn add(&mut self, event: Event<'a>) -> Result<(), Memory>
        ensures { OnOk result (tracing_of self.new ≡ traced event.entry (tracing_of self.old)) }
    {
        self.events.push(event)?;
        Ok(())
    }

    /// One more place.
    pub fn place(&mut self) -> Result<(), Memory>
        ensures { OnOk result (tracing_of self.new ≡ place_of (tracing_of self.old)) }
    {
        self.add(Event::Place)
    }

    /// One more operand.
    pub fn push(&mut self, ty: Entry<'a>) -> Result<(), Memory>
        ensures { OnOk result (tracing_of self.new ≡ push_of (type_of ty.entry) (tracing_of self.old)) }
    {
        self.add(Event::Push(ty))
    }

    /// The last so many operands are taken away.
    pub fn take(&mut self, count: usize) -> Result<(), Memory>
        ensures { OnOk result (tracing_of self.new ≡ drops count (tracing_of self.old)) }
    {
        self.add(Event::Take(count))
    }

    /// A command that gives an operand.
    pub fn gives(&mut self, ty: Entry<'a>) -> Result<(), Memory>
        ensures { OnOk result (tracing_of self.new ≡ gives_of (type_of ty.entry) (tracing_of self.old)) }
    {
        self.place()?;
        self.push(ty)
    }

    /// A command that takes so many operands, and gives one.
    pub fn takes(&mut self, count: usize, ty: Entry<'a>) -> Result<(), Memory>
        ensures { OnOk result (tracing_of self.new ≡ takes_of count (type_of ty.entry) (tracing_of self.old)) }
    {
        self.place()?;
        self.take(count)?;
        self.push(ty)
    }

    /// A command that takes the last operand and gives none.
    pub fn leaves(&mut self) -> Result<(), Memory>
        ensures { OnOk result (tracing_of self.new ≡ leaves_of (tracing_of self.old)) }
    {
        self.place()?;
        self.take(1)
    }

    /// What was given is of this type from here on.
    pub fn becomes(&mut self, ty: Entry<'a>) -> Result<(), Memory>
        ensures { OnOk result (tracing_of self.new ≡ becomes_of (type_of ty.entry) (tracing_of self.old)) }
    {
        self.take(1)?;
        self.push(ty)
    }
}
