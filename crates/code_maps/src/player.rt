//! Traces that are played back.

ghost use Rattle.std.specs.Prelude.{◌≡◌, ◌+◌, ◌-◌, [], IfOk, OnOk, map, slice_get};
ghost use Rattle.lower_expr.specs.Drafts.{step_of};
ghost use Rattle.lower_stmt.specs.Bodies.{body_of};
ghost use Rattle.map_model.specs.Whole.{begins_with, tally_after};
ghost use Rattle.map_traces.specs.Events.{all_traced, traced, type_of};
ghost use Rattle.map_traces.specs.Tracing.{drops, place as place_of, push as push_of};
ghost use Rattle.code_maps.specs.Counted.{tally_in};
ghost use Rattle.code_maps.specs.Played.{Goes, HasMapMore, IsMapHere};

use crate::copies::{copies, numbers};
use crate::exchanged::{Exchanged, begins, uncounted};
use bal_base::{Memory, Numbers};
use lower_expr::Step;
use lower_stmt::Body;
use map_traces::{Entry, Event};
use stack_code::StackMap;
use std::alloc::Global;
use type_model::TypeList;

/// What is known while a trace is played: the operands that wait, the last one last, the numbers of messages, which place of the unit
/// comes next, and the maps of all places so far.
#[derive(Drop)]
pub struct Player<'a> {
    pub waiting: Vec<Entry<'a>>,
    pub exchanged: Exchanged,
    pub next: usize,
    pub maps: Vec<StackMap>,
}

/// No map yet.
pub fn fresh<'a>(alloc: Global) -> Player<'a>
    ensures { result.maps.items ≡ [] }
{
    Player {
        waiting: Vec::new(alloc),
        exchanged: uncounted(alloc),
        next: 0,
        maps: Vec::new(alloc),
    }
}

/// The command at a place, where there is one.
fn step_at<'a>(steps: &[Step<'a>], place: usize) -> Option<Step<'a>>
    ensures { result ≡ slice_get steps.now place }
{
    steps.get(place).copied()
}

/// So many without those that are taken away.
fn fewer(many: usize, taken: usize) -> usize
    ensures { result ≡ many - taken }
{
    many.saturating_sub(taken)
}

impl<'a> Player<'a> {
    /// A unit begins, in a function of so many workers.
    pub fn begin(&mut self, alloc: Global, workers: usize, body: Body<'_>) -> Result<(), Memory>
        ensures maps { OnOk result (self.new.maps.items ≡ self.old.maps.items) }
        ensures waiting { OnOk result (self.new.waiting.items ≡ []) }
        ensures next { OnOk result (self.new.next ≡ 0) }
        ensures tally { OnOk result (tally_in self.new.exchanged ≡ begins_with workers (body_of body.entry)) }
    {
        self.exchanged = begins(alloc, workers, body)?;
        self.waiting.clear();
        self.next = 0;
        Ok(())
    }

    /// The map of the next place.
    fn map(&self, alloc: Global) -> Result<StackMap, Memory>
        ensures { IfOk result (IsMapHere self.now) }
    {
        let stack = copies(alloc, &self.waiting)?;
        let sent = numbers(alloc, &self.exchanged.sent)?;
        let received = numbers(alloc, &self.exchanged.received)?;
        Ok(StackMap {
            stack: TypeList::of(stack),
            counted: self.exchanged.counted,
            sent: Numbers::of(sent),
            received: Numbers::of(received),
        })
    }

    /// One more place, at which this command stands.
    fn pass(&mut self, alloc: Global, workers: usize, step: Step<'a>) -> Result<(), Memory>
        ensures waiting { OnOk result (self.new.waiting.items ≡ self.old.waiting.items) }
        ensures maps { OnOk result (HasMapMore self.old self.new) }
        ensures next { OnOk result (self.new.next ≡ self.old.next + 1) }
        ensures tally { OnOk result (tally_in self.new.exchanged ≡ tally_after workers (step_of step.entry) (tally_in self.old.exchanged)) }
    {
        if self.next == usize::MAX {
            return Err(Memory);
        }
        let map = self.map(alloc)?;
        self.maps.push(map)?;
        self.exchanged.after(alloc, workers, step)?;
        self.next += 1;
        Ok(())
    }

    /// One more place. It answers want of memory where none of the commands stands there.
    fn place(&mut self, alloc: Global, workers: usize, steps: &[Step<'a>]) -> Result<(), Memory>
        ensures { OnOk result (Goes workers (map step_of steps.now) place_of self.old self.new) }
    {
        match step_at(steps, self.next) {
            Some(step) => {
                self.pass(alloc, workers, step)?;
                Ok(())
            }
            None => Err(Memory),
        }
    }

    /// One more operand.
    fn push(&mut self, workers: usize, steps: &[Step<'a>], e: Entry<'a>) -> Result<(), Memory>
        ensures { OnOk result (Goes workers (map step_of steps.now) (push_of (type_of e.entry)) self.old self.new) }
    {
        self.waiting.push(e)?;
        Ok(())
    }

    /// The last so many operands are taken away.
    fn take(&mut self, workers: usize, steps: &[Step<'a>], count: usize)
        ensures { Goes workers (map step_of steps.now) (drops count) self.old self.new }
    {
        let left = fewer(self.waiting.len(), count);
        self.waiting.truncate(left);
    }

    /// One event.
    fn event(
        &mut self,
        alloc: Global,
        workers: usize,
        steps: &[Step<'a>],
        e: Event<'a>,
    ) -> Result<(), Memory>
        ensures { OnOk result (Goes workers (map step_of steps.now) (traced e.entry) self.old self.new) }
    {
        match e {
            Event::Place => self.place(alloc, workers, steps),
            Event::Push(t) => self.push(workers, steps, t),
            Event::Take(count) => {
                self.take(workers, steps, count);
                Ok(())
            }
        }
    }

    /// Events, one after another.
    pub fn play(
        &mut self,
        alloc: Global,
        workers: usize,
        steps: &[Step<'a>],
        events: &[Event<'a>],
    ) -> Result<(), Memory>
        ensures { OnOk result (Goes workers (map step_of steps.now) (all_traced events.now) self.old self.new) }
    {
        for e in events {
            self.event(alloc, workers, steps, *e)?;
        }
        Ok(())
    }
}
