//! Graphs in an order in which each number comes behind those that follow it.
ghost use Rattle.std.specs.Prelude.{◌≡◌, ◌<◌, ◌++◌, ◌∷◌, ◌↔◌, ℕ, [], All, Contains, IfNone, IfOk, IfSome, IsTrue, List, OnOk, Some as Present, get_or, length, map, replicate, set, slice_get, take, true};
ghost use Rattle.graphs.specs.Cycles.{IsOnCycle, followers as followers_of};
ghost use Rattle.graphs.specs.Ordering.{HasCycle, IsInside, IsOrder};
ghost use Rattle.graphs.specs.inner.Walks.{AreWalked, Begins, Ends, Goes, IsBegun, IsPath, IsWalked, first_step};
ghost use Rattle.graphs.specs.declared.order.Mark.TheVariants.{Done as IsDone, New as IsNew};
ghost use Rattle.graphs.specs.declared.order.Step.{Step as OneStep};

use crate::followers::followers;
use bal_base::Memory;
use std::alloc::Global;

/// How far a walk is with a number.
#[derive(Clone, Copy)]
pub(crate) enum Mark {
    New,
    Begun,
    Done,
}

/// A number whose parts are walked, and at which of them the walk is.
#[derive(Clone, Copy)]
pub(crate) struct Step {
    number: usize,
    parts: usize,
}

/// A walk through a graph: how far it is with each number, those that are begun, each a part of the one before, and those that are
/// done, in order.
#[derive(Drop)]
pub(crate) struct Walk {
    marks: Vec<Mark>,
    steps: Vec<Step>,
    order: Vec<usize>,
}

/// Whether no number of a graph is on a cycle. Its cost grows with the numbers and what follows them.
pub fn has_no_cycle(alloc: Global, next: &[Vec<usize>]) -> Result<bool, Memory>
    requires { IsInside (map (λ v. v.items) next.now) }
    ensures { IfOk result (λ none. none ≡ true → (i : ℕ) → ¬ IsOnCycle (map (λ v. v.items) next.now) i) }
{
    Ok(parts_first(alloc, next)?.is_some())
}

/// All numbers of a graph, each behind those that follow it, or none where there is a cycle. Its cost grows with the numbers and
/// what follows them.
pub fn parts_first(alloc: Global, next: &[Vec<usize>]) -> Result<Option<Vec<usize>>, Memory>
    requires { IsInside (map (λ v. v.items) next.now) }
    ensures found { IfOk result (λ found. IfSome found (λ order. IsOrder (map (λ v. v.items) next.now) order.items)) }
    ensures cyclic { IfOk result (λ found. IfNone found (HasCycle (map (λ v. v.items) next.now))) }
{
    let mut walk = Walk {
        marks: new_marks(alloc, next.len())?,
        steps: Vec::new(alloc),
        order: Vec::new(alloc),
    };
    for number in 0..next.len() {
        walk.begin(number)?;
        if !walk.run(next)? {
            return Ok(None);
        }
    }
    Ok(Some(walk.order))
}

fn new_marks(alloc: Global, count: usize) -> Result<Vec<Mark>, Memory>
    ensures { IfOk result (λ marks. marks.items ≡ replicate count IsNew) }
{
    let mut marks = Vec::new(alloc);
    for _ in 0..count {
        marks.push(Mark::New)?;
    }
    Ok(marks)
}

impl Walk {
    fn mark(&self, number: usize) -> Option<Mark>
        ensures { result ≡ slice_get self.now.marks.items number }
    {
        self.marks.get(number).copied()
    }

    fn is_new(&self, number: usize) -> bool
        ensures { IsTrue result ↔ slice_get self.now.marks.items number ≡ Present IsNew }
    {
        match self.mark(number) {
            Some(Mark::New) => true,
            Some(Mark::Begun | Mark::Done) => false,
            None => false,
        }
    }

    fn is_done(&self, number: usize) -> bool
        ensures { IsTrue result ↔ slice_get self.now.marks.items number ≡ Present IsDone }
    {
        match self.mark(number) {
            Some(Mark::Done) => true,
            Some(Mark::New | Mark::Begun) => false,
            None => false,
        }
    }

    fn set_mark(&mut self, number: usize, mark: Mark)
        ensures marks { self.new.marks.items ≡ set self.old.marks.items number mark }
        ensures steps { self.new.steps ≡ self.old.steps }
        ensures order { self.new.order ≡ self.old.order }
    {
        if number < self.marks.len() {
            self.marks[number] = mark;
        }
    }

    /// Begins with a number, where it is new.
    fn begin(&mut self, number: usize) -> Result<(), Memory>
        ensures { OnOk result ((next : List (List ℕ)) (passed : ℕ) → IsWalked next passed self.old → IsPath next (self.old.steps.items ++ first_step number ∷ []) → Begins next passed number self.old self.new) }
    {
        if !self.is_new(number) {
            return Ok(());
        }
        self.set_mark(number, Mark::Begun);
        self.steps.push(Step { number, parts: 0 })?;
        Ok(())
    }

    /// Walks until nothing is begun. `false` where there is a cycle.
    fn run(&mut self, next: &[Vec<usize>]) -> Result<bool, Memory>
        ensures { IfOk result (λ whole. (passed : ℕ) → IsWalked (map (λ v. v.items) next.now) passed self.old → Ends (map (λ v. v.items) next.now) passed self.new whole) }
    {
        for _ in 0..2 * self.marks.len() {
            let Some(step) = self.steps.pop() else {
                return Ok(true);
            };
            if !self.go_on(followers(next, step.number), step)? {
                return Ok(false);
            }
        }
        Ok(true)
    }

    /// Goes on with the last step: begins the next part that isn't done, or closes the step where all are. `false` where there is
    /// a cycle.
    fn go_on(&mut self, parts: &[usize], step: Step) -> Result<bool, Memory>
        ensures { IfOk result (λ going. (next : List (List ℕ)) (passed : ℕ) → AreWalked next passed self.old.marks.items (self.old.steps.items ++ step ∷ []) self.old.order.items → followers_of next step.number ≡ parts.now → Goes next passed self.old self.new going) }
    {
        let at = self.next_open(parts, step.parts);
        match parts.get(at) {
            Some(part) => {
                let step = Step {
                    number: step.number,
                    parts: at,
                };
                self.one_part(step, *part)
            }
            None => {
                self.close(step.number)?;
                Ok(true)
            }
        }
    }

    /// The place of the first part from this place on that isn't done, or behind all parts.
    fn next_open(&self, parts: &[usize], from: usize) -> usize
        ensures before { (order : List ℕ) → ((i : ℕ) → slice_get self.now.marks.items i ≡ Present IsDone → Contains order i) → All (Contains order) (take from parts.now) → All (Contains order) (take result parts.now) }
        ensures not_done { result < length parts.now → ¬ (slice_get self.now.marks.items (get_or parts.now result 0) ≡ Present IsDone) }
    {
        for place in from..parts.len() {
            if !self.is_done(parts[place]) {
                return place;
            }
        }
        parts.len()
    }

    /// The part that a step is at, which isn't done.
    fn one_part(&mut self, step: Step, part: usize) -> Result<bool, Memory>
        ensures { IfOk result (λ going. (next : List (List ℕ)) (passed : ℕ) → AreWalked next passed self.old.marks.items (self.old.steps.items ++ step ∷ []) self.old.order.items → slice_get (followers_of next step.number) step.parts ≡ Present part → ¬ (slice_get self.old.marks.items part ≡ Present IsDone) → Goes next passed self.old self.new going) }
    {
        match self.mark(part) {
            Some(Mark::New) => {
                self.steps.push(step)?;
                self.begin(part)?;
                Ok(true)
            }
            Some(Mark::Begun) => Ok(false),
            Some(Mark::Done) => Ok(false),
            None => Ok(false),
        }
    }

    /// The number of the last step is done.
    fn close(&mut self, number: usize) -> Result<(), Memory>
        ensures { OnOk result ((next : List (List ℕ)) (passed : ℕ) (step : OneStep) → step.number ≡ number → AreWalked next passed self.old.marks.items (self.old.steps.items ++ step ∷ []) self.old.order.items → All (Contains self.old.order.items) (followers_of next number) → Goes next passed self.old self.new true) }
    {
        self.order.push(number)?;
        self.set_mark(number, Mark::Done);
        Ok(())
    }
}
