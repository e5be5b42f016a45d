//! The order of modules.
ghost use Rattle.std.specs.Prelude.{◌≡◌, ◌<◌, ◌≤◌, ◌*◌, ◌++◌, ◌∷◌, [], ℕ, List, IfOk, OnOk, drop, false, get_or, if◌then◌else◌, length, map, reverse};
ghost use Rattle.graphs.specs.Cycles.{followers as followers_of};
ghost use Rattle.graphs.specs.Ordering.{IsInside};
ghost use Rattle.package_imports.specs.Order.{IsEachOnce, IsModuleOrder, Walks, has, others};
ghost use Rattle.package_imports.specs.inner.Walking.{Goes, Resumes, first_step, to_go};

use bal_base::Memory;
use std::alloc::Global;

/// A number that was come to, and from which place on what follows it is to be gone to.
#[derive(Clone, Copy)]
struct Step {
    number: usize,
    place: usize,
}

/// A walk through a graph: which numbers were come to, those that it isn't done with, each come to from the one before, and those that
/// it left, in order.
#[derive(Drop)]
struct Walk {
    come_to: Vec<usize>,
    steps: Vec<Step>,
    left: Vec<usize>,
}

/// All modules by their numbers: imports first, depth first from the default one, whose number is 0; behind them, in order, those that
/// it doesn't come to. Its cost grows with the number of imports times that of modules.
pub fn module_order(alloc: Global, next: &[Vec<usize>]) -> Result<Vec<usize>, Memory>
    requires inside { IsInside (map (λ v. v.items) next.now) }
    requires some { 0 < length next.now }
    ensures order { IfOk result (λ order. IsModuleOrder (map (λ v. v.items) next.now) order.items) }
    ensures each { IfOk result (λ order. IsEachOnce (length next.now) order.items) }
{
    let mut walk = Walk::new(alloc);
    walk.come(0)?;
    walk.run(next)?;
    walk.close(next.len())?;
    Ok(walk.left)
}

impl Walk {
    /// Nothing was come to yet.
    fn new(alloc: Global) -> Walk
        ensures come_to { result.come_to.items ≡ [] }
        ensures steps { result.steps.items ≡ [] }
        ensures left { result.left.items ≡ [] }
    {
        Walk {
            come_to: Vec::new(alloc),
            steps: Vec::new(alloc),
            left: Vec::new(alloc),
        }
    }

    /// Comes to a number.
    fn come(&mut self, number: usize) -> Result<(), Memory>
        ensures come_to { OnOk result (self.new.come_to.items ≡ self.old.come_to.items ++ number ∷ []) }
        ensures steps { OnOk result (self.new.steps.items ≡ self.old.steps.items ++ first_step number ∷ []) }
        ensures left { self.new.left ≡ self.old.left }
    {
        self.come_to.push(number)?;
        self.steps.push(Step { number, place: 0 })?;
        Ok(())
    }

    fn has(&self, number: usize) -> bool
        ensures { result ≡ has self.now.come_to.items number }
    {
        self.come_to.contains(&number)
    }

    /// Leaves a number.
    fn leave(&mut self, number: usize) -> Result<(), Memory>
        ensures come_to { self.new.come_to ≡ self.old.come_to }
        ensures steps { self.new.steps ≡ self.old.steps }
        ensures left { OnOk result (self.new.left.items ≡ self.old.left.items ++ number ∷ []) }
    {
        self.left.push(number)?;
        Ok(())
    }

    /// Leaves a number, unless it was come to.
    fn leave_new(&mut self, number: usize) -> Result<(), Memory>
        ensures come_to { self.new.come_to ≡ self.old.come_to }
        ensures left { OnOk result (self.new.left.items ≡ self.old.left.items ++ (if has self.old.come_to.items number then [] else number ∷ [])) }
    {
        if self.has(number) {
            return Ok(());
        }
        self.leave(number)?;
        Ok(())
    }

    /// Walks until nothing is left to go to.
    fn run(&mut self, next: &[Vec<usize>]) -> Result<(), Memory>
        ensures { OnOk result (let graph = map (λ v. v.items) next.now in IsInside graph → to_go graph self.old.come_to.items self.old.steps.items ≤ 2 * length next.now → Resumes graph self.old.come_to.items (reverse self.old.steps.items) self.old.left.items self.new.left.items self.new.come_to.items) }
    {
        for _ in 0..2 * next.len() {
            let Some(step) = self.steps.pop() else {
                return Ok(());
            };
            self.go_on(followers(next, step.number), step)?;
        }
        Ok(())
    }

    /// Goes to the next number behind the step's that wasn't come to, or leaves the step's number, where all were.
    fn go_on(&mut self, behind: &[usize], step: Step) -> Result<(), Memory>
        ensures { OnOk result ((graph : List (List ℕ)) → IsInside graph → followers_of graph step.number ≡ behind.now → Goes graph self.old.come_to.items (self.old.steps.items ++ step ∷ []) self.old.left.items self.new) }
    {
        let place = self.next_new(behind, step.place);
        match behind.get(place) {
            Some(number) => {
                self.steps.push(Step {
                    number: step.number,
                    place: place + 1,
                })?;
                self.come(*number)?;
                Ok(())
            }
            None => {
                self.leave(step.number)?;
                Ok(())
            }
        }
    }

    /// The place of the first of these numbers, from this place on, that wasn't come to, or behind all of them.
    fn next_new(&self, behind: &[usize], from: usize) -> usize
        ensures passes { (graph : List (List ℕ)) (order after : List ℕ) → Walks graph self.now.come_to.items (drop result behind.now) order after → Walks graph self.now.come_to.items (drop from behind.now) order after }
        ensures new { result < length behind.now → has self.now.come_to.items (get_or behind.now result 0) ≡ false }
    {
        for place in from..behind.len() {
            if !self.has(behind[place]) {
                return place;
            }
        }
        behind.len()
    }

    /// Puts the numbers that weren't come to behind those that were left.
    fn close(&mut self, count: usize) -> Result<(), Memory>
        ensures { OnOk result (self.new.left.items ≡ self.old.left.items ++ others count self.old.come_to.items) }
    {
        for number in 0..count {
            self.leave_new(number)?;
        }
        Ok(())
    }
}

/// The numbers that follow this one; none where the graph doesn't have it.
fn followers(next: &[Vec<usize>], number: usize) -> &[usize]
    ensures { result.now ≡ followers_of (map (λ v. v.items) next.now) number }
{
    match next.get(number) {
        Some(list) => list,
        None => &[],
    }
}
