//! Numbers of a graph that lie on no cycle, seen without a search.
#![tactic(auto)]

ghost use Rattle.std.specs.Prelude.{◌≡◌, ◌<◌, IfOk, List, OnOk, false, get_or, length, map, option_map, replicate, set, true, ℕ};
ghost use Rattle.std.specs.List.{list_all};
ghost use Rattle.graphs.specs.Cycles.{IsCycleFound, IsOnCycle, followers as followers_of};
ghost use Rattle.graphs.specs.Distances.{IsReversed};
ghost use Rattle.worker_ranks.specs.inner.Free.{AreFree, KeepsFree};

use bal_base::Memory;
use graphs::first_cycle;
use std::alloc::Global;

/// Marks on numbers that lie on no cycle, and whether a round has set one more.
#[derive(Drop)]
pub(crate) struct Freed {
    marks: Vec<bool>,
    more: bool,
}

/// Whether a number is marked.
fn is_marked(marks: &[bool], number: usize) -> bool
    ensures { result ≡ get_or marks.now number false }
{
    match marks.get(number) {
        Some(mark) => *mark,
        None => false,
    }
}

/// Whether all of these numbers are marked.
fn are_marked(marks: &[bool], numbers: &[usize]) -> bool
    ensures { result ≡ list_all (λ t. get_or marks.now t false) numbers.now }
{
    for number in numbers {
        if !is_marked(marks, *number) {
            return false;
        }
    }
    true
}

/// The numbers to which steps go from this one; none where the graph doesn't have it.
fn followers(steps: &[Vec<usize>], number: usize) -> &[usize]
    ensures { result.now ≡ followers_of (map (λ v. v.items) steps.now) number }
{
    match steps.get(number) {
        Some(list) => list,
        None => &[],
    }
}

/// No marks on so many numbers.
fn unmarked(alloc: Global, count: usize) -> Result<Freed, Memory>
    ensures { IfOk result (λ freed. freed.marks.items ≡ replicate count false) }
{
    let mut marks = Vec::new(alloc);
    for _ in 0..count {
        marks.push(false)?;
    }
    Ok(Freed { marks, more: false })
}

/// Whether a cycle was found.
fn is_found(found: &Option<Vec<usize>>) -> bool
    ensures none { (next : List (List ℕ)) (n : ℕ) → IsCycleFound next n (option_map (λ v. v.items) found.now) → result ≡ false → ¬ IsOnCycle next n }
    ensures cycle { (next : List (List ℕ)) (n : ℕ) → IsCycleFound next n (option_map (λ v. v.items) found.now) → result ≡ true → IsOnCycle next n }
{
    match found {
        Some(_) => true,
        None => false,
    }
}

/// Whether a number lies on a cycle, by a search of the graph.
fn lies_on_cycle(
    alloc: Global,
    next: &[Vec<usize>],
    back: &[Vec<usize>],
    number: usize,
) -> Result<bool, Memory>
    requires reversed { IsReversed (map (λ v. v.items) next.now) (map (λ v. v.items) back.now) }
    requires placed { number < length back.now }
    ensures none { IfOk result (λ on. on ≡ false → ¬ IsOnCycle (map (λ v. v.items) next.now) number) }
    ensures cycle { IfOk result (λ on. on ≡ true → IsOnCycle (map (λ v. v.items) next.now) number) }
{
    let found = first_cycle(alloc, next, back, number)?;
    Ok(is_found(&found))
}

/// Marks on numbers of a graph, from which no way leads to a cycle, or to which none leads. `back` is the graph turned round. Each round
/// looks at the numbers that aren't marked; there are as many rounds at most as numbers, and few where marks come from both ends.
pub(crate) fn freed_numbers(
    alloc: Global,
    next: &[Vec<usize>],
    back: &[Vec<usize>],
) -> Result<Freed, Memory>
    requires reversed { IsReversed (map (λ v. v.items) next.now) (map (λ v. v.items) back.now) }
    ensures { IfOk result (λ freed. AreFree (map (λ v. v.items) next.now) freed.marks.items) }
{
    let mut freed = unmarked(alloc, next.len())?;
    freed.peel(next);
    freed.peel(back);
    Ok(freed)
}

impl Freed {
    fn is_free(&self, number: usize) -> bool
        ensures { result ≡ get_or self.now.marks.items number false }
    {
        is_marked(&self.marks, number)
    }

    /// Whether all to which steps go from a number are marked.
    fn leads_to_free(&self, steps: &[Vec<usize>], number: usize) -> bool
        ensures { result ≡ list_all (λ t. get_or self.now.marks.items t false) (followers_of (map (λ v. v.items) steps.now) number) }
    {
        are_marked(&self.marks, followers(steps, number))
    }

    fn mark(&mut self, number: usize)
        ensures { self.new.marks.items ≡ set self.old.marks.items number true }
    {
        self.more = true;
        if number < self.marks.len() {
            self.marks[number] = true;
        }
    }

    /// Marks a number where all to which steps go from it are marked.
    fn free(&mut self, steps: &[Vec<usize>], number: usize)
        ensures { KeepsFree (map (λ v. v.items) steps.now) self.old.marks.items self.new.marks.items }
    {
        if self.is_free(number) {
            return;
        }
        if !self.leads_to_free(steps, number) {
            return;
        }
        self.mark(number);
    }

    /// Goes over all numbers, from both ends.
    fn sweep(&mut self, steps: &[Vec<usize>])
        ensures { KeepsFree (map (λ v. v.items) steps.now) self.old.marks.items self.new.marks.items }
    {
        self.more = false;
        let count = steps.len();
        for number in 0..count {
            self.free(steps, number);
            self.free(steps, count - number - 1);
        }
    }

    /// The same until no more are marked.
    fn peel(&mut self, steps: &[Vec<usize>])
        ensures { KeepsFree (map (λ v. v.items) steps.now) self.old.marks.items self.new.marks.items }
    {
        for _ in 0..steps.len() {
            self.sweep(steps);
            if !self.more {
                return;
            }
        }
    }

    /// Whether a number lies on a cycle. Where the marks don't tell, it takes a search of the graph, and marks the number if there is
    /// none.
    pub(crate) fn is_on_cycle(
        &mut self,
        alloc: Global,
        next: &[Vec<usize>],
        back: &[Vec<usize>],
        number: usize,
    ) -> Result<bool, Memory>
        requires reversed { IsReversed (map (λ v. v.items) next.now) (map (λ v. v.items) back.now) }
        requires placed { number < length back.now }
        requires free { AreFree (map (λ v. v.items) next.now) self.old.marks.items }
        ensures free { OnOk result (AreFree (map (λ v. v.items) next.now) self.new.marks.items) }
        ensures none { IfOk result (λ on. on ≡ false → ¬ IsOnCycle (map (λ v. v.items) next.now) number) }
        ensures cycle { IfOk result (λ on. on ≡ true → IsOnCycle (map (λ v. v.items) next.now) number) }
    {
        self.free(next, number);
        self.free(back, number);
        if self.is_free(number) {
            return Ok(false);
        }
        let on = lies_on_cycle(alloc, next, back, number)?;
        if on {
            return Ok(true);
        }
        self.mark(number);
        Ok(false)
    }
}
