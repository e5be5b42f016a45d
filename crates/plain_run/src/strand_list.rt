//! The strands of a run.
#![tactic(auto, using(crate::proofs::Listed::listed))]

ghost use Rattle.std.specs.Prelude.{◌≡◌, ◌≤◌, ◌<◌, ◌↔◌, ◌∷◌, ◌++◌, ◌^◌, [], Bool, true, false, IsTrue, OnErr, OnOk, Some, ℕ, drop, length, map, slice_get, take};
ghost use Rattle.std.specs.List.{sum_by};
ghost use Rattle.plain_run.specs.declared.held.Status.TheVariants.{Active as IsActive};
ghost use Rattle.plain_run.specs.Blocked as blocked;
ghost use Rattle.plain_run.specs.Blocked.{blocked_from, ended_by, noted};
ghost use Rattle.plain_run.specs.Held.{status_of, strand_of};
ghost use Rattle.plain_run.specs.Strands.{stands_so, taken_so};

use crate::held::{Status, Strand};
use bal_base::Memory;
use std::alloc::Global;
use std::marker::Model;
use std::ops::DerefSlice;

/// Strands by their numbers. Which of them are blocked and how many have ended is known at once.
#[derive(Drop)]
pub struct Strands {
    items: Vec<Strand>,
    /// The numbers of those that are blocked, rising.
    blocked: Vec<u64>,
    /// How many have ended.
    ended: u64,
}

impl Model for Strands {
    ghost use Rattle.std.specs.Prelude.{◌≡◌, List};
    ghost use Rattle.std.specs.List.{sum_by};
    ghost use Rattle.plain_run.specs.declared.held.Strand.{Strand};
    ghost use Rattle.plain_run.specs.Blocked.{blocked_from, ended_by};

    ghost Value = { List Strand };

    ghost view = { λ a. a.items.items };

    ghost invariant = { λ a. (a.blocked.items ≡ blocked_from 0 a.items.items) × (a.ended ≡ sum_by (λ s. ended_by s.status) a.items.items) };
}

/// Whether it is blocked.
fn is_blocked(status: &Status) -> bool
    ensures { result ≡ blocked.is_blocked status.now }
{
    match status {
        Status::Active | Status::Ended(_, _) => false,
        Status::Blocked(_) => true,
    }
}

/// One, where it is an end.
fn counted(status: &Status) -> u64
    ensures { result ≡ ended_by status.now }
{
    match status {
        Status::Active | Status::Blocked(_) => 0,
        Status::Ended(_, _) => 1,
    }
}

/// How many of these rising numbers stand before the first one that isn't below this one.
fn below(numbers: &[u64], n: u64) -> usize
    ensures inside { result ≤ length numbers.now }
    ensures split { (is : Bool) → noted n is numbers.now ≡ take result numbers.now ++ noted n is (drop result numbers.now) }
    ensures stops { (m : ℕ) → slice_get numbers.now result ≡ Some m → n ≤ m }
{
    let mut at = 0;
    for m in numbers {
        if *m >= n {
            return at;
        }
        at += 1;
    }
    at
}

/// Whether this number stands at this place.
fn stands_at(numbers: &[u64], at: usize, n: u64) -> bool
    ensures { IsTrue result ↔ (slice_get numbers.now at ≡ Some n) }
{
    match numbers.get(at) {
        None => false,
        Some(m) => *m == n,
    }
}

/// The number is among these rising ones from now on.
fn list(numbers: &mut Vec<u64>, n: u64) -> Result<(), Memory>
    ensures listed { OnOk result (numbers.new.items ≡ noted n true numbers.old.items) }
    ensures refused { OnErr result (numbers.new.items ≡ numbers.old.items) }
{
    let at = below(numbers.as_slice(), n);
    if !stands_at(numbers.as_slice(), at, n) {
        numbers.insert(at, n)?;
    }
    Ok(())
}

/// The number is not among these rising ones from now on.
fn unlist(numbers: &mut Vec<u64>, n: u64)
    ensures { numbers.new.items ≡ noted n false numbers.old.items }
{
    let at = below(numbers.as_slice(), n);
    if stands_at(numbers.as_slice(), at, n) {
        numbers.remove(at);
    }
}

/// Whether the number is among these rising ones is so from now on.
fn note(numbers: &mut Vec<u64>, n: u64, is: bool) -> Result<(), Memory>
    ensures noted { OnOk result (numbers.new.items ≡ noted n is numbers.old.items) }
    ensures refused { OnErr result (numbers.new.items ≡ numbers.old.items) }
{
    if is {
        list(numbers, n)
    } else {
        unlist(numbers, n);
        Ok(())
    }
}

/// Whether the result of the strand with this number, if there is one, was taken is so from now on.
fn mark(items: &mut Vec<Strand>, n: u64, taken: bool)
    ensures taken { map strand_of items.new.items ≡ taken_so (map strand_of items.old.items) n taken }
    ensures blocked { blocked_from 0 items.new.items ≡ blocked_from 0 items.old.items }
    ensures ended { sum_by (λ s. ended_by s.status) items.new.items ≡ sum_by (λ s. ended_by s.status) items.old.items }
{
    if let Some(strand) = items.get_mut(n as usize) {
        strand.taken = taken;
    }
}

/// The strand with this number stands so from now on. Told is how many have ended, where so many had.
fn stand(items: &mut Vec<Strand>, n: usize, status: Status, ended: u64) -> u64
    requires there { n < length items.old.items }
    requires count { ended ≡ sum_by (λ s. ended_by s.status) items.old.items }
    ensures status { map strand_of items.new.items ≡ stands_so (map strand_of items.old.items) n (status_of status) }
    ensures blocked { blocked_from 0 items.new.items ≡ noted n (blocked.is_blocked status) (blocked_from 0 items.old.items) }
    ensures ended { result ≡ sum_by (λ s. ended_by s.status) items.new.items }
{
    let strand = &mut items[n];
    let others = ended - counted(&strand.status);
    let sum = others + counted(&status);
    strand.status = status;
    sum
}

impl Strands {
    /// No strands.
    pub fn new(alloc: Global) -> Strands
        ensures { result ≡ [] }
    {
        Strands {
            items: Vec::new(alloc),
            blocked: Vec::new(alloc),
            ended: 0,
        }
    }

    /// How many there are.
    pub fn len(&self) -> usize
        ensures len { result ≡ length self.now }
        ensures small { result < 2 ^ 63 }
    {
        self.items.len()
    }

    /// The numbers of those that are blocked, rising. Looks at no strand.
    pub fn blocked(&self) -> &[u64]
        ensures { result.now ≡ blocked_from 0 self.now }
    {
        self.blocked.as_slice()
    }

    /// How many have ended. Looks at no strand.
    pub fn ended(&self) -> u64
        ensures { result ≡ sum_by (λ s. ended_by s.status) self.now }
    {
        self.ended
    }

    /// One active strand more, behind the others.
    pub fn push(&mut self, s: Strand) -> Result<(), Memory>
        requires active { s.status ≡ IsActive }
        ensures pushed { OnOk result (self.new ≡ self.old ++ s ∷ []) }
        ensures refused { OnErr result (self.new ≡ self.old) }
    {
        self.items.push(s)?;
        Ok(())
    }

    /// The strand with this number, if there is one, stands so from now on. Takes time that grows with the strands that are blocked.
    pub fn set_status(&mut self, n: u64, status: Status) -> Result<(), Memory>
        ensures { OnOk result (map strand_of self.new ≡ stands_so (map strand_of self.old) n (status_of status)) }
    {
        if n as usize >= self.items.len() {
            return Ok(());
        }
        note(&mut self.blocked, n, is_blocked(&status))?;
        self.ended = stand(&mut self.items, n as usize, status, self.ended);
        Ok(())
    }

    /// Whether the result of the strand with this number, if there is one, was taken is so from now on.
    pub fn set_taken(&mut self, n: u64, taken: bool)
        ensures { map strand_of self.new ≡ taken_so (map strand_of self.old) n taken }
    {
        mark(&mut self.items, n, taken);
    }
}

impl DerefSlice for Strands {
    type Elem = Strand;

    ghost deref_gives = { λ a xs. xs ≡ a };

    fn deref(&self) -> &[Strand]
        ensures value { result.now ≡ self.now }
    {
        self.items.as_slice()
    }
}
