//! Numbers that are marked.
ghost use Rattle.std.specs.Prelude.{◌≡◌, ◌≤◌, ◌<◌, false, true, IfOk, IsTrue, get_or, length, replicate, slice_set};
ghost use Rattle.callable_units.specs.inner.Marks.{IsAmong, IsNamedBy, IsNamedIn, Marks};

use bal_base::Memory;
use stack_code::{Spawn, Unit};
use std::alloc::Global;

/// Whether the number is marked; not, where there is no such number.
pub(crate) fn is_marked(marks: &[bool], n: usize) -> bool
    ensures { result ≡ get_or marks.now n false }
{
    match marks.get(n) {
        Some(mark) => *mark,
        None => false,
    }
}

/// So many numbers, none of them marked.
pub(crate) fn unmarked(alloc: Global, count: usize) -> Result<Vec<bool>, Memory>
    ensures { IfOk result (λ marks. marks.items ≡ replicate count false) }
{
    let mut marks = Vec::new(alloc);
    for _number in 0..count {
        marks.push(false)?;
    }
    Ok(marks)
}

/// Whether there is such a number.
fn has_number(marks: &[bool], n: u32) -> bool
    ensures there { IsTrue result → n < length marks.now }
    ensures beyond { result ≡ false → length marks.now ≤ n }
{
    (n as usize) < marks.len()
}

/// Marks the number, where there is such a one.
fn mark(marks: &mut Vec<bool>, n: u32)
    ensures { marks.new.items ≡ slice_set marks.old.items n true }
{
    match has_number(marks.as_slice(), n) {
        true => marks[n as usize] = true,
        false => {}
    }
}

/// The number in the place.
fn number_at(numbers: &[u32], k: usize) -> u32
    requires { k < length numbers.now }
    ensures { result ≡ get_or numbers.now k 0 }
{
    numbers[k]
}

/// Marks the numbers.
pub(crate) fn mark_all(marks: &mut Vec<bool>, numbers: &[u32])
    ensures { Marks (IsAmong numbers.now) marks.old.items marks.new.items }
{
    for k in 0..numbers.len() {
        let n = number_at(numbers, k);
        mark(marks, n);
    }
}

/// Marks the units of the workers.
fn mark_workers(marks: &mut Vec<bool>, workers: &[Spawn])
    ensures { Marks (IsNamedIn workers.now) marks.old.items marks.new.items }
{
    for worker in workers {
        mark(marks, worker.unit);
    }
}

/// Marks the units of the workers of all units.
pub(crate) fn mark_crews(marks: &mut Vec<bool>, units: &[Unit])
    ensures { Marks (IsNamedBy units.now) marks.old.items marks.new.items }
{
    for unit in units {
        mark_workers(marks, unit.workers.as_slice());
    }
}
