//! Modules that import one another in a cycle.
ghost use Rattle.std.specs.Prelude.{◌≡◌, ◌<◌, ◌∷◌, IfOk, length, map, option_map};
ghost use Rattle.package_imports.specs.Cycles.{IsCycleSought};
ghost use Rattle.package_imports.specs.inner.Begun.{IsCycleBegun};

use bal_base::Memory;
use graphs::{first_cycle, reversed};
use std::alloc::Global;

/// The cycle of the least number that is on one, or none. It searches the graph once for each number.
pub fn least_cycle(alloc: Global, next: &[Vec<usize>]) -> Result<Option<Vec<usize>>, Memory>
    ensures { IfOk result (λ found. IsCycleSought (map (λ v. v.items) next.now) (option_map (λ v. v.items) found)) }
{
    for first in 0..next.len() {
        let found = cycle_from(alloc, next, first)?;
        match found {
            Some(cycle) => return Ok(Some(cycle)),
            None => {}
        }
    }
    Ok(None)
}

/// The first of the shortest cycles that begin with a number, that number in front, or none.
fn cycle_from(
    alloc: Global,
    next: &[Vec<usize>],
    first: usize,
) -> Result<Option<Vec<usize>>, Memory>
    requires { first < length next.now }
    ensures { IfOk result (λ found. IsCycleBegun (map (λ v. v.items) next.now) first (option_map (λ v. v.items) found)) }
{
    let back = reversed(alloc, next)?;
    let found = first_cycle(alloc, next, back.as_slice(), first)?;
    match found {
        Some(others) => Ok(Some(with_first(alloc, first, others.as_slice())?)),
        None => Ok(None),
    }
}

/// A number, and these behind it.
fn with_first(alloc: Global, first: usize, others: &[usize]) -> Result<Vec<usize>, Memory>
    ensures { IfOk result (λ all. all.items ≡ first ∷ others.now) }
{
    let mut all = Vec::new(alloc);
    all.push(first)?;
    all.extend_from_slice(others)?;
    Ok(all)
}
