//! The plain program of level by level numbering.
ghost use Rattle.std.specs.Prelude.{◌≡◌, ◌++◌, ◌==◌, IfOk, filter, flat_map, not};
ghost use Rattle.op_model.specs.Levels.{distinct as distinct_of, levels as levels_of};
ghost use Rattle.op_model.specs.Kids.{kids_at};

use bal_base::{Memory, Numbers};
use std::alloc::Global;

/// From the roots on, level by level, for so many levels: the roots, their kids in order, the kids of these, each number
/// where it comes first. `kids` has the kids of each number.
pub fn levels(
    alloc: Global,
    kids: &[Numbers],
    roots: &[u32],
    depth: usize,
) -> Result<Vec<u32>, Memory>
    ensures { IfOk result (λ v. v.items ≡ levels_of distinct_of (kids_at kids.now) roots.now depth) }
{
    let mut found = Vec::new(alloc);
    for _level in 0..depth {
        found = next(alloc, kids, roots, found.as_slice())?;
    }
    Ok(found)
}

/// The roots and the kids of what was found, each where it comes first.
fn next(alloc: Global, kids: &[Numbers], roots: &[u32], found: &[u32]) -> Result<Vec<u32>, Memory>
    ensures { IfOk result (λ v. v.items ≡ distinct_of (roots.now ++ flat_map (kids_at kids.now) found.now)) }
{
    let mut all = Vec::from_slice(alloc, roots)?;
    for number in found {
        all.extend_from_slice(kids_of(kids, *number))?;
    }
    distinct(alloc, all.as_slice())
}

fn kids_of(kids: &[Numbers], number: u32) -> &[u32]
    ensures { result.now ≡ kids_at kids.now number }
{
    match kids.get(number as usize) {
        Some(list) => list.as_slice(),
        None => &[],
    }
}

/// Each number where it comes first.
pub fn distinct(alloc: Global, numbers: &[u32]) -> Result<Vec<u32>, Memory>
    ensures { IfOk result (λ v. v.items ≡ distinct_of numbers.now) }
{
    match numbers {
        [] => Ok(Vec::new(alloc)),
        [first, rest @ ..] => {
            let behind = distinct(alloc, rest)?;
            let mut all = without(alloc, behind.as_slice(), *first)?;
            all.insert(0, *first)?;
            Ok(all)
        }
    }
}

/// The numbers but for one.
fn without(alloc: Global, numbers: &[u32], left_out: u32) -> Result<Vec<u32>, Memory>
    ensures { IfOk result (λ v. v.items ≡ filter (λ n. not (n == left_out)) numbers.now) }
{
    let mut kept = Vec::new(alloc);
    for number in numbers {
        if *number != left_out {
            kept.push(*number)?;
        }
    }
    Ok(kept)
}
