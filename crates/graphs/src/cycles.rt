//! Cycles of a graph: the first of the shortest.
ghost use Rattle.std.specs.Prelude.{◌≡◌, ◌<◌, ◌++◌, ◌∷◌, [], IfOk, List, None as Absent, Option as Maybe, get_or, length, map, ℕ};
ghost use Rattle.std.specs.Option.{option_map};
ghost use Rattle.graphs.specs.Cycles.{IsCycleFound};
ghost use Rattle.graphs.specs.Distances.{IsReversed};
ghost use Rattle.graphs.specs.inner.Searching.{IsNearestOf, IsSooner};

use crate::followers::followers;
use crate::search::distances;
use bal_base::Memory;
use std::alloc::Global;

/// A number, and how many steps lead from it to the target.
#[derive(Clone, Copy)]
pub(crate) struct Near {
    number: usize,
    steps: usize,
}

/// The first of the shortest cycles that begin with a number: the others on it, in order, or none where it is on no cycle. `back` is
/// the graph turned round. It takes one search of the graph, and then a step for each number of the cycle.
pub fn first_cycle(
    alloc: Global,
    next: &[Vec<usize>],
    back: &[Vec<usize>],
    first: usize,
) -> Result<Option<Vec<usize>>, Memory>
    requires reversed { IsReversed (map (λ v. v.items) next.now) (map (λ v. v.items) back.now) }
    requires placed { first < length back.now }
    ensures { IfOk result (λ found. IsCycleFound (map (λ v. v.items) next.now) first (option_map (λ v. v.items) found)) }
{
    if followers(next, first).is_empty() {
        return Ok(None);
    }
    let away = distances(alloc, back, first)?;
    let Some(near) = nearest(&away, followers(next, first)) else {
        return Ok(None);
    };
    let mut others = Vec::new(alloc);
    let mut number = near.number;
    for _ in 0..near.steps {
        others.push(number)?;
        let Some(near) = nearest(&away, followers(next, number)) else {
            return Ok(None);
        };
        number = near.number;
    }
    Ok(Some(others))
}

/// The nearest of these numbers, and of several the least.
fn nearest(away: &[Option<usize>], numbers: &[usize]) -> Option<Near>
    ensures { IsNearestOf away.now numbers.now result }
{
    let mut nearest = None;
    for number in numbers {
        nearest = nearer(nearest, distance(away, *number), *number);
    }
    nearest
}

/// How many steps lead from a number, among those of [`distances`], where any do.
pub fn distance(away: &[Option<usize>], number: usize) -> Option<usize>
    ensures { result ≡ get_or away.now number Absent }
{
    away.get(number).copied()?
}

/// The nearest of those so far and of one more.
fn nearer(nearest: Option<Near>, away: Option<usize>, number: usize) -> Option<Near>
    ensures { (all : List (Maybe ℕ)) (numbers : List ℕ) → IsNearestOf all numbers nearest → get_or all number Absent ≡ away → IsNearestOf all (numbers ++ number ∷ []) result }
{
    let Some(steps) = away else {
        return nearest;
    };
    let new = Near { number, steps };
    match nearest {
        None => Some(new),
        Some(near) => Some(sooner(near, new)),
    }
}

/// The one of two that is nearer, or if they are as near has the lesser number.
fn sooner(old: Near, new: Near) -> Near
    ensures { IsSooner old new result }
{
    if new.steps < old.steps {
        return new;
    }
    if old.steps < new.steps {
        return old;
    }
    if new.number < old.number { new } else { old }
}
