//! How far numbers of a graph are away from one of them.
ghost use Rattle.std.specs.Prelude.{◌≡◌, ◌<◌, ◌++◌, ◌∷◌, [], Contains, IfOk, OnOk, None as Absent, List, get_or, length, map, replicate, set, ℕ};
ghost use Rattle.graphs.specs.Distances.{AreAway, IsReversed};
ghost use Rattle.graphs.specs.inner.Searching.{AddsEdge, AddsEdges, AreNoted, IsBefore, IsLevel};

use bal_base::Memory;
use std::alloc::Global;

/// The graph turned round: the numbers that each one follows. Its cost grows with the numbers and what follows them.
pub fn reversed(alloc: Global, next: &[Vec<usize>]) -> Result<Vec<Vec<usize>>, Memory>
    ensures { IfOk result (λ back. IsReversed (map (λ v. v.items) next.now) (map (λ v. v.items) back.items)) }
{
    let mut back = no_edges(alloc, next.len())?;
    for (number, list) in next.iter().enumerate() {
        follows_all(&mut back, number, list)?;
    }
    Ok(back)
}

fn no_edges(alloc: Global, count: usize) -> Result<Vec<Vec<usize>>, Memory>
    ensures { IfOk result (λ back. map (λ v. v.items) back.items ≡ replicate count []) }
{
    let mut back = Vec::new(alloc);
    for _ in 0..count {
        back.push(Vec::new(alloc))?;
    }
    Ok(back)
}

/// The number follows each of these.
fn follows_all(back: &mut Vec<Vec<usize>>, number: usize, list: &[usize]) -> Result<(), Memory>
    ensures { OnOk result (AddsEdges number list.now (map (λ v. v.items) back.old.items) (map (λ v. v.items) back.new.items)) }
{
    for follower in list {
        follows(back, number, *follower)?;
    }
    Ok(())
}

fn follows(back: &mut Vec<Vec<usize>>, number: usize, follower: usize) -> Result<(), Memory>
    ensures { OnOk result (AddsEdge number follower (map (λ v. v.items) back.old.items) (map (λ v. v.items) back.new.items)) }
{
    if follower >= back.len() {
        return Ok(());
    }
    back[follower].push(number)?;
    Ok(())
}

/// How many steps lead from each number to the target, where any do: the least number of them. `back`
/// is the graph turned round. It goes over each number and what it follows once.
pub fn distances(
    alloc: Global,
    back: &[Vec<usize>],
    target: usize,
) -> Result<Vec<Option<usize>>, Memory>
    requires { target < length back.now }
    ensures { (next : List (List ℕ)) → IsReversed next (map (λ v. v.items) back.now) → IfOk result (λ away. AreAway next target away.items) }
{
    let mut away = none(alloc, back.len())?;
    away[target] = Some(0);
    let mut edge = one(alloc, target)?;
    for level in 0..back.len() {
        if edge.is_empty() {
            return Ok(away);
        }
        edge = one_level(alloc, back, &mut away, &edge, level + 1)?;
    }
    Ok(away)
}

fn none(alloc: Global, count: usize) -> Result<Vec<Option<usize>>, Memory>
    ensures { IfOk result (λ away. away.items ≡ replicate count Absent) }
{
    let mut away = Vec::new(alloc);
    for _ in 0..count {
        away.push(None)?;
    }
    Ok(away)
}

fn one(alloc: Global, number: usize) -> Result<Vec<usize>, Memory>
    ensures { IfOk result (λ edge. edge.items ≡ number ∷ []) }
{
    let mut edge = Vec::new(alloc);
    edge.push(number)?;
    Ok(edge)
}

/// The numbers that are one step further away than those of the edge.
fn one_level(
    alloc: Global,
    back: &[Vec<usize>],
    away: &mut Vec<Option<usize>>,
    edge: &[usize],
    level: usize,
) -> Result<Vec<usize>, Memory>
    ensures { IfOk result (λ found. AreNoted (IsBefore (map (λ v. v.items) back.now) edge.now) level away.old.items [] away.new.items found.items) }
{
    let mut found = Vec::new(alloc);
    for number in edge {
        reach(away, &mut found, preceding(back, *number), level)?;
    }
    Ok(found)
}

/// The numbers that this one follows.
fn preceding(back: &[Vec<usize>], number: usize) -> &[usize]
    ensures { result.now ≡ get_or (map (λ v. v.items) back.now) number [] }
{
    match back.get(number) {
        Some(list) => list,
        None => &[],
    }
}

/// Notes the distance of each of these numbers, where it isn't known.
fn reach(
    away: &mut Vec<Option<usize>>,
    found: &mut Vec<usize>,
    numbers: &[usize],
    level: usize,
) -> Result<(), Memory>
    ensures { OnOk result (AreNoted (Contains numbers.now) level away.old.items found.old.items away.new.items found.new.items) }
{
    for number in numbers {
        note(away, found, *number, level)?;
    }
    Ok(())
}

fn note(
    away: &mut Vec<Option<usize>>,
    found: &mut Vec<usize>,
    number: usize,
    level: usize,
) -> Result<(), Memory>
    ensures { OnOk result (AreNoted (λ i. i ≡ number) level away.old.items found.old.items away.new.items found.new.items) }
{
    if number >= away.len() {
        return Ok(());
    }
    match away[number] {
        Some(_) => Ok(()),
        None => {
            away[number] = Some(level);
            found.push(number)?;
            Ok(())
        }
    }
}
