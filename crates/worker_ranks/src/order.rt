//! Ranks from an order of the events.
#![tactic(auto)]

ghost use Rattle.std.specs.Prelude.{◌≡◌, IfNone, IfOk, IfSome, IsSomeAnd, None as Absent, length, map};
ghost use Rattle.worker_pairing.specs.Events.{IsNumbering, IsOrderable};
ghost use Rattle.worker_pairing.specs.Faults.{crew_of, rank_in as rank_in_of};
ghost use Rattle.worker_pairing.specs.Marks.{in_text};
ghost use Rattle.worker_members.specs.Held.{member_held};
ghost use Rattle.worker_ranks.specs.inner.Vertices.{AreRanks, IsFirstPlace};

use crate::close::close_graph;
use crate::turns::groups;
use bal_base::Memory;
use graphs::parts_first;
use std::alloc::Global;
use worker_members::HeldMember;

/// The first place at which a number stands.
fn place_of(order: &[usize], number: usize) -> Option<usize>
    ensures { IfSome result (IsFirstPlace order.now number) }
{
    let mut place: usize = 0;
    for other in order {
        if *other == number {
            return Some(place);
        }
        place += 1;
    }
    None
}

/// A place as a rank.
fn as_rank(place: usize) -> Result<u32, Memory>
    ensures { IfOk result (λ rank. rank ≡ place) }
{
    if place > u32::MAX as usize {
        return Err(Memory);
    }
    Ok(place as u32)
}

/// The first place of a number as its rank.
fn rank_in(order: &[usize], number: usize) -> Result<u32, Memory>
    ensures { IfOk result (IsFirstPlace order.now number) }
{
    match place_of(order, number) {
        Some(place) => as_rank(place),
        None => Err(Memory),
    }
}

/// The first place of each number up to a count, as its rank. Each costs a look at the order.
fn ranks_of(alloc: Global, order: &[usize], count: usize) -> Result<Vec<u32>, Memory>
    ensures { IfOk result (λ ranks. AreRanks order.now ranks.items count) }
{
    let mut ranks = Vec::new(alloc);
    for number in 0..count {
        let rank = rank_in(order, number)?;
        ranks.push(rank)?;
    }
    Ok(ranks)
}

/// The same, where there is an order.
fn ranks_from(
    alloc: Global,
    order: Option<Vec<usize>>,
    count: usize,
) -> Result<Option<Vec<u32>>, Memory>
    ensures some { IfOk result (λ found. IfSome found (λ ranks. IsSomeAnd order (λ o. AreRanks o.items ranks.items count))) }
    ensures none { IfOk result (λ found. IfNone found (order ≡ Absent)) }
{
    match order {
        Some(order) => {
            let ranks = ranks_of(alloc, &order, count)?;
            Ok(Some(ranks))
        }
        None => Ok(None),
    }
}

/// A rank for each event, worker by worker, so that they are a numbering; or none where there is no numbering, since events wait for one
/// another in a ring. An event costs a look at those of its worker before it, at those of the workers of which it may need some, and at
/// the order; the memory grows with the events and their needs. Wants memory alone, also where a number is past 2^32.
pub fn ranked(alloc: Global, workers: &[HeldMember<'_>]) -> Result<Option<Vec<u32>>, Memory>
    ensures long { IfOk result (λ found. IfSome found (λ ranks. length ranks.items ≡ length (in_text (map member_held workers.now)))) }
    ensures none { IfOk result (λ found. IfNone found (¬ IsOrderable (crew_of (map member_held workers.now)))) }
    ensures numbering { IfOk result (λ found. IfSome found (λ ranks. IsNumbering (crew_of (map member_held workers.now)) (rank_in_of (map member_held workers.now) ranks.items))) }
{
    let groups = groups(alloc, workers)?;
    let next = close_graph(alloc, &groups)?;
    let order = parts_first(alloc, &next)?;
    ranks_from(alloc, order, next.len())
}
