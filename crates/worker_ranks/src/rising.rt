//! Whether ranks rise.
#![tactic(auto)]

ghost use Rattle.std.specs.Prelude.{◌≡◌, ◌↔◌, IfOk, get_or, map, nat_lt, true};
ghost use Rattle.std.specs.List.{list_all};
ghost use Rattle.worker_pairing.specs.Events.{IsNumbering};
ghost use Rattle.worker_pairing.specs.Faults.{crew_of, rank_in};
ghost use Rattle.worker_members.specs.Held.{member_held};
ghost use Rattle.worker_ranks.specs.inner.Vertices.{falls_from};

use crate::close::close_graph;
use crate::turns::groups;
use bal_base::Memory;
use std::alloc::Global;
use worker_members::HeldMember;

/// The rank of a number, and 0 where it has none.
fn rank_at(ranks: &[u32], number: usize) -> u32
    ensures { result ≡ get_or ranks.now number 0 }
{
    match ranks.get(number) {
        Some(rank) => *rank,
        None => 0,
    }
}

/// Whether all of these numbers have lesser ranks than this one.
fn are_below(numbers: &[usize], ranks: &[u32], rank: u32) -> bool
    ensures { result ≡ list_all (λ t. nat_lt (get_or ranks.now t 0) rank) numbers.now }
{
    for number in numbers {
        if rank_at(ranks, *number) >= rank {
            return false;
        }
    }
    true
}

/// Whether ranks fall along each edge.
fn all_fall(next: &[Vec<usize>], ranks: &[u32]) -> bool
    ensures { result ≡ falls_from ranks.now 0 (map (λ v. v.items) next.now) }
{
    let mut number: usize = 0;
    for followed in next {
        let rank = rank_at(ranks, number);
        if !are_below(followed, ranks, rank) {
            return false;
        }
        number += 1;
    }
    true
}

/// Whether ranks, worker by worker, rise along each worker and from what an event needs to it. An event costs a look at those of its
/// worker before it, and at those of the workers of which it may need some; the memory grows with the events and their needs. Wants
/// memory alone, also where a number is past 2^32.
pub fn ranks_rise(alloc: Global, workers: &[HeldMember<'_>], ranks: &[u32]) -> Result<bool, Memory>
    ensures { IfOk result (λ b. b ≡ true ↔ IsNumbering (crew_of (map member_held workers.now)) (rank_in (map member_held workers.now) ranks.now)) }
{
    let groups = groups(alloc, workers)?;
    let next = close_graph(alloc, &groups)?;
    Ok(all_fall(&next, ranks))
}
