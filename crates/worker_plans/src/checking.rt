//! Whether a plan is one of these workers.
#![tactic(auto)]

ghost use Rattle.std.specs.Prelude.{◌≡◌, ◌↔◌, ◌<◌, IfOk, get_or, length, map, true};
ghost use Rattle.typed_tree.specs.declared.event.Pair.{Pair as PairOf};
ghost use Rattle.worker_pairing.specs.Faults.{IsPlan, pairs_of};
ghost use Rattle.worker_pairing.specs.Marks.{in_text, members_of};
ghost use Rattle.worker_members.specs.Held.{members_held, numbered_held};
ghost use Rattle.worker_plans.specs.Sends.{IsNumbered, same_event as same_event_of, same_pair as same_pair_of};

use crate::pairs::pairs;
use crate::plans::{Seen, gathered};
use bal_base::{Event, Memory};
use std::alloc::Global;
use typed_tree::{Pair, Plan, TypedFunction};
use worker_ranks::ranks_rise;

fn same_event(a: Event, b: Event) -> bool
    ensures { result ≡ same_event_of a b }
{
    a.worker == b.worker && a.number == b.number && a.at.file == b.at.file && a.at.at == b.at.at
}

fn same_pair(a: Pair, b: Pair) -> bool
    ensures { result ≡ same_pair_of a b }
{
    same_event(a.send, b.send) && same_event(a.receive, b.receive)
}

/// Whether the pairs at this place are the same.
fn same_at(a: &[Pair], b: &[Pair], i: usize) -> bool
    requires first { i < length a.now }
    requires second { i < length b.now }
    ensures { (d : PairOf) → result ≡ same_pair_of (get_or a.now i d) (get_or b.now i d) }
{
    same_pair(a[i], b[i])
}

/// Whether these are the same pairs, in the same order.
fn same_pairs(a: &[Pair], b: &[Pair]) -> bool
    ensures { result ≡ true ↔ a.now ≡ b.now }
{
    if a.len() != b.len() {
        return false;
    }
    for i in 0..a.len() {
        if !same_at(a, b, i) {
            return false;
        }
    }
    true
}

/// Whether these are the pairs.
fn has_pairs(alloc: Global, found: &Seen<'_>, given: &[Pair]) -> Result<bool, Memory>
    requires { map numbered_held found.now.text.items ≡ in_text (members_held found.now.members) }
    ensures { IfOk result (λ b. b ≡ true ↔ given.now ≡ pairs_of (members_held found.now.members)) }
{
    let due = pairs(alloc, &found.members, &found.text)?;
    Ok(same_pairs(given, &due))
}

/// Whether there is a rank for each event, and ranks rise.
fn has_numbering(alloc: Global, found: &Seen<'_>, ranks: &[u32]) -> Result<bool, Memory>
    requires { map numbered_held found.now.text.items ≡ in_text (members_held found.now.members) }
    ensures { IfOk result (λ b. b ≡ true ↔ IsNumbered (members_held found.now.members) ranks.now) }
{
    if ranks.len() != found.text.len() {
        return Ok(false);
    }
    ranks_rise(alloc, &found.members.workers, ranks)
}

/// The same of what pairing sees of a function.
fn is_plan_of(alloc: Global, found: &Seen<'_>, plan: &Plan) -> Result<bool, Memory>
    requires { map numbered_held found.now.text.items ≡ in_text (members_held found.now.members) }
    ensures { IfOk result (λ b. b ≡ true ↔ IsPlan (members_held found.now.members) plan.now) }
{
    let paired = has_pairs(alloc, found, plan.pairs.as_slice())?;
    let numbered = has_numbering(alloc, found, plan.ranks.as_slice())?;
    Ok(paired && numbered)
}

/// Whether the plan has just the pairs of the function's messages, in text order of the sends, and a rank for each of its events, worker
/// by worker, so that ranks rise along each worker and from what an event needs to it. Takes time that grows with the nodes of the
/// function and the square of its events. Wants memory alone.
pub fn check_plan(alloc: Global, f: &TypedFunction, plan: &Plan) -> Result<bool, Memory>
    ensures { IfOk result (λ b. b ≡ true ↔ IsPlan (members_of f.now) plan.now) }
{
    let found = gathered(alloc, f)?;
    is_plan_of(alloc, &found, plan)
}
