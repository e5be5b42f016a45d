//! Whether a plan is one of a function's workers.
#![tactic(auto)]

ghost use Rattle.std.specs.Prelude.{◌↔◌, IsTrue};
ghost use Rattle.worker_pairing.specs.Faults.{IsPlan};
ghost use Rattle.worker_pairing.specs.Marks.{members_of};
ghost use Rattle.worker_plans.specs.Sends.{IsNumbered};

use crate::counts::has_as_many;
use crate::needs::needs_fall;
use crate::pairs::pairs_match;
use crate::ranks::ranks_rise;
use typed_tree::{Plan, TypedFunction};

/// Whether there is a rank for each event, and ranks rise along workers and from needs.
fn is_numbered(f: &TypedFunction, ranks: &[u32]) -> bool
    ensures { IsTrue result ↔ IsNumbered (members_of f.now) ranks.now }
{
    if !has_as_many(f, ranks.len()) {
        return false;
    }
    if !ranks_rise(f, ranks) {
        return false;
    }
    needs_fall(f, ranks)
}

/// Whether the plan has just the pairs of the function's messages, in text order of the sends, and a rank for each of its events, worker
/// by worker, so that ranks rise along each worker and from what an event needs to it. Takes no memory. Each event is looked for in the
/// tree anew, so the time grows with the product of the function's events and its nodes, and where an event waits for several workers,
/// with these too.
pub fn check_plan(f: &TypedFunction, plan: &Plan) -> bool
    ensures { IsTrue result ↔ IsPlan (members_of f.now) plan.now }
{
    if !is_numbered(f, plan.ranks.as_slice()) {
        return false;
    }
    pairs_match(f, plan.pairs.as_slice(), plan.ranks.as_slice().len())
}
