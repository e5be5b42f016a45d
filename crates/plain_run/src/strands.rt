//! Who becomes ready, and how strands and workers stand from then on.
#![tactic(auto, using(crate::proofs::Settling::settling))]

ghost use Rattle.std.specs.Prelude.{◌≡◌, ◌++◌, OnOk, Some, map, option_map, slice_set};
ghost use Rattle.op_model.specs.Strands as model;
ghost use Rattle.plain_run.specs.Held.{activation_of, common_of, end_of as end_held, need_of, role_of, strand_of};
ghost use Rattle.plain_run.specs.Blocked.{listed_if};
ghost use Rattle.plain_run.specs.Strands.{all_woken, ends_so, woken_among};

use crate::held::{Activation, Common, End, Need, Role, Status};
use crate::needs::is_met;
use crate::strand_list::Strands;
use bal_base::Memory;
use std::alloc::Global;

/// Whether the strand with this number wakes.
fn wakes(common: &Common, n: u64) -> bool
    ensures { result ≡ model.wakes (common_of common.now) (model.strand_at (common_of common.now) n).status }
{
    match common.strands.get(n as usize) {
        None => false,
        Some(strand) => match &strand.status {
            Status::Active | Status::Ended(_, _) => false,
            Status::Blocked(need) => is_met(common, need),
        },
    }
}

/// The number, where it is to be listed, behind the others.
fn push_if(numbers: &mut Vec<u64>, listed: bool, n: u64) -> Result<(), Memory>
    ensures { OnOk result (numbers.new.items ≡ numbers.old.items ++ listed_if listed n) }
{
    if listed {
        numbers.push(n)?;
    }
    Ok(())
}

/// Of the strands with these numbers, those that wake.
fn list_woken(woken: &mut Vec<u64>, common: &Common, numbers: &[u64]) -> Result<(), Memory>
    ensures { OnOk result (woken.new.items ≡ woken.old.items ++ woken_among (common_of common.now) numbers.now) }
{
    for n in numbers {
        push_if(woken, wakes(common, *n), *n)?;
    }
    Ok(())
}

/// These strands are active.
fn wake(strands: &mut Strands, numbers: &[u64]) -> Result<(), Memory>
    ensures { OnOk result (map strand_of strands.new ≡ all_woken numbers.now (map strand_of strands.old)) }
{
    for n in numbers {
        strands.set_status(*n, Status::Active)?;
    }
    Ok(())
}

/// These numbers behind the others.
fn add_all(numbers: &mut Vec<u64>, more: &[u64]) -> Result<(), Memory>
    ensures { OnOk result (numbers.new.items ≡ numbers.old.items ++ more.now) }
{
    for n in more {
        numbers.push(*n)?;
    }
    Ok(())
}

/// The blocked strands whose needs are met by now are ready, by rising number. Looks at those that are blocked alone.
pub fn settle(alloc: Global, common: &mut Common) -> Result<(), Memory>
    ensures { OnOk result (common_of common.new ≡ model.settled (common_of common.old)) }
{
    let mut woken = Vec::new(alloc);
    list_woken(&mut woken, common, common.strands.blocked())?;
    wake(&mut common.strands, woken.as_slice())?;
    add_all(&mut common.ready, woken.as_slice())
}

/// The running strand has stopped, for a need.
pub fn block(common: &mut Common, need: Need) -> Result<(), Memory>
    ensures { OnOk result (common_of common.new ≡ model.strand_blocked (need_of need) (common_of common.old)) }
{
    common
        .strands
        .set_status(common.running, Status::Blocked(need))
}

/// The running strand has ended.
pub fn end_strand(common: &mut Common, end: End) -> Result<(), Memory>
    ensures { OnOk result (common_of common.new ≡ model.strand_ended (end_held end) (common_of common.old)) }
{
    let place = common.strands.ended();
    common
        .strands
        .set_status(common.running, Status::Ended(place, end))
}

/// The worker with this number has ended so.
fn set_end(ends: &mut Vec<Option<End>>, worker: u64, end: End)
    ensures { map (option_map end_held) ends.new.items ≡ slice_set (map (option_map end_held) ends.old.items) worker (Some (end_held end)) }
{
    if let Some(place) = ends.get_mut(worker as usize) {
        *place = Some(end);
    }
}

/// The worker of this activation has ended so.
fn set_worker_end(activations: &mut Vec<Activation>, role: Role, end: End)
    ensures { map activation_of activations.new.items ≡ ends_so (map activation_of activations.old.items) (role_of role) (end_held end) }
{
    if let Some(a) = activations.get_mut(role.activation as usize) {
        set_end(&mut a.ends, role.worker, end);
    }
}

/// A worker has ended, where the frame was one.
pub fn end_worker(common: &mut Common, role: Option<Role>, end: End)
    ensures { common_of common.new ≡ model.worker_ended (end_held end) (option_map role_of role) (common_of common.old) }
{
    match role {
        None => (),
        Some(role) => set_worker_end(&mut common.activations, role, end),
    }
}
