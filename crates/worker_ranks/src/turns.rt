//! The events of each worker as vertices, one worker behind another.
#![tactic(auto)]

ghost use Rattle.std.specs.Prelude.{◌≡◌, ◌++◌, IfOk, OnOk, map};
ghost use Rattle.worker_pairing.specs.Marks.{numbered_from};
ghost use Rattle.worker_members.specs.Held.{member_held, numbered_held, saying_held};
ghost use Rattle.worker_ranks.specs.inner.Vertices.{vertex_held, vertex_of};
ghost use Rattle.worker_ranks.specs.inner.Turned.{groups_held, turned_from};

use crate::nodes::{Node, nodes};
use bal_base::Memory;
use std::alloc::Global;
use worker_members::{HeldMember, Said, Standing};

/// The events of a worker, behind those that are there.
fn add_events<'a>(
    events: &mut Vec<Standing<'a>>,
    worker: u32,
    sayings: &[Said<'a>],
) -> Result<(), Memory>
    ensures { OnOk result (map numbered_held events.new.items ≡ map numbered_held events.old.items ++ numbered_from worker 0 (map saying_held sayings.now)) }
{
    let mut number: u32 = 0;
    for said in sayings {
        events.push(Standing {
            worker,
            number,
            said: *said,
        })?;
        number = number.checked_add(1).ok_or(Memory)?;
    }
    Ok(())
}

/// The events of a worker.
fn events_of<'a>(
    alloc: Global,
    worker: u32,
    sayings: &[Said<'a>],
) -> Result<Vec<Standing<'a>>, Memory>
    ensures { IfOk result (λ events. map numbered_held events.items ≡ numbered_from worker 0 (map saying_held sayings.now)) }
{
    let mut events = Vec::new(alloc);
    add_events(&mut events, worker, sayings)?;
    Ok(events)
}

/// The same as vertices.
fn group<'a>(
    alloc: Global,
    workers: &[HeldMember<'_>],
    worker: u32,
    sayings: &[Said<'a>],
) -> Result<Vec<Node<'a>>, Memory>
    ensures { IfOk result (λ group. map vertex_held group.items ≡ map (vertex_of (map member_held workers.now)) (numbered_from worker 0 (map saying_held sayings.now))) }
{
    let events = events_of(alloc, worker, sayings)?;
    nodes(alloc, workers, &events)
}

/// The vertices of each worker, the default one first. Wants memory alone, also where a number is past 2^32.
pub(crate) fn groups<'a>(
    alloc: Global,
    workers: &[HeldMember<'a>],
) -> Result<Vec<Vec<Node<'a>>>, Memory>
    ensures { IfOk result (λ groups. groups_held groups.items ≡ turned_from (map member_held workers.now) 0 (map member_held workers.now)) }
{
    let mut groups = Vec::new(alloc);
    let mut worker: u32 = 0;
    for member in workers {
        let group = group(alloc, workers, worker, &member.sayings)?;
        groups.push(group)?;
        worker = worker.checked_add(1).ok_or(Memory)?;
    }
    Ok(groups)
}
