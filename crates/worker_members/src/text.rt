//! The events of all workers in text order.
#![tactic(auto)]

ghost use Rattle.std.specs.Prelude.{◌≡◌, ◌++◌, ◌∷◌, [], IfOk, OnOk, filter, if◌then◌else◌, map};
ghost use Rattle.worker_pairing.specs.Marks.{in_text, in_turn, numbered_from};
ghost use Rattle.worker_members.specs.Held.{member_held, members_held, numbered_held, saying_held};
ghost use Rattle.worker_members.specs.inner.Standings.{is_where};

use crate::held::{HeldMember, HeldMembers, Said};
use bal_base::Memory;
use std::alloc::Global;

/// An event, with the number of its worker and its number there.
#[derive(Clone, Copy)]
pub struct Standing<'a> {
    pub worker: u32,
    pub number: u32,
    pub said: Said<'a>,
}

/// The events of a worker, behind those that are there.
fn add_events<'a>(
    text: &mut Vec<Standing<'a>>,
    worker: u32,
    sayings: &[Said<'a>],
) -> Result<(), Memory>
    ensures { OnOk result (map numbered_held text.new.items ≡ map numbered_held text.old.items ++ numbered_from worker 0 (map saying_held sayings.now)) }
{
    let mut number: u32 = 0;
    for said in sayings {
        text.push(Standing {
            worker,
            number,
            said: *said,
        })?;
        number = number.checked_add(1).ok_or(Memory)?;
    }
    Ok(())
}

/// The events of workers, one worker behind another.
fn add_in_turn<'a>(text: &mut Vec<Standing<'a>>, named: &[HeldMember<'a>]) -> Result<(), Memory>
    ensures { OnOk result (map numbered_held text.new.items ≡ map numbered_held text.old.items ++ in_turn 1 (map member_held named.now)) }
{
    let mut worker: u32 = 1;
    for member in named {
        add_events(text, worker, &member.sayings)?;
        worker = worker.checked_add(1).ok_or(Memory)?;
    }
    Ok(())
}

/// Whether the event stands in the initial part, or else whether it stands behind it.
fn stands_where(event: Standing<'_>, first: bool) -> bool
    ensures { result ≡ is_where first (numbered_held event.entry) }
{
    if first {
        event.said.initial
    } else {
        !event.said.initial
    }
}

fn add_if<'a>(text: &mut Vec<Standing<'a>>, event: Standing<'a>, there: bool) -> Result<(), Memory>
    ensures { OnOk result (text.new.items ≡ text.old.items ++ (if there then event.entry ∷ [] else [])) }
{
    if there {
        text.push(event)?;
    }
    Ok(())
}

/// Those in the initial part, or those behind it.
fn add_where<'a>(
    text: &mut Vec<Standing<'a>>,
    events: &[Standing<'a>],
    first: bool,
) -> Result<(), Memory>
    ensures { OnOk result (map numbered_held text.new.items ≡ map numbered_held text.old.items ++ filter (is_where first) (map numbered_held events.now)) }
{
    for event in events {
        let there = stands_where(*event, first);
        add_if(text, *event, there)?;
    }
    Ok(())
}

/// The events of a default worker and named ones.
fn of_workers<'a>(
    alloc: Global,
    own: &HeldMember<'a>,
    named: &[HeldMember<'a>],
) -> Result<Vec<Standing<'a>>, Memory>
    ensures { IfOk result (λ text. map numbered_held text.items ≡ in_text (member_held own.now ∷ map member_held named.now)) }
{
    let mut events = Vec::new(alloc);
    add_events(&mut events, 0, &own.sayings)?;
    let mut text = Vec::new(alloc);
    add_where(&mut text, &events, true)?;
    add_in_turn(&mut text, named)?;
    add_where(&mut text, &events, false)?;
    Ok(text)
}

/// The events of all workers in text order: those of the initial part, those of the named workers, and then the rest of the default
/// worker's. Takes time that grows with their number. Wants memory alone, also where a number is past 2^32.
pub fn events_in_text<'a>(
    alloc: Global,
    members: &HeldMembers<'a>,
) -> Result<Vec<Standing<'a>>, Memory>
    ensures { IfOk result (λ text. map numbered_held text.items ≡ in_text (members_held members.now)) }
{
    match members.workers.split_first() {
        Some((own, named)) => of_workers(alloc, own, named),
        None => Ok(Vec::new(alloc)),
    }
}
