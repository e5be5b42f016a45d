//! What a store at a place of a list makes, before anything is changed.
ghost use Rattle.std.specs.Prelude.{◌≡◌, ◌≤◌, ◌<◌, ◌^◌, ◌-◌, IfOk, length};
ghost use Rattle.op_model.specs.Limits.{most_cells};
ghost use Rattle.op_model.specs.Rows as rows;
ghost use Rattle.plain_run.specs.Held.{structure_of, world_of};
ghost use Rattle.plain_stores.specs.Changes as changes;

use crate::filling::values_of;
use crate::made::{depth_for, made_for, structures};
use crate::room::has_room;
use bal_base::Memory;
use plain_run::{MOST_CELLS, Members, ProgramFacts, Structure, World};
use std::alloc::Global;
use store_tests::{fillers_from, fillers_of, push_new};
use value_model::{Filler, Value};

/// What a store makes: what fills the gap, and the structures that are made for it.
#[derive(Drop)]
pub(crate) struct Making {
    pub(crate) gap: Vec<Value>,
    pub(crate) more: Vec<Structure>,
}

/// What is known before a store.
#[derive(Drop)]
pub(crate) enum Prepared {
    /// There is no such list.
    Absent,
    /// The heap would have too many cells.
    Passes,
    /// There is room, and this is made.
    Makes(Making),
}

/// How many items there are behind a store.
fn size_behind(size: usize, place: usize, gap: &[Value]) -> u64
    requires { size < 2 ^ 63 }
    ensures { result ≡ changes.size_behind size place (length gap.now) }
{
    if place < size {
        return size as u64;
    }
    size as u64 + gap.len() as u64 + 1
}

/// The number of the next structure.
fn next_structure(world: &World) -> Result<u32, Memory>
    ensures { IfOk result (λ n. n ≡ rows.next_structure (world_of world.now)) }
{
    let next = world.heap.structures.len();
    if next > u32::MAX as usize {
        return Err(Memory);
    }
    Ok(next as u32)
}

/// What was taken of the room of a heap.
fn taken(left: u64) -> u64
    ensures value { result ≡ most_cells - left }
    ensures bound { result ≤ most_cells }
{
    if left > MOST_CELLS {
        0
    } else {
        MOST_CELLS - left
    }
}

/// The structures that are made for fillers, where those that are made for the members of the first ones are numbered from
/// one on, and there is room for them and for a structure that was so great and gets so many members.
fn structures_for(
    alloc: Global,
    facts: &ProgramFacts<'_>,
    world: &World,
    greatest: u64,
    size: u64,
    gap: &[Filler],
    first: u32,
) -> Result<Option<Vec<Structure>>, Memory>
    ensures { IfOk result (changes.AreFor facts.now (world_of world.now) greatest size gap.now first) }
{
    let mut roots = Vec::new(alloc);
    push_new(&mut roots, gap)?;
    let depth = depth_for(facts, roots.as_slice());
    match made_for(alloc, facts, roots, depth)? {
        None => Ok(None),
        Some(made) => {
            if !has_room(&world.heap, greatest, size, taken(made.left)) {
                return Ok(None);
            }
            let more = structures(alloc, facts, first, made.fillers.as_slice())?;
            Ok(Some(more))
        }
    }
}

/// What a store at a place of a list of so many items makes.
fn makes(
    alloc: Global,
    facts: &ProgramFacts<'_>,
    world: &World,
    s: &Structure,
    size: usize,
    place: usize,
) -> Result<Prepared, Memory>
    requires { size < 2 ^ 63 }
    ensures { IfOk result (changes.IsMaking facts.now (world_of world.now) (structure_of s.now) size place) }
{
    let gap = fillers_from(alloc, fillers_of(facts, s.atom), size, place)?;
    let next = next_structure(world)?;
    let inside = values_of(alloc, next, gap.as_slice())?;
    let behind = size_behind(size, place, inside.values.as_slice());
    match structures_for(
        alloc,
        facts,
        world,
        s.greatest,
        behind,
        gap.as_slice(),
        inside.next,
    )? {
        None => Ok(Prepared::Passes),
        Some(more) => Ok(Prepared::Makes(Making {
            gap: inside.values,
            more,
        })),
    }
}

/// The same where the structure is a list.
fn prepares_list(
    alloc: Global,
    facts: &ProgramFacts<'_>,
    world: &World,
    s: &Structure,
    place: usize,
) -> Result<Prepared, Memory>
    ensures { IfOk result (changes.ListIsPrepared facts.now (world_of world.now) (structure_of s.now) place) }
{
    match &s.members {
        Members::Items(items) => makes(alloc, facts, world, s, items.len(), place),
        Members::Entries(_) => Ok(Prepared::Absent),
    }
}

/// What a store at a place of the list with this number makes.
pub(crate) fn prepares(
    alloc: Global,
    facts: &ProgramFacts<'_>,
    world: &World,
    n: u32,
    place: usize,
) -> Result<Prepared, Memory>
    ensures { IfOk result (changes.IsPrepared facts.now (world_of world.now) n place) }
{
    match world.heap.structures.get(n as usize) {
        None => Ok(Prepared::Absent),
        Some(s) => prepares_list(alloc, facts, world, s, place),
    }
}
