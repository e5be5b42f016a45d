//! The maps of a package.

ghost use Rattle.std.specs.Prelude.{◌≡◌, IfOk, OnOk, flat_map, map, slice_get};
ghost use Rattle.std.specs.List.{AllZip};
ghost use Rattle.package_units.specs.Held.{tree_of};
ghost use Rattle.map_model.specs.Whole.{IsMapOf, package_points};
ghost use Rattle.map_traces.specs.Events.{known_of};
ghost use Rattle.code_maps.specs.Given.{Adds, AreMapsOf, crew_in, known_by, noted_count, plain_of, tree_points};

use crate::plain::{Plain, plain_types};
use crate::player::{Player, fresh};
use crate::room::{MOST_ENTRIES, Room};
use crate::units::{traced, unit};
use bal_base::Memory;
use lower_stmt::Body;
use map_traces::Around;
use package_units::{HeldUnit, units};
use stack_code::StackMap;
use std::alloc::Global;
use typed_tree::TypedPackage;
use unit_crews::{Crews, count_of, find_crews};

/// A package, with the types that its maps need to know beside it.
#[derive(Clone, Copy)]
struct Whole<'a> {
    plain: &'a Plain,
    tree: &'a TypedPackage,
}

/// The number that was noted for a worker.
fn noted(crews: &Crews, number: u32) -> Result<usize, Memory>
    ensures { IfOk result (λ n. n ≡ noted_count (slice_get crews.now.counts.items number)) }
{
    match crews.counts.get(number as usize) {
        Some(Some(count)) => Ok(*count),
        Some(None) | None => Err(Memory),
    }
}

/// How many workers there are where a unit stands.
fn workers_in(crews: &Crews, held: HeldUnit<'_>) -> Result<usize, Memory>
    ensures { IfOk result (λ n. n ≡ crew_in crews.now.counts.items (tree_of held.entry)) }
{
    match held.body {
        Body::Function(b) => count_of(b),
        Body::Worker(_) => noted(crews, held.unit.number),
        Body::Anonymous(_) | Body::Initialiser(_) => Ok(0),
    }
}

/// The types that are known where a unit stands.
fn around<'a>(whole: Whole<'a>, held: HeldUnit<'a>) -> Around<'a>
    ensures { known_of result ≡ known_by (plain_of whole.entry.plain.now) whole.entry.tree.now (tree_of held.entry) }
{
    Around {
        boolean: &whole.plain.boolean,
        int: &whole.plain.int,
        string: &whole.plain.string,
        slots: held.unit.slots.as_slice(),
        variables: &whole.tree.variables,
    }
}

/// Room for the maps of a unit.
fn room_for<'a>(
    room: &mut Room,
    alloc: Global,
    whole: Whole<'a>,
    crews: &Crews,
    held: HeldUnit<'a>,
) -> Result<(), Memory> {
    let workers = workers_in(crews, held)?;
    let trace = traced(alloc, around(whole, held), held.body)?;
    room.take(&trace.events, workers)
}

/// Room for all maps.
fn room<'a>(
    alloc: Global,
    whole: Whole<'a>,
    crews: &Crews,
    us: &[HeldUnit<'a>],
) -> Result<(), Memory> {
    let mut room = Room { left: MOST_ENTRIES };
    for u in us {
        room_for(&mut room, alloc, whole, crews, *u)?;
    }
    Ok(())
}

/// The maps of a unit where it stands.
fn play<'a>(
    player: &mut Player<'a>,
    alloc: Global,
    whole: Whole<'a>,
    crews: &Crews,
    held: HeldUnit<'a>,
) -> Result<(), Memory>
    ensures { OnOk result (Adds (tree_points (plain_of whole.entry.plain.now) whole.entry.tree.now crews.now.counts.items (tree_of held.entry)) player.old player.new) }
{
    let workers = workers_in(crews, held)?;
    unit(player, alloc, around(whole, held), held.body, workers)?;
    Ok(())
}

/// The maps of units, one after another.
fn play_all<'a>(
    player: &mut Player<'a>,
    alloc: Global,
    whole: Whole<'a>,
    crews: &Crews,
    us: &[HeldUnit<'a>],
) -> Result<(), Memory>
    ensures { OnOk result (Adds (flat_map (tree_points (plain_of whole.entry.plain.now) whole.entry.tree.now crews.now.counts.items) (map tree_of us.now)) player.old player.new) }
{
    for u in us {
        play(player, alloc, whole, crews, *u)?;
    }
    Ok(())
}

/// The maps of units, where there is room for them.
fn maps<'a>(
    alloc: Global,
    whole: Whole<'a>,
    crews: &Crews,
    us: &[HeldUnit<'a>],
) -> Result<Vec<StackMap>, Memory>
    ensures { IfOk result (λ ms. AllZip IsMapOf ms.items (flat_map (tree_points (plain_of whole.entry.plain.now) whole.entry.tree.now crews.now.counts.items) (map tree_of us.now))) }
{
    room(alloc, whole, crews, us)?;
    let mut player = fresh(alloc);
    play_all(&mut player, alloc, whole, crews, us)?;
    Ok(player.maps)
}

/// The maps of a package, over these types.
pub fn package_maps<'a>(
    alloc: Global,
    plain: &'a Plain,
    package: &'a TypedPackage,
) -> Result<Vec<StackMap>, Memory>
    ensures { IfOk result (λ ms. AllZip IsMapOf ms.items (package_points (plain_of plain.now) «package».now)) }
{
    let us = units(alloc, package)?;
    let crews = find_crews(alloc, package)?;
    let whole = Whole {
        plain,
        tree: package,
    };
    maps(alloc, whole, &crews, &us)
}

/// The maps of a package: for each place of its code, in order, the types of the operands, and in workers the numbers of messages. It
/// answers want of memory also where they hold more than [`MOST_ENTRIES`] of these, before anything is copied, and for trees that no
/// checker gives: where units don't have the numbers from 0 on. The time grows with the nodes of the tree and with what the maps hold.
pub fn maps_of(alloc: Global, package: &TypedPackage) -> Result<Vec<StackMap>, Memory>
    ensures { IfOk result (λ ms. AreMapsOf «package».now ms.items) }
{
    let plain = plain_types(alloc)?;
    package_maps(alloc, &plain, package)
}
