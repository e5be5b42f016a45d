//! `l.push(v, ..)`.
ghost use Rattle.std.specs.Prelude.{◌≡◌, IfOk, OnOk, map, if◌then◌else◌};
ghost use Rattle.operations.specs.declared.library.LibraryCall.TheVariants as call;
ghost use Rattle.op_model.specs.ProgramFacts.{own_types};
ghost use Rattle.op_model.specs.Library.{Pushes};
ghost use Rattle.op_model.specs.Rows as rows;
ghost use Rattle.plain_run.specs.ProgramFacts.{facts_of};
ghost use Rattle.plain_run.specs.Held.{structure_of, world_of};
ghost use Rattle.plain_structures.specs.Rows.{IsCalledBy, IsTried, TriedStays};
ghost use Rattle.plain_stores.specs.Changes as changes;
ghost use Rattle.plain_stores.specs.Questions.{PushIsBeyond, PushesAreBeyond};

use crate::items::stores_at;
use crate::writing::take_back;
use bal_base::Memory;
use plain_run::{Came, Heap, Members, ProgramFacts, Structure, World};
use plain_structures::Tried;
use std::alloc::Global;
use value_model::Value;

/// How long a list is, and how great it was.
#[derive(Clone, Copy)]
pub(crate) struct End {
    pub(crate) size: usize,
    pub(crate) greatest: u64,
}

fn list_end(s: &Structure) -> Option<End>
    ensures { changes.ListIsEnd (structure_of s.now) result }
{
    match &s.members {
        Members::Items(items) => Some(End {
            size: items.len(),
            greatest: s.greatest,
        }),
        Members::Entries(_) => None,
    }
}

/// The end of the list with this number, where it is one.
fn end_of(world: &World, n: u32) -> Option<End>
    ensures { changes.IsEnd (world_of world.now) n result }
{
    match world.heap.structures.get(n as usize) {
        None => None,
        Some(s) => list_end(s),
    }
}

fn has_given(tried: &Tried) -> bool
    ensures { result ≡ changes.has_given tried.now }
{
    match tried {
        Tried::Came(came) => match came {
            Came::Gave(_) => true,
            Came::Threw(_) | Came::PassesCells => false,
        },
        Tried::Stuck | Tried::Undecided => false,
    }
}

fn is_undone(tried: &Tried) -> bool
    ensures { result ≡ changes.is_undone tried.now }
{
    match tried {
        Tried::Came(came) => match came {
            Came::PassesCells => true,
            Came::Gave(_) | Came::Threw(_) => false,
        },
        Tried::Stuck | Tried::Undecided => true,
    }
}

/// Where what came behind a push left all as it was, the push is taken back.
fn undo_unless_done(
    alloc: Global,
    world: &mut World,
    n: u32,
    greatest: u64,
    behind: &Tried,
) -> Result<(), Memory>
    ensures { OnOk result (world_of world.new ≡ (if changes.is_undone behind.now then rows.with_structures (world_of world.old) (changes.changed_at (changes.taken_back greatest) (map structure_of world.old.heap.structures) n) else world_of world.old)) }
{
    if is_undone(behind) {
        take_back(alloc, &mut world.heap.structures, n, greatest)?;
    }
    Ok(())
}

/// Stores these behind the last item of the list with this number, one after the other. Where one of them passes the cells
/// or isn't told, all are taken back.
fn pushes(
    alloc: Global,
    facts: &ProgramFacts<'_>,
    world: &mut World,
    n: u32,
    values: &[Value],
) -> Result<Tried, Memory>
    ensures row { IfOk result (IsTried (Pushes (own_types (facts_of facts.now)) n values.now (world_of world.old)) (PushesAreBeyond facts.now n values.now world.old) world.new) }
    ensures stays { IfOk result (TriedStays world.old world.new) }
{
    match values {
        [] => Ok(Tried::Came(Came::Gave(Some(Value::Nil)))),
        [v, rest @ ..] => {
            let end = match end_of(world, n) {
                None => return Ok(Tried::Stuck),
                Some(end) => end,
            };
            let first = stores_at(alloc, facts, world, n, end.size, v)?;
            if !has_given(&first) {
                return Ok(first);
            }
            let behind = pushes(alloc, facts, world, n, rest)?;
            undo_unless_done(alloc, world, n, end.greatest, &behind)?;
            Ok(behind)
        }
    }
}

/// `l.push(v, ..)`: each value is stored behind the last item, one after the other, with the panics of a store. Where one
/// passes the cells, or isn't told (`PushIsBeyond`), nothing is stored.
pub fn push(
    alloc: Global,
    facts: &ProgramFacts<'_>,
    operands: &[Value],
    world: &mut World,
) -> Result<Tried, Memory>
    ensures row { IfOk result (IsCalledBy facts.now call.Push operands.now (PushIsBeyond facts.now operands.now world.old) world.old world.new) }
    ensures stays { IfOk result (TriedStays world.old world.new) }
{
    match operands {
        [Value::Struct(n), values @ ..] => pushes(alloc, facts, world, *n, values),
        _ => Ok(Tried::Stuck),
    }
}
