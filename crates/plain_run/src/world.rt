//! The heap's room, and panics.
ghost use Rattle.std.specs.Prelude.{◌≡◌, ◌+◌, ◌≤◌, ℕ, IfOk, nat_le};
ghost use Rattle.value_model.specs.Heap.{cells};
ghost use Rattle.op_model.specs.Limits.{most_cells};
ghost use Rattle.op_model.specs.Rows as rows;
ghost use Rattle.plain_run.specs.Held.{heap_of, world_of};
ghost use Rattle.plain_run.specs.Came.{IsErrorMade, IsLeft, WorldStays, came_of};

use crate::entries::Entries;
use crate::held::{ErrorObject, Heap, Members, Structure, World};
use bal_base::{Memory, Text};
use std::alloc::Global;
use value_model::{PanicName, Value};

/// What an operation on the world comes to.
#[derive(Drop)]
pub enum Came {
    /// It gives nothing or one value.
    Gave(Option<Value>),
    /// It panics with this error.
    Threw(Value),
    /// It would take more cells than a heap may have.
    PassesCells,
}

/// What is left of a room when one cell more than so many are taken, or that they aren't there.
pub fn left_beside(left: Option<u64>, most: u64) -> Option<u64>
    ensures { (room taken : ℕ) → IsLeft room taken left → IsLeft room (taken + (most + 1)) result }
{
    match left {
        None => None,
        Some(some) => {
            if most < some {
                Some(some - most - 1)
            } else {
                None
            }
        }
    }
}

/// What so many cells leave of a room of which so much is left.
fn left_after(left: Option<u64>, cells: u64) -> Option<u64>
    ensures { (room taken : ℕ) → IsLeft room taken left → IsLeft room (taken + cells) result }
{
    match left {
        None => None,
        Some(some) => some.checked_sub(cells),
    }
}

/// The most cells of a heap.
pub const MOST_CELLS: u64 = 33_554_432;

/// Whether so many errors and so many cells more fit in what is left.
fn fits(left: Option<u64>, errors: u64, more: u64) -> bool
    ensures { (taken : ℕ) → IsLeft most_cells taken left → result ≡ nat_le (taken + errors + more) most_cells }
{
    match left {
        None => false,
        Some(room) => more <= room && errors <= room - more,
    }
}

/// Whether the heap may have so many cells more. Looks at none of what it has.
fn has_room(heap: &Heap, more: u64) -> bool
    ensures { result ≡ nat_le (cells (heap_of heap.now) + more) most_cells }
{
    let left = left_after(Some(MOST_CELLS), heap.structures.cells());
    let left = left_after(left, heap.functions.cells());
    fits(left, heap.errors.as_slice().len() as u64, more)
}

/// Whether the heap may have a cell for each of so many members more, and some beside them.
#[tactic(auto, using(crate::proofs::Cells::too_many))]
pub fn has_room_for(heap: &Heap, members: u64, beside: u64) -> bool
    requires { beside ≤ 2 }
    ensures { result ≡ nat_le (cells (heap_of heap.now) + (members + beside)) most_cells }
{
    if members > MOST_CELLS {
        return false;
    }
    has_room(heap, members + beside)
}

/// Makes an error and its detail, where there is room for them, and gives the error's number.
pub fn make_error(
    world: &mut World,
    message: Text,
    cause: Option<u32>,
    details: Entries,
) -> Result<Option<u32>, Memory>
    ensures { IfOk result (IsErrorMade (world_of world.old) message cause details (world_of world.new)) }
{
    let greatest = details.len() as u64;
    if !has_room_for(&world.heap, greatest, 2) {
        return Ok(None);
    }
    let detail = world.heap.structures.len() as u32;
    let number = world.heap.errors.as_slice().len() as u32;
    world.heap.structures.push(Structure {
        atom: None,
        mutable: false,
        members: Members::Entries(details),
        greatest,
    })?;
    world.heap.errors.push(ErrorObject {
        message,
        cause,
        detail,
    })?;
    Ok(Some(number))
}

/// Panics with an error of this name.
pub fn panics(alloc: Global, world: &mut World, name: PanicName) -> Result<Came, Memory>
    ensures row { IfOk result (λ came. came_of came world.new ≡ rows.panics (world_of world.old) name) }
    ensures stays { IfOk result (WorldStays world.old world.new) }
{
    let message = Text::new(alloc, name.message())?;
    match make_error(world, message, None, Entries::new(alloc))? {
        Some(number) => Ok(Came::Threw(Value::Error(number))),
        None => Ok(Came::PassesCells),
    }
}
