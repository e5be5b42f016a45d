//! The room that a store takes.
ghost use Rattle.std.specs.Prelude.{◌≡◌, ◌+◌, ◌-◌, ◌≤◌, nat_le};
ghost use Rattle.value_model.specs.Heap.{cells};
ghost use Rattle.op_model.specs.Limits.{most_cells};
ghost use Rattle.plain_run.specs.Held.{heap_of};

use plain_run::{Heap, MOST_CELLS, has_room_for};

/// How much more it is.
fn beyond(size: u64, greatest: u64) -> u64
    ensures { result ≡ size - greatest }
{
    if size > greatest { size - greatest } else { 0 }
}

/// Whether there is room for a structure that was so great so far and gets so many members, and for so many cells more.
#[tactic(auto, using(plain_run::proofs::Cells::too_many))]
pub fn has_room(heap: &Heap, greatest: u64, size: u64, more: u64) -> bool
    requires { more ≤ most_cells }
    ensures { result ≡ nat_le (cells (heap_of heap.now) + ((size - greatest) + more)) most_cells }
{
    let grown = beyond(size, greatest);
    if grown > MOST_CELLS {
        return false;
    }
    has_room_for(heap, grown + more, 0)
}
