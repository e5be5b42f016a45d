//! Structures that are made together, and the cells that they take.
#![tactic(auto, using(crate::proofs::Sums::sums))]

ghost use Rattle.std.specs.Prelude.{◌≡◌, ◌++◌, ◌+◌, IfOk, OnOk, map, nat_le, ℕ};
ghost use Rattle.std.specs.List.{sum_by};
ghost use Rattle.value_model.specs.Heap.{cells};
ghost use Rattle.op_model.specs.Limits.{most_cells};
ghost use Rattle.op_model.specs.Rows.{makes};
ghost use Rattle.plain_run.specs.Held.{heap_of, structure_of, world_of};
ghost use Rattle.plain_copies.specs.Copied.{IsSum};

use bal_base::Memory;
use plain_run::{Heap, Structure, World, has_room_for};

/// A sum, where it fits.
fn more_cells(left: Option<u64>, greatest: u64) -> Option<u64>
    ensures { (n : ℕ) → IsSum n left → IsSum (greatest + 1 + n) result }
{
    match left {
        None => None,
        Some(some) => match some.checked_add(greatest) {
            None => None,
            Some(sum) => sum.checked_add(1),
        },
    }
}

/// How many cells the structures take, where a `u64` has it.
pub fn cells_of(structures: &[Structure]) -> Option<u64>
    ensures { IsSum (sum_by (λ s. s.greatest + 1) structures.now) result }
{
    let mut sum = Some(0);
    for s in structures {
        sum = more_cells(sum, s.greatest);
    }
    sum
}

/// Whether there is room for the structures.
pub(crate) fn has_room_for_all(heap: &Heap, structures: &[Structure]) -> bool
    ensures { result ≡ nat_le (cells (heap_of heap.now) + sum_by (λ s. s.greatest + 1) structures.now) most_cells }
{
    match cells_of(structures) {
        None => false,
        Some(count) => has_room_for(heap, count, 0),
    }
}

/// The structures are made, behind those that are there.
pub fn make_all(world: &mut World, structures: Vec<Structure>) -> Result<(), Memory>
    ensures { OnOk result (world_of world.new ≡ makes (world_of world.old) (map structure_of structures.items)) }
{
    let mut structures = structures;
    world.heap.structures.append(&mut structures)?;
    Ok(())
}
