//! Removals that are done.
ghost use Rattle.std.specs.Prelude.{◌≡◌, ◌<◌, [], IfOk, OnOk, Some, length, slice_get};
ghost use Rattle.value_model.specs.Heap.{Structure as ModelStructure};
ghost use Rattle.op_model.specs.Stores as stores;
ghost use Rattle.plain_run.specs.Held.{members_of, structure_of, world_of};
ghost use Rattle.plain_structures.specs.Rows.{TriedStays};
ghost use Rattle.plain_removals.specs.Removals.{IsDone};

use crate::removal::Removal;
use bal_base::Memory;
use plain_run::{Came, Members, Structure, World, panics, size_of};
use plain_structures::Tried;
use std::alloc::Global;

/// The structure with these members.
fn with_members(s: &Structure, members: Members) -> Structure
    ensures { structure_of result ≡ stores.with_members (structure_of s.now) (members_of members) }
{
    let greatest = s.greatest.max(size_of(&members));
    Structure {
        atom: s.atom,
        mutable: s.mutable,
        members,
        greatest,
    }
}

/// The structure with the number has these members from now on.
fn store(world: &mut World, n: u32, members: Members) -> Result<(), Memory>
    requires { n < length world.old.heap.structures }
    ensures { OnOk result ((s : ModelStructure) → slice_get (world_of world.old).heap.structures n ≡ Some s → world_of world.new ≡ stores.stored (world_of world.old) n s (members_of members) []) }
{
    let made = with_members(&world.heap.structures[n as usize], members);
    world.heap.structures.put(n as usize, made)
}

/// The removal from the structure with the number is done.
pub fn done(alloc: Global, world: &mut World, n: u32, removal: Removal) -> Result<Tried, Memory>
    requires { n < length world.old.heap.structures }
    ensures row { IfOk result (λ done. (s : ModelStructure) → slice_get (world_of world.old).heap.structures n ≡ Some s → IsDone (world_of world.old) n s removal world.new done) }
    ensures stays { IfOk result (TriedStays world.old world.new) }
{
    match removal {
        Removal::Undecided => Ok(Tried::Undecided),
        Removal::Panics(name) => {
            let came = panics(alloc, world, name)?;
            Ok(Tried::Came(came))
        }
        Removal::Leaves(left, given) => {
            store(world, n, left)?;
            Ok(Tried::Came(Came::Gave(Some(given))))
        }
    }
}
