//! The structures of a heap.
#![tactic(auto, using(crate::proofs::Counted::counted))]

ghost use Rattle.std.specs.Prelude.{◌≡◌, ◌+◌, ◌++◌, ◌∷◌, ◌<◌, ◌^◌, [], IfOk, OnErr, OnOk, Some, length, slice_get, slice_set};
ghost use Rattle.std.specs.List.{sum_by};
ghost use Rattle.plain_run.specs.declared.held.Structure.{Structure as Held};

use crate::held::{Members, Structure};
use bal_base::Memory;
use std::alloc::Global;
use std::marker::Model;
use std::mem;
use std::ops::DerefSlice;

/// Structures by their numbers. The cells that they take are counted as they come and change.
#[derive(Drop)]
pub struct Structures {
    items: Vec<Structure>,
    cells: u64,
}

impl Model for Structures {
    ghost use Rattle.std.specs.Prelude.{◌≡◌, ◌+◌, List};
    ghost use Rattle.std.specs.List.{sum_by};
    ghost use Rattle.plain_run.specs.declared.held.Structure.{Structure};

    ghost Value = { List Structure };

    ghost view = { λ a. a.items.items };

    ghost invariant = { λ a. a.cells ≡ sum_by (λ s. s.greatest + 1) a.items.items };
}

/// So many cells and those of a structure that was so great.
pub(crate) fn more_cells(cells: u64, greatest: u64) -> Result<u64, Memory>
    ensures { IfOk result (λ n. n ≡ cells + (greatest + 1)) }
{
    match cells.checked_add(greatest) {
        None => Err(Memory),
        Some(sum) => sum.checked_add(1).ok_or(Memory),
    }
}

/// So many cells and those of these structures.
fn all_cells(cells: u64, structures: &[Structure]) -> Result<u64, Memory>
    ensures { IfOk result (λ n. n ≡ cells + sum_by (λ s. s.greatest + 1) structures.now) }
{
    let mut all = cells;
    for s in structures {
        all = more_cells(all, s.greatest)?;
    }
    Ok(all)
}

impl Structures {
    /// No structures.
    pub fn new(alloc: Global) -> Structures
        ensures { result ≡ [] }
    {
        Structures {
            items: Vec::new(alloc),
            cells: 0,
        }
    }

    /// How many there are.
    pub fn len(&self) -> usize
        ensures len { result ≡ length self.now }
        ensures small { result < 2 ^ 63 }
    {
        self.items.len()
    }

    /// How many cells they take: one each, and one for each of the most members that it has had. They are not summed here.
    pub fn cells(&self) -> u64
        ensures { result ≡ sum_by (λ s. s.greatest + 1) self.now }
    {
        self.cells
    }

    /// One structure more, behind the others. `Memory` also says that a `u64` doesn't have the sum of their cells.
    pub fn push(&mut self, s: Structure) -> Result<(), Memory>
        ensures pushed { OnOk result (self.new ≡ self.old ++ s ∷ []) }
        ensures refused { OnErr result (self.new ≡ self.old) }
    {
        let cells = more_cells(self.cells, s.greatest)?;
        self.items.push(s)?;
        self.cells = cells;
        Ok(())
    }

    /// More structures, behind the others. `Memory` also says that a `u64` doesn't have the sum of their cells.
    pub fn append(&mut self, more: &mut Vec<Structure>) -> Result<(), Memory>
        ensures appended { OnOk result (self.new ≡ self.old ++ more.old.items) }
        ensures refused { OnErr result (self.new ≡ self.old) }
    {
        let cells = all_cells(self.cells, more.as_slice())?;
        self.items.append(more)?;
        self.cells = cells;
        Ok(())
    }

    /// The structure with this number, for a change: an empty one is in its place until it is put back.
    pub fn take(&mut self, alloc: Global, n: usize) -> Structure
        requires { n < length self.old }
        ensures taken { slice_get self.old n ≡ Some result }
        ensures others { (s : Held) → slice_set self.new n s ≡ slice_set self.old n s }
        ensures len { length self.new ≡ length self.old }
    {
        let empty = Structure {
            atom: None,
            mutable: false,
            members: Members::Items(Vec::new(alloc)),
            greatest: 0,
        };
        let taken = mem::replace(&mut self.items[n], empty);
        self.cells -= taken.greatest;
        taken
    }

    /// This structure has this number from now on. `Memory` says that a `u64` doesn't have the sum of the cells.
    pub fn put(&mut self, n: usize, s: Structure) -> Result<(), Memory>
        requires { n < length self.old }
        ensures put { OnOk result (self.new ≡ slice_set self.old n s) }
        ensures refused { OnErr result (self.new ≡ self.old) }
    {
        let others = self.cells - self.items[n].greatest - 1;
        let cells = more_cells(others, s.greatest)?;
        self.items[n] = s;
        self.cells = cells;
        Ok(())
    }
}

impl DerefSlice for Structures {
    type Elem = Structure;

    ghost deref_gives = { λ a xs. xs ≡ a };

    fn deref(&self) -> &[Structure]
        ensures value { result.now ≡ self.now }
    {
        self.items.as_slice()
    }
}
