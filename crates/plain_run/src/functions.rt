//! The function values of a heap.
#![tactic(auto, using(crate::proofs::Counted::counted))]

ghost use Rattle.std.specs.Prelude.{◌≡◌, ◌+◌, ◌++◌, ◌∷◌, ◌<◌, ◌^◌, [], OnErr, OnOk, length};
ghost use Rattle.std.specs.List.{sum_by};

use crate::held::FunctionObject;
use crate::structures::more_cells;
use bal_base::Memory;
use std::alloc::Global;
use std::marker::Model;
use std::ops::DerefSlice;

/// Function values by their numbers. The cells that they take are counted as they come.
#[derive(Drop)]
pub struct Functions {
    items: Vec<FunctionObject>,
    cells: u64,
}

impl Model for Functions {
    ghost use Rattle.std.specs.Prelude.{◌≡◌, ◌+◌, List, length};
    ghost use Rattle.std.specs.List.{sum_by};
    ghost use Rattle.plain_run.specs.declared.held.FunctionObject.{FunctionObject};

    ghost Value = { List FunctionObject };

    ghost view = { λ a. a.items.items };

    ghost invariant = { λ a. a.cells ≡ sum_by (λ f. length f.captured.items + 1) a.items.items };
}

impl Functions {
    /// No function values.
    pub fn new(alloc: Global) -> Functions
        ensures { result ≡ [] }
    {
        Functions {
            items: Vec::new(alloc),
            cells: 0,
        }
    }

    /// How many there are.
    pub fn len(&self) -> usize
        ensures len { result ≡ length self.now }
        ensures small { result < 2 ^ 63 }
    {
        self.items.len()
    }

    /// How many cells they take: one each, and one for each captured value. They are not summed here.
    pub fn cells(&self) -> u64
        ensures { result ≡ sum_by (λ f. length f.captured.items + 1) self.now }
    {
        self.cells
    }

    /// One function value more, behind the others. `Memory` also says that a `u64` doesn't have the sum of their cells.
    pub fn push(&mut self, f: FunctionObject) -> Result<(), Memory>
        ensures pushed { OnOk result (self.new ≡ self.old ++ f ∷ []) }
        ensures refused { OnErr result (self.new ≡ self.old) }
    {
        let cells = more_cells(self.cells, f.captured.len() as u64)?;
        self.items.push(f)?;
        self.cells = cells;
        Ok(())
    }
}

impl DerefSlice for Functions {
    type Elem = FunctionObject;

    ghost deref_gives = { λ a xs. xs ≡ a };

    fn deref(&self) -> &[FunctionObject]
        ensures value { result.now ≡ self.now }
    {
        self.items.as_slice()
    }
}
