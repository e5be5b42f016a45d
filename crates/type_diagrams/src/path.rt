//! Paths through decisions.
ghost use Rattle.std.specs.Prelude.{◌≡◌, ◌==◌, IfOk};
ghost use Rattle.std.specs.List.{list_any};
ghost use Rattle.type_diagrams.specs.Kinds.{the_mark};
ghost use Rattle.type_diagrams.specs.Members.{atoms_in};

use crate::node::MARK;
use bal_base::{AtomList, Memory};
use std::alloc::Global;

/// A way through a decision to true. The mark is the number 65,536.
#[derive(Drop)]
pub struct Path {
    /// The atoms that hold on the way, and 65,536 where the shapes are marked.
    pub pos: AtomList,
    /// The atoms that don't hold, and 65,536 where the shapes are unmarked.
    pub neg: AtomList,
}

impl Path {
    /// Whether the shapes of the path are marked: the mark holds on the way.
    pub fn is_marked(&self) -> bool
        ensures { result ≡ list_any (λ l. l == the_mark) self.now.pos }
    {
        self.pos.as_slice().iter().any(|literal| *literal == MARK)
    }

    /// The atoms that hold on the way.
    pub fn wanted(&self, alloc: Global) -> Result<Vec<u32>, Memory>
        ensures { IfOk result (λ found. found.items ≡ atoms_in self.now.pos) }
    {
        atoms(alloc, &self.pos)
    }

    /// The atoms that don't hold on the way.
    pub fn unwanted(&self, alloc: Global) -> Result<Vec<u32>, Memory>
        ensures { IfOk result (λ found. found.items ≡ atoms_in self.now.neg) }
    {
        atoms(alloc, &self.neg)
    }
}

/// The atoms among literals.
fn atoms(alloc: Global, literals: &AtomList) -> Result<Vec<u32>, Memory>
    ensures { IfOk result (λ found. found.items ≡ atoms_in literals.now) }
{
    let mut found = Vec::new(alloc);
    for literal in literals.as_slice() {
        if *literal != MARK {
            found.push(*literal)?;
        }
    }
    Ok(found)
}
