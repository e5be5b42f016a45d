//! Atoms that are numbered before they are added.
ghost use Rattle.type_model.specs.Defined.{DefBelow};
ghost use Rattle.type_model.specs.Places.{HasDistinctFields};
ghost use Rattle.descriptors.specs.Drafts.{Drafts, numbered_on};
ghost use Rattle.descriptors.specs.Steps.{IsAtom};

use bal_base::{Fault, FaultCode, Kept, MOST_ATOMS, Place, Stop};
use type_model::AtomDef;

/// Definitions of atoms in the order of their numbers, to be added behind those that are there.
#[derive(Drop)]
pub struct Draft {
    /// The number of the first.
    pub first: u32,
    pub atoms: Vec<AtomDef>,
}

impl Draft {
    /// An atom more, and its number: `AtomLimit` at the place where there would be too many.
    pub fn atom(&mut self, def: AtomDef, at: Place) -> Result<u32, Stop<Fault>>
        requires { HasDistinctFields def }
        ensures { Drafts (λ n. DefBelow n def) IsAtom (numbered_on def at) self.old result self.new }
    {
        let number = self.first as usize + self.atoms.len();
        if number >= MOST_ATOMS {
            return Err(Stop::Fault(Fault {
                code: FaultCode::AtomLimit,
                at: Some(at),
                kept: Kept::Nothing,
            }));
        }
        self.atoms.push(def)?;
        Ok(number as u32)
    }
}
