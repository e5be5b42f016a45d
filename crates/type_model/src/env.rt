//! The definitions of atoms, by their numbers.
ghost use Rattle.std.specs.Prelude.{◌≡◌, ◌+◌, ◌<◌, ◌++◌, [], All, IfOk, OnOk, OnErr, length};
ghost use Rattle.bal_base.specs.Stops.{IfFault};
ghost use Rattle.type_model.specs.Places.{HasDistinctFields};
ghost use Rattle.type_model.specs.Defined.{IsDefinedGroup, IsEnv};
ghost use Rattle.type_model.specs.Calls.{KeepsTypes};

use crate::atoms::AtomDef;
use bal_base::{MOST_ATOMS, Stop};
use std::alloc::Global;
use std::marker::Model;
use thiserror::Error;

/// There would be more than [`MOST_ATOMS`] atoms.
#[derive(Clone, Copy, Debug, PartialEq, Eq, Error)]
#[error("there would be more than 65,536 atoms")]
pub struct AtomLimit;

/// The atoms' definitions, in the order of their numbers from 0. There are at most [`MOST_ATOMS`], each atom
/// that a definition names is there, and the fields of each mapping atom have different names.
#[derive(Drop)]
pub struct TypeEnv {
    defs: Vec<AtomDef>,
}

impl Model for TypeEnv {
    ghost use Rattle.std.specs.Prelude.{List};
    ghost use Rattle.type_model.specs.declared.atoms.AtomDef.{AtomDef};
    ghost use Rattle.type_model.specs.contracts.basic.SemType as sem_type;
    ghost use Rattle.type_model.specs.Defined.{IsEnv};
    ghost use Rattle.std.specs.Coded.{codes};

    ghost Value = { List AtomDef };

    ghost coded = { Prim.hlevel (codes, sem_type.the_row.coded) };

    ghost view = { λ a. a.defs.items };

    ghost invariant = { λ a. IsEnv a.defs.items };
}

impl TypeEnv {
    /// No atoms.
    pub fn new(alloc: Global) -> TypeEnv
        ensures { result ≡ [] }
    {
        TypeEnv {
            defs: Vec::new(alloc),
        }
    }

    /// The definitions, in the order of their numbers.
    pub fn defs(&self) -> &[AtomDef]
        ensures value { result.now ≡ self.now }
        ensures env { IsEnv self.now }
    {
        self.defs.as_slice()
    }

    /// Numbers a group of atoms, which may name each other, from the number that it gives. `AtomLimit`
    /// comes exactly where there would be more than [`MOST_ATOMS`]. After a refusal the atoms are as before.
    pub fn add(&mut self, defs: Vec<AtomDef>) -> Result<u32, Stop<AtomLimit>>
        requires named { IsDefinedGroup self.old defs.items }
        requires distinct { All HasDistinctFields defs.items }
        ensures first { IfOk result (λ first. first ≡ length self.old) }
        ensures added { OnOk result (self.new ≡ self.old ++ defs.items) }
        ensures refused { OnErr result (self.new ≡ self.old) }
        ensures limit { IfFault result (λ _. MOST_ATOMS < length self.old + length defs.items) }
        ensures env { IsEnv self.new }
        ensures kept { KeepsTypes self.old self.new }
    {
        let first = self.defs.len();
        if MOST_ATOMS - first < defs.len() {
            return Err(Stop::Fault(AtomLimit));
        }
        let mut defs = defs;
        self.defs.append(&mut defs)?;
        Ok(first as u32)
    }
}
