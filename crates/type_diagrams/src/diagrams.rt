//! Diagrams by their numbers.
ghost use Rattle.std.specs.Prelude.{◌≡◌, [], IfOk, OnOk, Some, slice_get};
ghost use Rattle.type_diagrams.specs.Sets.{IsCanonical, set_of};
ghost use Rattle.type_diagrams.specs.Tables.{AreNodes, IsDiagram};
ghost use Rattle.type_diagrams.specs.Operations.{CanStep, IsResultOf};
ghost use Rattle.type_diagrams.specs.Whole.{Extends, HasOneNumberEach, IsDiagramOver};

use crate::node::{Diagram, MOST_NODES};
use crate::nodes::Nodes;
use crate::operation::Step;
use crate::simple::SimpleSet;
use bal_base::Memory;
use indexmap::IndexSet;
use std::alloc::Global;
use std::marker::Model;

/// Diagrams of types by their numbers. Diagrams with equal conditions have one number.
#[derive(Drop)]
pub struct Diagrams {
    alloc: Global,
    nodes: Nodes,
    sets: IndexSet<SimpleSet>,
    diagrams: IndexSet<Diagram>,
}

impl Model for Diagrams {
    ghost use Rattle.std.specs.Prelude.{map};
    ghost use Rattle.type_diagrams.specs.Sets.{set_of};
    ghost use Rattle.type_diagrams.specs.Tables.{Table};
    ghost use Rattle.type_diagrams.specs.Whole.{IsTable};

    ghost Value = { Table };

    ghost view = { λ a. record { nodes = a.nodes; sets = map set_of a.sets.keys; diagrams = a.diagrams.keys } };

    ghost invariant = { λ a. IsTable (record { nodes = a.nodes; sets = map set_of a.sets.keys; diagrams = a.diagrams.keys }) };
}

impl Diagrams {
    /// No diagrams. Takes no memory.
    pub fn new(alloc: Global) -> Diagrams
        ensures { result ≡ record { nodes = []; sets = []; diagrams = [] } }
    {
        Diagrams {
            alloc,
            nodes: Nodes::new(alloc),
            sets: IndexSet::new(alloc),
            diagrams: IndexSet::new(alloc),
        }
    }

    /// The diagram with the number.
    pub(crate) fn diagram(&self, number: u32) -> Diagram
        requires { IsDiagram self.now number }
        ensures value { slice_get self.now.diagrams number ≡ Some result }
        ensures over { IsDiagramOver self.now result }
        ensures nodes { AreNodes self.now.nodes }
    {
        self.diagrams.as_slice()[number as usize]
    }

    /// The number of a diagram, which may be there already.
    pub(crate) fn number(&mut self, diagram: Diagram) -> Result<u32, Memory>
        requires { IsDiagramOver self.old diagram }
        ensures extends { Extends 0 self.old self.new }
        ensures one { OnOk result (HasOneNumberEach self.new) }
        ensures made { IfOk result (λ n. slice_get self.new.diagrams n ≡ Some diagram) }
    {
        match self.diagrams.get_index_of(&diagram) {
            Some(place) => Ok(place as u32),
            None => {
                let place = self.diagrams.len();
                if place >= MOST_NODES {
                    return Err(Memory);
                }
                self.diagrams.insert(diagram)?;
                Ok(place as u32)
            }
        }
    }

    /// The number of a set of simple shapes, which may be there already.
    pub(crate) fn set_number(&mut self, set: SimpleSet) -> Result<u32, Memory>
        requires { IsCanonical (set_of set) }
        ensures extends { Extends 0 self.old self.new }
        ensures made { IfOk result (λ n. slice_get self.new.sets n ≡ Some (set_of set)) }
    {
        match self.sets.get_index_of(&set) {
            Some(place) => Ok(place as u32),
            None => {
                let place = self.sets.len();
                if place >= MOST_NODES {
                    return Err(Memory);
                }
                self.sets.insert(set)?;
                Ok(place as u32)
            }
        }
    }

    /// The number of the result of an operation on decisions.
    pub(crate) fn step(&mut self, step: Step) -> Result<u32, Memory>
        requires { CanStep self.old.nodes step }
        ensures extends { Extends 0 self.old self.new }
        ensures made { IfOk result (IsResultOf self.old.nodes step self.new.nodes) }
    {
        self.nodes.apply(step)
    }
}

mod operations;
mod reading;
mod types;
