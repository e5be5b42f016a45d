//! Reading diagrams: their nodes, roots and paths, their simple shapes, and whether they have any.
ghost use Rattle.std.specs.Prelude.{◌≡◌, ◌↔◌, ◌++◌, ℕ, Bool, List, IfOk, IfSome, IsTrue, None, OnOk, false, map};
ghost use Rattle.type_model.specs.declared.atoms.AtomDef.{AtomDef};
ghost use Rattle.type_model.specs.Defined.{NamesBelow};
ghost use Rattle.type_diagrams.specs.Conditions.{AreOne, IsNothing, condition_of};
ghost use Rattle.type_diagrams.specs.Paths.{paths_of, behind};
ghost use Rattle.type_diagrams.specs.Tables.{AreNodes, IsDiagram, Leads, condition, tree_of};
ghost use Rattle.type_diagrams.specs.Decisions.{IsNumber};
ghost use Rattle.type_diagrams.specs.Whole.{HasOneNumberEach, IsTable};
ghost use Rattle.type_diagrams.specs.Found.{FindsSimple, IsNearest};
ghost use Rattle.type_diagrams.specs.Questions.{HasPaths, IsUnionOf};
ghost use Rattle.type_diagrams.specs.Written.{simple_alone};

use crate::diagrams::Diagrams;
use crate::kind::Kind;
use crate::node::{Diagram, Node};
use crate::nodes::{FALSE, TRUE};
use crate::path::Path;
use crate::simple::SimpleSet;
use bal_base::{AtomList, Memory, Shape};
use std::alloc::Global;
use type_model::SemType;

impl Diagrams {
    /// The nodes, in the order of their numbers. Diagrams with equal conditions have one number. Takes no
    /// memory.
    pub fn nodes(&self) -> &[Node]
        ensures nodes { result.now ≡ self.now.nodes }
        ensures are { AreNodes self.now.nodes }
        ensures one { HasOneNumberEach self.now }
        ensures table { IsTable self.now }
    {
        self.nodes.as_slice()
    }

    /// Where the part of a kind begins, given as the followers of nodes are. Takes no memory.
    pub fn root(&self, a: u32, kind: Kind) -> u32
        requires { IsDiagram self.now a }
        ensures number { IsNumber self.now.nodes result }
        ensures leads { (v : ℕ → Bool) → Leads self.now.nodes v result ((condition self.now a).by_kind kind v) }
    {
        self.diagram(a).root(kind)
    }

    /// Whether the diagram has no shape. Takes no memory.
    pub fn is_nothing(&self, a: u32) -> bool
        requires { IsDiagram self.now a }
        ensures { IsTrue result ↔ IsNothing (condition self.now a) }
    {
        let diagram = self.diagram(a);
        let none = SimpleSet::all(self.alloc, false);
        diagram == Diagram::without_kinds(diagram.simple)
            && self.sets.as_slice()[diagram.simple as usize] == none
    }

    /// Whether the diagram has a simple shape. Takes no memory, and no longer however many it has.
    pub fn has_simple_shape(&self, a: u32) -> bool
        requires { IsDiagram self.now a }
        ensures { (result ≡ false) ↔ FindsSimple (condition self.now a).simple None }
    {
        let diagram = self.diagram(a);
        let none = SimpleSet::all(self.alloc, false);
        let is_empty = self.sets.as_slice()[diagram.simple as usize] == none;
        !is_empty
    }

    /// The paths of a kind, in order: those on which the first literal holds before the others.
    pub fn paths(&self, alloc: Global, a: u32, kind: Kind) -> Result<Vec<Path>, Memory>
        requires { IsDiagram self.now a }
        ensures ordered { IfOk result (λ paths. HasPaths (condition self.now a) kind paths.items) }
        ensures shapes { IfOk result (λ paths. IsUnionOf (condition self.now a) kind paths.items) }
    {
        let mut found = Vec::new(alloc);
        let mut pos = Vec::new(alloc);
        let mut neg = Vec::new(alloc);
        let root = self.diagram(a).root(kind);
        self.find_paths(root, &mut pos, &mut neg, &mut found)?;
        Ok(found)
    }

    /// A simple shape of the diagram, or `None` where it has none. An int is the one nearest to 0. Takes time
    /// by the number of its ranges of ints and of its strings. Diagrams with equal conditions have one number.
    pub fn simple_shape(&self, alloc: Global, a: u32) -> Result<Option<Shape>, Memory>
        requires { IsDiagram self.now a }
        ensures found { IfOk result (FindsSimple (condition self.now a).simple) }
        ensures nearest { IfOk result (λ found. IfSome found (IsNearest (condition self.now a).simple)) }
        ensures one { HasOneNumberEach self.now }
    {
        let diagram = self.diagram(a);
        self.sets.as_slice()[diagram.simple as usize].shape(alloc)
    }

    /// The type of the simple shapes of the diagram: it has these shapes and no others, over whatever atoms,
    /// and names no atom. It is a union of as many sets as there are ranges of ints and strings, in halves, so
    /// that it is nested no deeper than the logarithm of their number and some.
    pub fn simple_type(&self, alloc: Global, a: u32) -> Result<SemType, Memory>
        requires { IsDiagram self.now a }
        ensures names { IfOk result (NamesBelow 0) }
        ensures condition { IfOk result (λ t. (env : List AtomDef) → AreOne (condition_of env t) (simple_alone (condition self.now a))) }
    {
        let diagram = self.diagram(a);
        self.sets.as_slice()[diagram.simple as usize].as_type(alloc)
    }

    /// The paths from a number on, behind the literals on the way to it.
    fn find_paths(
        &self,
        number: u32,
        pos: &mut Vec<u32>,
        neg: &mut Vec<u32>,
        found: &mut Vec<Path>,
    ) -> Result<(), Memory>
        requires { IsNumber self.now.nodes number }
        ensures pos { OnOk result (pos.new.items ≡ pos.old.items) }
        ensures neg { OnOk result (neg.new.items ≡ neg.old.items) }
        ensures found { OnOk result (found.new.items ≡ found.old.items ++ map (behind pos.old.items neg.old.items) (paths_of (tree_of self.now.nodes number))) }
    {
        match number {
            FALSE => Ok(()),
            TRUE => {
                let path = Path {
                    pos: AtomList::of(pos.clone()?),
                    neg: AtomList::of(neg.clone()?),
                };
                found.push(path)?;
                Ok(())
            }
            _ => {
                let node = self.nodes()[number as usize - 2];
                pos.push(node.on)?;
                self.find_paths(node.yes, pos, neg, found)?;
                pos.pop();
                neg.push(node.on)?;
                self.find_paths(node.no, pos, neg, found)?;
                neg.pop();
                Ok(())
            }
        }
    }
}
