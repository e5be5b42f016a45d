//! Operations on diagrams.
ghost use Rattle.std.specs.Prelude.{◌<◌, ◌⊎◌, List, IfOk, OnOk, length};
ghost use Rattle.type_model.specs.declared.atoms.AtomDef.{AtomDef};
ghost use Rattle.type_diagrams.specs.Conditions.{Meets, or_of, and_of, without};
ghost use Rattle.type_diagrams.specs.Tables.{IsDiagram, condition};
ghost use Rattle.type_diagrams.specs.Whole.{Extends, Gives, HasOneNumberEach, IsMetWhere, IsSetMade, combined};

use crate::diagrams::Diagrams;
use crate::kind::KINDS;
use crate::node::Diagram;
use crate::operation::{Operation, Step};
use crate::simple::SimpleSet;
use bal_base::Memory;

impl Diagrams {
    /// The diagram of the shapes that are in one of the two or in both.
    pub fn union(&mut self, a: u32, b: u32) -> Result<u32, Memory>
        requires a { IsDiagram self.old a }
        requires b { IsDiagram self.old b }
        ensures extends { Extends 0 self.old self.new }
        ensures one { OnOk result (HasOneNumberEach self.new) }
        ensures condition { IfOk result (Gives self.new (or_of (condition self.old a) (condition self.old b))) }
        ensures shapes { IfOk result (λ n. (env : List AtomDef) → IsMetWhere env (condition self.new n) (λ x. Meets env (condition self.old a) x ⊎ Meets env (condition self.old b) x)) }
    {
        self.made(Operation::Or, a, b)
    }

    /// The diagram of the shapes that are in both.
    pub fn inter(&mut self, a: u32, b: u32) -> Result<u32, Memory>
        requires a { IsDiagram self.old a }
        requires b { IsDiagram self.old b }
        ensures extends { Extends 0 self.old self.new }
        ensures one { OnOk result (HasOneNumberEach self.new) }
        ensures condition { IfOk result (Gives self.new (and_of (condition self.old a) (condition self.old b))) }
        ensures shapes { IfOk result (λ n. (env : List AtomDef) → IsMetWhere env (condition self.new n) (λ x. Meets env (condition self.old a) x × Meets env (condition self.old b) x)) }
    {
        self.made(Operation::And, a, b)
    }

    /// The diagram of the shapes that are in the first and not in the second.
    pub fn diff(&mut self, a: u32, b: u32) -> Result<u32, Memory>
        requires a { IsDiagram self.old a }
        requires b { IsDiagram self.old b }
        ensures extends { Extends 0 self.old self.new }
        ensures one { OnOk result (HasOneNumberEach self.new) }
        ensures condition { IfOk result (Gives self.new (without (condition self.old a) (condition self.old b))) }
        ensures shapes { IfOk result (λ n. (env : List AtomDef) → IsMetWhere env (condition self.new n) (λ x. Meets env (condition self.old a) x × ¬ Meets env (condition self.old b) x)) }
    {
        self.made(Operation::Without, a, b)
    }

    fn made(&mut self, operation: Operation, a: u32, b: u32) -> Result<u32, Memory>
        requires a { IsDiagram self.old a }
        requires b { IsDiagram self.old b }
        ensures extends { Extends 0 self.old self.new }
        ensures one { OnOk result (HasOneNumberEach self.new) }
        ensures made { IfOk result (Gives self.new (combined operation (condition self.old a) (condition self.old b))) }
    {
        let (left, right) = (self.diagram(a), self.diagram(b));
        let simple = self.made_set(operation, left.simple, right.simple)?;
        let mut made = Diagram::without_kinds(simple);
        for kind in KINDS {
            let root = self.step(Step {
                operation,
                left: left.root(kind),
                right: right.root(kind),
            })?;
            made = made.with_root(kind, root);
        }
        self.number(made)
    }

    /// The number of the set that an operation makes of two.
    fn made_set(&mut self, operation: Operation, left: u32, right: u32) -> Result<u32, Memory>
        requires left { left < length self.old.sets }
        requires right { right < length self.old.sets }
        ensures extends { Extends 0 self.old self.new }
        ensures made { IfOk result (IsSetMade self.old.sets operation left right self.new.sets) }
    {
        let sets = self.sets.as_slice();
        let set = SimpleSet::made(
            self.alloc,
            operation,
            &sets[left as usize],
            &sets[right as usize],
        )?;
        self.set_number(set)
    }
}
