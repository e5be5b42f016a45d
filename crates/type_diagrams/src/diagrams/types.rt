//! Diagrams of types.
ghost use Rattle.std.specs.Prelude.{◌≡◌, ◌<◌, ◌≤◌, ℕ, IfOk, OnOk, length};
ghost use Rattle.type_model.specs.Defined.{IsDefined};
ghost use Rattle.type_diagrams.specs.Kinds.{the_mark};
ghost use Rattle.type_diagrams.specs.Conditions.{condition_of, basic_condition, atom_condition, everything, nothing, kind_of_def};
ghost use Rattle.type_model.specs.Membership.{In};
ghost use Rattle.type_diagrams.specs.Tables.{IsBelow, condition};
ghost use Rattle.type_diagrams.specs.Whole.{Extends, Gives, HasOneNumberEach, IsMetWhere, IsLiteralIn, HasBasicRoots};

use crate::diagrams::Diagrams;
use crate::kind::Kind;
use crate::node::{Diagram, MARK, Node};
use crate::nodes::{FALSE, TRUE};
use crate::simple::SimpleSet;
use bal_base::{MOST_ATOMS, Memory};
use type_model::{AtomDef, BasicSet, SemType, TypeEnv};

impl Diagrams {
    /// The diagram of a type over the atoms of an environment.
    pub fn of(&mut self, env: &TypeEnv, t: &SemType) -> Result<u32, Memory>
        requires { IsDefined env.now t.now }
        ensures extends { Extends (length env.now) self.old self.new }
        ensures one { OnOk result (HasOneNumberEach self.new) }
        ensures condition { IfOk result (Gives self.new (condition_of env.now t.now)) }
        ensures shapes { IfOk result (λ n. IsMetWhere env.now (condition self.new n) (λ x. In env.now x t.now)) }
    {
        self.of_type(env.defs(), t)
    }

    fn of_type(&mut self, defs: &[AtomDef], t: &SemType) -> Result<u32, Memory>
        requires defined { IsDefined defs.now t.now }
        requires few { length defs.now ≤ MOST_ATOMS }
        ensures extends { Extends (length defs.now) self.old self.new }
        ensures one { OnOk result (HasOneNumberEach self.new) }
        ensures condition { IfOk result (Gives self.new (condition_of defs.now t.now)) }
    {
        match t {
            SemType::Basic(basic) => self.of_basic(basic),
            SemType::Atom(atom) => self.of_atom(defs, *atom),
            SemType::Or(s, t) => {
                let a = self.of_type(defs, s)?;
                let b = self.of_type(defs, t)?;
                self.union(a, b)
            }
            SemType::And(s, t) => {
                let a = self.of_type(defs, s)?;
                let b = self.of_type(defs, t)?;
                self.inter(a, b)
            }
            SemType::Not(t) => {
                let a = self.of_type(defs, t)?;
                let every = self.every()?;
                self.diff(every, a)
            }
        }
    }

    /// The diagram of all shapes.
    pub fn every(&mut self) -> Result<u32, Memory>
        ensures extends { Extends 0 self.old self.new }
        ensures one { OnOk result (HasOneNumberEach self.new) }
        ensures condition { IfOk result (Gives self.new everything) }
    {
        let simple = self.set_number(SimpleSet::all(self.alloc, true))?;
        self.number(Diagram {
            simple,
            list: TRUE,
            mapping: TRUE,
            error: TRUE,
            function: TRUE,
            future: TRUE,
        })
    }

    /// The diagram of no shape.
    pub fn nothing(&mut self) -> Result<u32, Memory>
        ensures extends { Extends 0 self.old self.new }
        ensures one { OnOk result (HasOneNumberEach self.new) }
        ensures condition { IfOk result (Gives self.new nothing) }
    {
        let simple = self.set_number(SimpleSet::all(self.alloc, false))?;
        self.number(Diagram::without_kinds(simple))
    }

    fn of_basic(&mut self, basic: &BasicSet) -> Result<u32, Memory>
        ensures extends { Extends 0 self.old self.new }
        ensures one { OnOk result (HasOneNumberEach self.new) }
        ensures condition { IfOk result (Gives self.new (basic_condition basic.now)) }
    {
        let set = SimpleSet::of(self.alloc, basic)?;
        let simple = self.set_number(set)?;
        let diagram = self.basic_roots(simple, basic)?;
        self.number(diagram)
    }

    /// The diagram with this set, and with the shapes of a basic set that are of a kind.
    fn basic_roots(&mut self, simple: u32, basic: &BasicSet) -> Result<Diagram, Memory>
        ensures extends { Extends 0 self.old self.new }
        ensures made { IfOk result (HasBasicRoots self.new simple basic.now) }
    {
        let none = Diagram::without_kinds(simple);
        match basic {
            BasicSet::ListAll => Ok(none.with_root(Kind::List, TRUE)),
            BasicSet::MappingAll => Ok(none.with_root(Kind::Mapping, TRUE)),
            BasicSet::ErrorAll => Ok(none.with_root(Kind::Error, TRUE)),
            BasicSet::FunctionAll => Ok(none.with_root(Kind::Function, TRUE)),
            BasicSet::FutureAll => Ok(none.with_root(Kind::Future, TRUE)),
            BasicSet::Readonly => {
                let marked = self.literal(MARK)?;
                Ok(Diagram {
                    simple,
                    list: marked,
                    mapping: marked,
                    error: TRUE,
                    function: TRUE,
                    future: FALSE,
                })
            }
            BasicSet::Nil | BasicSet::Bool(_) | BasicSet::IntRange(_, _) => Ok(none),
            BasicSet::StringOne(_) | BasicSet::StringAll | BasicSet::Never => Ok(none),
        }
    }

    fn of_atom(&mut self, defs: &[AtomDef], atom: u32) -> Result<u32, Memory>
        requires defined { atom < length defs.now }
        requires few { length defs.now ≤ MOST_ATOMS }
        ensures extends { Extends (length defs.now) self.old self.new }
        ensures one { OnOk result (HasOneNumberEach self.new) }
        ensures condition { IfOk result (Gives self.new (atom_condition defs.now atom)) }
    {
        let kind = kind_of(&defs[atom as usize]);
        let simple = self.set_number(SimpleSet::all(self.alloc, false))?;
        let root = self.literal(atom)?;
        self.number(Diagram::without_kinds(simple).with_root(kind, root))
    }

    /// The number of the decision by a literal alone.
    fn literal(&mut self, literal: u32) -> Result<u32, Memory>
        requires { literal ≤ the_mark }
        ensures extends { (least : ℕ) → IsBelow least literal → Extends least self.old self.new }
        ensures made { IfOk result (IsLiteralIn self.new literal) }
    {
        self.nodes.number(Node {
            on: literal,
            yes: TRUE,
            no: FALSE,
        })
    }
}

/// The kind of shapes of which a definition speaks.
fn kind_of(def: &AtomDef) -> Kind
    ensures { result ≡ kind_of_def def.now }
{
    match def {
        AtomDef::List { .. } => Kind::List,
        AtomDef::Mapping { .. } => Kind::Mapping,
        AtomDef::Arrow { .. } => Kind::Function,
        AtomDef::Error { .. } => Kind::Error,
        AtomDef::Future { .. } => Kind::Future,
    }
}
