//! Types, and what can be asked of them.
ghost use Rattle.std.specs.Prelude.{◌≡◌, ◌+◌, ◌<◌, ◌++◌, [], All, Contains, IfOk, OnOk, OnErr, length, map};
ghost use Rattle.bal_base.specs.Stops.{IfFault};
ghost use Rattle.type_model.specs.Application.{Applies, IsFunctionType, IsListType, NamesDefined};
ghost use Rattle.type_model.specs.Calls.{Alone, Applied, KeepsTypes, Without};
ghost use Rattle.type_model.specs.Defined.{IsDefined, IsDefinedGroup, IsEnv};
ghost use Rattle.type_model.specs.Inclusion.{AnswersSub, FindsShape, HasExactly, HaveSameShapes};
ghost use Rattle.type_model.specs.Parts.{StandsAt};
ghost use Rattle.type_model.specs.Places.{HasDistinctFields};
ghost use Rattle.type_diagrams.specs.Reach.{Passes};
ghost use Rattle.subtype_decider.specs.Closed.{IsClosed};
ghost use Rattle.subtype_decider.specs.Entries.{pair_of};

use crate::calls::Calls;
use crate::questions::Questions;
use crate::table::Entry;
use crate::writing::type_of;
use bal_base::{MOST_ATOMS, Memory, Shape, Stop};
use std::alloc::Global;
use std::marker::Model;
use type_diagrams::Diagrams;
use type_model::{Answer, Apply, AtomDef, AtomLimit, Keys, SemType, TypeEnv, TypeLimit};

/// Types over atoms that can be added, and what was found out about them.
#[derive(Drop)]
pub struct Decider {
    env: TypeEnv,
    questions: Questions,
}

impl Model for Decider {
    ghost use Rattle.std.specs.Coded.{codes};
    ghost use Rattle.bal_base.specs.contracts.shape.Shape as shape;
    ghost use Rattle.type_model.specs.contracts.basic.SemType as sem_type;
    ghost use Rattle.subtype_decider.specs.Deciders.{Findings};
    ghost use Rattle.subtype_decider.specs.Working.{IsAtRest};

    ghost Value = { Findings };

    ghost coded = { Prim.hlevel (codes, shape.the_row.coded, sem_type.the_row.coded) };

    ghost view = { λ a. record { atoms = a.env; diagrams = a.questions.diagrams; table = a.questions.table } };

    ghost invariant = { λ a. IsAtRest a.env a.questions };
}

impl Decider {
    /// No atoms, and nothing found out. Takes no memory.
    pub fn new(alloc: Global) -> Decider
        ensures atoms { result.atoms ≡ [] }
        ensures table { result.table ≡ [] }
    {
        Decider {
            env: TypeEnv::new(alloc),
            questions: Questions::new(alloc),
        }
    }

    /// The definitions of the atoms. Takes no memory.
    pub fn env(&self) -> &TypeEnv
        ensures { result.now ≡ self.now.atoms }
    {
        &self.env
    }

    /// The diagrams of the types of which something was asked. Takes no memory.
    pub fn diagrams(&self) -> &Diagrams
        ensures { result.now ≡ self.now.diagrams }
    {
        &self.questions.diagrams
    }

    /// What was found out. A question is a diagram of `diagrams`, and no two entries have the same question. A
    /// kept shape is one of its question, and a question without a shape has none. Takes no memory.
    pub fn table(&self) -> &[Entry]
        ensures entries { map pair_of result.now ≡ self.now.table }
        ensures closed { IsClosed self.now.atoms self.now.diagrams self.now.table }
    {
        self.questions.table.as_slice()
    }

    /// Numbers a group of atoms, which may name each other, from the number that it gives. `AtomLimit` comes
    /// exactly where there would be more than [`MOST_ATOMS`]. After a refusal the atoms are as before. What was
    /// found out stays.
    pub fn add(&mut self, defs: Vec<AtomDef>) -> Result<u32, Stop<AtomLimit>>
        requires named { IsDefinedGroup self.old.atoms defs.items }
        requires distinct { All HasDistinctFields defs.items }
        ensures first { IfOk result (λ first. first ≡ length self.old.atoms) }
        ensures added { OnOk result (self.new.atoms ≡ self.old.atoms ++ defs.items) }
        ensures refused { OnErr result (self.new.atoms ≡ self.old.atoms) }
        ensures limit { IfFault result (λ _. MOST_ATOMS < length self.old.atoms + length defs.items) }
        ensures env { IsEnv self.new.atoms }
        ensures kept { KeepsTypes self.old.atoms self.new.atoms }
        ensures diagrams { self.new.diagrams ≡ self.old.diagrams }
        ensures table { self.new.table ≡ self.old.table }
    {
        let _nodes = self.questions.diagrams.nodes();
        self.env.add(defs)
    }

    /// Whether every shape of `s` is in `t`, or a shape of `s` that isn't, which is a copy of the one that is kept.
    /// `TypeLimit` comes only where the questions to which this leads pass the limit. Whatever it answers, what was
    /// found out stays.
    pub fn sub(
        &mut self,
        alloc: Global,
        s: &SemType,
        t: &SemType,
    ) -> Result<Answer, Stop<TypeLimit>>
        requires left { IsDefined self.old.atoms s.now }
        requires right { IsDefined self.old.atoms t.now }
        ensures atoms { self.new.atoms ≡ self.old.atoms }
        ensures kept { All (Contains self.new.table) self.old.table }
        ensures answer { IfOk result (AnswersSub self.old.atoms s.now t.now) }
        ensures limit { IfFault result (Passes self.old.atoms (Without s.now t.now)) }
    {
        let question = self.questions.without(&self.env, s, t)?;
        match self.questions.find(alloc, &Calls, &self.env, question)? {
            Some(shape) => Ok(Answer::No(shape)),
            None => Ok(Answer::Yes),
        }
    }

    /// A shape of `t`, or `None` where there is none. `TypeLimit` comes only where the questions to which this
    /// leads pass the limit. Whatever it answers, what was found out stays.
    pub fn has_shape(
        &mut self,
        alloc: Global,
        t: &SemType,
    ) -> Result<Option<Shape>, Stop<TypeLimit>>
        requires { IsDefined self.old.atoms t.now }
        ensures atoms { self.new.atoms ≡ self.old.atoms }
        ensures kept { All (Contains self.new.table) self.old.table }
        ensures found { IfOk result (FindsShape self.old.atoms t.now) }
        ensures limit { IfFault result (Passes self.old.atoms (Alone t.now)) }
    {
        let question = self.questions.of(&self.env, t)?;
        self.questions.find(alloc, &Calls, &self.env, question)
    }

    /// The type whose shapes are exactly those that stand at such a key in a list or mapping shape of `t`, or, for
    /// `Results`, among the results of a future shape of `t`. `TypeLimit` comes only where the questions to which
    /// this leads pass the limit. Whatever it answers, what was found out stays.
    pub fn member(
        &mut self,
        alloc: Global,
        t: &SemType,
        keys: &Keys,
    ) -> Result<SemType, Stop<TypeLimit>>
        requires { IsDefined self.old.atoms t.now }
        ensures atoms { self.new.atoms ≡ self.old.atoms }
        ensures kept { All (Contains self.new.table) self.old.table }
        ensures defined { IfOk result (IsDefined self.old.atoms) }
        ensures shapes { IfOk result (λ m. HasExactly self.old.atoms m (StandsAt self.old.atoms t.now keys.now)) }
        ensures limit { IfFault result (Passes self.old.atoms (Alone t.now)) }
    {
        let question = self.questions.of(&self.env, t)?;
        let parts = self
            .questions
            .project(alloc, &Calls, &self.env, question, keys)?;
        let _atoms = self.env.defs();
        Ok(type_of(alloc, &self.questions.diagrams, parts)?)
    }

    /// A type with the same shapes as `t`. It depends on the condition of `t` alone: the compact form of a union
    /// of a type with itself is that of the type. [`type_of`](crate::type_of) says how it grows. What was found
    /// out stays.
    pub fn compact(&mut self, alloc: Global, t: &SemType) -> Result<SemType, Memory>
        requires { IsDefined self.old.atoms t.now }
        ensures atoms { self.new.atoms ≡ self.old.atoms }
        ensures table { self.new.table ≡ self.old.table }
        ensures defined { IfOk result (IsDefined self.old.atoms) }
        ensures shapes { IfOk result (λ c. HaveSameShapes self.old.atoms c t.now) }
    {
        let _atoms = self.env.defs();
        let question = self.questions.of(&self.env, t)?;
        type_of(alloc, &self.questions.diagrams, question)
    }

    /// The least type of the results that functions of `f` give to arguments in `args`, or arguments there at
    /// which one of them fails. `TypeLimit` comes only where the questions to which this leads pass the limit.
    pub fn apply(
        &mut self,
        alloc: Global,
        f: &SemType,
        args: &SemType,
    ) -> Result<Apply, Stop<TypeLimit>>
        requires f_defined { IsDefined self.old.atoms f.now }
        requires args_defined { IsDefined self.old.atoms args.now }
        requires functions { IsFunctionType self.old.atoms f.now }
        requires lists { IsListType self.old.atoms args.now }
        ensures atoms { self.new.atoms ≡ self.old.atoms }
        ensures defined { IfOk result (NamesDefined self.old.atoms) }
        ensures applies { IfOk result (Applies self.old.atoms f.now args.now) }
        ensures limit { IfFault result (Passes self.old.atoms (Applied f.now args.now)) }
    {
        self.questions.apply(alloc, &self.env, f, args)
    }
}
