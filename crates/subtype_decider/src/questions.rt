//! The loop through questions.
ghost use Rattle.std.specs.Prelude.{◌≡◌, ◌+◌, ◌*◌, ◌-◌, ◌<◌, ◌≤◌, ◌++◌, ◌∷◌, [], List, All, Contains, IfOk, OnOk, OnErr, MatchBool, Some, None, length, take};
ghost use Rattle.std.specs.Option.{option_copied};
ghost use Rattle.bal_base.specs.Stops.{IfFault};
ghost use Rattle.type_model.specs.declared.atoms.AtomDef.{AtomDef};
ghost use Rattle.type_model.specs.Defined.{IsDefined};
ghost use Rattle.type_model.specs.Calls.{Asked};
ghost use Rattle.type_model.specs.Membership.{In};
ghost use Rattle.type_diagrams.specs.Conditions.{LooksAtKinds, condition_of};
ghost use Rattle.type_diagrams.specs.Conditions.{without as without_condition};
ghost use Rattle.type_diagrams.specs.Kept.{IsUnknown};
ghost use Rattle.type_diagrams.specs.Reach.{IsFirst, Passes, Reached, most_questions};
ghost use Rattle.type_diagrams.specs.Tables.{IsDiagram, condition};
ghost use Rattle.type_diagrams.specs.Whole.{Extends, Gives, IsMetWhere};
ghost use Rattle.subtype_decider.specs.Closed.{FindsShapeOf};
ghost use Rattle.subtype_decider.specs.Entries.{AreApart, Knows, KnowsAll};
ghost use Rattle.subtype_decider.specs.Leads.{LeadsPast, LeadsTo};
ghost use Rattle.subtype_decider.specs.Working.{AreAgain, HoldsOneMore, IsAtRest, IsEntered, IsKept, IsRefuted, IsRetired, IsWithoutAll, IsWorking, KeepsShape, LastSays, left};

use crate::call::Call;
use crate::held::Held;
use crate::settles::Settles;
use crate::table::Table;
use crate::way::ways;
use bal_base::{Memory, Shape, Stop};
use std::alloc::Global;
use std::mem;
use type_diagrams::{Diagrams, MOST_QUESTIONS, Member, Turn};
use type_model::{SemType, TypeEnv, TypeLimit};
use witness::Witness;

/// Questions about types: the diagrams, what is known of them, and on which a call works.
#[derive(Drop)]
pub struct Questions {
    pub diagrams: Diagrams,
    pub table: Table,
    /// Those of the call that are held to be empty and not judged in full, the next one to work on last.
    pub pending: Vec<Held>,
    /// Those that are judged in full.
    pub judged: Vec<Held>,
}

impl Questions {
    /// Nothing is known. Takes no memory.
    pub fn new(alloc: Global) -> Questions
        ensures rest { (env : List AtomDef) → IsAtRest env result }
        ensures table { result.table ≡ [] }
    {
        Questions {
            diagrams: Diagrams::new(alloc),
            table: Table::new(alloc),
            pending: Vec::new(alloc),
            judged: Vec::new(alloc),
        }
    }

    /// The question for a shape of a type.
    pub fn of(&mut self, env: &TypeEnv, t: &SemType) -> Result<u32, Memory>
        requires rest { IsAtRest env.now self.old }
        requires defined { IsDefined env.now t.now }
        ensures rest { IsAtRest env.now self.new }
        ensures table { self.new.table ≡ self.old.table }
        ensures extends { Extends (length env.now) self.old.diagrams self.new.diagrams }
        ensures gives { IfOk result (Gives self.new.diagrams (condition_of env.now t.now)) }
        ensures looks { IfOk result (λ question. LooksAtKinds env.now (condition self.new.diagrams question)) }
        ensures shapes { IfOk result (λ question. IsMetWhere env.now (condition self.new.diagrams question) (λ x. In env.now x t.now)) }
    {
        self.diagrams.of(env, t)
    }

    /// The question for a shape of the first type that isn't in the second.
    pub fn without(&mut self, env: &TypeEnv, s: &SemType, t: &SemType) -> Result<u32, Memory>
        requires rest { IsAtRest env.now self.old }
        requires left { IsDefined env.now s.now }
        requires right { IsDefined env.now t.now }
        ensures rest { IsAtRest env.now self.new }
        ensures table { self.new.table ≡ self.old.table }
        ensures extends { Extends (length env.now) self.old.diagrams self.new.diagrams }
        ensures gives { IfOk result (Gives self.new.diagrams (without_condition (condition_of env.now s.now) (condition_of env.now t.now))) }
        ensures looks { IfOk result (λ question. LooksAtKinds env.now (condition self.new.diagrams question)) }
        ensures shapes { IfOk result (λ question. IsMetWhere env.now (condition self.new.diagrams question) (λ x. In env.now x s.now × ¬ In env.now x t.now)) }
    {
        let left = self.of(env, s)?;
        let right = self.of(env, t)?;
        self.diagrams.diff(left, right)
    }

    /// A shape of a question that the table knows, or `None` where it has none. Takes no memory.
    pub fn shape(&self, question: u32) -> Option<&Witness>
        requires { Knows self.now.table question }
        ensures { (env : List AtomDef) → IsAtRest env self.now → FindsShapeOf env (condition self.now.diagrams question) (option_copied result) }
    {
        match self.table.seen(question) {
            Some(shape) => shape,
            None => None,
        }
    }

    /// A shape of the diagram, or `None` where it has none. The table keeps all that it knew. The limits are
    /// those of `decide`. What is given is a copy of the kept shape, and takes time and memory by its size written
    /// out, where a part counts as often as it stands in it; `shape` tells the same without a copy.
    pub fn find<S: Settles>(
        &mut self,
        alloc: Global,
        settles: &S,
        env: &TypeEnv,
        question: u32,
    ) -> Result<Option<Shape>, Stop<TypeLimit>>
        requires rest { IsAtRest env.now self.old }
        requires diagram { IsDiagram self.old.diagrams question }
        requires looks { LooksAtKinds env.now (condition self.old.diagrams question) }
        ensures rest { IsAtRest env.now self.new }
        ensures extends { Extends (length env.now) self.old.diagrams self.new.diagrams }
        ensures found { IfOk result (FindsShapeOf env.now (condition self.old.diagrams question)) }
        ensures kept { All (Contains self.new.table) self.old.table }
        ensures limit { (asked : Asked) → Reached env.now (IsFirst env.now asked) (condition self.old.diagrams question) → IfFault result (Passes env.now asked) }
    {
        self.decide(alloc, settles, env, question)?;
        match self.shape(question) {
            Some(shape) => Ok(Some(shape.copied(alloc)?)),
            None => Ok(None),
        }
    }

    /// Finds whether the diagram has a shape. Afterwards the table knows the question, and it knows all that it
    /// knew before. Where the call stops, the table is as it was. Whichever call leads to the question:
    /// `Questions` comes only where that call leads to more than [`MOST_QUESTIONS`], and `Arrows` only where it
    /// leads to a path of functions that wants more than [`MOST_ARROWS`](type_diagrams::MOST_ARROWS) arrows.
    pub fn decide<S: Settles>(
        &mut self,
        alloc: Global,
        settles: &S,
        env: &TypeEnv,
        question: u32,
    ) -> Result<(), Stop<TypeLimit>>
        requires rest { IsAtRest env.now self.old }
        requires diagram { IsDiagram self.old.diagrams question }
        requires looks { LooksAtKinds env.now (condition self.old.diagrams question) }
        ensures rest { IsAtRest env.now self.new }
        ensures extends { Extends (length env.now) self.old.diagrams self.new.diagrams }
        ensures knows { OnOk result (Knows self.new.table question) }
        ensures kept { All (Contains self.new.table) self.old.table }
        ensures stopped { OnErr result (self.new.table ≡ self.old.table) }
        ensures limit { (asked : Asked) → Reached env.now (IsFirst env.now asked) (condition self.old.diagrams question) → IfFault result (Passes env.now asked) }
    {
        if self.table.seen(question).is_some() {
            return Ok(());
        }
        let call = Call {
            alloc,
            settles,
            env,
            first: question,
            start: self.table.len(),
        };
        match self.answer(&call) {
            Ok(found) => {
                self.close(found);
                Ok(())
            }
            Err(stop) => {
                self.undo(call.start);
                Err(stop)
            }
        }
    }

    /// Enters the first question and works until it has a shape, or until nothing is left to judge. Whether it
    /// has one.
    fn answer<S: Settles>(&mut self, call: &Call<S>) -> Result<bool, Stop<TypeLimit>>
        requires working { IsWorking call.now.env.now call.now.first call.now.start self.old }
        requires unknown { IsUnknown self.old.table call.now.first }
        ensures extends { Extends (length call.now.env.now) self.old.diagrams self.new.diagrams }
        ensures began { take call.now.start self.new.table ≡ take call.now.start self.old.table }
        ensures working { OnOk result (IsWorking call.now.env.now call.now.first call.now.start self.new) }
        ensures knows { OnOk result (Knows self.new.table call.now.first) }
        ensures found { IfOk result (λ found. MatchBool found (KeepsShape self.new.table call.now.first) (self.new.pending.items ≡ [])) }
        ensures limit { IfFault result (LeadsPast call.now.env.now (condition self.old.diagrams call.now.first)) }
    {
        self.enter(call, call.first)?;
        self.work(call)
    }

    /// Works until the first question has a shape, or until nothing is left to judge. Whether it has one.
    fn work<S: Settles>(&mut self, call: &Call<S>) -> Result<bool, Stop<TypeLimit>>
        requires working { IsWorking call.now.env.now call.now.first call.now.start self.old }
        requires knows { Knows self.old.table call.now.first }
        ensures extends { Extends (length call.now.env.now) self.old.diagrams self.new.diagrams }
        ensures began { take call.now.start self.new.table ≡ take call.now.start self.old.table }
        ensures working { OnOk result (IsWorking call.now.env.now call.now.first call.now.start self.new) }
        ensures knows { OnOk result (Knows self.new.table call.now.first) }
        ensures found { IfOk result (λ found. MatchBool found (KeepsShape self.new.table call.now.first) (self.new.pending.items ≡ [])) }
        ensures limit { IfFault result (LeadsPast call.now.env.now (condition self.old.diagrams call.now.first)) }
    {
        while self.next_change(call)? {
            if self.table.has_shape(call.first) {
                return Ok(true);
            }
        }
        Ok(false)
    }

    /// Works until the table changes. Whether it did; else nothing is left to judge.
    fn next_change<S: Settles>(&mut self, call: &Call<S>) -> Result<bool, Stop<TypeLimit>>
        requires working { IsWorking call.now.env.now call.now.first call.now.start self.old }
        ensures extends { Extends (length call.now.env.now) self.old.diagrams self.new.diagrams }
        ensures began { take call.now.start self.new.table ≡ take call.now.start self.old.table }
        ensures working { OnOk result (IsWorking call.now.env.now call.now.first call.now.start self.new) }
        ensures knows { OnOk result (KnowsAll self.old.table self.new.table) }
        ensures changed { IfOk result (λ changed. MatchBool changed (left call.now.start self.new < left call.now.start self.old) (self.new.pending.items ≡ [])) }
        ensures limit { IfFault result (LeadsPast call.now.env.now (condition self.old.diagrams call.now.first)) }
    {
        while !self.pending.is_empty() {
            if self.step(call)? {
                return Ok(true);
            }
        }
        Ok(false)
    }

    /// Works on the next question, and tells whether the table changed; else the question is judged in full.
    fn step<S: Settles>(&mut self, call: &Call<S>) -> Result<bool, Stop<TypeLimit>>
        requires working { IsWorking call.now.env.now call.now.first call.now.start self.old }
        requires some { 0 < length self.old.pending.items }
        ensures extends { Extends (length call.now.env.now) self.old.diagrams self.new.diagrams }
        ensures began { take call.now.start self.new.table ≡ take call.now.start self.old.table }
        ensures working { OnOk result (IsWorking call.now.env.now call.now.first call.now.start self.new) }
        ensures knows { OnOk result (KnowsAll self.old.table self.new.table) }
        ensures left { OnOk result (left call.now.start self.new ≤ left call.now.start self.old) }
        ensures changed { IfOk result (λ changed. MatchBool changed (left call.now.start self.new < left call.now.start self.old) (length self.new.pending.items < length self.old.pending.items)) }
        ensures limit { IfFault result (LeadsPast call.now.env.now (condition self.old.diagrams call.now.first)) }
    {
        match self.judge_next(call)? {
            Turn::Empty => {
                self.retire()?;
                Ok(false)
            }
            Turn::Ask(question) => {
                self.enter(call, question)?;
                Ok(true)
            }
            Turn::Shape(shape) => {
                self.refute(shape)?;
                Ok(true)
            }
        }
    }

    /// What is said of the next question, as far as it can be judged.
    fn judge_next<S: Settles>(&mut self, call: &Call<S>) -> Result<Turn, Stop<TypeLimit>>
        requires working { IsWorking call.now.env.now call.now.first call.now.start self.old }
        requires some { 0 < length self.old.pending.items }
        ensures extends { Extends (length call.now.env.now) self.old.diagrams self.new.diagrams }
        ensures table { self.new.table ≡ self.old.table }
        ensures pending { length self.new.pending.items ≡ length self.old.pending.items }
        ensures judged { self.new.judged ≡ self.old.judged }
        ensures working { IsWorking call.now.env.now call.now.first call.now.start self.new }
        ensures says { IfOk result (LastSays call.now.env.now self.new.diagrams self.new.table self.new.pending.items) }
        ensures limit { IfFault result (LeadsPast call.now.env.now (condition self.old.diagrams call.now.first)) }
    {
        let next = self.pending.len() - 1;
        self.pending[next].judge(call, &mut self.diagrams, &self.table)
    }

    /// Enters a question that the table doesn't know. A simple shape answers it at once; else it is held to be
    /// empty, and is the next one to work on.
    fn enter<S: Settles>(&mut self, call: &Call<S>, question: u32) -> Result<(), Stop<TypeLimit>>
        requires working { IsWorking call.now.env.now call.now.first call.now.start self.old }
        requires unknown { IsUnknown self.old.table question }
        requires diagram { IsDiagram self.old.diagrams question }
        requires leads { LeadsTo call.now.env.now (condition self.old.diagrams call.now.first) (condition self.old.diagrams question) }
        ensures diagrams { self.new.diagrams ≡ self.old.diagrams }
        ensures began { take call.now.start self.new.table ≡ take call.now.start self.old.table }
        ensures entered { OnOk result (IsEntered call.now.env.now call.now.first call.now.start self.old self.new question) }
        ensures knows { OnOk result (KnowsAll self.old.table self.new.table) }
        ensures limit { IfFault result (LeadsPast call.now.env.now (condition self.old.diagrams call.now.first)) }
    {
        let shape = self.diagrams.simple_shape(call.alloc, question)?;
        if self.is_full(call.start) {
            return Err(Stop::Fault(TypeLimit::Questions));
        }
        match shape {
            Some(shape) => {
                let witness = Witness::whole(call.alloc, shape)?;
                self.table.add(question, Some(witness))?;
                Ok(())
            }
            None => {
                self.hold(call.alloc, question)?;
                Ok(())
            }
        }
    }

    /// Whether a call that began with so many entries has entered as many questions as it may lead to.
    fn is_full(&self, start: usize) -> bool
        requires { start ≤ length self.now.table }
        ensures { MatchBool result (start + most_questions ≤ length self.now.table) (length self.now.table < start + most_questions) }
    {
        self.table.len() - start >= MOST_QUESTIONS
    }

    /// Holds a question to be empty.
    fn hold(&mut self, alloc: Global, question: u32) -> Result<(), Memory>
        requires diagram { IsDiagram self.old.diagrams question }
        requires unknown { IsUnknown self.old.table question }
        ensures diagrams { self.new.diagrams ≡ self.old.diagrams }
        ensures judged { self.new.judged ≡ self.old.judged }
        ensures table { OnOk result (self.new.table ≡ self.old.table ++ (question, None) ∷ []) }
        ensures refused { OnErr result (self.new.table ≡ self.old.table) }
        ensures held { OnOk result (HoldsOneMore self.old self.new question) }
    {
        let ways = ways(alloc, &self.diagrams, question)?;
        self.pending.push(Held {
            question,
            ways,
            next: 0,
        })?;
        self.table.add(question, None)
    }

    /// Counts the question that was worked on as judged in full.
    fn retire(&mut self) -> Result<(), Memory>
        requires { 0 < length self.old.pending.items }
        ensures diagrams { self.new.diagrams ≡ self.old.diagrams }
        ensures table { self.new.table ≡ self.old.table }
        ensures moved { OnOk result (IsRetired self.old self.new) }
    {
        match self.pending.pop() {
            Some(held) => {
                self.judged.push(held)?;
                Ok(())
            }
            None => Ok(()),
        }
    }

    /// Keeps a shape of the question that was worked on. All others that the call holds to be empty are to be
    /// judged again.
    fn refute(&mut self, shape: Witness) -> Result<(), Memory>
        requires some { 0 < length self.old.pending.items }
        requires known { All (λ h. Knows self.old.table h.question) self.old.pending.items }
        ensures diagrams { self.new.diagrams ≡ self.old.diagrams }
        ensures kept { IsKept self.old self.new shape }
        ensures refuted { OnOk result (IsRefuted self.old self.new shape) }
    {
        match self.pending.pop() {
            Some(held) => {
                self.table.find(held.question, shape);
                self.restart()
            }
            None => Ok(()),
        }
    }

    /// Has all questions that the call holds to be empty judged again from their first path.
    fn restart(&mut self) -> Result<(), Memory>
        ensures diagrams { self.new.diagrams ≡ self.old.diagrams }
        ensures table { self.new.table ≡ self.old.table }
        ensures again { OnOk result (AreAgain self.old self.new) }
    {
        self.judged.append(&mut self.pending)?;
        mem::swap(&mut self.judged, &mut self.pending);
        for held in self.pending.iter_mut() {
            held.next = 0;
        }
        Ok(())
    }

    /// Ends a call. Where the first question has a shape, what was held to be empty on the way is dropped; else
    /// all that is held to be empty is so.
    fn close(&mut self, found: bool)
        requires { AreApart self.old.table }
        ensures apart { AreApart self.new.table }
        ensures diagrams { self.new.diagrams ≡ self.old.diagrams }
        ensures pending { self.new.pending.items ≡ [] }
        ensures judged { self.new.judged.items ≡ [] }
        ensures table { MatchBool found (IsWithoutAll self.old.table self.new.table (self.old.pending.items ++ self.old.judged.items)) (self.new.table ≡ self.old.table) }
    {
        if found {
            self.table.forget(&mut self.pending);
            self.table.forget(&mut self.judged);
        } else {
            self.pending.clear();
            self.judged.clear();
        }
    }

    /// Cuts the table back to its first entries.
    fn undo(&mut self, start: usize)
        ensures diagrams { self.new.diagrams ≡ self.old.diagrams }
        ensures pending { self.new.pending.items ≡ [] }
        ensures judged { self.new.judged.items ≡ [] }
        ensures table { self.new.table ≡ take start self.old.table }
    {
        self.table.cut(start);
        self.pending.clear();
        self.judged.clear();
    }
}
