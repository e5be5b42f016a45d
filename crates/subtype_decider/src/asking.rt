//! Questions about a part of the shapes of a question, and whether there are any.
ghost use Rattle.std.specs.Prelude.{◌≡◌, IfOk, length};
ghost use Rattle.bal_base.specs.Stops.{IfFault};
ghost use Rattle.type_model.specs.Calls.{Asked};
ghost use Rattle.type_model.specs.Defined.{IsDefined};
ghost use Rattle.type_diagrams.specs.Conditions.{IsShapeOf, LooksAtKinds, condition_of, without};
ghost use Rattle.type_diagrams.specs.Reach.{IsFirst, Passes, Reached};
ghost use Rattle.type_diagrams.specs.Tables.{IsDiagram, condition};
ghost use Rattle.type_diagrams.specs.Whole.{Extends, Gives};
ghost use Rattle.subtype_decider.specs.Closed.{TellsSome};
ghost use Rattle.subtype_decider.specs.Working.{IsAtRest};

use crate::calls::Calls;
use crate::questions::Questions;
use bal_base::{Memory, Stop};
use std::alloc::Global;
use type_model::{SemType, TypeEnv, TypeLimit};

impl Questions {
    /// The question for those shapes of a question that aren't in the type.
    pub(crate) fn outside(
        &mut self,
        env: &TypeEnv,
        question: u32,
        t: &SemType,
    ) -> Result<u32, Memory>
        requires rest { IsAtRest env.now self.old }
        requires diagram { IsDiagram self.old.diagrams question }
        requires defined { IsDefined env.now t.now }
        ensures rest { IsAtRest env.now self.new }
        ensures table { self.new.table ≡ self.old.table }
        ensures extends { Extends (length env.now) self.old.diagrams self.new.diagrams }
        ensures gives { IfOk result (Gives self.new.diagrams (without (condition self.old.diagrams question) (condition_of env.now t.now))) }
    {
        let other = self.of(env, t)?;
        self.diagrams.diff(question, other)
    }

    /// Whether the diagram has a shape. The limits are those of `decide`.
    pub(crate) fn has_some(
        &mut self,
        alloc: Global,
        env: &TypeEnv,
        question: u32,
    ) -> Result<bool, Stop<TypeLimit>>
        requires rest { IsAtRest env.now self.old }
        requires diagram { IsDiagram self.old.diagrams question }
        requires looks { LooksAtKinds env.now (condition self.old.diagrams question) }
        ensures rest { IsAtRest env.now self.new }
        ensures extends { Extends (length env.now) self.old.diagrams self.new.diagrams }
        ensures some { IfOk result (TellsSome (IsShapeOf env.now (condition self.old.diagrams question))) }
        ensures limit { (asked : Asked) → Reached env.now (IsFirst env.now asked) (condition self.old.diagrams question) → IfFault result (Passes env.now asked) }
    {
        self.decide(alloc, &Calls, env, question)?;
        Ok(self.shape(question).is_some())
    }
}
