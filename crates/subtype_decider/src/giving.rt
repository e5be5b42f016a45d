//! What functions give that are in some arrows.
ghost use Rattle.std.specs.Prelude.{◌≡◌, [], All, IfOk, OnOk, length};
ghost use Rattle.bal_base.specs.Stops.{IfFault};
ghost use Rattle.type_model.specs.Calls.{Asked};
ghost use Rattle.type_diagrams.specs.Conditions.{LooksAtKinds};
ghost use Rattle.type_diagrams.specs.Reach.{IsFirst, Passes, Reached};
ghost use Rattle.type_diagrams.specs.Tables.{IsDiagram, condition};
ghost use Rattle.type_diagrams.specs.Whole.{Extends};
ghost use Rattle.empty_arrow.specs.Arrows.{IsArrow};
ghost use Rattle.empty_arrow.specs.Giving.{TellsGiven};
ghost use Rattle.empty_arrow.specs.Pairs.{AreArguments, AsksArguments};
ghost use Rattle.subtype_decider.specs.Working.{IsAtRest};

use crate::calls::Calls;
use crate::questions::Questions;
use crate::results::all_outcomes;
use bal_base::{Shape, Stop};
use empty_arrow::arrow_of;
use std::alloc::Global;
use type_model::{SemType, TypeEnv, TypeLimit};

impl Questions {
    /// What functions give to the arguments that are in all these arrows, and in those that are `taken`
    /// already: adds types to the results, or finds arguments that no arrow takes. Each arrow either doesn't
    /// take the arguments, or gives the result.
    pub(crate) fn arrows_give(
        &mut self,
        alloc: Global,
        env: &TypeEnv,
        arrows: &[u32],
        arguments: u32,
        taken: &mut Vec<u32>,
        results: &mut Vec<SemType>,
    ) -> Result<Option<Shape>, Stop<TypeLimit>>
        requires rest { IsAtRest env.now self.old }
        requires arrows { All (IsArrow env.now) arrows.now }
        requires taken { All (IsArrow env.now) taken.old.items }
        requires diagram { IsDiagram self.old.diagrams arguments }
        requires looks { LooksAtKinds env.now (condition self.old.diagrams arguments) }
        requires lists { AreArguments env.now (condition self.old.diagrams arguments) }
        ensures rest { IsAtRest env.now self.new }
        ensures extends { Extends (length env.now) self.old.diagrams self.new.diagrams }
        ensures taken { OnOk result (taken.new.items ≡ taken.old.items) }
        ensures gives { IfOk result (TellsGiven env.now (condition self.old.diagrams arguments) taken.old.items arrows.now results.old.items results.new.items) }
        ensures limit { (asked : Asked) → ((d : _) → AsksArguments env.now (condition self.old.diagrams arguments) arrows.now d → Reached env.now (IsFirst env.now asked) d) → IfFault result (Passes env.now asked) }
    {
        match arrows {
            [] => self.taken_give(alloc, env, arguments, taken, results),
            [first, rest @ ..] => {
                if !self.has_some(alloc, env, arguments)? {
                    return Ok(None);
                }
                let left = self.outside(env, arguments, arrow_of(env.defs(), *first).args)?;
                if let Some(outside) = self.arrows_give(alloc, env, rest, left, taken, results)? {
                    return Ok(Some(outside));
                }
                taken.push(*first)?;
                let outside = self.arrows_give(alloc, env, rest, arguments, taken, results)?;
                taken.pop();
                Ok(outside)
            }
        }
    }

    /// What is given where no arrow is left: what all arrows that are taken give, or else a failure.
    fn taken_give(
        &mut self,
        alloc: Global,
        env: &TypeEnv,
        arguments: u32,
        taken: &[u32],
        results: &mut Vec<SemType>,
    ) -> Result<Option<Shape>, Stop<TypeLimit>>
        requires rest { IsAtRest env.now self.old }
        requires taken { All (IsArrow env.now) taken.now }
        requires diagram { IsDiagram self.old.diagrams arguments }
        requires looks { LooksAtKinds env.now (condition self.old.diagrams arguments) }
        requires lists { AreArguments env.now (condition self.old.diagrams arguments) }
        ensures rest { IsAtRest env.now self.new }
        ensures extends { Extends (length env.now) self.old.diagrams self.new.diagrams }
        ensures gives { IfOk result (TellsGiven env.now (condition self.old.diagrams arguments) taken.now [] results.old.items results.new.items) }
        ensures limit { (asked : Asked) → Reached env.now (IsFirst env.now asked) (condition self.old.diagrams arguments) → IfFault result (Passes env.now asked) }
    {
        match taken {
            [] => self.find(alloc, &Calls, env, arguments),
            [first, others @ ..] => {
                if !self.has_some(alloc, env, arguments)? {
                    return Ok(None);
                }
                results.push(all_outcomes(alloc, env.defs(), *first, others)?)?;
                Ok(None)
            }
        }
    }
}
