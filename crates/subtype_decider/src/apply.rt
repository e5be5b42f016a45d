//! What the functions of a type give to arguments of a type.
ghost use Rattle.std.specs.Prelude.{◌∷◌, ◌<◌, ◌≤◌, [], All, IfOk, OnOk, length};
ghost use Rattle.bal_base.specs.Stops.{IfFault};
ghost use Rattle.type_model.specs.Application.{Applies, IsFunctionType, NamesDefined};
ghost use Rattle.type_model.specs.Calls.{Applied, Asked};
ghost use Rattle.type_model.specs.Defined.{IsDefined};
ghost use Rattle.type_diagrams.specs.declared.kind.Kind.TheVariants.{Function as Functions};
ghost use Rattle.type_diagrams.specs.Conditions.{LooksAtKinds, asks, condition_of};
ghost use Rattle.type_diagrams.specs.Kinds.{the_mark};
ghost use Rattle.type_diagrams.specs.Kept.{IsUnknown};
ghost use Rattle.type_diagrams.specs.Questions.{IsPathOf, lists, readonly};
ghost use Rattle.type_diagrams.specs.Reach.{IsFirst, Passes, Reached};
ghost use Rattle.type_diagrams.specs.Tables.{IsDiagram, condition};
ghost use Rattle.type_diagrams.specs.Turns.{HasLiteralsOf, IsShapeOn};
ghost use Rattle.type_diagrams.specs.Whole.{Extends, Gives};
ghost use Rattle.empty_arrow.specs.Giving.{IsOnOne, IsShort, TellsResults};
ghost use Rattle.empty_arrow.specs.Pairs.{AreArguments};
ghost use Rattle.subtype_decider.specs.Closed.{TellsSome};
ghost use Rattle.subtype_decider.specs.Leads.{LeadsToPath};
ghost use Rattle.subtype_decider.specs.Working.{IsAtRest, unknown_left};

use crate::calls::Calls;
use crate::questions::Questions;
use crate::results::one_of;
use crate::settles::Settles;
use bal_base::{Memory, Shape, Stop};
use std::alloc::Global;
use type_diagrams::{Kind, Path, Turn};
use type_model::{Apply, BasicSet, SemType, TypeEnv, TypeLimit};

impl Questions {
    /// The least type of the results that functions of `f` give to arguments in `args`, or arguments there at
    /// which one of them fails.
    pub(crate) fn apply(
        &mut self,
        alloc: Global,
        env: &TypeEnv,
        f: &SemType,
        args: &SemType,
    ) -> Result<Apply, Stop<TypeLimit>>
        requires rest { IsAtRest env.now self.old }
        requires f_defined { IsDefined env.now f.now }
        requires args_defined { IsDefined env.now args.now }
        requires functions { IsFunctionType env.now f.now }
        ensures rest { IsAtRest env.now self.new }
        ensures defined { IfOk result (NamesDefined env.now) }
        ensures applies { IfOk result (Applies env.now f.now args.now) }
        ensures limit { IfFault result (Passes env.now (Applied f.now args.now)) }
    {
        let _defs = env.defs();
        let functions = self.of(env, f)?;
        let arguments = self.arguments(env, args)?;
        let paths = self.diagrams.paths(alloc, functions, Kind::Function)?;
        let mut results = Vec::new(alloc);
        match self.paths_give(alloc, env, &paths, arguments, &mut results)? {
            Some(outside) => Ok(Apply::Outside(outside)),
            None => Ok(Apply::Result(one_of(alloc, results)?)),
        }
    }

    /// The question for the unmarked lists of a type.
    fn arguments(&mut self, env: &TypeEnv, args: &SemType) -> Result<u32, Memory>
        requires rest { IsAtRest env.now self.old }
        requires defined { IsDefined env.now args.now }
        ensures rest { IsAtRest env.now self.new }
        ensures extends { Extends (length env.now) self.old.diagrams self.new.diagrams }
        ensures gives { IfOk result (Gives self.new.diagrams (asks (condition_of env.now args.now ∷ lists env.now ∷ []) (readonly env.now ∷ []))) }
    {
        let args = self.of(env, args)?;
        let lists = self.of(env, &SemType::Basic(BasicSet::ListAll))?;
        let lists = self.diagrams.inter(args, lists)?;
        self.outside(env, lists, &SemType::Basic(BasicSet::Readonly))
    }

    /// What the functions of the paths give: adds types to the results, or finds arguments at which one of
    /// them fails.
    fn paths_give(
        &mut self,
        alloc: Global,
        env: &TypeEnv,
        paths: &[Path],
        arguments: u32,
        results: &mut Vec<SemType>,
    ) -> Result<Option<Shape>, Stop<TypeLimit>>
        requires rest { IsAtRest env.now self.old }
        requires few { length env.now ≤ the_mark }
        requires literals { All (HasLiteralsOf env.now Functions) paths.now }
        requires short { All IsShort paths.now }
        requires diagram { IsDiagram self.old.diagrams arguments }
        requires looks { LooksAtKinds env.now (condition self.old.diagrams arguments) }
        requires lists { AreArguments env.now (condition self.old.diagrams arguments) }
        ensures rest { IsAtRest env.now self.new }
        ensures gives { IfOk result (TellsResults env.now (IsOnOne env.now paths.now) (condition self.old.diagrams arguments) results.old.items results.new.items) }
        ensures limit { (asked : Asked) → All (LeadsToPath env.now asked (condition self.old.diagrams arguments)) paths.now → IfFault result (Passes env.now asked) }
    {
        for path in paths {
            if let Some(outside) = self.path_gives(alloc, env, path, arguments, results)? {
                return Ok(Some(outside));
            }
        }
        Ok(None)
    }

    /// What the functions of a path give. Where it has none, they give nothing.
    fn path_gives(
        &mut self,
        alloc: Global,
        env: &TypeEnv,
        path: &Path,
        arguments: u32,
        results: &mut Vec<SemType>,
    ) -> Result<Option<Shape>, Stop<TypeLimit>>
        requires rest { IsAtRest env.now self.old }
        requires few { length env.now ≤ the_mark }
        requires literals { HasLiteralsOf env.now Functions path.now }
        requires short { IsShort path.now }
        requires diagram { IsDiagram self.old.diagrams arguments }
        requires looks { LooksAtKinds env.now (condition self.old.diagrams arguments) }
        requires lists { AreArguments env.now (condition self.old.diagrams arguments) }
        ensures rest { IsAtRest env.now self.new }
        ensures extends { Extends (length env.now) self.old.diagrams self.new.diagrams }
        ensures gives { IfOk result (TellsResults env.now (IsShapeOn env.now Functions path.now) (condition self.old.diagrams arguments) results.old.items results.new.items) }
        ensures limit { (asked : Asked) → LeadsToPath env.now asked (condition self.old.diagrams arguments) path.now → IfFault result (Passes env.now asked) }
    {
        if !self.has_function(alloc, env, path)? {
            return Ok(None);
        }
        let wanted = path.wanted(alloc)?;
        let mut taken = Vec::new(alloc);
        self.arrows_give(alloc, env, &wanted, arguments, &mut taken, results)
    }

    /// Whether there is a function of the path. Each question that this asks is decided.
    fn has_function(
        &mut self,
        alloc: Global,
        env: &TypeEnv,
        path: &Path,
    ) -> Result<bool, Stop<TypeLimit>>
        requires rest { IsAtRest env.now self.old }
        requires literals { HasLiteralsOf env.now Functions path.now }
        ensures rest { IsAtRest env.now self.new }
        ensures extends { Extends (length env.now) self.old.diagrams self.new.diagrams }
        ensures some { IfOk result (TellsSome (IsShapeOn env.now Functions path.now)) }
        ensures limit { (asked : Asked) (question : _) → Reached env.now (IsFirst env.now asked) question → IsPathOf question Functions path.now → IfFault result (Passes env.now asked) }
    {
        loop {
            let turn = Calls.settle(
                alloc,
                env,
                &mut self.diagrams,
                Kind::Function,
                path,
                &self.table,
            )?;
            match turn {
                Turn::Shape(_) => return Ok(true),
                Turn::Empty => return Ok(false),
                Turn::Ask(question) => self.learn(alloc, env, question)?,
            }
        }
    }

    /// Decides a question that the table doesn't know.
    fn learn(&mut self, alloc: Global, env: &TypeEnv, question: u32) -> Result<(), Stop<TypeLimit>>
        requires rest { IsAtRest env.now self.old }
        requires unknown { IsUnknown self.old.table question }
        requires diagram { IsDiagram self.old.diagrams question }
        requires looks { LooksAtKinds env.now (condition self.old.diagrams question) }
        ensures rest { IsAtRest env.now self.new }
        ensures extends { Extends (length env.now) self.old.diagrams self.new.diagrams }
        ensures less { OnOk result (unknown_left self.new < unknown_left self.old) }
        ensures limit { (asked : Asked) → Reached env.now (IsFirst env.now asked) (condition self.old.diagrams question) → IfFault result (Passes env.now asked) }
    {
        let _known = self.table.len();
        self.decide(alloc, &Calls, env, question)
    }
}
