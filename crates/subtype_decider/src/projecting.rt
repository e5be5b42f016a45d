//! What stands at keys of lists and mappings, and among the results of futures.
ghost use Rattle.std.specs.Prelude.{◌≡◌, ◌↔◌, All, Contains, IfOk, OnOk, length};
ghost use Rattle.bal_base.specs.Stops.{IfFault};
ghost use Rattle.type_model.specs.Calls.{Asked};
ghost use Rattle.type_diagrams.specs.Conditions.{LooksAtKinds};
ghost use Rattle.type_diagrams.specs.Projections.{Projects};
ghost use Rattle.type_diagrams.specs.Questions.{IsPathOf};
ghost use Rattle.type_diagrams.specs.Reach.{IsFirst, Passes, Reached};
ghost use Rattle.type_diagrams.specs.Tables.{IsDiagram, condition};
ghost use Rattle.type_diagrams.specs.Turns.{IsReady};
ghost use Rattle.type_diagrams.specs.Whole.{Extends};
ghost use Rattle.subtype_decider.specs.Projections.{IsQuestionOf, StandsInShapeOf, StandsOn};
ghost use Rattle.subtype_decider.specs.Projections.{kind_at as the_kind};
ghost use Rattle.subtype_decider.specs.Working.{IsAtRest};

use crate::questions::Questions;
use crate::settles::Settles;
use bal_base::{Memory, Stop};
use empty_arrow::fut_parts;
use empty_product::{list_parts, map_parts};
use std::alloc::Global;
use type_diagrams::{Diagrams, Kind, Member, Path, Projection};
use type_model::{BasicSet, Keys, SemType, TypeEnv, TypeLimit};

impl Questions {
    /// The question for what stands at such keys in shapes of a question. The table keeps all that it knew. The
    /// limits are those of `decide`.
    pub fn project<S: Settles>(
        &mut self,
        alloc: Global,
        settles: &S,
        env: &TypeEnv,
        question: u32,
        keys: &Keys,
    ) -> Result<u32, Stop<TypeLimit>>
        requires rest { IsAtRest env.now self.old }
        requires diagram { IsDiagram self.old.diagrams question }
        requires looks { LooksAtKinds env.now (condition self.old.diagrams question) }
        ensures rest { IsAtRest env.now self.new }
        ensures extends { Extends (length env.now) self.old.diagrams self.new.diagrams }
        ensures kept { All (Contains self.new.table) self.old.table }
        ensures parts { IfOk result (IsQuestionOf env.now self.new.diagrams (StandsInShapeOf env.now (condition self.old.diagrams question) keys.now)) }
        ensures limit { (asked : Asked) → Reached env.now (IsFirst env.now asked) (condition self.old.diagrams question) → IfFault result (Passes env.now asked) }
    {
        let paths = self.diagrams.paths(alloc, question, kind_at(keys))?;
        let mut parts = self.of(env, &SemType::Basic(BasicSet::Never))?;
        for path in &paths {
            let more = self.project_path(alloc, settles, env, question, path, keys)?;
            parts = self.diagrams.union(parts, more)?;
        }
        Ok(parts)
    }

    /// The question for what stands at such keys in shapes of a path of a question.
    fn project_path<S: Settles>(
        &mut self,
        alloc: Global,
        settles: &S,
        env: &TypeEnv,
        question: u32,
        path: &Path,
        keys: &Keys,
    ) -> Result<u32, Stop<TypeLimit>>
        requires rest { IsAtRest env.now self.old }
        requires diagram { IsDiagram self.old.diagrams question }
        requires looks { LooksAtKinds env.now (condition self.old.diagrams question) }
        requires path { IsPathOf (condition self.old.diagrams question) (the_kind keys.now) path.now }
        ensures rest { IsAtRest env.now self.new }
        ensures extends { Extends (length env.now) self.old.diagrams self.new.diagrams }
        ensures kept { All (Contains self.new.table) self.old.table }
        ensures parts { IfOk result (IsQuestionOf env.now self.new.diagrams (StandsOn env.now keys.now path.now)) }
        ensures limit { (asked : Asked) → Reached env.now (IsFirst env.now asked) (condition self.old.diagrams question) → IfFault result (Passes env.now asked) }
    {
        loop {
            let _known = self.table.len();
            match path_parts(alloc, env, &mut self.diagrams, path, keys, &self.table)? {
                Projection::Parts(parts) => return Ok(parts),
                Projection::Ask(unknown) => self.decide(alloc, settles, env, unknown)?,
            }
        }
    }
}

/// The kind of the shapes in which something stands at such keys.
fn kind_at(keys: &Keys) -> Kind
    ensures { result ≡ the_kind keys.now }
{
    match keys {
        Keys::Index(_) | Keys::AnyIndex => Kind::List,
        Keys::Field(_) | Keys::AnyField => Kind::Mapping,
        Keys::Results => Kind::Future,
    }
}

/// What is said of the parts that stand at such keys in shapes of a path.
fn path_parts<M: Member>(
    alloc: Global,
    env: &TypeEnv,
    dia: &mut Diagrams,
    path: &Path,
    keys: &Keys,
    m: &M,
) -> Result<Projection, Memory>
    requires { IsReady env.now dia.old (M.kept m.now) (the_kind keys.now) path.now }
    ensures extends { Extends (length env.now) dia.old dia.new }
    ensures projects { IfOk result (Projects env.now dia.new (M.kept m.now) (the_kind keys.now) path.now keys.now) }
{
    match keys {
        Keys::Index(place) => list_parts(alloc, env, dia, path, Some(*place), m),
        Keys::AnyIndex => list_parts(alloc, env, dia, path, None, m),
        Keys::Field(name) => map_parts(alloc, env, dia, path, Some(name), m),
        Keys::AnyField => map_parts(alloc, env, dia, path, None, m),
        Keys::Results => fut_parts(alloc, env, dia, path, m),
    }
}
