//! Future paths.
ghost use Rattle.std.specs.Prelude.{◌≤◌, length, All, IfOk};
ghost use Rattle.type_diagrams.specs.declared.kind.Kind.TheVariants.{Future as Futures};
ghost use Rattle.type_diagrams.specs.Tables.{IsDiagram, condition};
ghost use Rattle.type_diagrams.specs.Turns.{IsReady, IsSound, Turns};
ghost use Rattle.type_diagrams.specs.Whole.{Extends};
ghost use Rattle.empty_arrow.specs.Parts.{HasPart};
ghost use Rattle.empty_arrow.specs.Results.{TellsResults};

use crate::parts::part;
use crate::questions::{outside, within_parts};
use bal_base::{Memory, Shape, Shapes};
use std::alloc::Global;
use type_diagrams::{Context, Diagrams, Finding, Member, Path, Turn, look_up};
use type_model::TypeEnv;
use witness::Witness;

/// A shape of a future path, that there is none, or a question about a result: for each unwanted atom, a
/// result in all wanted atoms' results that isn't in this one's. No future is marked. The shape has copies of the
/// results that the table keeps, so this takes time and memory by their size written out.
pub fn fut_shape<M: Member>(
    alloc: Global,
    env: &TypeEnv,
    dia: &mut Diagrams,
    path: &Path,
    m: &M,
) -> Result<Turn, Memory>
    requires { IsReady env.now dia.old (M.kept m.now) Futures path.now }
    ensures extends { Extends (length env.now) dia.old dia.new }
    ensures turns { IfOk result (Turns env.now dia.new (M.kept m.now) Futures path.now) }
{
    let context = Context { alloc, env, m };
    let wanted = path.wanted(alloc)?;
    let unwanted = path.unwanted(alloc)?;
    let all = within_parts(env, dia, &wanted)?;
    if path.is_marked() {
        return Ok(Turn::Empty);
    }
    results(&context, dia, all, &unwanted)
}

/// A future with results in the diagram, one outside each atom's results; or that the table has none for
/// an atom, or the question about it.
fn results<M: Member>(
    context: &Context<'_, M>,
    dia: &mut Diagrams,
    all: u32,
    unwanted: &[u32],
) -> Result<Turn, Memory>
    requires diagram { IsDiagram dia.old all }
    requires atoms { All (HasPart context.now.env.now) unwanted.now }
    requires sound { All (IsSound context.now.env.now dia.old) (M.kept context.now.m.now) }
    ensures extends { Extends (length context.now.env.now) dia.old dia.new }
    ensures tells { IfOk result (TellsResults context.now.env.now dia.new (M.kept context.now.m.now) (condition dia.old all) unwanted.now) }
{
    let defs = context.env.defs();
    let mut found = Vec::new(context.alloc);
    for atom in unwanted {
        let question = outside(context.env, dia, all, part(defs, *atom))?;
        let result = match look_up(context.m, question)? {
            Finding::Part(result) => result,
            Finding::Held => return Ok(Turn::Empty),
            Finding::Unknown => return Ok(Turn::Ask(question)),
        };
        found.push(result.copied(context.alloc)?)?;
    }
    let future = Shape::Future {
        results: Shapes::of(found),
    };
    Ok(Turn::Shape(Witness::whole(context.alloc, future)?))
}
