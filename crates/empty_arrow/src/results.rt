//! What stands among the results of futures.
ghost use Rattle.std.specs.Prelude.{◌≡◌, ◌+◌, IfOk, length};
ghost use Rattle.type_model.specs.declared.answers.Keys.TheVariants.{Results};
ghost use Rattle.type_diagrams.specs.declared.kind.Kind.TheVariants.{Future as Futures};
ghost use Rattle.type_diagrams.specs.Members.{atoms_in};
ghost use Rattle.type_diagrams.specs.Projections.{Projects};
ghost use Rattle.type_diagrams.specs.Turns.{IsReady};
ghost use Rattle.type_diagrams.specs.Whole.{Extends};

use crate::futures::fut_shape;
use crate::questions::within_parts;
use bal_base::Memory;
use std::alloc::Global;
use type_diagrams::{Diagrams, Member, Path, Projection, Turn};
use type_model::TypeEnv;

/// What stands among the results of a future path's shapes: where it has a shape, whatever is a result of all
/// wanted atoms, since a future of the path stays one with a further such result.
pub fn fut_parts<M: Member>(
    alloc: Global,
    env: &TypeEnv,
    dia: &mut Diagrams,
    path: &Path,
    m: &M,
) -> Result<Projection, Memory>
    requires { IsReady env.now dia.old (M.kept m.now) Futures path.now }
    ensures extends { Extends (length env.now) dia.old dia.new }
    ensures projects { IfOk result (Projects env.now dia.new (M.kept m.now) Futures path.now Results) }
{
    let _places = places(alloc, path)?;
    match fut_shape(alloc, env, dia, path, m)? {
        Turn::Shape(_) => {
            let wanted = path.wanted(alloc)?;
            let parts = within_parts(env, dia, &wanted)?;
            Ok(Projection::Parts(parts))
        }
        Turn::Empty => {
            let none = dia.nothing()?;
            Ok(Projection::Parts(none))
        }
        Turn::Ask(question) => Ok(Projection::Ask(question)),
    }
}

/// A place for a result outside each unwanted atom, and for one more: a future can have so many results.
fn places(alloc: Global, path: &Path) -> Result<Vec<u32>, Memory>
    ensures { IfOk result (λ places. length places.items ≡ length (atoms_in path.now.neg) + 1) }
{
    let mut places = path.unwanted(alloc)?;
    places.push(0)?;
    Ok(places)
}
