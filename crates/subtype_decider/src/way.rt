//! The paths of a question, of all kinds.
ghost use Rattle.std.specs.Prelude.{◌≡◌, ◌++◌, ◌∷◌, [], IfOk, OnOk, map};
ghost use Rattle.type_diagrams.specs.Tables.{IsDiagram, condition};
ghost use Rattle.type_diagrams.specs.Questions.{HasPaths, IsUnionOf};
ghost use Rattle.subtype_decider.specs.Working.{HasWays};
ghost use Rattle.subtype_decider.specs.Paths.{GainsWays};

use bal_base::Memory;
use std::alloc::Global;
use type_diagrams::{Diagrams, Kind, Path};

/// A path, and the kind of its shapes.
#[derive(Drop)]
pub struct Way {
    pub kind: Kind,
    pub path: Path,
}

/// All paths of the diagram.
pub(crate) fn ways(alloc: Global, diagrams: &Diagrams, question: u32) -> Result<Vec<Way>, Memory>
    requires { IsDiagram diagrams.now question }
    ensures { IfOk result (λ ways. HasWays (condition diagrams.now question) ways.items) }
{
    let mut ways = Vec::new(alloc);
    add(&mut ways, alloc, diagrams, question, Kind::List)?;
    add(&mut ways, alloc, diagrams, question, Kind::Mapping)?;
    add(&mut ways, alloc, diagrams, question, Kind::Error)?;
    add(&mut ways, alloc, diagrams, question, Kind::Function)?;
    add(&mut ways, alloc, diagrams, question, Kind::Future)?;
    Ok(ways)
}

/// Adds the paths of a kind.
fn add(
    ways: &mut Vec<Way>,
    alloc: Global,
    diagrams: &Diagrams,
    question: u32,
    kind: Kind,
) -> Result<(), Memory>
    requires { IsDiagram diagrams.now question }
    ensures { OnOk result (GainsWays (condition diagrams.now question) kind ways.old.items ways.new.items) }
{
    for path in diagrams.paths(alloc, question, kind)? {
        ways.push(Way { kind, path })?;
    }
    Ok(())
}
