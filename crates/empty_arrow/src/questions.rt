//! Questions, put together of types.
ghost use Rattle.std.specs.Prelude.{◌≤◌, IfOk, OnOk, [], map, length, All};
ghost use Rattle.type_model.specs.Defined.{IsDefined};
ghost use Rattle.type_diagrams.specs.Kinds.{the_mark};
ghost use Rattle.type_diagrams.specs.Conditions.{condition_of, and_of, without, asks};
ghost use Rattle.type_diagrams.specs.Tables.{IsDiagram, condition};
ghost use Rattle.type_diagrams.specs.Whole.{Extends, Gives};
ghost use Rattle.empty_arrow.specs.Parts.{HasPart, part_of};

use crate::parts::part;
use bal_base::Memory;
use type_diagrams::Diagrams;
use type_model::{SemType, TypeEnv};

/// The shapes of a diagram that are in the type.
pub(crate) fn within(env: &TypeEnv, dia: &mut Diagrams, a: u32, t: &SemType) -> Result<u32, Memory>
    requires diagram { IsDiagram dia.old a }
    requires defined { IsDefined env.now t.now }
    ensures extends { Extends (length env.now) dia.old dia.new }
    ensures made { IfOk result (Gives dia.new (and_of (condition dia.old a) (condition_of env.now t.now))) }
{
    let b = dia.of(env, t)?;
    dia.inter(a, b)
}

/// The shapes of a diagram that aren't in the type.
pub(crate) fn outside(env: &TypeEnv, dia: &mut Diagrams, a: u32, t: &SemType) -> Result<u32, Memory>
    requires diagram { IsDiagram dia.old a }
    requires defined { IsDefined env.now t.now }
    ensures extends { Extends (length env.now) dia.old dia.new }
    ensures made { IfOk result (Gives dia.new (without (condition dia.old a) (condition_of env.now t.now))) }
{
    let b = dia.of(env, t)?;
    dia.diff(a, b)
}

/// What all these atoms ask of a part.
pub(crate) fn within_parts(env: &TypeEnv, dia: &mut Diagrams, atoms: &[u32]) -> Result<u32, Memory>
    requires { All (HasPart env.now) atoms.now }
    ensures few { OnOk result (length env.now ≤ the_mark) }
    ensures extends { Extends (length env.now) dia.old dia.new }
    ensures made { IfOk result (Gives dia.new (asks (map (part_of env.now) atoms.now) [])) }
{
    let defs = env.defs();
    let mut question = dia.every()?;
    for atom in atoms {
        question = within(env, dia, question, part(defs, *atom))?;
    }
    Ok(question)
}
