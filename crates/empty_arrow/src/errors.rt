//! Error paths.
ghost use Rattle.std.specs.Prelude.{◌≤◌, ◌∷◌, ◌++◌, [], map, length, All, IfOk, OnOk};
ghost use Rattle.type_diagrams.specs.declared.kind.Kind.TheVariants.{Error as Errors};
ghost use Rattle.type_diagrams.specs.Kinds.{the_mark};
ghost use Rattle.type_diagrams.specs.Conditions.{asks};
ghost use Rattle.type_diagrams.specs.Members.{atoms_in};
ghost use Rattle.type_diagrams.specs.Questions.{mappings, readonly};
ghost use Rattle.type_diagrams.specs.Tables.{IsDiagram, condition};
ghost use Rattle.type_diagrams.specs.Turns.{IsReady, Turns};
ghost use Rattle.type_diagrams.specs.Whole.{Extends, Gives};
ghost use Rattle.empty_arrow.specs.Parts.{HasPart, part_of};

use crate::parts::part;
use crate::questions::{outside, within, within_parts};
use bal_base::Memory;
use std::alloc::Global;
use type_diagrams::{Diagrams, Finding, Member, Path, Turn, look_up};
use type_model::{BasicSet, SemType, TypeEnv};
use witness::Witness;

/// A shape of an error path, that there is none, or the question about the detail: for marked mappings in
/// all wanted details and in no unwanted one. No error is marked. The shape has the detail that the table keeps,
/// and no copy of it.
pub fn err_shape<M: Member>(
    alloc: Global,
    env: &TypeEnv,
    dia: &mut Diagrams,
    path: &Path,
    m: &M,
) -> Result<Turn, Memory>
    requires { IsReady env.now dia.old (M.kept m.now) Errors path.now }
    ensures extends { Extends (length env.now) dia.old dia.new }
    ensures turns { IfOk result (Turns env.now dia.new (M.kept m.now) Errors path.now) }
{
    let question = detail_question(alloc, env, dia, path)?;
    if path.is_marked() {
        return Ok(Turn::Empty);
    }
    match look_up(m, question)? {
        Finding::Part(detail) => Ok(Turn::Shape(Witness::error(alloc, detail)?)),
        Finding::Held => Ok(Turn::Empty),
        Finding::Unknown => Ok(Turn::Ask(question)),
    }
}

/// What the path asks of the detail.
fn detail_question(
    alloc: Global,
    env: &TypeEnv,
    dia: &mut Diagrams,
    path: &Path,
) -> Result<u32, Memory>
    requires wanted { All (HasPart env.now) (atoms_in path.now.pos) }
    requires unwanted { All (HasPart env.now) (atoms_in path.now.neg) }
    ensures few { OnOk result (length env.now ≤ the_mark) }
    ensures extends { Extends (length env.now) dia.old dia.new }
    ensures made { IfOk result (Gives dia.new (asks (map (part_of env.now) (atoms_in path.now.pos) ++ mappings env.now ∷ readonly env.now ∷ []) (map (part_of env.now) (atoms_in path.now.neg)))) }
{
    let wanted = path.wanted(alloc)?;
    let unwanted = path.unwanted(alloc)?;
    let details = within_parts(env, dia, &wanted)?;
    let mappings = within(env, dia, details, &SemType::Basic(BasicSet::MappingAll))?;
    let marked = within(env, dia, mappings, &SemType::Basic(BasicSet::Readonly))?;
    outside_parts(env, dia, marked, &unwanted)
}

/// The shapes of a diagram that none of these atoms asks for.
fn outside_parts(env: &TypeEnv, dia: &mut Diagrams, a: u32, atoms: &[u32]) -> Result<u32, Memory>
    requires diagram { IsDiagram dia.old a }
    requires atoms { All (HasPart env.now) atoms.now }
    ensures extends { Extends (length env.now) dia.old dia.new }
    ensures made { IfOk result (Gives dia.new (asks (condition dia.old a ∷ []) (map (part_of env.now) atoms.now))) }
{
    let defs = env.defs();
    let mut question = a;
    for atom in atoms {
        question = outside(env, dia, question, part(defs, *atom))?;
    }
    Ok(question)
}
