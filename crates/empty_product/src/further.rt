//! Parts behind all places that atoms tell apart.
ghost use Rattle.std.specs.Prelude.{All, IfOk, List};
ghost use Rattle.type_model.specs.declared.atoms.AtomDef.{AtomDef};
ghost use Rattle.type_diagrams.specs.Tables.{IsDiagram, condition};
ghost use Rattle.type_diagrams.specs.Turns.{IsSound};
ghost use Rattle.type_diagrams.specs.Whole.{Extends};
ghost use Rattle.empty_product.specs.Further.{TellsFurther, rest_askings_of};

use crate::slots::find_part;
use bal_base::Memory;
use type_diagrams::{Context, Diagrams, Finding, Member};
use witness::Witness;

/// What an unwanted atom asks of all further parts.
#[derive(Clone, Copy)]
pub(crate) struct RestDemand {
    pub(crate) atom: u32,
    pub(crate) question: u32,
}

/// Which atoms are avoided by further parts.
#[derive(Drop)]
pub(crate) enum Further {
    Parts(FurtherParts),
    /// A question about a further part that the table doesn't know.
    Ask(u32),
}

/// Further parts, one for each atom that is avoided by one, and the atoms that no further part avoids.
#[derive(Drop)]
pub(crate) struct FurtherParts {
    pub(crate) parts: Vec<Witness>,
    pub(crate) staying: Vec<u32>,
}

/// A further part in `rest` for each atom that can be avoided by one.
pub(crate) fn further_parts<M: Member>(
    context: &Context<'_, M>,
    dia: &mut Diagrams,
    rest: u32,
    demands: &[RestDemand],
) -> Result<Further, Memory>
    requires rest { IsDiagram dia.old rest }
    requires demands { All (λ d. IsDiagram dia.old d.question) demands.now }
    ensures extends { Extends 0 dia.old dia.new }
    ensures tells { IfOk result (λ further. (env : List AtomDef) → All (IsSound env dia.old) (M.kept context.now.m.now) → TellsFurther env dia.new (M.kept context.now.m.now) (condition dia.old rest) (rest_askings_of dia.old demands.now) further) }
{
    let mut parts = Vec::new(context.alloc);
    let mut staying = Vec::new(context.alloc);
    for demand in demands {
        let question = dia.diff(rest, demand.question)?;
        match find_part(context, dia, question)? {
            Finding::Part(part) => parts.push(part)?,
            Finding::Held => staying.push(demand.atom)?,
            Finding::Unknown => return Ok(Further::Ask(question)),
        }
    }
    Ok(Further::Parts(FurtherParts { parts, staying }))
}
