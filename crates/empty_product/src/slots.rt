//! The places of a product, one by one.
ghost use Rattle.std.specs.Prelude.{ℕ, All, IfOk, IsTrue, List, Option, true, false};
ghost use Rattle.bal_base.specs.declared.shape.Shape.{Shape};
ghost use Rattle.type_model.specs.declared.atoms.AtomDef.{AtomDef};
ghost use Rattle.type_diagrams.specs.Tables.{IsDiagram};
ghost use Rattle.type_diagrams.specs.Turns.{IsSound};
ghost use Rattle.type_diagrams.specs.Whole.{Extends};
ghost use Rattle.empty_product.specs.Slots.{AvoidsAt, IsAt, IsDemand, IsKnown, IsSlot, TellsNarrowed, TellsPart, asking_of, place_of};

use bal_base::Memory;
use type_diagrams::{Context, Diagrams, Finding, Member, look_up};

/// What may stand at a place of a product.
#[derive(Clone, Copy)]
pub(crate) enum Slot {
    /// A part in the diagram, or none.
    Optional(u32),
    /// None.
    Absent,
    /// A part in the diagram.
    Present(u32),
}

/// What an unwanted atom asks at a place. It is avoided there by a part outside the diagram, or by having
/// none where one is required.
#[derive(Clone, Copy)]
pub(crate) struct Demand {
    pub(crate) question: u32,
    pub(crate) required: bool,
}

/// What an unwanted atom asks at each place.
#[derive(Drop)]
pub(crate) struct Unwanted {
    pub(crate) demands: Vec<Demand>,
}

/// What is known of a question.
#[derive(Clone, Copy)]
pub(crate) enum Known {
    /// The table has a shape of it.
    Full,
    /// It is held to be empty, or no shape is in it.
    Void,
    /// The table doesn't know it.
    Unknown,
}

/// What is known of a question.
pub(crate) fn standing<M: Member>(dia: &Diagrams, question: u32, m: &M) -> Known
    requires question { IsDiagram dia.now question }
    ensures { IsKnown dia.now (M.kept m.now) question result }
{
    if dia.is_nothing(question) {
        return Known::Void;
    }
    match m.seen(question) {
        Some(Some(_)) => Known::Full,
        Some(None) => Known::Void,
        None => Known::Unknown,
    }
}

/// A shape of a question that the table has, shared with the table; that none is in it, or that it is held to be
/// empty; or that the table doesn't know it.
pub(crate) fn find_part<M: Member>(
    context: &Context<'_, M>,
    dia: &Diagrams,
    question: u32,
) -> Result<Finding, Memory>
    requires question { IsDiagram dia.now question }
    ensures { IfOk result (λ finding. (env : List AtomDef) → All (IsSound env dia.now) (M.kept context.now.m.now) → TellsPart env dia.now (M.kept context.now.m.now) question finding) }
{
    if dia.is_nothing(question) {
        return Ok(Finding::Held);
    }
    look_up(context.m, question)
}

/// A slot where a demand is avoided.
#[derive(Clone, Copy)]
pub(crate) enum Narrowed {
    /// The slot then.
    Slot(Slot),
    /// There is none.
    Nothing,
    /// A question that the table doesn't know.
    Ask(u32),
}

/// The slot without a part, where that avoids the demand.
fn without_part(dia: &Diagrams, slot: Slot, demand: Demand) -> Narrowed
    requires slot { IsSlot dia.now slot }
    ensures { (kept : List (ℕ × Option Shape)) → TellsNarrowed dia.now kept (place_of dia.now slot) (asking_of dia.now demand) true result }
{
    match slot {
        Slot::Present(_) => Narrowed::Nothing,
        Slot::Optional(_) | Slot::Absent => {
            if demand.required {
                Narrowed::Slot(Slot::Absent)
            } else {
                Narrowed::Nothing
            }
        }
    }
}

/// The slot with a part outside the demand. Where such a part may be simple, the table isn't asked: a question
/// is asked once all atoms are avoided, and not for each of them.
fn with_other_part<M: Member>(
    dia: &mut Diagrams,
    slot: Slot,
    demand: Demand,
    m: &M,
) -> Result<Narrowed, Memory>
    requires slot { IsSlot dia.old slot }
    requires demand { IsDemand dia.old demand }
    ensures extends { Extends 0 dia.old dia.new }
    ensures tells { IfOk result (TellsNarrowed dia.new (M.kept m.now) (place_of dia.old slot) (asking_of dia.old demand) false) }
{
    let from = match slot {
        Slot::Absent => return Ok(Narrowed::Nothing),
        Slot::Optional(question) | Slot::Present(question) => question,
    };
    let question = dia.diff(from, demand.question)?;
    if dia.has_simple_shape(question) {
        return Ok(Narrowed::Slot(Slot::Present(question)));
    }
    match standing(dia, question, m) {
        Known::Full => Ok(Narrowed::Slot(Slot::Present(question))),
        Known::Void => Ok(Narrowed::Nothing),
        Known::Unknown => Ok(Narrowed::Ask(question)),
    }
}

/// The slot where the demand is avoided, by having no part or by having another one.
pub(crate) fn narrow_slot<M: Member>(
    dia: &mut Diagrams,
    slot: Slot,
    demand: Demand,
    absent: bool,
    m: &M,
) -> Result<Narrowed, Memory>
    requires slot { IsSlot dia.old slot }
    requires demand { IsDemand dia.old demand }
    ensures extends { Extends 0 dia.old dia.new }
    ensures tells { IfOk result (TellsNarrowed dia.new (M.kept m.now) (place_of dia.old slot) (asking_of dia.old demand) absent) }
{
    if absent {
        Ok(without_part(dia, slot, demand))
    } else {
        with_other_part(dia, slot, demand, m)
    }
}

/// Whether all that may stand at the place avoids the demand.
pub(crate) fn is_outside(dia: &mut Diagrams, slot: Slot, demand: Demand) -> Result<bool, Memory>
    requires slot { IsSlot dia.old slot }
    requires demand { IsDemand dia.old demand }
    ensures extends { Extends 0 dia.old dia.new }
    ensures outside { IfOk result (λ is. IsTrue is → (env : List AtomDef) (x : Option Shape) → IsAt env (place_of dia.old slot) x → AvoidsAt env (asking_of dia.old demand) x) }
{
    match slot {
        Slot::Absent => Ok(demand.required),
        Slot::Present(question) => Ok(dia.diff(question, demand.question)? == question),
        Slot::Optional(question) => {
            Ok(dia.diff(question, demand.question)? == question && demand.required)
        }
    }
}
