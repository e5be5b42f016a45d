//! Products that avoid atoms.
ghost use Rattle.std.specs.Prelude.{[], ◌<◌, ◌≡◌, All, IfOk, IsTrue, List, Option, length, map};
ghost use Rattle.bal_base.specs.declared.shape.Shape.{Shape as AnyShape};
ghost use Rattle.type_model.specs.declared.atoms.AtomDef.{AtomDef};
ghost use Rattle.type_diagrams.specs.Turns.{IsSound};
ghost use Rattle.type_diagrams.specs.Whole.{Extends};
ghost use Rattle.empty_product.specs.Products.{AreSlots, AreUnwanted, Avoids, IsIn, TellsFilling, TellsKept, TellsNext, all_askings, places_of};
ghost use Rattle.empty_product.specs.Slots.{IsDemand, IsSlot, asking_of, place_of};

use crate::slots::{Demand, Narrowed, Slot, Unwanted, find_part, is_outside, narrow_slot};
use bal_base::Memory;
use type_diagrams::{Context, Diagrams, Finding, Member};
use witness::Witness;

/// What is found of a product.
#[derive(Drop)]
pub(crate) enum Filling {
    /// A part for each place, or none.
    Parts(Vec<Option<Witness>>),
    /// For each filling, one of its parts is in a question that the table holds to be empty.
    Empty,
    /// A question about a part that the table doesn't know.
    Ask(u32),
}

/// The slots where a demand is avoided at one place.
#[derive(Drop)]
enum Next {
    Slots(Vec<Slot>),
    Nothing,
    Ask(u32),
}

/// A filling of the slots that avoids each of the atoms.
pub(crate) fn avoid<M: Member>(
    context: &Context<'_, M>,
    dia: &mut Diagrams,
    slots: &[Slot],
    unwanted: &[Unwanted],
) -> Result<Filling, Memory>
    requires slots { AreSlots dia.old slots.now }
    requires unwanted { AreUnwanted dia.old (length slots.now) unwanted.now }
    ensures extends { Extends 0 dia.old dia.new }
    ensures tells { IfOk result (λ filling. (env : List AtomDef) → All (IsSound env dia.old) (M.kept context.now.m.now) → TellsFilling env dia.new (M.kept context.now.m.now) (places_of dia.old slots.now) (all_askings dia.old unwanted.now) filling) }
{
    match unwanted {
        [] => filled(context, dia, slots),
        [first, rest @ ..] => {
            if is_avoided(dia, slots, &first.demands)? {
                return avoid(context, dia, slots, rest);
            }
            for step in 0..2 * first.demands.len() {
                let (place, absent) = (step / 2, step % 2 == 0);
                let next = match narrow(context, dia, slots, &first.demands, place, absent)? {
                    Next::Slots(next) => next,
                    Next::Nothing => continue,
                    Next::Ask(question) => return Ok(Filling::Ask(question)),
                };
                match avoid(context, dia, &next, rest)? {
                    Filling::Empty => {}
                    Filling::Parts(parts) => return Ok(Filling::Parts(parts)),
                    Filling::Ask(question) => return Ok(Filling::Ask(question)),
                }
            }
            Ok(Filling::Empty)
        }
    }
}

/// Whether each filling of the slots avoids the demands at the same place.
fn is_avoided(dia: &mut Diagrams, slots: &[Slot], demands: &[Demand]) -> Result<bool, Memory>
    requires slots { AreSlots dia.old slots.now }
    requires demands { All (IsDemand dia.old) demands.now }
    requires lengths { length demands.now ≡ length slots.now }
    ensures extends { Extends 0 dia.old dia.new }
    ensures avoided { IfOk result (λ is. IsTrue is → (env : List AtomDef) (parts : List (Option AnyShape)) → IsIn env (places_of dia.old slots.now) parts → Avoids env (map (asking_of dia.old) demands.now) parts) }
{
    for place in 0..demands.len() {
        if is_outside(dia, slots[place], demands[place])? {
            return Ok(true);
        }
    }
    Ok(false)
}

/// The slots where the demands are avoided at a place, by having no part there or by having another one.
fn narrow<M: Member>(
    context: &Context<'_, M>,
    dia: &mut Diagrams,
    slots: &[Slot],
    demands: &[Demand],
    place: usize,
    absent: bool,
) -> Result<Next, Memory>
    requires slots { AreSlots dia.old slots.now }
    requires demands { All (IsDemand dia.old) demands.now }
    requires lengths { length demands.now ≡ length slots.now }
    requires place { place < length slots.now }
    ensures extends { Extends 0 dia.old dia.new }
    ensures tells { IfOk result (TellsNext dia.new (M.kept context.now.m.now) (places_of dia.old slots.now) (map (asking_of dia.old) demands.now) place absent) }
{
    match narrow_slot(dia, slots[place], demands[place], absent, context.m)? {
        Narrowed::Slot(slot) => {
            let mut next = Vec::from_slice(context.alloc, slots)?;
            next[place] = slot;
            Ok(Next::Slots(next))
        }
        Narrowed::Nothing => Ok(Next::Nothing),
        Narrowed::Ask(question) => Ok(Next::Ask(question)),
    }
}

/// A part that the table has for each slot that needs one.
fn filled<M: Member>(
    context: &Context<'_, M>,
    dia: &Diagrams,
    slots: &[Slot],
) -> Result<Filling, Memory>
    requires slots { AreSlots dia.now slots.now }
    ensures { IfOk result (λ filling. (env : List AtomDef) → All (IsSound env dia.now) (M.kept context.now.m.now) → TellsFilling env dia.now (M.kept context.now.m.now) (places_of dia.now slots.now) [] filling) }
{
    let mut parts = Vec::new(context.alloc);
    for slot in slots {
        match kept_part(context, dia, *slot)? {
            Kept::Part(part) => parts.push(part)?,
            Kept::Void => return Ok(Filling::Empty),
            Kept::Unknown(question) => return Ok(Filling::Ask(question)),
        }
    }
    Ok(Filling::Parts(parts))
}

/// What the table has for a slot.
#[derive(Drop)]
enum Kept {
    Part(Option<Witness>),
    Void,
    Unknown(u32),
}

fn kept_part<M: Member>(
    context: &Context<'_, M>,
    dia: &Diagrams,
    slot: Slot,
) -> Result<Kept, Memory>
    requires slot { IsSlot dia.now slot }
    ensures { IfOk result (λ kept. (env : List AtomDef) → All (IsSound env dia.now) (M.kept context.now.m.now) → TellsKept env dia.now (M.kept context.now.m.now) (place_of dia.now slot) kept) }
{
    let question = match slot {
        Slot::Optional(_) | Slot::Absent => return Ok(Kept::Part(None)),
        Slot::Present(question) => question,
    };
    match find_part(context, dia, question)? {
        Finding::Part(part) => Ok(Kept::Part(Some(part))),
        Finding::Held => Ok(Kept::Void),
        Finding::Unknown => Ok(Kept::Unknown(question)),
    }
}
