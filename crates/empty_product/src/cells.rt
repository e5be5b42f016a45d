//! What stands at one place of products that avoid atoms.
ghost use Rattle.std.specs.Prelude.{◌≡◌, ◌++◌, ◌∷◌, [], ◌<◌, All, IfOk, List, length};
ghost use Rattle.std.specs.List.{AllZip};
ghost use Rattle.type_model.specs.declared.atoms.AtomDef.{AtomDef};
ghost use Rattle.type_diagrams.specs.Conditions.{LooksAtKinds};
ghost use Rattle.type_diagrams.specs.Tables.{IsDiagram, condition};
ghost use Rattle.type_diagrams.specs.Turns.{IsSound};
ghost use Rattle.type_diagrams.specs.Whole.{Extends};
ghost use Rattle.empty_product.specs.Cells.{GivesDiagram, IsAimOf, IsAimed, LooksAtParts, TellsCells, aims_of, demands_in};
ghost use Rattle.empty_product.specs.Products.{AreSlots, AreUnwanted, all_askings, places_of};
ghost use Rattle.empty_product.specs.Standing.{AreLooking, TellsStanding, question_of};

use crate::avoid::{Filling, avoid};
use crate::slots::{Demand, Slot, Unwanted};
use bal_base::Memory;
use std::alloc::Global;
use type_diagrams::{Context, Diagrams, Member, Projection};

/// What an unwanted atom asks at one place, the target, and at all places. It can't be avoided at the target
/// by these demands.
#[derive(Drop)]
pub(crate) struct Aimed {
    pub(crate) there: u32,
    pub(crate) elsewhere: Unwanted,
}

/// What is sought at the target, and what was found there before.
#[derive(Clone, Copy)]
pub(crate) struct Sought {
    pub(crate) part: u32,
    pub(crate) found: u32,
}

/// Besides what was found what stands at the target: what is in the part that is sought and outside some of the
/// undecided atoms, where some filling of the other places avoids the others of these, and the decided ones too.
/// The part itself is asked of no table.
pub(crate) fn cells<M: Member>(
    context: &Context<'_, M>,
    dia: &mut Diagrams,
    slots: &[Slot],
    undecided: &[Aimed],
    decided: &[Unwanted],
    sought: Sought,
) -> Result<Projection, Memory>
    requires slots { AreSlots dia.old slots.now }
    requires undecided { All (IsAimed dia.old (length slots.now)) undecided.now }
    requires decided { AreUnwanted dia.old (length slots.now) decided.now }
    requires part { IsDiagram dia.old sought.part }
    requires found { IsDiagram dia.old sought.found }
    ensures extends { Extends 0 dia.old dia.new }
    ensures diagram { IfOk result (GivesDiagram dia.new) }
    ensures looks { IfOk result (λ p. (env : List AtomDef) → LooksAtKinds env (condition dia.old sought.part) → LooksAtKinds env (condition dia.old sought.found) → All (λ a. LooksAtKinds env (condition dia.old a.there)) undecided.now → LooksAtParts env dia.new p) }
    ensures tells { IfOk result (λ p. (env : List AtomDef) → All (IsSound env dia.old) (M.kept context.now.m.now) → TellsCells env (places_of dia.old slots.now) dia.new (M.kept context.now.m.now) (aims_of dia.old undecided.now) (all_askings dia.old decided.now) (condition dia.old sought.part) (condition dia.old sought.found) p) }
{
    let left = dia.diff(sought.part, sought.found)?;
    if dia.is_nothing(left) {
        return Ok(Projection::Parts(sought.found));
    }
    match avoid(context, dia, slots, decided)? {
        Filling::Parts(_) => {}
        Filling::Empty => return Ok(Projection::Parts(sought.found)),
        Filling::Ask(question) => return Ok(Projection::Ask(question)),
    }
    match undecided {
        [] => Ok(Projection::Parts(dia.union(sought.found, sought.part)?)),
        [first, rest @ ..] => {
            let more = with_one(context.alloc, decided, &first.elsewhere)?;
            let found = match cells(context, dia, slots, rest, &more, sought)? {
                Projection::Parts(found) => found,
                Projection::Ask(question) => return Ok(Projection::Ask(question)),
            };
            let part = dia.diff(sought.part, first.there)?;
            cells(context, dia, slots, rest, decided, Sought { part, found })
        }
    }
}

/// The atoms and one more.
fn with_one(alloc: Global, atoms: &[Unwanted], one: &Unwanted) -> Result<Vec<Unwanted>, Memory>
    ensures { IfOk result (λ all. demands_in all.items ≡ demands_in atoms.now ++ one.now.demands.items ∷ []) }
{
    let mut all = Vec::new(alloc);
    for atom in atoms {
        all.push(copy(alloc, atom)?)?;
    }
    all.push(copy(alloc, one)?)?;
    Ok(all)
}

fn copy(alloc: Global, atom: &Unwanted) -> Result<Unwanted, Memory>
    ensures { IfOk result (λ u. u.demands.items ≡ atom.now.demands.items) }
{
    let demands = Vec::from_slice(alloc, atom.demands.as_slice())?;
    Ok(Unwanted { demands })
}

/// Besides `found` what stands at the target in fillings of the slots that avoid the atoms. The target's
/// question is asked of no table.
pub(crate) fn parts_at<M: Member>(
    context: &Context<'_, M>,
    dia: &mut Diagrams,
    slots: Vec<Slot>,
    unwanted: Vec<Unwanted>,
    target: usize,
    found: u32,
) -> Result<Projection, Memory>
    requires slots { AreSlots dia.old slots.items }
    requires unwanted { AreUnwanted dia.old (length slots.items) unwanted.items }
    requires target { target < length slots.items }
    requires found { IsDiagram dia.old found }
    ensures extends { Extends 0 dia.old dia.new }
    ensures diagram { IfOk result (GivesDiagram dia.new) }
    ensures looks { IfOk result (λ p. (env : List AtomDef) → AreLooking env dia.old slots.items unwanted.items → LooksAtKinds env (condition dia.old found) → LooksAtParts env dia.new p) }
    ensures tells { IfOk result (λ p. (env : List AtomDef) → All (IsSound env dia.old) (M.kept context.now.m.now) → TellsStanding env dia.new (M.kept context.now.m.now) (places_of dia.old slots.items) (all_askings dia.old unwanted.items) target (condition dia.old found) p) }
{
    let Some(part) = part_of(slots[target]) else {
        return Ok(Projection::Parts(found));
    };
    let mut others = slots;
    others[target] = Slot::Absent;
    let undecided = aim(unwanted, target, context.alloc)?;
    let none = Vec::new(context.alloc);
    let sought = Sought { part, found };
    cells(context, dia, &others, &undecided, &none, sought)
}

/// The question of the part that a slot may have.
fn part_of(slot: Slot) -> Option<u32>
    ensures { result ≡ question_of slot }
{
    match slot {
        Slot::Optional(question) | Slot::Present(question) => Some(question),
        Slot::Absent => None,
    }
}

/// The atoms' demands, aimed at a place.
fn aim(atoms: Vec<Unwanted>, target: usize, alloc: Global) -> Result<Vec<Aimed>, Memory>
    requires { All (λ u. target < length u.demands.items) atoms.items }
    ensures { IfOk result (λ aimed. AllZip (IsAimOf target) atoms.items aimed.items) }
{
    let mut aimed = Vec::new(alloc);
    for atom in atoms {
        aimed.push(aim_one(atom, target))?;
    }
    Ok(aimed)
}

fn aim_one(atom: Unwanted, target: usize) -> Aimed
    requires { target < length atom.demands.items }
    ensures { IsAimOf target atom result }
{
    let mut elsewhere = atom;
    let there = elsewhere.demands[target].question;
    elsewhere.demands[target] = Demand {
        question: there,
        required: false,
    };
    Aimed { there, elsewhere }
}
