//! Mapping paths.
ghost use Rattle.std.specs.Prelude.{[], ◌≡◌, ◌++◌, All, IfOk, OnOk, length, option_map};
ghost use Rattle.std.specs.List.{AllZip, cons_option};
ghost use Rattle.type_diagrams.specs.declared.kind.Kind.TheVariants.{Mapping as Mappings};
ghost use Rattle.type_diagrams.specs.Turns.{IsReady, IsSound, Turns};
ghost use Rattle.type_diagrams.specs.Whole.{Extends, Gives};
ghost use Rattle.empty_product.specs.Keys.{AreInOrder, HasNamedKeys};
ghost use Rattle.empty_product.specs.Mappings.{AreDemandsOf, IsMappingOf, IsRestDemandOf, IsSlotOf, TellsFilled, TellsMappings, members_at, wanted_at};
ghost use Rattle.empty_product.specs.Play.{IsMappingAtom};

use crate::avoid::{Filling, avoid};
use crate::bases::{frozen_if, has_both_marks};
use crate::further::{Further, FurtherParts, RestDemand, further_parts};
use crate::literals::Literals;
use crate::mapping_atoms::{
    any_requires, is_required, key_behind, mappings_in_play, member_question, members_question,
    named_keys,
};
use crate::slots::{Demand, Slot, Unwanted};
use bal_base::{Memory, Text};
use std::alloc::Global;
use type_diagrams::{Context, Diagrams, Member, Path, Turn};
use type_model::TypeEnv;
use witness::Witness;

/// A shape of a mapping path, that there is none, or a question about a member, at a key that an atom of the
/// path names or at all others. A path that doesn't say whether its mappings are marked is settled by its
/// unmarked ones.
pub fn map_shape<M: Member>(
    alloc: Global,
    env: &TypeEnv,
    dia: &mut Diagrams,
    path: &Path,
    m: &M,
) -> Result<Turn, Memory>
    requires { IsReady env.now dia.old (M.kept m.now) Mappings path.now }
    ensures extends { Extends (length env.now) dia.old dia.new }
    ensures turns { IfOk result (Turns env.now dia.new (M.kept m.now) Mappings path.now) }
{
    let context = Context { alloc, env, m };
    let holding = path.wanted(alloc)?;
    let wanted = holding.as_slice();
    let failing = path.unwanted(alloc)?;
    if has_both_marks(path) {
        return Ok(Turn::Empty);
    }
    let playing = mappings_in_play(alloc, env, dia, wanted, failing.as_slice())?;
    let unwanted = playing.as_slice();
    let literals = Literals {
        wanted,
        unwanted,
        marked: path.is_marked(),
    };
    settled(&context, dia, &literals)
}

/// A mapping in all wanted atoms and in none of the others, that there is none, or a question about a member.
fn settled<M: Member>(
    context: &Context<'_, M>,
    dia: &mut Diagrams,
    literals: &Literals<'_>,
) -> Result<Turn, Memory>
    requires wanted { All (IsMappingAtom context.now.env.now) literals.now.wanted.now }
    requires unwanted { All (IsMappingAtom context.now.env.now) literals.now.unwanted.now }
    requires sound { All (IsSound context.now.env.now dia.old) (M.kept context.now.m.now) }
    ensures extends { Extends (length context.now.env.now) dia.old dia.new }
    ensures tells { IfOk result (TellsMappings context.now.env.now literals.now.wanted.now literals.now.marked dia.new (M.kept context.now.m.now) literals.now.unwanted.now) }
{
    let keys = keys_of(
        context.alloc,
        context.env,
        literals.wanted,
        literals.unwanted,
    )?;
    let fresh = key_behind(context.alloc, keys.as_slice())?;
    let rest = base(context.env, dia, literals.wanted, literals.marked, &fresh)?;
    let made = rest_demands(context.alloc, context.env, dia, literals.unwanted, &fresh)?;
    let demands = made.as_slice();
    let found = further_parts(context, dia, rest, demands)?;
    match found {
        Further::Parts(FurtherParts { parts, staying }) => {
            let atoms = staying.as_slice();
            let left = Literals {
                wanted: literals.wanted,
                unwanted: atoms,
                marked: literals.marked,
            };
            filled(context, dia, &left, keys, parts)
        }
        Further::Ask(question) => Ok(Turn::Ask(question)),
    }
}

/// The keys that these atoms name, rising.
pub(crate) fn keys_of(
    alloc: Global,
    env: &TypeEnv,
    wanted: &[u32],
    unwanted: &[u32],
) -> Result<Vec<Text>, Memory>
    requires wanted { All (IsMappingAtom env.now) wanted.now }
    requires unwanted { All (IsMappingAtom env.now) unwanted.now }
    ensures { IfOk result (λ keys. HasNamedKeys env.now (wanted.now ++ unwanted.now) keys.items) }
{
    let mut atoms = Vec::from_slice(alloc, wanted)?;
    atoms.extend_from_slice(unwanted)?;
    named_keys(alloc, env.defs(), &atoms)
}

/// A mapping in all wanted atoms that avoids others at the keys that atoms name, with these further members.
fn filled<M: Member>(
    context: &Context<'_, M>,
    dia: &mut Diagrams,
    literals: &Literals<'_>,
    keys: Vec<Text>,
    further: Vec<Witness>,
) -> Result<Turn, Memory>
    requires wanted { All (IsMappingAtom context.now.env.now) literals.now.wanted.now }
    requires staying { All (IsMappingAtom context.now.env.now) literals.now.unwanted.now }
    requires ordered { AreInOrder keys.items }
    requires sound { All (IsSound context.now.env.now dia.old) (M.kept context.now.m.now) }
    ensures extends { Extends (length context.now.env.now) dia.old dia.new }
    ensures tells { IfOk result (TellsFilled context.now.env.now literals.now.wanted.now literals.now.marked dia.new (M.kept context.now.m.now) keys.items further.items literals.now.unwanted.now) }
{
    let places = slots(
        context.alloc,
        context.env,
        dia,
        literals.wanted,
        literals.marked,
        keys.as_slice(),
    )?;
    let asked = all_demands(
        context.alloc,
        context.env,
        dia,
        literals.unwanted,
        keys.as_slice(),
    )?;
    let slots = places.as_slice();
    let unwanted = asked.as_slice();
    let filling = avoid(context, dia, slots, unwanted)?;
    match filling {
        Filling::Parts(parts) => Ok(Turn::Shape(mapping(
            context.alloc,
            literals.marked,
            keys,
            parts,
            further,
        )?)),
        Filling::Empty => Ok(Turn::Empty),
        Filling::Ask(question) => Ok(Turn::Ask(question)),
    }
}

/// What is asked at a key.
pub(crate) fn base(
    env: &TypeEnv,
    dia: &mut Diagrams,
    wanted: &[u32],
    marked: bool,
    key: &Text,
) -> Result<u32, Memory>
    requires wanted { All (IsMappingAtom env.now) wanted.now }
    ensures extends { Extends (length env.now) dia.old dia.new }
    ensures made { IfOk result (Gives dia.new (wanted_at env.now wanted.now marked key.now)) }
{
    let question = members_question(env, dia, wanted, key)?;
    frozen_if(env, dia, marked, question)
}

/// What the atoms ask at a key that none of them names.
pub(crate) fn rest_demands(
    alloc: Global,
    env: &TypeEnv,
    dia: &mut Diagrams,
    atoms: &[u32],
    fresh: &Text,
) -> Result<Vec<RestDemand>, Memory>
    requires atoms { All (IsMappingAtom env.now) atoms.now }
    ensures extends { Extends (length env.now) dia.old dia.new }
    ensures demands { IfOk result (λ demands. AllZip (IsRestDemandOf env.now dia.new fresh.now) atoms.now demands.items) }
{
    let mut demands = Vec::new(alloc);
    for atom in atoms {
        let question = member_question(env, dia, *atom, fresh)?;
        demands.push(RestDemand {
            atom: *atom,
            question,
        })?;
    }
    Ok(demands)
}

/// What may stand at each key.
pub(crate) fn slots(
    alloc: Global,
    env: &TypeEnv,
    dia: &mut Diagrams,
    wanted: &[u32],
    marked: bool,
    keys: &[Text],
) -> Result<Vec<Slot>, Memory>
    requires wanted { All (IsMappingAtom env.now) wanted.now }
    ensures extends { Extends (length env.now) dia.old dia.new }
    ensures slots { IfOk result (λ slots. AllZip (IsSlotOf env.now wanted.now marked dia.new) keys.now slots.items) }
{
    let mut slots = Vec::new(alloc);
    for key in keys {
        slots.push(slot(env, dia, wanted, marked, key)?)?;
    }
    Ok(slots)
}

/// What may stand at a key.
fn slot(
    env: &TypeEnv,
    dia: &mut Diagrams,
    wanted: &[u32],
    marked: bool,
    key: &Text,
) -> Result<Slot, Memory>
    requires wanted { All (IsMappingAtom env.now) wanted.now }
    ensures extends { Extends (length env.now) dia.old dia.new }
    ensures slot { IfOk result (IsSlotOf env.now wanted.now marked dia.new key.now) }
{
    let question = base(env, dia, wanted, marked, key)?;
    if any_requires(env.defs(), wanted, key) {
        Ok(Slot::Present(question))
    } else {
        Ok(Slot::Optional(question))
    }
}

/// What each of the atoms asks at each key.
pub(crate) fn all_demands(
    alloc: Global,
    env: &TypeEnv,
    dia: &mut Diagrams,
    atoms: &[u32],
    keys: &[Text],
) -> Result<Vec<Unwanted>, Memory>
    requires atoms { All (IsMappingAtom env.now) atoms.now }
    ensures extends { Extends (length env.now) dia.old dia.new }
    ensures demands { IfOk result (λ demands. AllZip (AreDemandsOf env.now dia.new keys.now) atoms.now demands.items) }
{
    let mut unwanted = Vec::new(alloc);
    for atom in atoms {
        unwanted.push(demands(alloc, env, dia, *atom, keys)?)?;
    }
    Ok(unwanted)
}

/// What the atom asks at each key.
fn demands(
    alloc: Global,
    env: &TypeEnv,
    dia: &mut Diagrams,
    atom: u32,
    keys: &[Text],
) -> Result<Unwanted, Memory>
    requires atom { IsMappingAtom env.now atom }
    ensures extends { Extends (length env.now) dia.old dia.new }
    ensures demands { IfOk result (AreDemandsOf env.now dia.new keys.now atom) }
{
    let mut demands = Vec::new(alloc);
    for key in keys {
        let question = member_question(env, dia, atom, key)?;
        let required = is_required(env.defs(), atom, key);
        demands.push(Demand { question, required })?;
    }
    Ok(Unwanted { demands })
}

/// The mapping with these parts at the keys, and further members behind them.
fn mapping(
    alloc: Global,
    mark: bool,
    keys: Vec<Text>,
    parts: Vec<Option<Witness>>,
    further: Vec<Witness>,
) -> Result<Witness, Memory>
    requires ordered { AreInOrder keys.items }
    requires long { length parts.items ≡ length keys.items }
    ensures { IfOk result (IsMappingOf mark keys.items parts.items further.items) }
{
    let mut keys = keys;
    let mut parts = parts;
    for part in further {
        let key = key_behind(alloc, keys.as_slice())?;
        keys.push(key)?;
        parts.push(Some(part))?;
    }
    let fields = members(alloc, keys, parts)?;
    Witness::mapping(alloc, mark, fields)
}

/// The members at the keys that have a part.
fn members(
    alloc: Global,
    keys: Vec<Text>,
    parts: Vec<Option<Witness>>,
) -> Result<Vec<(Text, Witness)>, Memory>
    ensures { IfOk result (λ members. members.items ≡ members_at keys.items parts.items) }
{
    let mut members = Vec::new(alloc);
    for (key, part) in keys.into_iter().zip(parts) {
        add_member(&mut members, key, part)?;
    }
    Ok(members)
}

/// Puts the part behind the members, if there is one.
fn add_member(
    members: &mut Vec<(Text, Witness)>,
    key: Text,
    part: Option<Witness>,
) -> Result<(), Memory>
    ensures { OnOk result (members.new.items ≡ members.old.items ++ cons_option (option_map (λ x. (key, x)) part) []) }
{
    match part {
        Some(part) => {
            members.push((key, part))?;
            Ok(())
        }
        None => Ok(()),
    }
}
