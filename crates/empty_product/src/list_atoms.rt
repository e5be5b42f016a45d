//! What list atoms say of lengths and places, and which of them are out of play.
ghost use Rattle.std.specs.Prelude.{ℕ, ◌∷◌, ◌↔◌, ◌≡◌, ◌<◌, ◌≤◌, All, Any, IfOk, IsTrue, Option, Some, [], false, length, map};
ghost use Rattle.std.specs.Option.{option_copied};
ghost use Rattle.type_diagrams.specs.Atoms.{parts_of, list_parts as parts};
ghost use Rattle.type_diagrams.specs.Conditions.{asks};
ghost use Rattle.type_diagrams.specs.Members.{AllowsLength, Fixes, IsListOutOfPlay, item_of};
ghost use Rattle.type_diagrams.specs.Whole.{Extends, Gives};
ghost use Rattle.type_diagrams.specs.Tables.{IsDiagram};
ghost use Rattle.empty_product.specs.Lists.{AreAsked, IsApartFrom};
ghost use Rattle.empty_product.specs.Play.{AreInPlay, IsListAtom};

use bal_base::Memory;
use std::alloc::Global;
use type_diagrams::Diagrams;
use type_model::{AtomDef, Ty, TypeEnv};

/// The parts of a list atom.
#[derive(Clone, Copy)]
pub(crate) struct ListParts<'a> {
    pub(crate) fixed: &'a [Ty],
    pub(crate) rest: Option<&'a Ty>,
}

pub(crate) fn list_parts(defs: &[AtomDef], atom: u32) -> ListParts<'_>
    requires { IsListAtom defs.now atom }
    ensures { parts_of parts defs.now atom ≡ Some (result.fixed.now, option_copied result.rest) }
{
    match &defs[atom as usize] {
        AtomDef::List { fixed, rest } => ListParts {
            fixed: fixed.as_slice(),
            rest: rest.as_ref(),
        },
        AtomDef::Mapping { .. } | AtomDef::Arrow { .. } => unreachable!(),
        AtomDef::Error { .. } | AtomDef::Future { .. } => unreachable!(),
    }
}

/// Whether the list atom has lists of this length.
pub(crate) fn allows_length(defs: &[AtomDef], atom: u32, length: usize) -> bool
    requires { IsListAtom defs.now atom }
    ensures { IsTrue result ↔ AllowsLength defs.now length atom }
{
    let parts = list_parts(defs, atom);
    parts.fixed.len() == length || (parts.fixed.len() < length && parts.rest.is_some())
}

/// Whether all these list atoms have lists of this length.
pub(crate) fn all_allow_length(defs: &[AtomDef], atoms: &[u32], length: usize) -> bool
    requires { All (IsListAtom defs.now) atoms.now }
    ensures { IsTrue result ↔ All (AllowsLength defs.now length) atoms.now }
{
    for atom in atoms {
        if !allows_length(defs, *atom, length) {
            return false;
        }
    }
    true
}

/// The length of the longest fixed prefix.
pub(crate) fn longest_prefix(defs: &[AtomDef], atoms: &[u32]) -> usize
    requires { All (IsListAtom defs.now) atoms.now }
    ensures { (place : ℕ) → (place < result) ↔ Any (Fixes defs.now place) atoms.now }
{
    let mut longest = 0;
    for atom in atoms {
        longest = longest.max(list_parts(defs, *atom).fixed.len());
    }
    longest
}

/// What the list atom asks at a place.
pub(crate) fn item_question(
    env: &TypeEnv,
    dia: &mut Diagrams,
    atom: u32,
    place: usize,
) -> Result<u32, Memory>
    requires atom { IsListAtom env.now atom }
    ensures extends { Extends (length env.now) dia.old dia.new }
    ensures made { IfOk result (Gives dia.new (item_of env.now place atom)) }
{
    let parts = list_parts(env.defs(), atom);
    match parts.fixed.get(place).or(parts.rest) {
        Some(ty) => dia.of(env, &ty.sem),
        None => dia.nothing(),
    }
}

/// What all these list atoms ask at a place.
pub(crate) fn items_question(
    env: &TypeEnv,
    dia: &mut Diagrams,
    atoms: &[u32],
    place: usize,
) -> Result<u32, Memory>
    requires atoms { All (IsListAtom env.now) atoms.now }
    ensures extends { Extends (length env.now) dia.old dia.new }
    ensures made { IfOk result (Gives dia.new (asks (map (item_of env.now place) atoms.now) [])) }
{
    let mut question = dia.every()?;
    for atom in atoms {
        let asked = item_question(env, dia, *atom, place)?;
        question = dia.inter(question, asked)?;
    }
    Ok(question)
}

/// The unwanted list atoms that are in play: those that have a length in common with all wanted ones, and at
/// no place that a wanted one fixes are plainly apart from them.
pub(crate) fn lists_in_play(
    alloc: Global,
    env: &TypeEnv,
    dia: &mut Diagrams,
    wanted: &[u32],
    unwanted: &[u32],
) -> Result<Vec<u32>, Memory>
    requires wanted { All (IsListAtom env.now) wanted.now }
    requires unwanted { All (IsListAtom env.now) unwanted.now }
    ensures extends { Extends (length env.now) dia.old dia.new }
    ensures playing { IfOk result (λ playing. AreInPlay (IsListOutOfPlay env.now wanted.now) unwanted.now playing.items) }
{
    let fixed = fixed_questions(alloc, env, dia, wanted)?;
    let mut playing = Vec::new(alloc);
    for atom in unwanted {
        if !has_common_length(env.defs(), wanted, *atom) {
            continue;
        }
        if is_plainly_apart(env, dia, &fixed, *atom)? {
            continue;
        }
        playing.push(*atom)?;
    }
    Ok(playing)
}

/// What all these list atoms ask at each place that one of them fixes.
fn fixed_questions(
    alloc: Global,
    env: &TypeEnv,
    dia: &mut Diagrams,
    atoms: &[u32],
) -> Result<Vec<u32>, Memory>
    requires atoms { All (IsListAtom env.now) atoms.now }
    ensures extends { Extends (length env.now) dia.old dia.new }
    ensures count { IfOk result (λ fixed. (place : ℕ) → (place < length fixed.items) ↔ Any (Fixes env.now place) atoms.now) }
    ensures made { IfOk result (λ fixed. AreAsked dia.new (λ place. asks (map (item_of env.now place) atoms.now) []) fixed.items) }
{
    let mut fixed = Vec::new(alloc);
    for place in 0..longest_prefix(env.defs(), atoms) {
        fixed.push(items_question(env, dia, atoms, place)?)?;
    }
    Ok(fixed)
}

/// Whether a list of some length may be in all wanted atoms and in this one: one as long as the longest
/// fixed prefix.
fn has_common_length(defs: &[AtomDef], wanted: &[u32], atom: u32) -> bool
    requires wanted { All (IsListAtom defs.now) wanted.now }
    requires atom { IsListAtom defs.now atom }
    ensures none { result ≡ false → (n : ℕ) → ¬ All (AllowsLength defs.now n) (atom ∷ wanted.now) }
    ensures some { IsTrue result → (n : ℕ) × All (AllowsLength defs.now n) (atom ∷ wanted.now) }
{
    let own = list_parts(defs, atom).fixed.len();
    let length = longest_prefix(defs, wanted).max(own);
    allows_length(defs, atom, length) && all_allow_length(defs, wanted, length)
}

/// Whether there is a place at which the atom has no shape in common with what is asked there.
fn is_plainly_apart(
    env: &TypeEnv,
    dia: &mut Diagrams,
    fixed: &[u32],
    atom: u32,
) -> Result<bool, Memory>
    requires atom { IsListAtom env.now atom }
    requires fixed { All (IsDiagram dia.old) fixed.now }
    ensures extends { Extends (length env.now) dia.old dia.new }
    ensures apart { IfOk result (λ is. IsTrue is ↔ IsApartFrom env.now dia.old fixed.now atom) }
{
    for place in 0..fixed.len() {
        let asked = item_question(env, dia, atom, place)?;
        let common = dia.inter(asked, fixed[place])?;
        if dia.is_nothing(common) {
            return Ok(true);
        }
    }
    Ok(false)
}
