//! The atoms with which gaps of lists are filled.
#![tactic(auto, using(crate::proofs::Noting::noting))]

ghost use Rattle.std.specs.Prelude.{◌≡◌, OnOk, Some, flat_map, option_to_list, slice_get};
ghost use Rattle.inherent_atoms.specs.Fillers.{choice_of, fillers_of, one_choice};
ghost use Rattle.inherent_atoms.specs.Found.{Fills, Notes};

use crate::found::Found;
use bal_base::Memory;
use type_model::{AtomDef, Choice, Ty, TyList};

/// Notes the atom of the one choice among these, if there is just one.
fn one(found: &mut Found, lists: &[Choice], maps: &[Choice]) -> Result<(), Memory>
    ensures { OnOk result (Notes (one_choice lists.now maps.now) found.old found.new) }
{
    match lists {
        [] => match maps {
            [c] => found.note(c.atom),
            [] | [_, _, ..] => Ok(()),
        },
        [c] => match maps {
            [] => found.note(c.atom),
            [_, ..] => Ok(()),
        },
        [_, _, ..] => Ok(()),
    }
}

/// Notes the one choice of a type.
fn choice(found: &mut Found, t: &Ty) -> Result<(), Memory>
    ensures { OnOk result (Notes (choice_of t.now) found.old found.new) }
{
    one(found, t.lists.as_slice(), t.maps.as_slice())
}

/// Notes the one choice of each of these types.
fn choices(found: &mut Found, types: &[Ty]) -> Result<(), Memory>
    ensures { OnOk result (Notes (flat_map choice_of types.now) found.old found.new) }
{
    for t in types {
        choice(found, t)?;
    }
    Ok(())
}

/// Notes the one choice of the type, if there is one.
fn choice_if(found: &mut Found, t: &Option<Ty>) -> Result<(), Memory>
    ensures { OnOk result (Notes (flat_map choice_of (option_to_list t.now)) found.old found.new) }
{
    match t {
        Some(t) => choice(found, t),
        None => Ok(()),
    }
}

/// Notes the one choice of each of the types in this list.
fn listed(found: &mut Found, types: &TyList) -> Result<(), Memory>
    ensures { OnOk result (Notes (flat_map choice_of types.now) found.old found.new) }
{
    choices(found, types.as_slice())
}

/// Notes with what gaps are filled in lists of this definition.
fn fillers(found: &mut Found, def: &AtomDef) -> Result<(), Memory>
    ensures { OnOk result (Notes (fillers_of (Some def.now)) found.old found.new) }
{
    match def {
        AtomDef::List { fixed, rest } => {
            listed(found, fixed)?;
            choice_if(found, rest)?;
            Ok(())
        }
        AtomDef::Mapping { .. } | AtomDef::Arrow { .. } => Ok(()),
        AtomDef::Error { .. } | AtomDef::Future { .. } => Ok(()),
    }
}

/// Notes with what gaps are filled in lists of the atom with this number, if there is one.
fn fillers_at(found: &mut Found, defs: &[AtomDef], atom: u32) -> Result<(), Memory>
    ensures { OnOk result (Notes (fillers_of (slice_get defs.now atom)) found.old found.new) }
{
    match defs.get(atom as usize) {
        Some(def) => fillers(found, def),
        None => Ok(()),
    }
}

/// The atom that was found at this place, if there is one.
fn found_at(found: &Found, place: usize) -> Option<u32>
    ensures { result ≡ slice_get found.now.atoms.items place }
{
    found.atoms.get(place).copied()
}

/// Notes with what gaps are filled in lists of the atoms that were found, and in lists of these, and so on.
pub fn fill(found: &mut Found, defs: &[AtomDef]) -> Result<(), Memory>
    ensures { OnOk result (Fills defs.now found.old found.new) }
{
    for done in 0..defs.len() {
        match found_at(found, done) {
            Some(atom) => fillers_at(found, defs, atom)?,
            None => return Ok(()),
        }
    }
    if found.atoms.len() > defs.len() {
        return Err(Memory);
    }
    Ok(())
}
