//! The types of members of structures.
#![tactic(auto, using(crate::proofs::Noting::noting))]

ghost use Rattle.std.specs.Prelude.{◌++◌, All, Any, OnOk, map, option_to_list};
ghost use Rattle.type_model.specs.SameType.{IsSameType};
ghost use Rattle.op_model.specs.Inherent.{member_types};
ghost use Rattle.tested_types.specs.Asked.{HasMember, IsDefinedAt, Notes};

use crate::places::note;
use bal_base::Memory;
use std::alloc::Global;
use type_model::{AtomDef, FieldDef, SemType, Ty};

/// Notes each of these types.
fn all(types: &mut Vec<SemType>, alloc: Global, members: &[Ty]) -> Result<(), Memory>
    ensures { OnOk result (Notes (λ t. Any (λ m. IsSameType t m.sem) members.now) types.old.items types.new.items) }
{
    for m in members {
        note(types, alloc, &m.sem)?;
    }
    Ok(())
}

/// Notes the types of these fields.
fn fields(types: &mut Vec<SemType>, alloc: Global, fields: &[FieldDef]) -> Result<(), Memory>
    ensures { OnOk result (Notes (λ t. Any (λ f. IsSameType t f.ty.sem) fields.now) types.old.items types.new.items) }
{
    for f in fields {
        note(types, alloc, &f.ty.sem)?;
    }
    Ok(())
}

/// Notes the type, if there is one.
fn rest(types: &mut Vec<SemType>, alloc: Global, t: &Option<Ty>) -> Result<(), Memory>
    ensures { OnOk result (Notes (λ u. Any (λ m. IsSameType u m.sem) (option_to_list t.now)) types.old.items types.new.items) }
{
    match t {
        Some(t) => note(types, alloc, &t.sem),
        None => Ok(()),
    }
}

/// Notes the types of items of lists with these fixed places and this rest.
fn of_lists(
    types: &mut Vec<SemType>,
    alloc: Global,
    fixed: &[Ty],
    last: &Option<Ty>,
) -> Result<(), Memory>
    ensures { OnOk result (Notes (λ t. Any (λ m. IsSameType t m.sem) (fixed.now ++ option_to_list last.now)) types.old.items types.new.items) }
{
    all(types, alloc, fixed)?;
    rest(types, alloc, last)
}

/// Notes the types of members of mappings with these fields and this rest.
fn of_mappings(
    types: &mut Vec<SemType>,
    alloc: Global,
    own: &[FieldDef],
    last: &Option<Ty>,
) -> Result<(), Memory>
    ensures { OnOk result (Notes (λ t. Any (λ m. IsSameType t m.sem) (map (λ f. f.ty) own.now ++ option_to_list last.now)) types.old.items types.new.items) }
{
    fields(types, alloc, own)?;
    rest(types, alloc, last)
}

/// Notes the types of members of structures with this definition.
fn definition(types: &mut Vec<SemType>, alloc: Global, d: &AtomDef) -> Result<(), Memory>
    ensures { OnOk result (Notes (λ t. Any (λ m. IsSameType t m.sem) (member_types d.now)) types.old.items types.new.items) }
{
    match d {
        AtomDef::List { fixed, rest } => of_lists(types, alloc, fixed.as_slice(), rest),
        AtomDef::Mapping { fields, rest } => of_mappings(types, alloc, fields.as_slice(), rest),
        AtomDef::Arrow { .. } | AtomDef::Error { .. } | AtomDef::Future { .. } => Ok(()),
    }
}

/// Notes the types of members of structures with this atom. It answers want of memory also where the atom has no definition.
fn atom(types: &mut Vec<SemType>, alloc: Global, atoms: &[AtomDef], a: u32) -> Result<(), Memory>
    ensures notes { OnOk result (Notes (HasMember atoms.now a) types.old.items types.new.items) }
    ensures defined { OnOk result (IsDefinedAt atoms.now a) }
{
    match atoms.get(a as usize) {
        Some(d) => definition(types, alloc, d),
        None => Err(Memory),
    }
}

/// Notes the types of members of structures with these atoms. It answers want of memory also where one of them has no definition.
pub fn members(
    types: &mut Vec<SemType>,
    alloc: Global,
    atoms: &[AtomDef],
    inherent: &[u32],
) -> Result<(), Memory>
    ensures notes { OnOk result (Notes (λ t. Any (λ a. HasMember atoms.now a t) inherent.now) types.old.items types.new.items) }
    ensures defined { OnOk result (All (IsDefinedAt atoms.now) inherent.now) }
{
    for a in inherent {
        atom(types, alloc, atoms, *a)?;
    }
    Ok(())
}
