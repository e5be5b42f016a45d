//! Definitions of atoms that members make, and atoms that are added.
#![tactic(auto, using(check_kinds::proofs::Over::overs))]

ghost use Rattle.std.specs.Prelude.{◌≡◌, ◌<◌, ◌+◌, ◌++◌, ◌∷◌, [], ℕ, All, IfOk, IfSome, None as Absent, OnOk, Some as There, is_some, length};
ghost use Rattle.std.specs.List.{cons_option};
ghost use Rattle.checks.specs.Checks.{Comes};
ghost use Rattle.checks.specs.Questions.{adds};
ghost use Rattle.type_model.specs.declared.atoms.AtomDef.{AtomDef as Atom};
ghost use Rattle.type_model.specs.declared.atoms.AtomDef.TheVariants.{List as ListAtom, Mapping as MappingAtom};
ghost use Rattle.type_model.specs.Calls.{KeepsTypes};
ghost use Rattle.type_model.specs.declared.basic.Ty.{Ty as TyOf};
ghost use Rattle.type_model.specs.Defined.{DefBelow, TyBelow};
ghost use Rattle.type_model.specs.Places.{HasDistinctFields};
ghost use Rattle.check_kinds.specs.Over.{ComesOver};
ghost use Rattle.check_words.specs.Constructors.{all_known as all_known_of, atom_of, field_with, fields_with as fields_with_of};
ghost use Rattle.made_atoms.specs.Defs.{AnyOf, IsDefOf, IsGroupOf, error_defs as error_defs_of};

use crate::unions::any_of;
use bal_base::{Fault, Memory, Place, Stop, Text};
use checks::add;
use std::alloc::Global;
use type_model::{AtomDef, FieldDef, FieldList, SemType, Ty, TyList, Types};

/// One definition.
fn one_def(alloc: Global, def: AtomDef) -> Result<Vec<AtomDef>, Memory>
    ensures { IfOk result (λ defs. defs.items ≡ def ∷ []) }
{
    let mut defs = Vec::new(alloc);
    defs.push(def)?;
    Ok(defs)
}

/// An atom more, which names those that are there alone; gives its number. `AtomLimit` at the place where there would be too many.
pub fn add_one<T: Types>(
    alloc: Global,
    types: &mut T,
    def: AtomDef,
    at: Place,
) -> Result<u32, Stop<Fault>>
    requires named { DefBelow (length (T.atoms types.old)) def }
    requires distinct { HasDistinctFields def }
    ensures kept { KeepsTypes (T.atoms types.old) (T.atoms types.new) }
    ensures there { IfOk result (λ atom. atom < length (T.atoms types.new)) }
    ensures comes { Comes (adds (λ env defs. defs ≡ def ∷ []) (There at)) (T.atoms types.old) result (T.atoms types.new) }
{
    match one_def(alloc, def) {
        Ok(defs) => add(alloc, types, defs, Some(at)),
        Err(Memory) => Err(Stop::Memory),
    }
}

// ---- lists

/// The atom that was chosen, or else that of the very items.
pub fn list_atom<T: Types>(
    alloc: Global,
    types: &mut T,
    choice: Option<u32>,
    items: Vec<Ty>,
    at: Place,
) -> Result<u32, Stop<Fault>>
    requires choice { IfSome choice (λ atom. atom < length (T.atoms types.old)) }
    requires items { All (TyBelow (length (T.atoms types.old))) items.items }
    ensures kept { KeepsTypes (T.atoms types.old) (T.atoms types.new) }
    ensures there { IfOk result (λ atom. atom < length (T.atoms types.new)) }
    ensures comes { ComesOver (atom_of choice (λ env defs. defs ≡ ListAtom items.items Absent ∷ []) at) (T.atoms types.old) result (T.atoms types.new) }
{
    match choice {
        Some(atom) => Ok(atom),
        None => add_one(
            alloc,
            types,
            AtomDef::List {
                fixed: TyList::of(items),
                rest: None,
            },
            at,
        ),
    }
}

// ---- mappings

fn is_known(key: &Option<Text>) -> bool
    ensures { result ≡ is_some key.now }
{
    match key {
        Some(_) => true,
        None => false,
    }
}

/// Whether no key is computed.
fn all_known(keys: &[Option<Text>]) -> bool
    ensures { result ≡ all_known_of keys.now }
{
    keys.iter().all(|key| is_known(key))
}

/// The field, where its key isn't computed, behind those that are there.
fn add_field(fields: &mut Vec<FieldDef>, key: Option<Text>, ty: Ty) -> Result<(), Memory>
    ensures { OnOk result (fields.new.items ≡ fields.old.items ++ cons_option (field_with (key, ty)) []) }
{
    match key {
        Some(name) => {
            fields.push(FieldDef {
                name,
                ty,
                optional: false,
            })?;
            Ok(())
        }
        None => Ok(()),
    }
}

/// The fields with these keys and types, all required.
fn fields_with(
    alloc: Global,
    keys: Vec<Option<Text>>,
    types: Vec<Ty>,
) -> Result<Vec<FieldDef>, Memory>
    ensures { IfOk result (λ fields. fields.items ≡ fields_with_of keys.items types.items) }
{
    let mut fields = Vec::new(alloc);
    for (key, ty) in keys.into_iter().zip(types) {
        add_field(&mut fields, key, ty)?;
    }
    Ok(fields)
}

/// A closed record of the members, all required. Where two keys are the same, which no table of needs brings about, it is as if memory were wanted:
/// it costs by the number of pairs of fields.
pub fn record_def(alloc: Global, keys: Vec<Option<Text>>, types: Vec<Ty>) -> Result<AtomDef, Memory>
    ensures is { IfOk result (λ def. def ≡ MappingAtom (fields_with_of keys.items types.items) Absent) }
    ensures distinct { IfOk result HasDistinctFields }
    ensures below { (n : ℕ) → All (TyBelow n) types.items → IfOk result (DefBelow n) }
{
    let def = AtomDef::Mapping {
        fields: FieldList::of(fields_with(alloc, keys, types)?),
        rest: None,
    };
    match def.has_distinct_fields() {
        true => Ok(def),
        false => Err(Memory),
    }
}

/// The mappings of any of the types.
fn map_def<T: Types>(alloc: Global, types: &mut T, members: &[Ty]) -> Result<AtomDef, Memory>
    requires { All (TyBelow (length (T.atoms types.old))) members.now }
    ensures atoms { T.atoms types.new ≡ T.atoms types.old }
    ensures is { IfOk result (λ def. (t : TyOf) × AnyOf members.now (T.atoms types.old) t × TyBelow (length (T.atoms types.old)) t × (def ≡ MappingAtom [] (There t))) }
    ensures below { IfOk result (DefBelow (length (T.atoms types.old))) }
{
    let rest = any_of(alloc, types, members)?;
    Ok(AtomDef::Mapping {
        fields: FieldList::of(Vec::new(alloc)),
        rest: Some(rest),
    })
}

/// A closed record of the members, or where a key is computed, a map of the union of their types.
fn members_def<T: Types>(
    alloc: Global,
    types: &mut T,
    keys: Vec<Option<Text>>,
    members: Vec<Ty>,
) -> Result<AtomDef, Memory>
    requires { All (TyBelow (length (T.atoms types.old))) members.items }
    ensures atoms { T.atoms types.new ≡ T.atoms types.old }
    ensures is { IfOk result (IsDefOf keys.items members.items (T.atoms types.old)) }
    ensures below { IfOk result (DefBelow (length (T.atoms types.old))) }
    ensures distinct { IfOk result HasDistinctFields }
{
    match all_known(keys.as_slice()) {
        true => record_def(alloc, keys, members),
        false => map_def(alloc, types, members.as_slice()),
    }
}

/// The atom of the members.
fn new_mapping<T: Types>(
    alloc: Global,
    types: &mut T,
    keys: Vec<Option<Text>>,
    members: Vec<Ty>,
    at: Place,
) -> Result<u32, Stop<Fault>>
    requires { All (TyBelow (length (T.atoms types.old))) members.items }
    ensures kept { KeepsTypes (T.atoms types.old) (T.atoms types.new) }
    ensures there { IfOk result (λ atom. atom < length (T.atoms types.new)) }
    ensures comes { Comes (adds (IsGroupOf keys.items members.items) (There at)) (T.atoms types.old) result (T.atoms types.new) }
{
    match members_def(alloc, types, keys, members) {
        Ok(def) => add_one(alloc, types, def, at),
        Err(Memory) => Err(Stop::Memory),
    }
}

/// The atom that was chosen, or else that of members with these keys and types: a closed record, or where a key is computed a map of
/// the union. `AtomLimit` at the place where there would be too many atoms. Keys that are the same are as if memory were wanted.
pub fn mapping_atom<T: Types>(
    alloc: Global,
    types: &mut T,
    choice: Option<u32>,
    keys: Vec<Option<Text>>,
    members: Vec<Ty>,
    at: Place,
) -> Result<u32, Stop<Fault>>
    requires choice { IfSome choice (λ atom. atom < length (T.atoms types.old)) }
    requires members { All (TyBelow (length (T.atoms types.old))) members.items }
    ensures kept { KeepsTypes (T.atoms types.old) (T.atoms types.new) }
    ensures there { IfOk result (λ atom. atom < length (T.atoms types.new)) }
    ensures comes { ComesOver (atom_of choice (IsGroupOf keys.items members.items) at) (T.atoms types.old) result (T.atoms types.new) }
{
    match choice {
        Some(atom) => Ok(atom),
        None => new_mapping(alloc, types, keys, members, at),
    }
}

// ---- errors

/// The detail of an error, whose number this is, and the error.
fn error_defs(
    alloc: Global,
    first: u32,
    keys: Vec<Option<Text>>,
    types: Vec<Ty>,
) -> Result<Vec<AtomDef>, Memory>
    ensures is { IfOk result (λ defs. defs.items ≡ error_defs_of keys.items types.items first) }
    ensures distinct { IfOk result (λ defs. All HasDistinctFields defs.items) }
{
    let mut defs = one_def(alloc, record_def(alloc, keys, types)?)?;
    defs.push(AtomDef::Error {
        detail: SemType::Atom(first),
    })?;
    Ok(defs)
}

/// How many atoms there are.
fn how_many<T: Types>(types: &T) -> u32
    ensures { result ≡ length (T.atoms types.now) }
{
    types.env().defs().len() as u32
}

/// The atoms of an error and of its details, which are a closed record: gives the number of that of the details, which stands first.
/// `AtomLimit` at the place where there would be too many atoms. Names that are the same are as if memory were wanted.
pub fn error_atoms<T: Types>(
    alloc: Global,
    types: &mut T,
    names: Vec<Option<Text>>,
    details: Vec<Ty>,
    at: Place,
) -> Result<u32, Stop<Fault>>
    requires { All (TyBelow (length (T.atoms types.old))) details.items }
    ensures kept { KeepsTypes (T.atoms types.old) (T.atoms types.new) }
    ensures there { IfOk result (λ first. first + 1 < length (T.atoms types.new)) }
    ensures comes { Comes (adds (λ env defs. defs ≡ error_defs_of names.items details.items (length env)) (There at)) (T.atoms types.old) result (T.atoms types.new) }
{
    match error_defs(alloc, how_many(types), names, details) {
        Ok(defs) => add(alloc, types, defs, Some(at)),
        Err(Memory) => Err(Stop::Memory),
    }
}
