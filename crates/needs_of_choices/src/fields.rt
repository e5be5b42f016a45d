//! Keys that are computed: the member has to be of the type of each field whose name the key may be.
#![tactic(auto, using(check_kinds::proofs::Over::overs, check_work::proofs::Noting::meeting))]

ghost use Rattle.std.specs.Prelude.{◌≡◌, ◌∷◌, [], IfOk, IfSome, List, length};
ghost use Rattle.std.specs.Option.{option_copied};
ghost use Rattle.checks.specs.Checks.{Comes};
ghost use Rattle.type_model.specs.declared.atoms.FieldDef.{FieldDef as FieldOf};
ghost use Rattle.type_model.specs.declared.basic.SemType.{SemType as SemOf};
ghost use Rattle.type_model.specs.Defined.{IsDefined};
ghost use Rattle.check_kinds.specs.Over.{ComesOver};
ghost use Rattle.check_words.specs.Constructors.{fits_field, fits_fields, fits_keys};
ghost use Rattle.check_words.specs.Stands.{PartBelow, Stands};
ghost use Rattle.check_words.specs.State.{AreLast};
ghost use Rattle.check_words.specs.Words.{sem};
ghost use Rattle.check_work.specs.Views.{constructor_of, state_of};
ghost use Rattle.needs_of_choices.specs.ByKeys.{HasCount, IsAsked, IsCountOf, IsFieldAt, IsFieldIn, IsFieldsOf, all_fields_fit, computed_fits, has_right_key as has_right_key_of};

use bal_base::{Fault, Memory, Place, Stop, Text};
use check_constructors::is_in;
use check_work::{Constructor, Work, last};
use checks::require_below;
use operations::Constant;
use std::alloc::Global;
use type_model::{AtomDef, FieldDef, SemType, Types};
use typed_tree::TypedExpr;

/// The member that is asked about: its key and its value, the atom of the mapping, and where.
#[derive(Clone, Copy)]
struct Asked<'a> {
    key: &'a TypedExpr,
    value: &'a TypedExpr,
    atom: u32,
    at: Place,
}

/// How many fields the definition names, where it is one of mappings.
fn count_in(def: &AtomDef) -> Option<usize>
    ensures { IfSome result (HasCount def.now) }
{
    match def {
        AtomDef::Mapping { fields, .. } => Some(fields.as_slice().len()),
        AtomDef::List { .. } | AtomDef::Arrow { .. } => None,
        AtomDef::Error { .. } | AtomDef::Future { .. } => None,
    }
}

fn count_of(defs: &[AtomDef], atom: u32) -> Option<usize>
    ensures { IfSome result (IsCountOf defs.now atom) }
{
    match defs.get(atom as usize) {
        Some(def) => count_in(def),
        None => None,
    }
}

/// The field at the place, where the definition is one of mappings.
fn field_in(def: &AtomDef, place: usize) -> Option<&FieldDef>
    ensures { IfSome (option_copied result) (IsFieldIn def.now place) }
{
    match def {
        AtomDef::Mapping { fields, .. } => fields.as_slice().get(place),
        AtomDef::List { .. } | AtomDef::Arrow { .. } => None,
        AtomDef::Error { .. } | AtomDef::Future { .. } => None,
    }
}

fn field_at(defs: &[AtomDef], atom: u32, place: usize) -> Option<&FieldDef>
    ensures { IfSome (option_copied result) (IsFieldAt defs.now atom place) }
{
    match defs.get(atom as usize) {
        Some(def) => field_in(def, place),
        None => None,
    }
}

/// A copy of the type of the field, if the key may be its name.
fn asked_of(
    alloc: Global,
    defs: &[AtomDef],
    key: &SemType,
    f: &FieldDef,
) -> Result<Option<SemType>, Memory>
    ensures { IfOk result (IsAsked defs.now key.now f.now) }
{
    let name = Constant::Str(f.name.share());
    match is_in(defs, key, &name) {
        true => Ok(Some(f.ty.sem.copy(alloc)?)),
        false => Ok(None),
    }
}

/// The same of the field at the place. Where there is none it is as if memory were wanted.
fn asked_at(
    alloc: Global,
    defs: &[AtomDef],
    key: &SemType,
    atom: u32,
    place: usize,
) -> Result<Option<SemType>, Memory>
    ensures { IfOk result (λ o. (f : FieldOf) × IsFieldAt defs.now atom place f × IsAsked defs.now key.now f o) }
{
    match field_at(defs, atom, place) {
        Some(f) => asked_of(alloc, defs, key, f),
        None => Err(Memory),
    }
}

/// The value is of the type that is asked for, if one is.
fn is_of_asked<T: Types>(
    alloc: Global,
    types: &mut T,
    value: &TypedExpr,
    asked: Option<SemType>,
    at: Place,
) -> Result<(), Stop<Fault>>
    requires value { PartBelow (length (T.atoms types.old)) value.now }
    requires asked { IfSome asked (IsDefined (T.atoms types.old)) }
    ensures atoms { T.atoms types.new ≡ T.atoms types.old }
    ensures comes { (key : SemOf) (f : FieldOf) → IsAsked (T.atoms types.old) key f asked → ComesOver (fits_field T.passes key value.now at f) (T.atoms types.old) result (T.atoms types.new) }
{
    match asked {
        Some(t) => require_below(alloc, types, &value.ty().sem, &t, Some(at)),
        None => Ok(()),
    }
}

/// The value is of the type of the field at the place, if the key may be its name.
fn field_fits<T: Types>(
    alloc: Global,
    types: &mut T,
    member: Asked<'_>,
    place: usize,
) -> Result<(), Stop<Fault>>
    requires { PartBelow (length (T.atoms types.old)) member.value.now }
    ensures atoms { T.atoms types.new ≡ T.atoms types.old }
    ensures comes { (f : FieldOf) → IsFieldAt (T.atoms types.old) member.entry.atom place f → ComesOver (fits_field T.passes (sem member.entry.key.now) member.entry.value.now member.entry.at f) (T.atoms types.old) result (T.atoms types.new) }
{
    match asked_at(
        alloc,
        types.env().defs(),
        &member.key.ty().sem,
        member.atom,
        place,
    ) {
        Ok(asked) => is_of_asked(alloc, types, member.value, asked, member.at),
        Err(Memory) => Err(Stop::Memory),
    }
}

/// The value is of the type of each of so many fields whose name the key may be.
fn fields_fit<T: Types>(
    alloc: Global,
    types: &mut T,
    member: Asked<'_>,
    count: usize,
) -> Result<(), Stop<Fault>>
    requires { PartBelow (length (T.atoms types.old)) member.value.now }
    ensures atoms { T.atoms types.new ≡ T.atoms types.old }
    ensures comes { (fields : List FieldOf) → IsFieldsOf (T.atoms types.old) member.entry.atom fields → count ≡ length fields → ComesOver (fits_fields T.passes (sem member.entry.key.now) member.entry.value.now member.entry.at fields) (T.atoms types.old) result (T.atoms types.new) }
{
    for place in 0..count {
        match field_fits(alloc, types, member, place) {
            Ok(()) => {}
            Err(stop) => return Err(stop),
        }
    }
    Ok(())
}

/// The value is of the type of each field of the atom whose name the key may be.
fn all_fit<T: Types>(alloc: Global, types: &mut T, member: Asked<'_>) -> Result<(), Stop<Fault>>
    requires { PartBelow (length (T.atoms types.old)) member.value.now }
    ensures atoms { T.atoms types.new ≡ T.atoms types.old }
    ensures comes { ComesOver (all_fields_fit T.passes member.entry.key.now member.entry.value.now member.entry.atom member.entry.at) (T.atoms types.old) result (T.atoms types.new) }
{
    match count_of(types.env().defs(), member.atom) {
        Some(count) => fields_fit(alloc, types, member, count),
        None => Err(Stop::Memory),
    }
}

/// The last two parts, in order.
fn last_two(found: &[TypedExpr]) -> Option<(&TypedExpr, &TypedExpr)>
    ensures { IfSome result (λ p. AreLast found.now 2 (p.0.now ∷ p.1.now ∷ [])) }
{
    match found {
        [.., key, value] => Some((key, value)),
        _ => None,
    }
}

/// The same of the last two parts, which are the key and the value.
fn computed_key_fits<T: Types>(
    alloc: Global,
    types: &mut T,
    work: &Work<'_>,
    atom: u32,
    at: Place,
) -> Result<(), Stop<Fault>>
    requires { Stands (state_of (T.atoms types.old) work.now) }
    ensures atoms { T.atoms types.new ≡ T.atoms types.old }
    ensures comes { Comes (computed_fits T.passes atom at) (state_of (T.atoms types.old) work.now) result (state_of (T.atoms types.new) work.now) }
{
    match last_two(work.found.as_slice()) {
        Some((key, value)) => all_fit(
            alloc,
            types,
            Asked {
                key,
                value,
                atom,
                at,
            },
        ),
        None => Err(Stop::Memory),
    }
}

/// The key fits what was chosen, if something was: nothing is asked of one that isn't computed.
fn key_fits<T: Types>(
    alloc: Global,
    types: &mut T,
    work: &Work<'_>,
    choice: Option<u32>,
    key: &Option<Text>,
    at: Place,
) -> Result<(), Stop<Fault>>
    requires { Stands (state_of (T.atoms types.old) work.now) }
    ensures atoms { T.atoms types.new ≡ T.atoms types.old }
    ensures comes { Comes (fits_keys T.passes choice key.now at) (state_of (T.atoms types.old) work.now) result (state_of (T.atoms types.new) work.now) }
{
    match choice {
        Some(atom) => match key {
            Some(_) => Ok(()),
            None => computed_key_fits(alloc, types, work, atom, at),
        },
        None => Ok(()),
    }
}

/// The last key fits what the constructor chose.
pub(crate) fn has_right_key<T: Types>(
    alloc: Global,
    types: &mut T,
    work: &Work<'_>,
    c: &Constructor,
    at: Place,
) -> Result<(), Stop<Fault>>
    requires { Stands (state_of (T.atoms types.old) work.now) }
    ensures atoms { T.atoms types.new ≡ T.atoms types.old }
    ensures comes { Comes (has_right_key_of T.passes (constructor_of c.now) at) (state_of (T.atoms types.old) work.now) result (state_of (T.atoms types.new) work.now) }
{
    match last(c.keys.as_slice()) {
        Some(key) => key_fits(alloc, types, work, c.choice, key, at),
        None => Err(Stop::Memory),
    }
}
