//! The types of members that are stored.
#![tactic(auto, using(crate::proofs::StoredChoices::sources, crate::proofs::Keying::keying))]

ghost use Rattle.std.specs.Prelude.{◌≡◌, ◌++◌, ◌∷◌, ◌↔◌, ℕ, All, None as Absent, IfOk, IsTrue, List, length, map, slice_get};
ghost use Rattle.std.specs.Option.{option_copied};
ghost use Rattle.type_model.specs.declared.basic.Choice.{Choice as ChoiceOf};
ghost use Rattle.type_model.specs.declared.basic.Ty.{Ty as TyOf};
ghost use Rattle.type_model.specs.Places.{key_type as type_at_key};
ghost use Rattle.type_model.specs.Defined.{DefBelow, IsClosed, IsDefined, TyBelow};
ghost use Rattle.check_words.specs.Members.{AreOfAtom, HasChoices, IsStored};
ghost use Rattle.check_members.specs.Stored.{ChoicesFrom, IfBelow, IsShared, IsSource, IsSourceAt, IsSourceIn, named_field as field_at_keys, named_item as item_at_keys, only_choice as only_choice_of};

use crate::places::field_named;
use bal_base::{Memory, Text};
use descriptors::{copy_choices, plain};
use std::alloc::Global;
use type_model::{AtomDef, Choice, ChoiceList, FieldDef, Keys, SemType, Ty, Types};

fn same_list(xs: &ChoiceList, ys: &ChoiceList) -> bool
    ensures { IsTrue result ↔ ys.now ≡ xs.now }
{
    ys.as_slice() == xs.as_slice()
}

fn same_choices(s: &Ty, t: &Ty) -> bool
    ensures { IsTrue result ↔ HasChoices s.now.lists s.now.maps t.now }
{
    same_list(&s.lists, &t.lists) && same_list(&s.maps, &t.maps)
}

fn all_same(first: &Ty, more: &[Ty]) -> bool
    ensures { IsTrue result ↔ All (HasChoices first.now.lists first.now.maps) more.now }
{
    more.iter().all(|t| same_choices(first, t))
}

fn all_fields_same(first: &Ty, more: &[FieldDef]) -> bool
    ensures { IsTrue result ↔ All (λ f. HasChoices first.now.lists first.now.maps f.ty) more.now }
{
    more.iter().all(|f| same_choices(first, &f.ty))
}

/// The first of the types, if all of them have its choices.
fn shared(types: &[Ty]) -> Option<&Ty>
    ensures shared { IsShared types.now (option_copied result) }
    ensures below { (n : ℕ) → All (TyBelow n) types.now → IfBelow n (option_copied result) }
{
    match types {
        [first, more @ ..] => {
            if all_same(first, more) {
                Some(first)
            } else {
                None
            }
        }
        [] => None,
    }
}

/// The type of the first of the fields, if all of them have its choices.
fn shared_by_fields(fields: &[FieldDef]) -> Option<&Ty>
    ensures shared { IsShared (map (λ f. f.ty) fields.now) (option_copied result) }
    ensures below { (n : ℕ) → All (λ f. TyBelow n f.ty) fields.now → IfBelow n (option_copied result) }
{
    match fields.get(0) {
        Some(first) => {
            if all_fields_same(&first.ty, fields) {
                Some(&first.ty)
            } else {
                None
            }
        }
        None => None,
    }
}

fn named_item<'a>(fixed: &'a [Ty], keys: &Keys) -> Option<&'a Ty>
    ensures { option_copied result ≡ item_at_keys fixed.now keys.now }
{
    match keys {
        Keys::Index(place) => fixed.get(*place as usize),
        Keys::AnyIndex | Keys::Field(_) | Keys::AnyField | Keys::Results => None,
    }
}

fn type_named<'a>(fields: &'a [FieldDef], name: &Text) -> Option<&'a Ty>
    ensures { option_copied result ≡ type_at_key fields.now Absent name.now }
{
    match field_named(fields, name) {
        Some(f) => Some(&f.ty),
        None => None,
    }
}

fn named_field<'a>(fields: &'a [FieldDef], keys: &Keys) -> Option<&'a Ty>
    ensures { option_copied result ≡ field_at_keys fields.now keys.now }
{
    match keys {
        Keys::Field(name) => type_named(fields, name),
        Keys::Index(_) | Keys::AnyIndex | Keys::AnyField | Keys::Results => None,
    }
}

/// The named type, or else the rest's, or else the one whose choices all have.
fn source_of<'a>(named: Option<&'a Ty>, rest: &'a Option<Ty>, all: Option<&'a Ty>) -> Option<&'a Ty>
    ensures source { (types : List TyOf) → IsShared types (option_copied all.entry) → IsSource (option_copied named.entry) rest.now types (option_copied result) }
    ensures below { (n : ℕ) → IfBelow n (option_copied named.entry) → IfBelow n rest.now → IfBelow n (option_copied all.entry) → IfBelow n (option_copied result) }
{
    match named {
        Some(t) => Some(t),
        None => match rest {
            Some(t) => Some(t),
            None => all,
        },
    }
}

/// The type whose choices the atom says at these keys, if it says some.
fn source<'a>(def: &'a AtomDef, keys: &Keys) -> Option<&'a Ty>
    ensures source { IsSourceAt def.now keys.now (option_copied result) }
    ensures below { (n : ℕ) → DefBelow n def.now → IfBelow n (option_copied result) }
{
    match def {
        AtomDef::List { fixed, rest } => {
            let fixed = fixed.as_slice();
            source_of(named_item(fixed, keys), rest, shared(fixed))
        }
        AtomDef::Mapping { fields, rest } => {
            let fields = fields.as_slice();
            source_of(named_field(fields, keys), rest, shared_by_fields(fields))
        }
        AtomDef::Arrow { .. } | AtomDef::Error { .. } | AtomDef::Future { .. } => None,
    }
}

/// The one constructor choice of the type, if it has just one.
fn only_choice(t: &Ty) -> Option<Choice>
    ensures { result ≡ only_choice_of (t.now.lists ++ t.now.maps) }
{
    match t.lists.as_slice() {
        [] => single(t.maps.as_slice()),
        [c] => alone(*c, t.maps.as_slice()),
        [_, _, ..] => None,
    }
}

fn single(choices: &[Choice]) -> Option<Choice>
    ensures { result ≡ only_choice_of choices.now }
{
    match choices {
        [c] => Some(*c),
        [] | [_, _, ..] => None,
    }
}

/// The choice, if there is no other.
fn alone(choice: Choice, others: &[Choice]) -> Option<Choice>
    ensures { result ≡ only_choice_of (choice ∷ others.now) }
{
    match others {
        [] => Some(choice),
        [_, ..] => None,
    }
}

fn source_at<'a>(defs: &'a [AtomDef], atom: u32, keys: &Keys) -> Option<&'a Ty>
    ensures source { (lists maps : List ChoiceOf) → ChoicesFrom (option_copied result) lists maps → AreOfAtom (slice_get defs.now atom) keys.now lists maps }
    ensures below { IsClosed defs.now → IfBelow (length defs.now) (option_copied result) }
{
    match defs.get(atom as usize) {
        Some(def) => source(def, keys),
        None => None,
    }
}

/// The type whose choices what is stored into the container has, if there is one.
fn source_in<'a>(defs: &'a [AtomDef], container: &Ty, keys: &Keys) -> Option<&'a Ty>
    ensures source { IsSourceIn defs.now container.now keys.now (option_copied result) }
    ensures below { IsClosed defs.now → IfBelow (length defs.now) (option_copied result) }
{
    match only_choice(container) {
        Some(choice) => source_at(defs, choice.atom, keys),
        None => None,
    }
}

/// The type with these shapes and the choices of another one.
fn with_choices_of(alloc: Global, sem: SemType, t: &Ty) -> Result<Ty, Memory>
    ensures { IfOk result (λ u. u ≡ record { sem = sem; lists = t.now.lists; maps = t.now.maps }) }
{
    let lists = copy_choices(alloc, &t.lists)?;
    let maps = copy_choices(alloc, &t.maps)?;
    Ok(Ty { sem, lists, maps })
}

/// The type of what is stored into the container at these keys, where members have these shapes. Its constructor choices are those of
/// the member that the one choice of the container names, or else of its rest, or else those that all named members have; it has none
/// where the container hasn't just one choice. It looks at each named member at most once.
pub fn stored_type<T: Types>(
    alloc: Global,
    types: &T,
    container: &Ty,
    keys: &Keys,
    member: SemType,
) -> Result<Ty, Memory>
    requires { IsDefined (T.atoms types.now) member }
    ensures defined { IfOk result (TyBelow (length (T.atoms types.now))) }
    ensures is { IfOk result (IsStored container.now keys.now member (T.atoms types.now)) }
{
    match source_in(types.env().defs(), container, keys) {
        Some(source) => with_choices_of(alloc, member, source),
        None => Ok(plain(alloc, member)),
    }
}
