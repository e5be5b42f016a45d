//! Which constructor choices fit a constructor as it is written.
#![tactic(auto, using(crate::proofs::FittingChoices::fitting))]

ghost use Rattle.std.specs.Prelude.{◌≡◌, ◌↔◌, All, Any, IsSomeAnd, IsTrue, Some, length, map};
ghost use Rattle.std.specs.List.{list_any};
ghost use Rattle.std.specs.Option.{option_copied};
ghost use Rattle.expr_needs.specs.ExprTable.{read_expr, read_member, seen_of};
ghost use Rattle.check_words.specs.Constructors.{IsLiteralIn, KeyFits, LengthFits, ListFits, LiteralsFit, MappingFits, MemberFits, RequiredAreThere, is_key, literal_fits, member_type as type_of_member};
ghost use Rattle.check_constructors.specs.Fitting.{FitsAt, IsListFor, IsMappingFor, IsThere};

use crate::literals::is_in;
use crate::readings::{literal, member_key, member_literal};
use bal_base::Text;
use bal_tree::{Expr, Literal, Member};
use check_members::{item_type, key_type};
use check_words::constant_of;
use type_model::{AtomDef, Choice, FieldDef, Ty};

// ---- lists

/// Whether a list of so many items may be of the atom.
fn length_fits(fixed: &[Ty], rest: &Option<Ty>, count: usize) -> bool
    ensures { IsTrue result ↔ LengthFits fixed.now rest.now count }
{
    fixed.len() <= count && (rest.is_some() || count <= fixed.len())
}

fn is_literal_in(defs: &[AtomDef], value: &Literal, t: &Ty) -> bool
    ensures { IsTrue result ↔ IsLiteralIn defs.now value.now t.now }
{
    is_in(defs, &t.sem, &constant_of(value))
}

fn is_in_some(defs: &[AtomDef], value: &Literal, ty: Option<&Ty>) -> bool
    ensures { IsTrue result ↔ IsSomeAnd (option_copied ty.entry) (IsLiteralIn defs.now value.now) }
{
    match ty {
        Some(t) => is_literal_in(defs, value, t),
        None => false,
    }
}

/// Whether the literal, if there is one, is in the type, which has to be there then.
fn fits(defs: &[AtomDef], value: Option<&Literal>, ty: Option<&Ty>) -> bool
    ensures { IsTrue result ↔ literal_fits defs.now (option_copied value.entry) (option_copied ty.entry) }
{
    match value {
        Some(value) => is_in_some(defs, value, ty),
        None => true,
    }
}

fn item_fits(defs: &[AtomDef], fixed: &[Ty], rest: &Option<Ty>, place: usize, item: &Expr) -> bool
    ensures { IsTrue result ↔ FitsAt defs.now fixed.now rest.now place (read_expr item.now).literal }
{
    fits(defs, literal(item), item_type(fixed, rest, place))
}

/// Whether the items that are literals are in the types of their places.
fn literals_fit(defs: &[AtomDef], fixed: &[Ty], rest: &Option<Ty>, items: &[Expr]) -> bool
    ensures { IsTrue result ↔ LiteralsFit defs.now 0 fixed.now rest.now (map (λ i. i.literal) (map read_expr items.now)) }
{
    for (place, item) in items.iter().enumerate() {
        if !item_fits(defs, fixed, rest, place, item) {
            return false;
        }
    }
    true
}

/// Whether a list constructor with these items may make a list of the choice's atom.
pub(crate) fn list_fits(defs: &[AtomDef], choice: Choice, items: &[Expr]) -> bool
    ensures { IsTrue result ↔ ListFits (map (λ i. i.literal) (map read_expr items.now)) defs.now choice }
{
    match defs.get(choice.atom as usize) {
        Some(def) => is_list_for(defs, def, items),
        None => false,
    }
}

fn is_list_for(defs: &[AtomDef], def: &AtomDef, items: &[Expr]) -> bool
    ensures { IsTrue result ↔ IsListFor defs.now (map (λ i. i.literal) (map read_expr items.now)) def.now }
{
    match def {
        AtomDef::List { fixed, rest } => {
            length_fits(fixed.as_slice(), rest, items.len())
                && literals_fit(defs, fixed.as_slice(), rest, items)
        }
        AtomDef::Mapping { .. } | AtomDef::Arrow { .. } => false,
        AtomDef::Error { .. } | AtomDef::Future { .. } => false,
    }
}

// ---- mappings

/// The type of a member with this key, where there is one: a computed key goes with the rest. It looks at one field after the other.
pub fn member_type<'a>(
    fields: &'a [FieldDef],
    rest: &'a Option<Ty>,
    key: Option<&Text>,
) -> Option<&'a Ty>
    ensures { option_copied result ≡ type_of_member fields.now rest.now (option_copied key.entry) }
{
    match key {
        Some(key) => key_type(fields, rest, key),
        None => rest.as_ref(),
    }
}

fn both_fit(defs: &[AtomDef], key: Option<&Text>, ty: Option<&Ty>, value: Option<&Literal>) -> bool
    ensures { IsTrue result ↔ (KeyFits (option_copied key.entry) (option_copied ty.entry) × literal_fits defs.now (option_copied value.entry) (option_copied ty.entry)) }
{
    key_fits(key, ty) && fits(defs, value, ty)
}

fn member_fits(defs: &[AtomDef], fields: &[FieldDef], rest: &Option<Ty>, member: &Member) -> bool
    ensures { IsTrue result ↔ MemberFits defs.now fields.now rest.now (seen_of (read_member member.now)) }
{
    let key = member_key(member);
    let ty = member_type(fields, rest, key);
    both_fit(defs, key, ty, member_literal(member))
}

/// Whether a key that isn't computed is allowed.
fn key_fits(key: Option<&Text>, ty: Option<&Ty>) -> bool
    ensures { IsTrue result ↔ KeyFits (option_copied key.entry) (option_copied ty.entry) }
{
    match key {
        Some(_) => ty.is_some(),
        None => true,
    }
}

fn has_key(member: &Member, name: &Text) -> bool
    ensures { result ≡ is_key name.now (seen_of (read_member member.now)).key }
{
    match member_key(member) {
        Some(key) => *name == *key,
        None => false,
    }
}

fn some_has(name: &Text, members: &[Member]) -> bool
    ensures { result ≡ list_any (λ m. is_key name.now (seen_of (read_member m)).key) members.now }
{
    members.iter().any(|m| has_key(m, name))
}

fn is_given(name: &Text, members: &[Member]) -> bool
    ensures { IsTrue result ↔ Any (λ m. m.key ≡ Some name.now) (map seen_of (map read_member members.now)) }
{
    some_has(name, members)
}

fn is_there(field: &FieldDef, members: &[Member]) -> bool
    ensures { IsTrue result ↔ IsThere (map seen_of (map read_member members.now)) field.now }
{
    field.optional || is_given(&field.name, members)
}

fn each_fits(defs: &[AtomDef], fields: &[FieldDef], rest: &Option<Ty>, members: &[Member]) -> bool
    ensures { IsTrue result ↔ All (λ m. MemberFits defs.now fields.now rest.now (seen_of (read_member m))) members.now }
{
    members.iter().all(|m| member_fits(defs, fields, rest, m))
}

fn members_fit(defs: &[AtomDef], fields: &[FieldDef], rest: &Option<Ty>, members: &[Member]) -> bool
    ensures { IsTrue result ↔ All (MemberFits defs.now fields.now rest.now) (map seen_of (map read_member members.now)) }
{
    each_fits(defs, fields, rest, members)
}

fn are_there(fields: &[FieldDef], members: &[Member]) -> bool
    ensures { IsTrue result ↔ RequiredAreThere fields.now (map seen_of (map read_member members.now)) }
{
    fields.iter().all(|f| is_there(f, members))
}

fn is_mapping_for(defs: &[AtomDef], def: &AtomDef, members: &[Member]) -> bool
    ensures { IsTrue result ↔ IsMappingFor defs.now (map seen_of (map read_member members.now)) def.now }
{
    match def {
        AtomDef::Mapping { fields, rest } => {
            members_fit(defs, fields.as_slice(), rest, members)
                && are_there(fields.as_slice(), members)
        }
        AtomDef::List { .. } | AtomDef::Arrow { .. } => false,
        AtomDef::Error { .. } | AtomDef::Future { .. } => false,
    }
}

/// Whether a mapping constructor with these members may make a mapping of the choice's atom.
pub(crate) fn mapping_fits(defs: &[AtomDef], choice: Choice, members: &[Member]) -> bool
    ensures { IsTrue result ↔ MappingFits (map seen_of (map read_member members.now)) defs.now choice }
{
    match defs.get(choice.atom as usize) {
        Some(def) => is_mapping_for(defs, def, members),
        None => false,
    }
}
