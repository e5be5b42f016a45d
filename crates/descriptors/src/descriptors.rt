//! Type descriptors as types over a draft of atoms.
ghost use Rattle.std.specs.Prelude.{◌≡◌, List, map, None as Absent};
ghost use Rattle.type_model.specs.Defined.{TyBelow};
ghost use Rattle.type_model.specs.declared.basic.Ty.{Ty as TyOf};
ghost use Rattle.checks.specs.Checks.{◌▷◌};
ghost use Rattle.descriptors.specs.declared.draft.Draft.{Draft as DraftOf};
ghost use Rattle.descriptors.specs.declared.names.Names.{Names as NamesOf};
ghost use Rattle.descriptors.specs.Described.{count_of, gives_named, AreCopies};
ghost use Rattle.descriptors.specs.Descriptors.{descriptor_of, descriptor_if, error_of, fields_in_a_row, future_of, map_of, of_field, of_intersection, of_param, of_params, of_postfix, of_primary, open_record as open_record_of};
ghost use Rattle.descriptors.specs.Drafts.{AreNamesBelow, Drafts, drafted, drafted_if, drafted_list, params_drafted, result_drafted, wherever};
ghost use Rattle.descriptors.specs.Naming.{type_named};
ghost use Rattle.descriptors.specs.Steps.{IfBelow, ParamsBelow};

use crate::atoms::{new_arrow, new_list, new_mapping, new_plain};
use crate::draft::Draft;
use crate::lists::{field_list, param_list, type_list};
use crate::names::{Names, Scope};
use crate::own::{any_function, builtin_type};
use crate::readonly::postfix_is_readonly;
use crate::together::{
    copies, copy, intersection, lift, literal_set, negative_set, optional, plain, union,
};
use bal_base::{Fault, Kept, Place, Stop};
use bal_tree::{
    BuiltinType, FieldTree, IntersectionType, ParamType, ParamTypes, PostfixType, PrimaryType,
    QualifiedName, TypeTree,
};
use std::alloc::Global;
use type_model::{AtomDef, BasicSet, FieldList, SemType, Ty, TyList};

/// The type that a descriptor means, with the atoms that it needs behind those of the draft. Its parts come before a descriptor, from
/// left to right, and the first fault is the answer: those of [`describe`](crate::describe).
#[cycle(types)]
pub fn type_tree(
    alloc: Global,
    draft: &mut Draft,
    names: &Names,
    scope: Scope,
    tree: &TypeTree,
) -> Result<Ty, Stop<Fault>>
    ensures { Drafts (AreNamesBelow names.now) TyBelow (drafted names.now scope (descriptor_of tree.now)) draft.old result draft.new }
{
    match tree {
        TypeTree::Intersection(t) => intersection_type(alloc, draft, names, scope, t),
        TypeTree::Union { left, right, .. } => {
            let s = type_tree(alloc, draft, names, scope, left)?;
            let t = intersection_type(alloc, draft, names, scope, right)?;
            lift(union(alloc, s, t))
        }
    }
}

#[cycle(types)]
fn intersection_type(
    alloc: Global,
    draft: &mut Draft,
    names: &Names,
    scope: Scope,
    tree: &IntersectionType,
) -> Result<Ty, Stop<Fault>>
    ensures { Drafts (AreNamesBelow names.now) TyBelow (drafted names.now scope (of_intersection tree.now)) draft.old result draft.new }
{
    match tree {
        IntersectionType::Postfix(t) => postfix_type(alloc, draft, names, scope, t),
        IntersectionType::Both { left, right, .. } => {
            let s = intersection_type(alloc, draft, names, scope, left)?;
            let t = postfix_type(alloc, draft, names, scope, right)?;
            lift(intersection(alloc, postfix_is_readonly(right), s, t))
        }
    }
}

#[cycle(types)]
fn postfix_type(
    alloc: Global,
    draft: &mut Draft,
    names: &Names,
    scope: Scope,
    tree: &PostfixType,
) -> Result<Ty, Stop<Fault>>
    ensures { Drafts (AreNamesBelow names.now) TyBelow (drafted names.now scope (of_postfix tree.now)) draft.old result draft.new }
{
    match tree {
        PostfixType::Primary(t) => primary_type(alloc, draft, names, scope, t),
        PostfixType::Optional { of, .. } => {
            let t = postfix_type(alloc, draft, names, scope, of)?;
            lift(optional(alloc, t))
        }
        PostfixType::Array { member, at } => {
            let t = postfix_type(alloc, draft, names, scope, member)?;
            new_list(alloc, draft, TyList::of(Vec::new(alloc)), Some(t), *at)
        }
        PostfixType::FixedArray { member, length, at } => {
            let t = postfix_type(alloc, draft, names, scope, member)?;
            repeated(alloc, draft, &t, count(length), *at)
        }
    }
}

/// How often `T[n]` has T.
fn count(length: &i64) -> usize
    ensures { result ≡ count_of length.now }
{
    let length = *length;
    if length < 0 { 0 } else { length as usize }
}

/// The type of the lists that have a member of this type at each of so many places.
fn repeated(
    alloc: Global,
    draft: &mut Draft,
    member: &Ty,
    places: usize,
    at: Place,
) -> Result<Ty, Stop<Fault>>
    ensures { (names : NamesOf) → Drafts (λ n. TyBelow n member.now) TyBelow (wherever names (List TyOf) (AreCopies places member.now) ▷ λ made. drafted_list made Absent at) draft.old result draft.new }
{
    let fixed = copies(alloc, member, places)?;
    new_list(alloc, draft, fixed, None, at)
}

#[cycle(types)]
fn primary_type(
    alloc: Global,
    draft: &mut Draft,
    names: &Names,
    scope: Scope,
    tree: &PrimaryType,
) -> Result<Ty, Stop<Fault>>
    ensures { Drafts (AreNamesBelow names.now) TyBelow (drafted names.now scope (of_primary tree.now)) draft.old result draft.new }
{
    match tree {
        PrimaryType::Builtin { builtin, .. } => lift(builtin_type(alloc, names, *builtin)),
        PrimaryType::Literal(l) => Ok(plain(alloc, SemType::Basic(literal_set(l)))),
        PrimaryType::Negative { int, .. } => Ok(plain(alloc, SemType::Basic(negative_set(int)))),
        PrimaryType::Parens { inner, .. } => type_tree(alloc, draft, names, scope, inner),
        PrimaryType::Name(name) => named_type(alloc, names, scope, name),
        PrimaryType::Map { member, at } => map_type(alloc, draft, names, scope, member, *at),
        PrimaryType::Future { result, at } => {
            future_type(alloc, draft, names, scope, result, *at)
        }
        PrimaryType::Error { detail, at } => error_type(alloc, draft, names, scope, detail, *at),
        PrimaryType::Tuple { members, rest, at } => {
            let fixed = type_list(alloc, draft, names, scope, members)?;
            let rest = type_if(alloc, draft, names, scope, rest)?;
            new_list(alloc, draft, fixed, rest, *at)
        }
        PrimaryType::ClosedRecord { fields, rest, at } => {
            let fields = field_list(alloc, draft, names, scope, fields)?;
            let rest = type_if(alloc, draft, names, scope, rest)?;
            new_mapping(alloc, draft, fields, rest, *at)
        }
        PrimaryType::OpenRecord { fields, at } => {
            open_record(alloc, draft, names, scope, fields, *at)
        }
        PrimaryType::AnyFunction { isolated, .. } => lift(any_function(alloc, names, *isolated)),
        PrimaryType::Function {
            isolated,
            params,
            result,
            at,
        } => {
            let (fixed, rest) = param_types(alloc, draft, names, scope, params)?;
            let result = result_type(alloc, draft, names, scope, result)?;
            new_arrow(alloc, draft, *isolated, fixed, rest, result.sem, *at)
        }
    }
}

/// The mappings with such members.
#[cycle(types)]
fn map_type(
    alloc: Global,
    draft: &mut Draft,
    names: &Names,
    scope: Scope,
    member: &TypeTree,
    at: Place,
) -> Result<Ty, Stop<Fault>>
    ensures { Drafts (AreNamesBelow names.now) TyBelow (drafted names.now scope (map_of (descriptor_of member.now) at)) draft.old result draft.new }
{
    let t = type_tree(alloc, draft, names, scope, member)?;
    new_mapping(alloc, draft, FieldList::of(Vec::new(alloc)), Some(t), at)
}

/// The futures with such a result.
#[cycle(types)]
fn future_type(
    alloc: Global,
    draft: &mut Draft,
    names: &Names,
    scope: Scope,
    tree: &TypeTree,
    at: Place,
) -> Result<Ty, Stop<Fault>>
    ensures { Drafts (AreNamesBelow names.now) TyBelow (drafted names.now scope (future_of (descriptor_of tree.now) at)) draft.old result draft.new }
{
    let t = type_tree(alloc, draft, names, scope, tree)?;
    new_plain(alloc, draft, AtomDef::Future { result: t.sem }, at)
}

/// All errors, or those with such a detail.
#[cycle(types)]
fn error_type(
    alloc: Global,
    draft: &mut Draft,
    names: &Names,
    scope: Scope,
    detail: &Option<Box<TypeTree>>,
    at: Place,
) -> Result<Ty, Stop<Fault>>
    ensures { Drafts (AreNamesBelow names.now) TyBelow (drafted names.now scope (error_of (descriptor_if detail.now) at)) draft.old result draft.new }
{
    match detail {
        None => Ok(plain(alloc, SemType::Basic(BasicSet::ErrorAll))),
        Some(detail) => {
            let t = type_tree(alloc, draft, names, scope, detail)?;
            new_plain(alloc, draft, AtomDef::Error { detail: t.sem }, at)
        }
    }
}

/// The mappings with these fields, and beside them members of anydata.
#[cycle(types)]
fn open_record(
    alloc: Global,
    draft: &mut Draft,
    names: &Names,
    scope: Scope,
    fields: &[FieldTree],
    at: Place,
) -> Result<Ty, Stop<Fault>>
    ensures { Drafts (AreNamesBelow names.now) TyBelow (drafted names.now scope (open_record_of (fields_in_a_row (map of_field fields.now)) at)) draft.old result draft.new }
{
    let fields = field_list(alloc, draft, names, scope, fields)?;
    let rest = builtin_type(alloc, names, BuiltinType::AnyData)?;
    new_mapping(alloc, draft, fields, Some(rest), at)
}

/// The parameters of a function type, and what takes the rest.
#[cycle(types)]
fn param_types(
    alloc: Global,
    draft: &mut Draft,
    names: &Names,
    scope: Scope,
    tree: &ParamTypes,
) -> Result<(TyList, Option<Ty>), Stop<Fault>>
    ensures { Drafts (AreNamesBelow names.now) ParamsBelow (params_drafted names.now scope (of_params tree.now).params (of_params tree.now).rest) draft.old result draft.new }
{
    let fixed = param_list(alloc, draft, names, scope, &tree.params)?;
    let rest = type_if(alloc, draft, names, scope, &tree.rest)?;
    Ok((fixed, rest))
}

#[cycle(types)]
pub(crate) fn param_type(
    alloc: Global,
    draft: &mut Draft,
    names: &Names,
    scope: Scope,
    tree: &ParamType,
) -> Result<Ty, Stop<Fault>>
    ensures { Drafts (AreNamesBelow names.now) TyBelow (drafted names.now scope (of_param tree.now)) draft.old result draft.new }
{
    type_tree(alloc, draft, names, scope, &tree.ty)
}

/// What may be absent.
#[cycle(types)]
pub fn type_if(
    alloc: Global,
    draft: &mut Draft,
    names: &Names,
    scope: Scope,
    tree: &Option<Box<TypeTree>>,
) -> Result<Option<Ty>, Stop<Fault>>
    ensures { Drafts (AreNamesBelow names.now) IfBelow (drafted_if names.now scope (descriptor_if tree.now)) draft.old result draft.new }
{
    match tree {
        None => Ok(None),
        Some(tree) => {
            let t = type_tree(alloc, draft, names, scope, tree)?;
            Ok(Some(t))
        }
    }
}

/// What a function gives: nil where nothing is said.
#[cycle(types)]
pub fn result_type(
    alloc: Global,
    draft: &mut Draft,
    names: &Names,
    scope: Scope,
    tree: &Option<Box<TypeTree>>,
) -> Result<Ty, Stop<Fault>>
    ensures { Drafts (AreNamesBelow names.now) TyBelow (result_drafted names.now scope (descriptor_if tree.now)) draft.old result draft.new }
{
    match tree {
        None => Ok(plain(alloc, SemType::Basic(BasicSet::Nil))),
        Some(tree) => type_tree(alloc, draft, names, scope, tree),
    }
}

/// The type that a name stands for.
fn named_type(
    alloc: Global,
    names: &Names,
    scope: Scope,
    name: &QualifiedName,
) -> Result<Ty, Stop<Fault>>
    ensures { (draft : DraftOf) → Drafts (AreNamesBelow names.now) TyBelow (gives_named (type_named names.now scope name.now) name.now.at) draft result draft }
{
    match names.type_named(scope, name) {
        Ok(t) => lift(copy(alloc, t)),
        Err(code) => Err(Stop::Fault(Fault {
            code,
            at: Some(name.at),
            kept: Kept::Nothing,
        })),
    }
}
