//! Type descriptors and parameters.
#![tactic(auto, using(crate::proofs::Forms::type_forms))]

ghost use Rattle.std.specs.Prelude.{◌≡◌, false};
ghost use Rattle.std.specs.List.{list_all};
ghost use Rattle.bal_tree.specs.TypeRules.{name_fits as fits, is_length as is_array_length, type_is_formed, intersection_is_formed, postfix_type_is_formed, primary_type_is_formed, field_is_formed, param_type_is_formed, param_types_are_formed, param_is_formed, last_is_formed, params_are_formed};

use crate::name::{Prefix, QualifiedName};
use crate::params::{Param, Params};
use crate::types::{
    FieldTree, IntersectionType, ParamType, ParamTypes, PostfixType, PrimaryType, TypeTree,
};

/// Whether the type is well formed, in the middle of a conditional expression or not.
#[cycle(types)]
pub fn type_tree(t: &TypeTree, middle: bool) -> bool
    ensures { result ≡ type_is_formed t.now middle }
{
    match t {
        TypeTree::Intersection(t) => intersection(t, middle),
        TypeTree::Union { left, right, .. } => {
            !left.ends_in_result() && type_tree(left, middle) && intersection(right, middle)
        }
    }
}

#[cycle(types)]
fn intersection(t: &IntersectionType, middle: bool) -> bool
    ensures { result ≡ intersection_is_formed t.now middle }
{
    match t {
        IntersectionType::Postfix(t) => postfix(t, middle),
        IntersectionType::Both { left, right, .. } => {
            !left.ends_in_result() && intersection(left, middle) && postfix(right, middle)
        }
    }
}

#[cycle(types)]
fn postfix(t: &PostfixType, middle: bool) -> bool
    ensures { result ≡ postfix_type_is_formed t.now middle }
{
    match t {
        PostfixType::Primary(t) => primary(t, middle),
        PostfixType::Optional { of, .. } => !of.ends_in_result() && postfix(of, middle),
        PostfixType::Array { member, .. } => !member.ends_in_result() && postfix(member, middle),
        PostfixType::FixedArray { member, length, .. } => {
            !member.ends_in_result() && is_length(*length) && postfix(member, middle)
        }
    }
}

/// Whether an array may have so many members by its type.
#[tactic(auto, unfolding(crate::specs::TypeRules::is_length))]
fn is_length(length: i64) -> bool
    ensures { result ≡ is_array_length length }
{
    length <= 1024
}

#[cycle(types)]
fn primary(t: &PrimaryType, middle: bool) -> bool
    ensures { result ≡ primary_type_is_formed t.now middle }
{
    match t {
        PrimaryType::Builtin { .. } | PrimaryType::Literal(_) | PrimaryType::Negative { .. } =>
            true,
        PrimaryType::Name(n) => name_fits(n, middle),
        PrimaryType::AnyFunction { .. } | PrimaryType::Error { detail: None, .. } => true,
        PrimaryType::Error {
            detail: Some(t),
            ..
        } => type_tree(t, middle),
        PrimaryType::Parens { inner, .. } => type_tree(inner, false),
        PrimaryType::Map { member, .. } => type_tree(member, middle),
        PrimaryType::Future { result, .. } => type_tree(result, middle),
        PrimaryType::Tuple {
            members,
            rest: None,
            ..
        } => type_list(members),
        PrimaryType::Tuple {
            members,
            rest: Some(rest),
            ..
        } => { type_list(members) && type_tree(rest, false) }
        PrimaryType::ClosedRecord {
            fields,
            rest: None,
            ..
        } => field_list(fields),
        PrimaryType::ClosedRecord {
            fields,
            rest: Some(rest),
            ..
        } => { field_list(fields) && type_tree(rest, false) }
        PrimaryType::OpenRecord { fields, .. } => field_list(fields),
        PrimaryType::Function {
            params,
            result: None,
            ..
        } => param_types(params),
        PrimaryType::Function {
            params,
            result: Some(result),
            ..
        } => { param_types(params) && type_tree(result, middle) }
    }
}

/// Whether the name may stand there, in the middle of a conditional expression or not.
pub fn name_fits(n: &QualifiedName, middle: bool) -> bool
    ensures { result ≡ fits middle n.now.prefix }
{
    match &n.prefix {
        None | Some(Prefix::Int { .. }) => true,
        Some(Prefix::Word(_)) => !middle,
    }
}

#[cycle(types)]
fn type_list(types: &[TypeTree]) -> bool
    ensures { result ≡ list_all (λ t. type_is_formed t false) types.now }
{
    for t in types {
        if !type_tree(t, false) {
            return false;
        }
    }
    true
}

#[cycle(types)]
fn field_list(fields: &[FieldTree]) -> bool
    ensures { result ≡ list_all (λ f. field_is_formed f false) fields.now }
{
    for f in fields {
        if !field(f) {
            return false;
        }
    }
    true
}

#[cycle(types)]
fn field(f: &FieldTree) -> bool
    ensures { result ≡ field_is_formed f.now false }
{
    type_tree(&f.ty, false)
}

#[cycle(types)]
fn param_types(p: &ParamTypes) -> bool
    ensures { result ≡ param_types_are_formed p.now false }
{
    match &p.rest {
        None => param_type_list(&p.params),
        Some(rest) => param_type_list(&p.params) && type_tree(rest, false),
    }
}

#[cycle(types)]
fn param_type_list(params: &[ParamType]) -> bool
    ensures { result ≡ list_all (λ p. param_type_is_formed p false) params.now }
{
    for p in params {
        if !param_type(p) {
            return false;
        }
    }
    true
}

#[cycle(types)]
fn param_type(p: &ParamType) -> bool
    ensures { result ≡ param_type_is_formed p.now false }
{
    type_tree(&p.ty, false)
}

pub fn params(p: &Params) -> bool
    ensures { result ≡ params_are_formed p.now }
{
    param_list(&p.params) && last_param(&p.rest)
}

fn param_list(params: &[Param]) -> bool
    ensures { result ≡ list_all param_is_formed params.now }
{
    params.iter().all(|p| type_tree(&p.ty, false))
}

fn last_param(rest: &Option<Param>) -> bool
    ensures { result ≡ last_is_formed rest.now }
{
    match rest {
        Some(p) => type_tree(&p.ty, false),
        None => true,
    }
}
