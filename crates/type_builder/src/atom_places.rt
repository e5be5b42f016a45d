//! Where the atoms that descriptors need are asked for, in the order in which they are numbered.
#![tactic(auto, using(bal_tree::proofs::TypeLayers::type_layers))]

ghost use Rattle.std.specs.Prelude.{◌≡◌, ◌++◌, ◌∷◌, [], IfOk, OnOk, fold, map};
ghost use Rattle.descriptors.specs.Descriptors.{descriptor_of, descriptor_if, error_of, of_intersection, of_param, of_params, of_postfix, of_primary, of_field, in_a_row, fields_in_a_row};
ghost use Rattle.type_builder.specs.AtomPlaces.{all_places, def_places as places_of_def, field_places, file_places as places_of_file, function_places as places_of_function, module_places as places_of_module, package_places as places_of_package, param_places, places, places_if, rest_places};

use bal_base::{Memory, Place};
use bal_tree::{
    Def, FieldTree, FunctionDef, IntersectionType, Module, Package, Param, ParamType, ParamTypes,
    PostfixType, PrimaryType, SourceFile, TypeTree,
};
use std::alloc::Global;

/// The places of the atoms that the definitions of a package need, in text order.
pub(crate) fn package_places(alloc: Global, package: &Package) -> Result<Vec<Place>, Memory>
    ensures { IfOk result (λ made. made.items ≡ places_of_package «package».now) }
{
    let mut out = Vec::new(alloc);
    all_modules(&mut out, package.modules.as_slice())?;
    Ok(out)
}

fn all_modules(out: &mut Vec<Place>, modules: &[Module]) -> Result<(), Memory>
    ensures { OnOk result (out.new.items ≡ fold places_of_module out.old.items modules.now) }
{
    for m in modules {
        all_files(out, m.files.as_slice())?;
    }
    Ok(())
}

fn all_files(out: &mut Vec<Place>, files: &[SourceFile]) -> Result<(), Memory>
    ensures { OnOk result (out.new.items ≡ fold places_of_file out.old.items files.now) }
{
    for f in files {
        all_defs(out, &f.tree.defs)?;
    }
    Ok(())
}

fn all_defs(out: &mut Vec<Place>, defs: &[Def]) -> Result<(), Memory>
    ensures { OnOk result (out.new.items ≡ fold places_of_def out.old.items defs.now) }
{
    for d in defs {
        def_places(out, d)?;
    }
    Ok(())
}

pub(crate) fn def_places(out: &mut Vec<Place>, def: &Def) -> Result<(), Memory>
    ensures { OnOk result (out.new.items ≡ places_of_def out.old.items def.now) }
{
    match def {
        Def::Type(d) => type_places(out, &d.ty),
        Def::Const(d) => places_in(out, &d.ty),
        Def::Variable(d) => type_places(out, &d.ty),
        Def::Function(d) => function_places(out, d),
    }
}

/// The parameters, the result, and four for the function as a value: its arguments, its own type, the lists of what
/// takes the rest, and the futures of its result.
fn function_places(out: &mut Vec<Place>, d: &FunctionDef) -> Result<(), Memory>
    ensures { OnOk result (out.new.items ≡ places_of_function d.now out.old.items) }
{
    params_of_function(out, &d.params.params)?;
    rest_of_function(out, &d.params.rest)?;
    places_in(out, &d.result)?;
    out.push(d.at)?;
    out.push(d.at)?;
    out.push(d.at)?;
    out.push(d.at)?;
    Ok(())
}

fn params_of_function(out: &mut Vec<Place>, params: &[Param]) -> Result<(), Memory>
    ensures { OnOk result (out.new.items ≡ fold param_places out.old.items params.now) }
{
    for p in params {
        type_places(out, &p.ty)?;
    }
    Ok(())
}

fn rest_of_function(out: &mut Vec<Place>, rest: &Option<Param>) -> Result<(), Memory>
    ensures { OnOk result (out.new.items ≡ rest_places rest.now out.old.items) }
{
    match rest {
        None => Ok(()),
        Some(p) => type_places(out, &p.ty),
    }
}

/// Those of a descriptor.
#[cycle(types)]
fn type_places(out: &mut Vec<Place>, t: &TypeTree) -> Result<(), Memory>
    ensures { OnOk result (out.new.items ≡ places (descriptor_of t.now) out.old.items) }
{
    match t {
        TypeTree::Intersection(t) => intersection_places(out, t),
        TypeTree::Union { left, right, .. } => {
            type_places(out, left)?;
            intersection_places(out, right)
        }
    }
}

#[cycle(types)]
fn intersection_places(out: &mut Vec<Place>, t: &IntersectionType) -> Result<(), Memory>
    ensures { OnOk result (out.new.items ≡ places (of_intersection t.now) out.old.items) }
{
    match t {
        IntersectionType::Postfix(t) => postfix_places(out, t),
        IntersectionType::Both { left, right, .. } => {
            intersection_places(out, left)?;
            postfix_places(out, right)
        }
    }
}

#[cycle(types)]
fn postfix_places(out: &mut Vec<Place>, t: &PostfixType) -> Result<(), Memory>
    ensures { OnOk result (out.new.items ≡ places (of_postfix t.now) out.old.items) }
{
    match t {
        PostfixType::Primary(t) => primary_places(out, t),
        PostfixType::Optional { of, .. } => postfix_places(out, of),
        PostfixType::Array { member, at } => {
            postfix_places(out, member)?;
            atom(out, *at)
        }
        PostfixType::FixedArray { member, at, .. } => {
            postfix_places(out, member)?;
            atom(out, *at)
        }
    }
}

#[cycle(types)]
fn primary_places(out: &mut Vec<Place>, t: &PrimaryType) -> Result<(), Memory>
    ensures { OnOk result (out.new.items ≡ places (of_primary t.now) out.old.items) }
{
    match t {
        PrimaryType::Builtin { .. } | PrimaryType::Literal(_) => Ok(()),
        PrimaryType::Negative { .. } | PrimaryType::AnyFunction { .. } => Ok(()),
        PrimaryType::Name(_) => Ok(()),
        PrimaryType::Parens { inner, .. } => type_places(out, inner),
        PrimaryType::Map { member, at } => {
            type_places(out, member)?;
            atom(out, *at)
        }
        PrimaryType::Future { result, at } => {
            type_places(out, result)?;
            atom(out, *at)
        }
        PrimaryType::Error { detail, at } => error_places(out, detail, *at),
        PrimaryType::Tuple { members, rest, at } => {
            type_list_places(out, members)?;
            places_in(out, rest)?;
            atom(out, *at)
        }
        PrimaryType::ClosedRecord { fields, rest, at } => {
            field_list_places(out, fields)?;
            places_in(out, rest)?;
            atom(out, *at)
        }
        PrimaryType::OpenRecord { fields, at } => {
            field_list_places(out, fields)?;
            atom(out, *at)
        }
        PrimaryType::Function {
            params,
            result,
            at,
            ..
        } => {
            param_types_places(out, params)?;
            places_in(out, result)?;
            atom(out, *at)?;
            atom(out, *at)
        }
    }
}

/// Errors with such a detail ask for an atom, and all errors for none.
#[cycle(types)]
fn error_places(
    out: &mut Vec<Place>,
    detail: &Option<Box<TypeTree>>,
    at: Place,
) -> Result<(), Memory>
    ensures { OnOk result (out.new.items ≡ places (error_of (descriptor_if detail.now) at) out.old.items) }
{
    match detail {
        None => Ok(()),
        Some(detail) => {
            type_places(out, detail)?;
            atom(out, at)
        }
    }
}

/// An atom that is asked for here.
fn atom(out: &mut Vec<Place>, at: Place) -> Result<(), Memory>
    ensures { OnOk result (out.new.items ≡ out.old.items ++ at ∷ []) }
{
    out.push(at)?;
    Ok(())
}

/// What stands between the parentheses of a function type.
#[cycle(types)]
fn param_types_places(out: &mut Vec<Place>, params: &ParamTypes) -> Result<(), Memory>
    ensures { OnOk result (out.new.items ≡ places_if (of_params params.now).rest (all_places (of_params params.now).params out.old.items)) }
{
    param_list_places(out, &params.params)?;
    places_in(out, &params.rest)
}

#[cycle(types)]
fn param_type_places(out: &mut Vec<Place>, param: &ParamType) -> Result<(), Memory>
    ensures { OnOk result (out.new.items ≡ places (of_param param.now) out.old.items) }
{
    type_places(out, &param.ty)
}

/// What may be absent.
#[cycle(types)]
fn places_in(out: &mut Vec<Place>, t: &Option<Box<TypeTree>>) -> Result<(), Memory>
    ensures { OnOk result (out.new.items ≡ places_if (descriptor_if t.now) out.old.items) }
{
    match t {
        None => Ok(()),
        Some(t) => type_places(out, t),
    }
}

#[cycle(types)]
fn type_list_places(out: &mut Vec<Place>, types: &[TypeTree]) -> Result<(), Memory>
    ensures { OnOk result (out.new.items ≡ all_places (in_a_row (map descriptor_of types.now)) out.old.items) }
{
    for t in types {
        type_places(out, t)?;
    }
    Ok(())
}

#[cycle(types)]
fn param_list_places(out: &mut Vec<Place>, params: &[ParamType]) -> Result<(), Memory>
    ensures { OnOk result (out.new.items ≡ all_places (in_a_row (map of_param params.now)) out.old.items) }
{
    for p in params {
        param_type_places(out, p)?;
    }
    Ok(())
}

#[cycle(types)]
fn field_list_places(out: &mut Vec<Place>, fields: &[FieldTree]) -> Result<(), Memory>
    ensures { OnOk result (out.new.items ≡ field_places (fields_in_a_row (map of_field fields.now)) out.old.items) }
{
    for f in fields {
        one_field_places(out, f)?;
    }
    Ok(())
}

#[cycle(types)]
fn one_field_places(out: &mut Vec<Place>, f: &FieldTree) -> Result<(), Memory>
    ensures { OnOk result (out.new.items ≡ places (of_field f.now).ty out.old.items) }
{
    type_places(out, &f.ty)
}
