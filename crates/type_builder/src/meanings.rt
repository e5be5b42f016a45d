//! What single definitions mean, over a draft of atoms.
ghost use Rattle.std.specs.Prelude.{◌≡◌, [], map};
ghost use Rattle.descriptors.specs.Descriptors.{in_a_row};
ghost use Rattle.descriptors.specs.Drafts.{AreNamesBelow, Drafts, all_drafted, drafted_if};
ghost use Rattle.descriptors.specs.Steps.{AllBelow, IfBelow, MeaningBelow, SignatureBelow};
ghost use Rattle.descriptors.specs.declared.names.Names.{Names as AllNames};
ghost use Rattle.descriptors.specs.declared.names.Scope.{Scope as AnyScope};
ghost use Rattle.type_builder.specs.Meanings.{ValuesBelow, constant_drafted, meaning_drafted, param_descriptor, rest_descriptor, signature_drafted, signed_drafted, values_drafted};
ghost use Rattle.type_model.specs.Defined.{TyBelow};
ghost use Rattle.type_model.specs.declared.atoms.AtomDef.TheVariants.{List as ListAtom};

use crate::earlier::Earlier;
use crate::flat::{flat, flat_if, flats};
use crate::noting::value_set;
use bal_base::{Fault, Stop};
use bal_tree::{ConstDef, Def, FunctionDef, Param};
use descriptors::{
    Draft, Meaning, Names, Scope, Signature, plain, result_type, type_if, type_tree,
};
use std::alloc::Global;
use type_model::{AtomDef, SemType, Ty, TyList};

/// The atoms of a function as a value, by number: its own type, the lists of what takes the rest, and the futures of
/// its result.
#[derive(Clone, Copy)]
struct Values {
    arrow: u32,
    lists: u32,
    future: u32,
}

/// What a definition means, where so many functions and variables come before it.
pub(crate) fn meaning(
    alloc: Global,
    draft: &mut Draft,
    names: &Names,
    scope: Scope,
    before: Earlier,
    def: &Def,
) -> Result<Meaning, Stop<Fault>>
    ensures { Drafts (AreNamesBelow names.now) MeaningBelow (meaning_drafted names.now scope before def.now) draft.old result draft.new }
{
    match def {
        Def::Type(d) => {
            let t = type_tree(alloc, draft, names, scope, &d.ty)?;
            Ok(Meaning::TypeName(t))
        }
        Def::Const(d) => constant(alloc, draft, names, scope, d),
        Def::Variable(d) => {
            let t = type_tree(alloc, draft, names, scope, &d.ty)?;
            let ty = flat(alloc, &t)?;
            Ok(Meaning::Variable {
                number: before.variables,
                is_final: d.is_final,
                ty,
            })
        }
        Def::Function(d) => {
            let signature = signature(alloc, draft, names, scope, before.functions, d)?;
            Ok(Meaning::Function(signature))
        }
    }
}

/// A constant has the type of its value; the type that it is given may need atoms.
fn constant(
    alloc: Global,
    draft: &mut Draft,
    names: &Names,
    scope: Scope,
    d: &ConstDef,
) -> Result<Meaning, Stop<Fault>>
    ensures { Drafts (AreNamesBelow names.now) MeaningBelow (constant_drafted names.now scope d.now) draft.old result draft.new }
{
    let _declared = type_if(alloc, draft, names, scope, &d.ty)?;
    Ok(Meaning::Constant(plain(alloc, SemType::Basic(value_set(&d.value)))))
}

fn signature(
    alloc: Global,
    draft: &mut Draft,
    names: &Names,
    scope: Scope,
    unit: u32,
    d: &FunctionDef,
) -> Result<Signature, Stop<Fault>>
    ensures { Drafts (AreNamesBelow names.now) SignatureBelow (signature_drafted names.now scope unit d.now) draft.old result draft.new }
{
    let fixed = params(alloc, draft, names, scope, &d.params.params)?;
    let rest = rest_type(alloc, draft, names, scope, &d.params.rest)?;
    let result = result_type(alloc, draft, names, scope, &d.result)?;
    signed(alloc, draft, unit, d, fixed, rest, result)
}

/// The signature of a function of these types.
fn signed(
    alloc: Global,
    draft: &mut Draft,
    unit: u32,
    d: &FunctionDef,
    fixed: TyList,
    rest: Option<Ty>,
    given: Ty,
) -> Result<Signature, Stop<Fault>>
    ensures { (names : AllNames) (scope : AnyScope) → Drafts (λ n. (AllBelow n fixed × IfBelow n rest) × TyBelow n given) SignatureBelow (signed_drafted names scope unit d.now fixed rest given) draft.old result draft.new }
{
    let params = flats(alloc, &fixed)?;
    let others = flat_if(alloc, &rest)?;
    let gives = flat(alloc, &given)?;
    let atoms = value_atoms(alloc, draft, d, fixed, rest, given)?;
    Ok(Signature {
        unit,
        isolated: d.isolated,
        params,
        rest: others,
        result: gives,
        arrow: atoms.arrow,
        lists: atoms.lists,
        future: atoms.future,
    })
}

/// The atoms of a function of these types as a value.
fn value_atoms(
    alloc: Global,
    draft: &mut Draft,
    d: &FunctionDef,
    fixed: TyList,
    rest: Option<Ty>,
    given: Ty,
) -> Result<Values, Stop<Fault>>
    ensures { (names : AllNames) (scope : AnyScope) → Drafts (λ n. (AllBelow n fixed × IfBelow n rest) × TyBelow n given) ValuesBelow (values_drafted names scope d.now fixed rest given) draft.old result draft.new }
{
    let others = flat_if(alloc, &rest)?;
    let awaited = flat(alloc, &given)?;
    let arguments = draft.atom(AtomDef::List { fixed, rest }, d.at)?;
    let def = AtomDef::Arrow {
        args: SemType::Atom(arguments),
        result: given.sem,
        isolated: d.isolated,
    };
    let arrow = draft.atom(def, d.at)?;
    let lists = draft.atom(rest_lists(alloc, others), d.at)?;
    let result = awaited.sem;
    let future = draft.atom(AtomDef::Future { result }, d.at)?;
    Ok(Values {
        arrow,
        lists,
        future,
    })
}

/// The lists of what takes the rest, or the empty list where nothing does.
fn rest_lists(alloc: Global, rest: Option<Ty>) -> AtomDef
    ensures { result ≡ ListAtom [] rest }
{
    AtomDef::List {
        fixed: TyList::of(Vec::new(alloc)),
        rest,
    }
}

fn params(
    alloc: Global,
    draft: &mut Draft,
    names: &Names,
    scope: Scope,
    params: &[Param],
) -> Result<TyList, Stop<Fault>>
    ensures { Drafts (AreNamesBelow names.now) AllBelow (all_drafted names.now scope [] (in_a_row (map param_descriptor params.now))) draft.old result draft.new }
{
    let mut out = Vec::new(alloc);
    for p in params {
        let t = type_tree(alloc, draft, names, scope, &p.ty)?;
        out.push(t)?;
    }
    Ok(TyList::of(out))
}

fn rest_type(
    alloc: Global,
    draft: &mut Draft,
    names: &Names,
    scope: Scope,
    rest: &Option<Param>,
) -> Result<Option<Ty>, Stop<Fault>>
    ensures { Drafts (AreNamesBelow names.now) IfBelow (drafted_if names.now scope (rest_descriptor rest.now)) draft.old result draft.new }
{
    match rest {
        None => Ok(None),
        Some(p) => {
            let t = type_tree(alloc, draft, names, scope, &p.ty)?;
            Ok(Some(t))
        }
    }
}
