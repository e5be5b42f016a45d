//! Which shapes are in a type: the plain program beside the definition.
ghost use Rattle.std.specs.Prelude.{◌↔◌, ◌+◌, ◌≤◌, IsTrue, IsSomeAnd, All};
ghost use Rattle.type_model.specs.Membership.{In, Fits, ListFits, MappingFits, FunctionFits};
ghost use Rattle.type_model.specs.Elements.{ItemsIn, MemberIn, CaseMaps};
ghost use Rattle.subtype_decider.specs.Arguments.{ArgumentsIn};
ghost use Rattle.subtype_decider.specs.Measure.{def_nodes, fixed_nodes, fields_nodes, rest_nodes, type_nodes, room};

use crate::basic::{has_all_lists, in_basic};
use crate::keys::{has_required, type_at_key, type_at_place};
use bal_base::{Case, Shape, Text};
use type_model::{AtomDef, FieldDef, SemType, Ty, TypeEnv};

/// Whether the shape is in the type. An atom that `env` doesn't define has no shape. Takes no memory.
#[cycle(holds)]
pub fn holds(env: &TypeEnv, shape: &Shape, t: &SemType) -> bool
    ensures { IsTrue result ↔ In env.now shape.now t.now }
{
    match t {
        SemType::Basic(set) => in_basic(shape, set),
        SemType::Atom(n) => match env.defs().get(*n as usize) {
            Some(def) => fits(env, shape, def),
            None => false,
        },
        SemType::Or(s, t) => holds(env, shape, s) || holds(env, shape, t),
        SemType::And(s, t) => holds(env, shape, s) && holds(env, shape, t),
        SemType::Not(t) => !holds(env, shape, t),
    }
}

#[cycle(holds)]
fn fits(env: &TypeEnv, shape: &Shape, def: &AtomDef) -> bool
    requires { def_nodes def.now + 5 ≤ room env.now }
    ensures { IsTrue result ↔ Fits env.now shape.now def.now }
{
    match shape {
        Shape::List { items, .. } => list_fits(env, items.as_slice(), def),
        Shape::Mapping { fields, .. } => mapping_fits(env, fields.as_slice(), def),
        Shape::Error { detail } => match def {
            AtomDef::Error { detail: t } => holds(env, detail, t),
            AtomDef::List { .. } | AtomDef::Mapping { .. } => false,
            AtomDef::Arrow { .. } | AtomDef::Future { .. } => false,
        },
        Shape::Function { isolated, graph } => {
            function_fits(env, *isolated, graph.as_slice(), def)
        }
        Shape::Future { results } => match def {
            AtomDef::Future { result } => all_in(env, results.as_slice(), result),
            AtomDef::List { .. } | AtomDef::Mapping { .. } => false,
            AtomDef::Arrow { .. } | AtomDef::Error { .. } => false,
        },
        Shape::Nil | Shape::Bool(_) | Shape::Int(_) | Shape::Str(_) => false,
    }
}

#[cycle(holds)]
fn list_fits(env: &TypeEnv, items: &[Shape], def: &AtomDef) -> bool
    requires { def_nodes def.now + 5 ≤ room env.now }
    ensures { IsTrue result ↔ ListFits items.now (ItemsIn env.now items.now) def.now }
{
    match def {
        AtomDef::List { fixed, rest } => {
            fixed.as_slice().len() <= items.len() && items_in(env, items, fixed.as_slice(), rest)
        }
        AtomDef::Mapping { .. } => false,
        AtomDef::Arrow { .. } | AtomDef::Error { .. } | AtomDef::Future { .. } => false,
    }
}

#[cycle(holds)]
fn items_in<'a>(env: &TypeEnv, items: &[Shape], fixed: &'a [Ty], rest: &'a Option<Ty>) -> bool
    requires { fixed_nodes fixed.now + rest_nodes rest.now + 5 ≤ room env.now }
    ensures { IsTrue result ↔ ItemsIn env.now items.now fixed.now rest.now }
{
    for i in 0..items.len() {
        if !item_in(env, &items[i], type_at_place(fixed, rest, i)) {
            return false;
        }
    }
    true
}

#[cycle(holds)]
fn item_in(env: &TypeEnv, item: &Shape, t: Option<&Ty>) -> bool
    ensures { IsTrue result ↔ IsSomeAnd t.entry (λ t. In env.now item.now t.now.sem) }
{
    match t {
        Some(t) => holds(env, item, &t.sem),
        None => false,
    }
}

#[cycle(holds)]
fn mapping_fits(env: &TypeEnv, members: &[(Text, Shape)], def: &AtomDef) -> bool
    requires { def_nodes def.now + 5 ≤ room env.now }
    ensures { IsTrue result ↔ MappingFits members.now (λ fs rest. All (MemberIn env.now fs rest) members.now) def.now }
{
    match def {
        AtomDef::Mapping { fields, rest } => {
            has_required(fields.as_slice(), members)
                && members_in(env, members, fields.as_slice(), rest)
        }
        AtomDef::List { .. } => false,
        AtomDef::Arrow { .. } | AtomDef::Error { .. } | AtomDef::Future { .. } => false,
    }
}

#[cycle(holds)]
fn members_in<'a>(
    env: &TypeEnv,
    members: &[(Text, Shape)],
    fields: &'a [FieldDef],
    rest: &'a Option<Ty>,
) -> bool
    requires { fields_nodes fields.now + rest_nodes rest.now + 5 ≤ room env.now }
    ensures { IsTrue result ↔ All (MemberIn env.now fields.now rest.now) members.now }
{
    for m in members {
        if !member_in(env, m, fields, rest) {
            return false;
        }
    }
    true
}

#[cycle(holds)]
fn member_in<'a>(
    env: &TypeEnv,
    member: &(Text, Shape),
    fields: &'a [FieldDef],
    rest: &'a Option<Ty>,
) -> bool
    ensures { IsTrue result ↔ MemberIn env.now fields.now rest.now member.now }
{
    item_in(env, &member.1, type_at_key(fields, rest, &member.0))
}

#[cycle(holds)]
fn all_in(env: &TypeEnv, shapes: &[Shape], t: &SemType) -> bool
    ensures { IsTrue result ↔ All (λ x. In env.now x t.now) shapes.now }
{
    for x in shapes {
        if !holds(env, x, t) {
            return false;
        }
    }
    true
}

#[cycle(holds)]
fn function_fits(env: &TypeEnv, isolated: bool, cases: &[Case], def: &AtomDef) -> bool
    requires { def_nodes def.now + 5 ≤ room env.now }
    ensures { IsTrue result ↔ FunctionFits isolated (λ args outcome. All (CaseMaps env.now args outcome) cases.now) def.now }
{
    match def {
        AtomDef::Arrow {
            args,
            result,
            isolated: alone,
        } => (!*alone || isolated) && cases_map(env, cases, args, result),
        AtomDef::List { .. } | AtomDef::Mapping { .. } => false,
        AtomDef::Error { .. } | AtomDef::Future { .. } => false,
    }
}

#[cycle(holds)]
fn cases_map(env: &TypeEnv, cases: &[Case], args: &SemType, outcome: &SemType) -> bool
    requires { type_nodes args.now + type_nodes outcome.now + 5 ≤ room env.now }
    ensures { IsTrue result ↔ All (CaseMaps env.now args.now outcome.now) cases.now }
{
    for case in cases {
        if !case_maps(env, case, args, outcome) {
            return false;
        }
    }
    true
}

#[cycle(holds)]
fn case_maps(env: &TypeEnv, case: &Case, args: &SemType, outcome: &SemType) -> bool
    requires { type_nodes args.now + type_nodes outcome.now + 5 ≤ room env.now }
    ensures { IsTrue result ↔ CaseMaps env.now args.now outcome.now case.now }
{
    if !arguments_in(env, case.args.as_slice(), args) {
        return true;
    }
    match &case.result {
        Some(x) => holds(env, x, outcome),
        None => false,
    }
}

/// Whether the unmarked list of these items is in the type.
#[cycle(holds)]
fn arguments_in(env: &TypeEnv, items: &[Shape], t: &SemType) -> bool
    ensures { IsTrue result ↔ ArgumentsIn env.now items.now t.now }
{
    match t {
        SemType::Basic(set) => has_all_lists(set),
        SemType::Atom(n) => match env.defs().get(*n as usize) {
            Some(def) => list_fits(env, items, def),
            None => false,
        },
        SemType::Or(s, t) => arguments_in(env, items, s) || arguments_in(env, items, t),
        SemType::And(s, t) => arguments_in(env, items, s) && arguments_in(env, items, t),
        SemType::Not(t) => !arguments_in(env, items, t),
    }
}
