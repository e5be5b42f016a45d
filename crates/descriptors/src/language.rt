//! The types that the language itself names: they need atoms, which are added once.
ghost use Rattle.std.specs.Prelude.{◌≡◌, ◌≤◌, ◌↔◌, ◌⊎◌, ℕ, [], IfOk, List, OnErr, Some, length};
ghost use Rattle.bal_base.specs.declared.limits.TheConstants.{MOST_ATOMS as most};
ghost use Rattle.bal_base.specs.declared.shape.Shape.{Shape};
ghost use Rattle.type_model.specs.declared.atoms.AtomDef.{AtomDef as Atom};
ghost use Rattle.type_model.specs.declared.atoms.AtomDef.TheVariants.{List as IsListAtom, Mapping as IsMappingAtom};
ghost use Rattle.type_model.specs.Calls.{KeepsTypes};
ghost use Rattle.type_model.specs.Defined.{NamesBelow};
ghost use Rattle.type_model.specs.Inclusion.{HasExactly};
ghost use Rattle.type_model.specs.Membership.{In};
ghost use Rattle.checks.specs.Checks.{Comes};
ghost use Rattle.descriptors.specs.Described.{plain as plain_of};
ghost use Rattle.descriptors.specs.Language.{own_types as own_types_of, AreOver, IsAnydataOver, IsEverything, IsOwnGroup, IsSimple};
ghost use Rattle.descriptors.specs.Steps.{AreOwnTypes};

use crate::names::OwnTypes;
use crate::sides::either;
use crate::together::plain;
use bal_base::{Fault, Memory, Stop};
use checks::add;
use std::alloc::Global;
use type_model::{AtomDef, BasicSet, FieldList, SemType, TyList, Types};

/// The types that the language itself names, over five atoms more, which stand behind those that are there: lists and mappings of
/// anydata, all lists, all mappings, and all isolated functions. `AtomLimit`, which has no place, where there would be too many. After
/// a refusal and where memory is wanted the atoms are as before.
pub fn own_types<T: Types>(alloc: Global, types: &mut T) -> Result<OwnTypes, Stop<Fault>>
    ensures comes { Comes own_types_of (T.atoms types.old) result (T.atoms types.new) }
    ensures own { IfOk result (AreOwnTypes (T.atoms types.new)) }
    ensures kept { KeepsTypes (T.atoms types.old) (T.atoms types.new) }
    ensures refused { OnErr result (T.atoms types.new ≡ T.atoms types.old) }
{
    let first = types.env().defs().len() as u32;
    match made(alloc, first) {
        Ok((own, group)) => once_added(alloc, types, own, group),
        Err(Memory) => Err(Stop::Memory),
    }
}

/// These types, once the atoms are added that they name.
fn once_added<T: Types>(
    alloc: Global,
    types: &mut T,
    own: OwnTypes,
    group: Vec<AtomDef>,
) -> Result<OwnTypes, Stop<Fault>>
    requires own { AreOver (length (T.atoms types.old)) own }
    requires group { IsOwnGroup (length (T.atoms types.old)) group.items }
    ensures comes { Comes own_types_of (T.atoms types.old) result (T.atoms types.new) }
    ensures own { IfOk result (AreOwnTypes (T.atoms types.new)) }
    ensures kept { KeepsTypes (T.atoms types.old) (T.atoms types.new) }
    ensures refused { OnErr result (T.atoms types.new ≡ T.atoms types.old) }
{
    match add(alloc, types, group, None) {
        Ok(_) => Ok(own),
        Err(stop) => Err(stop),
    }
}

/// The types and their atoms, which are numbered from `first`.
fn made(alloc: Global, first: u32) -> Result<(OwnTypes, Vec<AtomDef>), Memory>
    requires { first ≤ most }
    ensures own { IfOk result (λ made. AreOver first made.0) }
    ensures group { IfOk result (λ made. IsOwnGroup first made.1.items) }
{
    let own = over(alloc, first)?;
    let group = own_group(alloc, first)?;
    Ok((own, group))
}

/// The types over a group that begins with this atom.
fn over(alloc: Global, first: u32) -> Result<OwnTypes, Memory>
    requires { first ≤ most }
    ensures { IfOk result (AreOver first) }
{
    Ok(OwnTypes {
        anydata: plain(alloc, anydata(alloc, first, first + 1)?),
        any_members: first + 2,
        any_fields: first + 3,
        isolated: first + 4,
    })
}

/// The definitions of the five, where the first has this number.
fn own_group(alloc: Global, first: u32) -> Result<Vec<AtomDef>, Memory>
    requires { first ≤ most }
    ensures { IfOk result (λ group. IsOwnGroup first group.items) }
{
    let members = anydata(alloc, first, first + 1)?;
    let fields = anydata(alloc, first, first + 1)?;
    let any_members = everything(alloc)?;
    let any_fields = everything(alloc)?;
    let mut group = Vec::new(alloc);
    group.push(lists_of(alloc, members))?;
    group.push(mappings_of(alloc, fields))?;
    group.push(lists_of(alloc, any_members))?;
    group.push(mappings_of(alloc, any_fields))?;
    group.push(AtomDef::Arrow {
        args: SemType::Basic(BasicSet::Never),
        result: SemType::Basic(BasicSet::Never),
        isolated: true,
    })?;
    Ok(group)
}

/// The lists whose members are all in the type.
fn lists_of(alloc: Global, members: SemType) -> AtomDef
    ensures { result ≡ IsListAtom [] (Some (plain_of members)) }
{
    AtomDef::List {
        fixed: TyList::of(Vec::new(alloc)),
        rest: Some(plain(alloc, members)),
    }
}

/// The mappings whose members are all in the type.
fn mappings_of(alloc: Global, members: SemType) -> AtomDef
    ensures { result ≡ IsMappingAtom [] (Some (plain_of members)) }
{
    AtomDef::Mapping {
        fields: FieldList::of(Vec::new(alloc)),
        rest: Some(plain(alloc, members)),
    }
}

/// Anydata, by the atoms of its lists and of its mappings.
fn anydata(alloc: Global, lists: u32, mappings: u32) -> Result<SemType, Memory>
    ensures { IfOk result (IsAnydataOver lists mappings) }
{
    let simple = simple(alloc)?;
    let rest = either(alloc, SemType::Atom(lists), SemType::Atom(mappings))?;
    either(alloc, simple, rest)
}

/// Nil, booleans, ints and strings.
fn simple(alloc: Global) -> Result<SemType, Memory>
    ensures shapes { IfOk result (λ t. (env : List Atom) → HasExactly env t IsSimple) }
    ensures defined { IfOk result (λ t. (n : ℕ) → NamesBelow n t) }
{
    let yes = SemType::Basic(BasicSet::Bool(true));
    let no = SemType::Basic(BasicSet::Bool(false));
    let booleans = either(alloc, yes, no)?;
    let ints = SemType::Basic(BasicSet::IntRange(i64::MIN, i64::MAX));
    let rest = either(alloc, ints, SemType::Basic(BasicSet::StringAll))?;
    let values = either(alloc, booleans, rest)?;
    either(alloc, SemType::Basic(BasicSet::Nil), values)
}

/// Every shape.
fn everything(alloc: Global) -> Result<SemType, Memory>
    ensures { IfOk result IsEverything }
{
    let nothing = Box::new(alloc, SemType::Basic(BasicSet::Never))?;
    Ok(SemType::Not(nothing))
}
