//! Types whose unions are flat and have each member once.
ghost use Rattle.std.specs.Prelude.{◌≡◌, ◌∷◌, [], ◌<◌, IfOk, OnOk, List, map, length, Some as Present, None as Absent};
ghost use Rattle.std.specs.List.{AllZip, flat_map};
ghost use Rattle.type_model.specs.declared.basic.SemType.{Basic};
ghost use Rattle.type_builder.specs.Flat.{AreSameTypes, Gathers, IsFlat, IsFlatIf, IsFlatType, is_never as is_never_set, key_of, members_of, set_key as set_key_of};

use bal_base::{Memory, Text};
use descriptors::copy_choices;
use indexmap::IndexSet;
use std::alloc::Global;
use type_model::{BasicSet, SemType, Ty, TyList};

/// The type with its union flat: each member once, in the order in which they are written, and `never` left out. It is put together
/// in halves, so that it isn't nested deep. Intersections and complements stay as they are.
pub(crate) fn flat(alloc: Global, t: &Ty) -> Result<Ty, Memory>
    ensures { IfOk result (IsFlatType t.now) }
{
    let sem = flat_union(alloc, &t.sem)?;
    let lists = copy_choices(alloc, &t.lists)?;
    let maps = copy_choices(alloc, &t.maps)?;
    Ok(Ty { sem, lists, maps })
}

/// The same of each of these types.
pub(crate) fn flats(alloc: Global, types: &TyList) -> Result<TyList, Memory>
    ensures { IfOk result (AllZip IsFlatType types.now) }
{
    let mut out = Vec::new(alloc);
    for t in types.as_slice() {
        let other = flat(alloc, t)?;
        out.push(other)?;
    }
    Ok(TyList::of(out))
}

/// The same of a type that may be absent.
pub(crate) fn flat_if(alloc: Global, t: &Option<Ty>) -> Result<Option<Ty>, Memory>
    ensures { IfOk result (IsFlatIf t.now) }
{
    match t {
        None => Ok(None),
        Some(t) => {
            let other = flat(alloc, t)?;
            Ok(Some(other))
        }
    }
}

/// What tells the members of unions apart: the number of an atom, or a set.
#[derive(PartialEq, Eq, Hash, Drop)]
pub(crate) enum MemberKey {
    Atom(u32),
    Nil,
    Bool(bool),
    Ints(i64, i64),
    Text(Text),
    Strings,
    Lists,
    Mappings,
    Errors,
    Functions,
    Futures,
    Readonly,
    Never,
}

/// The members of a union that were found, and their keys.
#[derive(Drop)]
struct Found<'a> {
    members: Vec<&'a SemType>,
    keys: IndexSet<MemberKey>,
}

fn set_key(set: &BasicSet) -> MemberKey
    ensures { result ≡ set_key_of set.now }
{
    match set {
        BasicSet::Nil => MemberKey::Nil,
        BasicSet::Bool(b) => MemberKey::Bool(*b),
        BasicSet::IntRange(low, high) => MemberKey::Ints(*low, *high),
        BasicSet::StringOne(text) => MemberKey::Text(text.share()),
        BasicSet::StringAll => MemberKey::Strings,
        BasicSet::ListAll => MemberKey::Lists,
        BasicSet::MappingAll => MemberKey::Mappings,
        BasicSet::ErrorAll => MemberKey::Errors,
        BasicSet::FunctionAll => MemberKey::Functions,
        BasicSet::FutureAll => MemberKey::Futures,
        BasicSet::Readonly => MemberKey::Readonly,
        BasicSet::Never => MemberKey::Never,
    }
}

/// The union of the members of a union, each once, in halves, so that it isn't nested deep.
fn flat_union(alloc: Global, t: &SemType) -> Result<SemType, Memory>
    ensures { IfOk result (IsFlat t.now) }
{
    let mut found = Found {
        members: Vec::new(alloc),
        keys: IndexSet::new(alloc),
    };
    gather(&mut found, t)?;
    union(alloc, &found.members)
}

/// The members of a type behind those that were found.
fn gather<'a>(found: &mut Found<'a>, t: &'a SemType) -> Result<(), Memory>
    ensures { OnOk result (Gathers (members_of t.now) found.old found.new) }
{
    match t {
        SemType::Or(s, u) => {
            gather(found, s)?;
            gather(found, u)
        }
        SemType::Basic(set) => basic(found, set, t),
        SemType::Atom(n) => keyed(found, MemberKey::Atom(*n), t),
        SemType::And(_, _) | SemType::Not(_) => other(found, t),
    }
}

/// A basic set, unless it is `never`.
fn basic<'a>(found: &mut Found<'a>, set: &BasicSet, t: &'a SemType) -> Result<(), Memory>
    requires { t.now ≡ Basic set.now }
    ensures { OnOk result (Gathers (members_of t.now) found.old found.new) }
{
    if is_never(set) {
        Ok(())
    } else {
        keyed(found, set_key(set), t)
    }
}

fn is_never(set: &BasicSet) -> bool
    ensures { result ≡ is_never_set set.now }
{
    matches!(set, BasicSet::Never)
}

/// A member with this key, unless one with it was found.
fn keyed<'a>(found: &mut Found<'a>, key: MemberKey, t: &'a SemType) -> Result<(), Memory>
    requires { key_of t.now ≡ Present key }
    ensures { OnOk result (Gathers (t.now ∷ []) found.old found.new) }
{
    if found.keys.insert(key)? {
        found.members.push(t)?;
    }
    Ok(())
}

/// A member that has no key.
fn other<'a>(found: &mut Found<'a>, t: &'a SemType) -> Result<(), Memory>
    requires { key_of t.now ≡ Absent }
    ensures { OnOk result (Gathers (t.now ∷ []) found.old found.new) }
{
    found.members.push(t)?;
    Ok(())
}

/// The union of these, in halves.
fn union(alloc: Global, members: &[&SemType]) -> Result<SemType, Memory>
    ensures { IfOk result (λ u. AreSameTypes (flat_map members_of (map (λ m. m.now) members.now)) (members_of u)) }
{
    match members {
        [] => Ok(SemType::Basic(BasicSet::Never)),
        [member] => member.copy(alloc),
        _ => {
            let (front, back) = members.split_at(members.len() / 2);
            let front = Box::new(alloc, union(alloc, front)?)?;
            let back = Box::new(alloc, union(alloc, back)?)?;
            Ok(SemType::Or(front, back))
        }
    }
}
