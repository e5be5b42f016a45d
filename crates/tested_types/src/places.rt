//! Where a type stands among others, as it is written.
#![tactic(auto, using(crate::proofs::Noting::noting))]

ghost use Rattle.std.specs.Prelude.{◌≡◌, All, IfNone, IfSome, IsSomeAnd, OnOk, slice_get};
ghost use Rattle.type_model.specs.SameType.{IsSameType};
ghost use Rattle.held_operations.specs.Operation.{singleton, type_of};
ghost use Rattle.tested_types.specs.Asked.{Notes};

use bal_base::Memory;
use descriptors::is_same;
use held_operations::TestedType;
use operations::Constant;
use std::alloc::Global;
use type_model::{BasicSet, SemType};

/// The place of the first type that is written like this one.
fn place(types: &[SemType], t: &SemType) -> Option<usize>
    ensures found { IfSome result (λ n. IsSomeAnd (slice_get types.now n) (IsSameType t.now)) }
    ensures none { IfNone result (All (λ s. ¬ (IsSameType t.now s)) types.now) }
{
    for place in 0..types.len() {
        if is_same(t, &types[place]) {
            return Some(place);
        }
    }
    None
}

/// The type of the constant alone.
fn single(c: &Constant) -> SemType
    ensures { result ≡ singleton c.now }
{
    match c {
        Constant::Nil => SemType::Basic(BasicSet::Nil),
        Constant::Bool(b) => SemType::Basic(BasicSet::Bool(*b)),
        Constant::Int(i) => SemType::Basic(BasicSet::IntRange(*i, *i)),
        Constant::Str(text) => SemType::Basic(BasicSet::StringOne(text.share())),
    }
}

/// The place of the first type that is written like this one, if one of them is, in time that grows with the types before it.
pub fn place_of(types: &[SemType], t: TestedType<'_>) -> Option<usize>
    ensures found { IfSome result (λ n. IsSomeAnd (slice_get types.now n) (IsSameType (type_of t.entry))) }
    ensures none { IfNone result (All (λ s. ¬ (IsSameType (type_of t.entry) s)) types.now) }
{
    match t {
        TestedType::Tree(t) => place(types, &t.sem),
        TestedType::Nil => place(types, &SemType::Basic(BasicSet::Nil)),
        TestedType::Error => place(types, &SemType::Basic(BasicSet::ErrorAll)),
        TestedType::Single(c) => place(types, &single(c)),
    }
}

/// A copy of a type that isn't among these is kept.
fn add(types: &mut Vec<SemType>, alloc: Global, t: &SemType) -> Result<(), Memory>
    requires { All (λ s. ¬ (IsSameType t.now s)) types.old.items }
    ensures { OnOk result (Notes (λ u. IsSameType u t.now) types.old.items types.new.items) }
{
    let copy = t.copy(alloc)?;
    types.push(copy)?;
    Ok(())
}

/// A copy of a type is kept where it isn't among these.
pub fn note(types: &mut Vec<SemType>, alloc: Global, t: &SemType) -> Result<(), Memory>
    ensures { OnOk result (Notes (λ u. IsSameType u t.now) types.old.items types.new.items) }
{
    match place(types, t) {
        Some(_) => Ok(()),
        None => add(types, alloc, t),
    }
}

/// The same of a type as operations hold it.
pub fn note_tested(types: &mut Vec<SemType>, alloc: Global, t: TestedType<'_>) -> Result<(), Memory>
    ensures { OnOk result (Notes (λ u. IsSameType u (type_of t.entry)) types.old.items types.new.items) }
{
    match t {
        TestedType::Tree(t) => note(types, alloc, &t.sem),
        TestedType::Nil => note(types, alloc, &SemType::Basic(BasicSet::Nil)),
        TestedType::Error => note(types, alloc, &SemType::Basic(BasicSet::ErrorAll)),
        TestedType::Single(c) => note(types, alloc, &single(c)),
    }
}
