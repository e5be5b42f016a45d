//! Unions and intersections of two types. A side that is there already isn't written again, so that a type doesn't double where a
//! name is used twice, nor grow where nil is added to what has it.
ghost use Rattle.std.specs.Prelude.{◌≡◌, ◌⊎◌, ◌↔◌, ℕ, IfOk, IsTrue, List};
ghost use Rattle.bal_base.specs.declared.shape.Shape.{Shape};
ghost use Rattle.type_model.specs.declared.atoms.AtomDef.{AtomDef as Atom};
ghost use Rattle.type_model.specs.Defined.{NamesBelow};
ghost use Rattle.type_model.specs.Membership.{In};
ghost use Rattle.type_model.specs.SameType.{IsSameType};

use bal_base::Memory;
use std::alloc::Global;
use type_model::{BasicSet, SemType};

fn is_same_set(s: &BasicSet, t: &BasicSet) -> bool
    ensures { IsTrue result ↔ (s.now ≡ t.now) }
{
    match s {
        BasicSet::Nil => matches!(t, BasicSet::Nil),
        BasicSet::Bool(a) => matches!(t, BasicSet::Bool(b) if a == b),
        BasicSet::IntRange(low, high) => {
            matches!(t, BasicSet::IntRange(from, to) if low == from && high == to)
        }
        BasicSet::StringOne(a) => matches!(t, BasicSet::StringOne(b) if a == b),
        BasicSet::StringAll => matches!(t, BasicSet::StringAll),
        BasicSet::ListAll => matches!(t, BasicSet::ListAll),
        BasicSet::MappingAll => matches!(t, BasicSet::MappingAll),
        BasicSet::ErrorAll => matches!(t, BasicSet::ErrorAll),
        BasicSet::FunctionAll => matches!(t, BasicSet::FunctionAll),
        BasicSet::FutureAll => matches!(t, BasicSet::FutureAll),
        BasicSet::Readonly => matches!(t, BasicSet::Readonly),
        BasicSet::Never => matches!(t, BasicSet::Never),
    }
}

/// Whether the two types are written alike. It ends at the first part that differs, and takes no memory.
pub fn is_same(s: &SemType, t: &SemType) -> bool
    ensures { IsTrue result ↔ IsSameType s.now t.now }
{
    match s {
        SemType::Basic(a) => match t {
            SemType::Basic(b) => is_same_set(a, b),
            _ => false,
        },
        SemType::Atom(m) => match t {
            SemType::Atom(n) => m == n,
            _ => false,
        },
        SemType::Or(a, b) => match t {
            SemType::Or(c, d) => is_same(a, c) && is_same(b, d),
            _ => false,
        },
        SemType::And(a, b) => match t {
            SemType::And(c, d) => is_same(a, c) && is_same(b, d),
            _ => false,
        },
        SemType::Not(a) => match t {
            SemType::Not(b) => is_same(a, b),
            _ => false,
        },
    }
}

/// Whether the second type is written as the first one, or as the right side of that union.
fn has_side(s: &SemType, t: &SemType) -> bool
    ensures { IsTrue result → (env : List Atom) (x : Shape) → In env x t.now → In env x s.now }
{
    match s {
        SemType::Or(_, right) => is_same(right, t) || is_same(s, t),
        _ => is_same(s, t),
    }
}

/// The shapes of one of the two types or of both.
pub(crate) fn either(alloc: Global, left: SemType, right: SemType) -> Result<SemType, Memory>
    ensures shapes { IfOk result (λ t. (env : List Atom) (x : Shape) → In env x t ↔ (In env x left ⊎ In env x right)) }
    ensures defined { IfOk result (λ t. (n : ℕ) → NamesBelow n left → NamesBelow n right → NamesBelow n t) }
{
    if has_side(&left, &right) {
        return Ok(left);
    }
    let left = Box::new(alloc, left)?;
    let right = Box::new(alloc, right)?;
    Ok(SemType::Or(left, right))
}

/// The shapes of both types.
pub(crate) fn both(alloc: Global, left: SemType, right: SemType) -> Result<SemType, Memory>
    ensures shapes { IfOk result (λ t. (env : List Atom) (x : Shape) → In env x t ↔ (In env x left × In env x right)) }
    ensures defined { IfOk result (λ t. (n : ℕ) → NamesBelow n left → NamesBelow n right → NamesBelow n t) }
{
    if is_same(&left, &right) {
        return Ok(left);
    }
    let left = Box::new(alloc, left)?;
    let right = Box::new(alloc, right)?;
    Ok(SemType::And(left, right))
}
