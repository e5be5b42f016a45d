//! Pairs of structures that are held to be equal.
#![tactic(auto, using(crate::proofs::Holding::holding))]

ghost use Rattle.std.specs.Prelude.{◌≡◌, ◌↔◌, IfOk, IsTrue, Contains};
ghost use Rattle.value_model.specs.declared.value.Value.TheVariants.{Struct};
ghost use Rattle.value_model.specs.Heap.{AreAlike};
ghost use Rattle.op_model.specs.Equality.{face_of};
ghost use Rattle.plain_run.specs.Held.{heap_of, members_of};
ghost use Rattle.plain_equality.specs.Pairs.{AreHeld, IsHeld};

use bal_base::Memory;
use plain_run::{Heap, Members, is_same};
use value_model::Value;

/// Whether the same is seen of two structures: they are two lists, two mappings, or the same number of nothing.
fn look_alike(heap: &Heap, n: u32, m: u32) -> bool
    ensures { IsTrue result ↔ (face_of (heap_of heap.now) (Struct n) ≡ face_of (heap_of heap.now) (Struct m)) }
{
    match heap.structures.get(n as usize) {
        None => n == m,
        Some(s) => match heap.structures.get(m as usize) {
            None => false,
            Some(t) => are_alike(&s.members, &t.members),
        },
    }
}

/// Whether both are members of lists, or of mappings.
fn are_alike(first: &Members, second: &Members) -> bool
    ensures { IsTrue result ↔ AreAlike (members_of first.now) (members_of second.now) }
{
    match first {
        Members::Items(_) => match second {
            Members::Items(_) => true,
            Members::Entries(_) => false,
        },
        Members::Entries(_) => match second {
            Members::Items(_) => false,
            Members::Entries(_) => true,
        },
    }
}

/// Whether the pair is held.
fn is_held(held: &[(u32, u32)], n: u32, m: u32) -> bool
    ensures { IsTrue result ↔ Contains held.now (n, m) }
{
    held.iter().any(|p| p.0 == n && p.1 == m)
}

/// Holds that two structures are equal, where they look alike.
fn hold_structures(held: &mut Vec<(u32, u32)>, heap: &Heap, n: u32, m: u32) -> Result<bool, Memory>
    ensures { IfOk result (IsHeld (heap_of heap.now) (Struct n) (Struct m) held.old.items held.new.items) }
{
    if !look_alike(heap, n, m) {
        return Ok(false);
    }
    if !is_held(held.as_slice(), n, m) {
        held.push((n, m))?;
    }
    Ok(true)
}

/// Holds that two values are equal, where they look alike.
pub fn hold(held: &mut Vec<(u32, u32)>, heap: &Heap, v: &Value, w: &Value) -> Result<bool, Memory>
    ensures { IfOk result (IsHeld (heap_of heap.now) v.now w.now held.old.items held.new.items) }
{
    match v {
        Value::Struct(n) => match w {
            Value::Struct(m) => hold_structures(held, heap, *n, *m),
            _ => Ok(false),
        },
        _ => Ok(is_same(v, w)),
    }
}

/// Holds that these are equal pair by pair, where each two look alike.
pub fn hold_all(
    held: &mut Vec<(u32, u32)>,
    heap: &Heap,
    pairs: &[(Value, Value)],
) -> Result<bool, Memory>
    ensures { IfOk result (AreHeld (heap_of heap.now) pairs.now held.old.items held.new.items) }
{
    for p in pairs {
        if !hold(held, heap, &p.0, &p.1)? {
            return Ok(false);
        }
    }
    Ok(true)
}
