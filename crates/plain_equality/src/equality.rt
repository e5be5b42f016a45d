//! Deep equality.
ghost use Rattle.std.specs.Prelude.{◌≡◌, ◌↔◌, IfOk, IsTrue, true};
ghost use Rattle.operations.specs.declared.operation.Operation.TheVariants as operation;
ghost use Rattle.value_model.specs.declared.value.Value.TheVariants.{Struct};
ghost use Rattle.op_model.specs.Equality.{AreEqual, face_of};
ghost use Rattle.plain_run.specs.declared.facts.ProgramFacts.{ProgramFacts as FactsOf};
ghost use Rattle.plain_run.specs.declared.held.Caller.{Caller as CallerOf};
ghost use Rattle.plain_run.specs.Effects.{IsPerformed, Stays};
ghost use Rattle.plain_run.specs.Held.{heap_of};
ghost use Rattle.plain_equality.specs.Pairs.{AreMembersHeld};

use crate::held::{hold, hold_all};
use crate::members::structure_pairs;
use bal_base::Memory;
use plain_run::{Common, Heap, Performed, told};
use std::alloc::Global;
use value_model::Value;

/// Holds that the members of two structures that look alike are equal, where they look alike.
fn hold_members(
    alloc: Global,
    held: &mut Vec<(u32, u32)>,
    heap: &Heap,
    n: u32,
    m: u32,
) -> Result<bool, Memory>
    requires { face_of (heap_of heap.now) (Struct n) ≡ face_of (heap_of heap.now) (Struct m) }
    ensures { IfOk result (AreMembersHeld (heap_of heap.now) n m held.old.items held.new.items) }
{
    match structure_pairs(alloc, heap, n, m)? {
        None => Ok(false),
        Some(pairs) => hold_all(held, heap, pairs.as_slice()),
    }
}

/// Whether no path tells the two values apart.
pub fn are_equal(alloc: Global, heap: &Heap, v: &Value, w: &Value) -> Result<bool, Memory>
    ensures { IfOk result (λ equal. IsTrue equal ↔ AreEqual (heap_of heap.now) v.now w.now) }
{
    let mut held = Vec::new(alloc);
    if !hold(&mut held, heap, v, w)? {
        return Ok(false);
    }
    let mut next = 0;
    while next < held.len() {
        let (n, m) = held[next];
        if !hold_members(alloc, &mut held, heap, n, m)? {
            return Ok(false);
        }
        next += 1;
    }
    Ok(true)
}

/// `a == b`
pub fn perform_equal(
    alloc: Global,
    operands: &[Value],
    common: &Common,
) -> Result<Performed, Memory>
    ensures row { IfOk result (λ done. (facts : FactsOf) (caller : CallerOf) → IsPerformed facts operation.Equal operands.now caller common.now common.now ⊥ done) }
    ensures stays { IfOk result (Stays common.now common.now) }
{
    match operands {
        [a, b] => {
            let equal = are_equal(alloc, &common.world.heap, a, b)?;
            Ok(told(equal))
        }
        _ => Ok(Performed::Stuck),
    }
}
