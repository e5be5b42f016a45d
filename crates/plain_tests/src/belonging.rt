//! Whether values belong to types.
ghost use Rattle.std.specs.Prelude.{◌≡◌, IfOk, option_copied};
ghost use Rattle.value_model.specs.declared.value.Value.TheVariants.{Struct as StructOf};
ghost use Rattle.op_model.specs.ProgramFacts.{own_types};
ghost use Rattle.plain_run.specs.ProgramFacts.{facts_of};
ghost use Rattle.plain_run.specs.Held.{heap_of, structure_of};
ghost use Rattle.plain_tests.specs.Own as owns;
ghost use Rattle.plain_tests.specs.Tells.{Tells, TellsIf, TellsIfOne};

use crate::below::{atom_below_if, mutable_below_if};
use crate::single::by_shape;
use bal_base::Memory;
use plain_run::{Heap, ProgramFacts, Structure};
use std::alloc::Global;
use type_model::{SemType, Ty};
use value_model::Value;

/// The inherent atom of a structure that is mutable, which it may lack.
fn mutable_in(s: &Structure) -> Option<Option<u32>>
    ensures { result ≡ owns.mutable_in (structure_of s.now) }
{
    if s.mutable { Some(s.atom) } else { None }
}

/// The same of the structure with this number.
fn mutable_at(heap: &Heap, n: u32) -> Option<Option<u32>>
    ensures { result ≡ owns.mutable_at (heap_of heap.now) n }
{
    match heap.structures.get(n as usize) {
        None => None,
        Some(s) => mutable_in(s),
    }
}

/// The arrow of a unit.
fn arrow_of(facts: &ProgramFacts, unit: u32) -> Option<u32>
    ensures { result ≡ owns.arrow_of (own_types (facts_of facts.now)) unit }
{
    match facts.units.get(unit as usize) {
        None => None,
        Some(u) => Some(u.arrow),
    }
}

/// The future atom of a unit.
fn future_of(facts: &ProgramFacts, unit: u32) -> Option<u32>
    ensures { result ≡ owns.future_of (own_types (facts_of facts.now)) unit }
{
    match facts.units.get(unit as usize) {
        None => None,
        Some(u) => Some(u.future),
    }
}

/// The arrow of the unit of a function.
fn arrow_at(facts: &ProgramFacts, heap: &Heap, n: u32) -> Option<u32>
    ensures { result ≡ owns.arrow_at (own_types (facts_of facts.now)) (heap_of heap.now) n }
{
    match heap.functions.get(n as usize) {
        None => None,
        Some(f) => arrow_of(facts, f.unit),
    }
}

/// Whether a structure belongs to the type, where that is told.
fn structure_belongs(
    alloc: Global,
    facts: &ProgramFacts,
    heap: &Heap,
    n: u32,
    t: &SemType,
) -> Result<Option<bool>, Memory>
    ensures { IfOk result (Tells facts.now heap.now (StructOf n) t.now) }
{
    match mutable_at(heap, n) {
        None => Ok(Some(by_shape(alloc, facts.atoms, heap, &Value::Struct(n), t)?)),
        Some(atom) => mutable_below_if(alloc, facts.atoms, atom, t),
    }
}

/// Whether a simple value or an error belongs to the type.
fn one_belongs(
    alloc: Global,
    facts: &ProgramFacts,
    heap: &Heap,
    v: &Value,
    t: &SemType,
) -> Result<Option<bool>, Memory>
    ensures { IfOk result (TellsIfOne facts.now heap.now v.now t.now) }
{
    Ok(Some(by_shape(alloc, facts.atoms, heap, v, t)?))
}

/// Whether the value belongs to the type (Ballerina's inherent types). `None` comes only of a mutable structure, a
/// function and a future: where the type names an atom that isn't defined, and where the question whether all that
/// the value stands for is in the type passes a limit.
pub fn belongs(
    alloc: Global,
    facts: &ProgramFacts,
    heap: &Heap,
    v: &Value,
    t: &SemType,
) -> Result<Option<bool>, Memory>
    ensures { IfOk result (Tells facts.now heap.now v.now t.now) }
{
    match v {
        Value::Struct(n) => structure_belongs(alloc, facts, heap, *n, t),
        Value::Function(n) => atom_below_if(alloc, facts.atoms, arrow_at(facts, heap, *n), t),
        Value::Future { unit, .. } => atom_below_if(alloc, facts.atoms, future_of(facts, *unit), t),
        _ => one_belongs(alloc, facts, heap, v, t),
    }
}

/// Whether there is such a type, and the value belongs to it. `None` comes where that is not told of the type.
pub fn belongs_if(
    alloc: Global,
    facts: &ProgramFacts,
    heap: &Heap,
    v: &Value,
    t: Option<&Ty>,
) -> Result<Option<bool>, Memory>
    ensures { IfOk result (TellsIf facts.now heap.now v.now (option_copied t.entry)) }
{
    match t {
        None => Ok(Some(false)),
        Some(t) => belongs(alloc, facts, heap, v, &t.sem),
    }
}
