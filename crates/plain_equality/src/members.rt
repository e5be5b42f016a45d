//! Members of two structures, side by side.
#![tactic(auto, using(crate::proofs::Sides::side_by_side))]

ghost use Rattle.std.specs.Prelude.{◌≡◌, ◌++◌, IfOk, OnOk, option_map};
ghost use Rattle.value_model.specs.declared.value.Value.TheVariants.{Struct};
ghost use Rattle.value_model.specs.Heap.{AreAlike, Entries as EntriesOf, Items};
ghost use Rattle.op_model.specs.Equality.{face_of};
ghost use Rattle.plain_run.specs.Held.{heap_of, members_of};
ghost use Rattle.plain_equality.specs.Pairs as pairs;
ghost use Rattle.plain_equality.specs.Pairs.{AreMemberPairs, AreStructurePairs, both_of};

use bal_base::{Memory, Text};
use plain_run::{Entries, Heap, Members};
use plain_structures::entry;
use std::alloc::Global;
use value_model::Value;

/// The items of two lists place by place, where they are as many.
fn item_pairs(
    alloc: Global,
    first: &[Value],
    second: &[Value],
) -> Result<Option<Vec<(Value, Value)>>, Memory>
    ensures { IfOk result (λ pairs. AreMemberPairs (Items first.now) (Items second.now) (option_map (λ ps. ps.items) pairs)) }
{
    if first.len() != second.len() {
        return Ok(None);
    }
    let mut pairs = Vec::new(alloc);
    for i in 0..first.len() {
        pairs.push((first[i].share(), second[i].share()))?;
    }
    Ok(Some(pairs))
}

/// Whether each key of the first entries is one of the second.
fn have_keys(first: &[(Text, Value)], second: &Entries) -> bool
    ensures { result ≡ pairs.have_keys first.now second.now }
{
    first.iter().all(|e| entry(second, &e.0).is_some())
}

/// Adds a pair of values, where both are there.
fn add_pair(
    pairs: &mut Vec<(Value, Value)>,
    v: Option<Value>,
    w: Option<Value>,
) -> Result<(), Memory>
    ensures { OnOk result (pairs.new.items ≡ pairs.old.items ++ both_of v w) }
{
    match v {
        None => Ok(()),
        Some(v) => match w {
            None => Ok(()),
            Some(w) => {
                pairs.push((v, w))?;
                Ok(())
            }
        },
    }
}

/// The members of two mappings key by key, where they have the same keys.
fn entry_pairs(
    alloc: Global,
    first: &Entries,
    second: &Entries,
) -> Result<Option<Vec<(Value, Value)>>, Memory>
    ensures { IfOk result (λ pairs. AreMemberPairs (EntriesOf first.now) (EntriesOf second.now) (option_map (λ ps. ps.items) pairs)) }
{
    let entries = first.as_slice();
    if !have_keys(entries, second) || !have_keys(second.as_slice(), first) {
        return Ok(None);
    }
    let mut pairs = Vec::new(alloc);
    for e in entries {
        add_pair(&mut pairs, entry(first, &e.0), entry(second, &e.0))?;
    }
    Ok(Some(pairs))
}

/// The members of two structures that look alike, step by step, where both have members at the same steps.
fn member_pairs(
    alloc: Global,
    first: &Members,
    second: &Members,
) -> Result<Option<Vec<(Value, Value)>>, Memory>
    requires { AreAlike (members_of first.now) (members_of second.now) }
    ensures { IfOk result (λ pairs. AreMemberPairs (members_of first.now) (members_of second.now) (option_map (λ ps. ps.items) pairs)) }
{
    match first {
        Members::Items(vs) => match second {
            Members::Items(ws) => item_pairs(alloc, vs.as_slice(), ws.as_slice()),
            Members::Entries(_) => unreachable!(),
        },
        Members::Entries(es) => match second {
            Members::Items(_) => unreachable!(),
            Members::Entries(ds) => entry_pairs(alloc, es, ds),
        },
    }
}

/// The members of two structures that look alike, step by step, where both have members at the same steps.
pub fn structure_pairs(
    alloc: Global,
    heap: &Heap,
    n: u32,
    m: u32,
) -> Result<Option<Vec<(Value, Value)>>, Memory>
    requires { face_of (heap_of heap.now) (Struct n) ≡ face_of (heap_of heap.now) (Struct m) }
    ensures { IfOk result (λ pairs. AreStructurePairs (heap_of heap.now) n m (option_map (λ ps. ps.items) pairs)) }
{
    match heap.structures.get(n as usize) {
        None => Ok(Some(Vec::new(alloc))),
        Some(s) => match heap.structures.get(m as usize) {
            None => unreachable!(),
            Some(t) => member_pairs(alloc, &s.members, &t.members),
        },
    }
}
