//! Copies of what a map holds.

ghost use Rattle.std.specs.Prelude.{◌≡◌, IfOk, map};
ghost use Rattle.std.specs.List.{AllZip};
ghost use Rattle.type_model.specs.SameType.{IsSameType};
ghost use Rattle.map_traces.specs.Events.{type_of};

use bal_base::Memory;
use map_traces::Entry;
use std::alloc::Global;
use type_model::{BasicSet, SemType};

/// A copy of the type of an operand.
fn copy(alloc: Global, e: Entry<'_>) -> Result<SemType, Memory>
    ensures { IfOk result (IsSameType (type_of e.entry)) }
{
    match e {
        Entry::Tree(t) => t.sem.copy(alloc),
        Entry::Plain(t) => t.copy(alloc),
        Entry::Nil => Ok(SemType::Basic(BasicSet::Nil)),
        Entry::Error => Ok(SemType::Basic(BasicSet::ErrorAll)),
        Entry::Readonly => Ok(SemType::Basic(BasicSet::Readonly)),
        Entry::Never => Ok(SemType::Basic(BasicSet::Never)),
        Entry::Atom(a) => Ok(SemType::Atom(a)),
    }
}

/// Copies of the types of operands.
pub fn copies(alloc: Global, entries: &[Entry<'_>]) -> Result<Vec<SemType>, Memory>
    ensures { IfOk result (λ ts. AllZip IsSameType (map type_of entries.now) ts.items) }
{
    let mut types = Vec::new(alloc);
    for e in entries {
        types.push(copy(alloc, *e)?)?;
    }
    Ok(types)
}

/// A copy of numbers.
pub fn numbers(alloc: Global, given: &[u32]) -> Result<Vec<u32>, Memory>
    ensures { IfOk result (λ ns. ns.items ≡ given.now) }
{
    let mut copied = Vec::new(alloc);
    copied.extend_from_slice(given)?;
    Ok(copied)
}
