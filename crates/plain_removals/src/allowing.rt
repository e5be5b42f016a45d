//! Whether what is left is allowed.
ghost use Rattle.std.specs.Prelude.{IfOk};
ghost use Rattle.plain_run.specs.Held.{members_of};
ghost use Rattle.plain_removals.specs.Removals.{IsAllowed};

use crate::members::members_belong_if;
use crate::removal::Removal;
use bal_base::Memory;
use plain_run::{Heap, Members, ProgramFacts};
use std::alloc::Global;
use value_model::{PanicName, Value};

/// These members are left in a structure of the atom, and the value is given, where they may be.
pub fn allowed(
    alloc: Global,
    facts: &ProgramFacts,
    heap: &Heap,
    atom: Option<u32>,
    left: Members,
    given: Value,
) -> Result<Removal, Memory>
    ensures { IfOk result (IsAllowed facts.now heap.now atom (members_of left) given) }
{
    match members_belong_if(alloc, facts, heap, &left, atom)? {
        None => Ok(Removal::Undecided),
        Some(false) => Ok(Removal::Panics(PanicName::InherentTypeViolation)),
        Some(true) => Ok(Removal::Leaves(left, given)),
    }
}
