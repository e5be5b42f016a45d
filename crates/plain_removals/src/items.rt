//! Whether items belong to their places.
ghost use Rattle.std.specs.Prelude.{IfOk};
ghost use Rattle.type_model.specs.declared.atoms.AtomDef.TheVariants.{List as ListAtom};
ghost use Rattle.value_model.specs.Heap.{Items};
ghost use Rattle.plain_removals.specs.Members.{TellsMembers};

use bal_base::Memory;
use plain_run::{Heap, ProgramFacts};
use plain_tests::{belongs_if, item_type};
use std::alloc::Global;
use type_model::Ty;
use value_model::Value;

/// Whether as many items as are asked for are there, and each belongs to its place. The first item of which that is not told
/// is the last one that is looked at.
pub fn items_belong(
    alloc: Global,
    facts: &ProgramFacts,
    heap: &Heap,
    fixed: &[Ty],
    rest: &Option<Ty>,
    items: &[Value],
) -> Result<Option<bool>, Memory>
    ensures { IfOk result (TellsMembers facts.now heap.now (Items items.now) (ListAtom fixed.now rest.now)) }
{
    if items.len() < fixed.len() {
        return Ok(Some(false));
    }
    for (i, v) in items.iter().enumerate() {
        match belongs_if(alloc, facts, heap, v, item_type(fixed, rest, i))? {
            Some(true) => {}
            Some(false) => return Ok(Some(false)),
            None => return Ok(None),
        }
    }
    Ok(Some(true))
}
