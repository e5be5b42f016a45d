//! Whether members are those of a structure of an atom.
ghost use Rattle.std.specs.Prelude.{IfOk};
ghost use Rattle.value_model.specs.Heap.{Entries, Items};
ghost use Rattle.plain_run.specs.Held.{members_of};
ghost use Rattle.plain_removals.specs.Members.{TellsMembers, TellsMembersIf};

use crate::entries::entries_belong;
use crate::items::items_belong;
use bal_base::{Memory, Text};
use plain_run::{Heap, Members, ProgramFacts};
use plain_tests::definition;
use std::alloc::Global;
use type_model::AtomDef;
use value_model::Value;

/// Whether the items are those of a list of the atom.
fn are_of_list(
    alloc: Global,
    facts: &ProgramFacts,
    heap: &Heap,
    items: &[Value],
    atom: &AtomDef,
) -> Result<Option<bool>, Memory>
    ensures { IfOk result (TellsMembers facts.now heap.now (Items items.now) atom.now) }
{
    match atom {
        AtomDef::List { fixed, rest } => {
            items_belong(alloc, facts, heap, fixed.as_slice(), rest, items)
        }
        AtomDef::Mapping { .. } | AtomDef::Arrow { .. } => Ok(Some(false)),
        AtomDef::Error { .. } | AtomDef::Future { .. } => Ok(Some(false)),
    }
}

/// Whether the entries are those of a mapping of the atom.
fn are_of_mapping(
    alloc: Global,
    facts: &ProgramFacts,
    heap: &Heap,
    entries: &[(Text, Value)],
    atom: &AtomDef,
) -> Result<Option<bool>, Memory>
    ensures { IfOk result (TellsMembers facts.now heap.now (Entries entries.now) atom.now) }
{
    match atom {
        AtomDef::Mapping { fields, rest } => {
            entries_belong(alloc, facts, heap, fields.as_slice(), rest, entries)
        }
        AtomDef::List { .. } | AtomDef::Arrow { .. } => Ok(Some(false)),
        AtomDef::Error { .. } | AtomDef::Future { .. } => Ok(Some(false)),
    }
}

/// Whether the members are those of a structure of the atom: their number or their keys are allowed, and each belongs to its
/// place. `None` where that is not told of a member, which is the last one that is looked at.
pub fn members_belong(
    alloc: Global,
    facts: &ProgramFacts,
    heap: &Heap,
    members: &Members,
    atom: &AtomDef,
) -> Result<Option<bool>, Memory>
    ensures { IfOk result (TellsMembers facts.now heap.now (members_of members.now) atom.now) }
{
    match members {
        Members::Items(items) => are_of_list(alloc, facts, heap, items.as_slice(), atom),
        Members::Entries(entries) => {
            are_of_mapping(alloc, facts, heap, entries.as_slice(), atom)
        }
    }
}

/// The same of the atom with a number, where one is named and defined.
pub fn members_belong_if(
    alloc: Global,
    facts: &ProgramFacts,
    heap: &Heap,
    members: &Members,
    atom: Option<u32>,
) -> Result<Option<bool>, Memory>
    ensures { IfOk result (TellsMembersIf facts.now heap.now (members_of members.now) atom) }
{
    match definition(facts, atom) {
        None => Ok(Some(false)),
        Some(def) => members_belong(alloc, facts, heap, members, def),
    }
}
