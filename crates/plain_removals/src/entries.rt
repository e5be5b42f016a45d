//! Whether entries belong to their keys.
ghost use Rattle.std.specs.Prelude.{⊤, ◌≡◌, ◌↔◌, ◌<◌, IfOk, IfSome, IsSomeAnd, IsTrue, length, position};
ghost use Rattle.type_model.specs.declared.atoms.AtomDef.TheVariants.{Mapping as MappingAtom};
ghost use Rattle.type_model.specs.Places.{is_same_text};
ghost use Rattle.value_model.specs.Heap.{Entries, entry_at};
ghost use Rattle.plain_removals.specs.Members.{HasRequired, IsMet, TellsMembers};

use bal_base::{Memory, Text};
use plain_run::{Heap, ProgramFacts};
use plain_tests::{belongs_if, key_type};
use std::alloc::Global;
use type_model::{FieldDef, Ty};
use value_model::Value;

/// Where the key stands first.
pub fn place_of(entries: &[(Text, Value)], key: &Text) -> Option<usize>
    ensures place { result ≡ position (λ e. is_same_text e.0 key.now) entries.now }
    ensures bound { IfSome result (λ i. i < length entries.now) }
{
    entries.iter().position(|e| e.0 == *key)
}

/// Whether an entry has the key.
fn has_key(entries: &[(Text, Value)], key: &Text) -> bool
    ensures { IsTrue result ↔ IsSomeAnd (entry_at entries.now key.now) (λ _. ⊤) }
{
    place_of(entries, key).is_some()
}

/// Whether the field is there, or need not be.
fn is_met(field: &FieldDef, entries: &[(Text, Value)]) -> bool
    ensures { IsTrue result ↔ IsMet entries.now field.now }
{
    field.optional || has_key(entries, &field.name)
}

/// Whether each field that has to be there is there.
fn has_required(fields: &[FieldDef], entries: &[(Text, Value)]) -> bool
    ensures { IsTrue result ↔ HasRequired fields.now entries.now }
{
    fields.iter().all(|f| is_met(f, entries))
}

/// Whether all keys that are asked for are there, and each entry belongs to its key. The first entry of which that is not told
/// is the last one that is looked at.
pub fn entries_belong(
    alloc: Global,
    facts: &ProgramFacts,
    heap: &Heap,
    fields: &[FieldDef],
    rest: &Option<Ty>,
    entries: &[(Text, Value)],
) -> Result<Option<bool>, Memory>
    ensures { IfOk result (TellsMembers facts.now heap.now (Entries entries.now) (MappingAtom fields.now rest.now)) }
{
    if !has_required(fields, entries) {
        return Ok(Some(false));
    }
    for e in entries {
        match belongs_if(alloc, facts, heap, &e.1, key_type(fields, rest, &e.0))? {
            Some(true) => {}
            Some(false) => return Ok(Some(false)),
            None => return Ok(None),
        }
    }
    Ok(Some(true))
}
