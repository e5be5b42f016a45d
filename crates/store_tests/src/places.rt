//! Types at places and keys of atoms.
ghost use Rattle.std.specs.Prelude.{◌≡◌, option_and_then, option_copied};
ghost use Rattle.op_model.specs.ProgramFacts.{own_types};
ghost use Rattle.op_model.specs.Stores as stores;
ghost use Rattle.plain_run.specs.ProgramFacts.{facts_of};
ghost use Rattle.plain_tests.specs.Own.{def_of};

use bal_base::Text;
use plain_run::ProgramFacts;
use plain_tests::{definition, item_type, key_type};
use type_model::{AtomDef, Ty};

/// The type at a place of an atom of lists.
fn type_at_place(d: &AtomDef, place: usize) -> Option<&Ty>
    ensures { option_copied result ≡ stores.type_at_place place d.now }
{
    match d {
        AtomDef::List { fixed, rest } => item_type(fixed.as_slice(), rest, place),
        AtomDef::Mapping { .. } => None,
        AtomDef::Arrow { .. } | AtomDef::Error { .. } | AtomDef::Future { .. } => None,
    }
}

/// The type at a key of an atom of mappings.
fn type_at_key<'a>(d: &'a AtomDef, key: &Text) -> Option<&'a Ty>
    ensures { option_copied result ≡ stores.type_at_key key.now d.now }
{
    match d {
        AtomDef::Mapping { fields, rest } => key_type(fields.as_slice(), rest, key),
        AtomDef::List { .. } => None,
        AtomDef::Arrow { .. } | AtomDef::Error { .. } | AtomDef::Future { .. } => None,
    }
}

/// The type at a place of lists of an atom, where it is there.
pub fn place_type<'a>(
    facts: &'a ProgramFacts<'_>,
    atom: Option<u32>,
    place: usize,
) -> Option<&'a Ty>
    ensures { option_copied result ≡ option_and_then (stores.type_at_place place) (def_of (own_types (facts_of facts.now)) atom) }
{
    match definition(facts, atom) {
        Some(d) => type_at_place(d, place),
        None => None,
    }
}

/// The type at a key of mappings of an atom, where it is there.
pub fn entry_type<'a>(facts: &'a ProgramFacts<'_>, atom: Option<u32>, key: &Text) -> Option<&'a Ty>
    ensures { option_copied result ≡ option_and_then (stores.type_at_key key.now) (def_of (own_types (facts_of facts.now)) atom) }
{
    match definition(facts, atom) {
        Some(d) => type_at_key(d, key),
        None => None,
    }
}
