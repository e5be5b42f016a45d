//! Types at places of lists and at keys of mappings.
ghost use Rattle.std.specs.Prelude.{◌≡◌, find, option_copied};
ghost use Rattle.type_model.specs.Places as places;
ghost use Rattle.op_model.specs.ProgramFacts.{own_types};
ghost use Rattle.plain_run.specs.ProgramFacts.{facts_of};
ghost use Rattle.plain_tests.specs.Own.{def_of};

use bal_base::Text;
use plain_run::ProgramFacts;
use type_model::{AtomDef, FieldDef, Ty};

/// The type at a place of a list, where there is one: its own, or the rest's.
pub fn item_type<'a>(fixed: &'a [Ty], rest: &'a Option<Ty>, place: usize) -> Option<&'a Ty>
    ensures { option_copied result ≡ places.item_type fixed.now rest.now place }
{
    match fixed.get(place) {
        Some(t) => Some(t),
        None => rest.as_ref(),
    }
}

/// The field with this name.
fn field_named<'a>(fields: &'a [FieldDef], name: &Text) -> Option<&'a FieldDef>
    ensures { option_copied result ≡ find (λ f. places.is_same_text f.name name.now) fields.now }
{
    fields.iter().find(|f| f.name == *name)
}

/// The type at a key of a mapping, where there is one: that of the field of this name, or the rest's.
#[tactic(auto, using(crate::proofs::Keying::keying))]
pub fn key_type<'a>(fields: &'a [FieldDef], rest: &'a Option<Ty>, key: &Text) -> Option<&'a Ty>
    ensures { option_copied result ≡ places.key_type fields.now rest.now key.now }
{
    match field_named(fields, key) {
        Some(f) => Some(&f.ty),
        None => rest.as_ref(),
    }
}

/// The definition of an atom, where one is named and defined.
pub fn definition<'a>(facts: &'a ProgramFacts, atom: Option<u32>) -> Option<&'a AtomDef>
    ensures { option_copied result ≡ def_of (own_types (facts_of facts.now)) atom }
{
    match atom {
        None => None,
        Some(a) => facts.atoms.defs().get(a as usize),
    }
}
