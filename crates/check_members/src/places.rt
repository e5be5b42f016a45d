//! Types at places of lists and at keys of mappings.
#![tactic(auto, using(crate::proofs::Keying::keying))]

ghost use Rattle.std.specs.Prelude.{◌≡◌, find};
ghost use Rattle.std.specs.Option.{option_copied};
ghost use Rattle.type_model.specs.Places.{is_same_text, item_type as type_at_place, key_type as type_at_key};

use bal_base::Text;
use type_model::{FieldDef, Ty};

/// The type at a place of a list, where there is one: its own, or the rest's.
pub fn item_type<'a>(fixed: &'a [Ty], rest: &'a Option<Ty>, place: usize) -> Option<&'a Ty>
    ensures { option_copied result ≡ type_at_place fixed.now rest.now place }
{
    match fixed.get(place) {
        Some(t) => Some(t),
        None => rest.as_ref(),
    }
}

/// The field with this name.
pub(crate) fn field_named<'a>(fields: &'a [FieldDef], name: &Text) -> Option<&'a FieldDef>
    ensures { option_copied result ≡ find (λ f. is_same_text f.name name.now) fields.now }
{
    fields.iter().find(|f| f.name == *name)
}

/// The type at a key of a mapping, where there is one: that of the field of this name, or the rest's. It looks at one field after the
/// other.
pub fn key_type<'a>(fields: &'a [FieldDef], rest: &'a Option<Ty>, key: &Text) -> Option<&'a Ty>
    ensures { option_copied result ≡ type_at_key fields.now rest.now key.now }
{
    match field_named(fields, key) {
        Some(f) => Some(&f.ty),
        None => rest.as_ref(),
    }
}
