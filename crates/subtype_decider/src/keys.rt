//! Fields of mapping atoms, and types at places and keys.
ghost use Rattle.std.specs.Prelude.{◌≡◌, ◌+◌, ◌≤◌, MatchOption, Some, None};
ghost use Rattle.type_model.specs.Places.{item_type, key_type};
ghost use Rattle.subtype_decider.specs.Keys.{has_key, has_required};
ghost use Rattle.subtype_decider.specs.Measure.{fixed_nodes, fields_nodes, rest_nodes, option_nodes};

use bal_base::{Shape, Text};
use type_model::{FieldDef, Ty};

fn has_key(members: &[(Text, Shape)], key: &Text) -> bool
    ensures { result ≡ has_key members.now key.now }
{
    members.iter().any(|m| m.0 == *key)
}

/// Whether each field that isn't optional is among the members.
pub fn has_required(fields: &[FieldDef], members: &[(Text, Shape)]) -> bool
    ensures { result ≡ has_required fields.now members.now }
{
    fields
        .iter()
        .all(|f| f.optional || has_key(members, &f.name))
}

/// The type at a place of a list.
pub fn type_at_place<'a>(fixed: &'a [Ty], rest: &'a Option<Ty>, place: usize) -> Option<&'a Ty>
    ensures value { MatchOption result (item_type fixed.now rest.now place ≡ None) (λ t. item_type fixed.now rest.now place ≡ Some t.now) }
    ensures bound { option_nodes result ≤ fixed_nodes fixed.now + rest_nodes rest.now }
{
    match fixed.get(place) {
        Some(t) => Some(t),
        None => rest.as_ref(),
    }
}

/// The type at a key of a mapping.
pub fn type_at_key<'a>(fields: &'a [FieldDef], rest: &'a Option<Ty>, key: &Text) -> Option<&'a Ty>
    ensures value { MatchOption result (key_type fields.now rest.now key.now ≡ None) (λ t. key_type fields.now rest.now key.now ≡ Some t.now) }
    ensures bound { option_nodes result ≤ fields_nodes fields.now + rest_nodes rest.now }
{
    for f in fields {
        if f.name == *key {
            return Some(&f.ty);
        }
    }
    rest.as_ref()
}
