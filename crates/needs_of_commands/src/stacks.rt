//! The instruction and the types at a place, and parts of types.
ghost use Rattle.std.specs.Option.{option_copied};
ghost use Rattle.std.specs.Prelude.{◌≡◌, ◌-◌, drop, length, slice_get, take};
ghost use Rattle.code_needs.specs.Stacks.{front_of, last_of};
ghost use Rattle.stack_code.specs.Places.{stack_at as types_at};
ghost use Rattle.needs_of_commands.specs.inner.Doing.{stack_of};

use stack_code::{Code, Instr, StackMap};
use type_model::SemType;

/// The instruction at a place.
pub fn instr_at<'c>(code: &'c Code, place: u32) -> Option<&'c Instr>
    ensures { option_copied result ≡ slice_get code.now.instrs place }
{
    code.instrs.as_slice().get(place as usize)
}

/// The types of a map, and none where there is no map.
fn types_of<'c>(map: Option<&'c StackMap>) -> &'c [SemType]
    ensures { result.now ≡ stack_of (option_copied map.entry) }
{
    match map {
        Some(map) => map.stack.as_slice(),
        None => &[],
    }
}

/// The map at a place.
pub fn map_at<'c>(code: &'c Code, place: usize) -> Option<&'c StackMap>
    ensures { option_copied result ≡ slice_get code.now.maps place }
{
    code.maps.as_slice().get(place)
}

/// The types at a place, and none where there is no such place.
pub fn stack_at<'c>(code: &'c Code, place: usize) -> &'c [SemType]
    ensures { result.now ≡ types_at code.now place }
{
    types_of(map_at(code, place))
}

/// All but so many of the last types, and these.
pub(crate) fn split_behind<'c>(types: &'c [SemType], count: usize) -> (&'c [SemType], &'c [SemType])
    ensures rest { result.0.now ≡ take (length types.now - count) types.now }
    ensures last { result.1.now ≡ drop (length types.now - count) types.now }
{
    types.split_at(types.len().saturating_sub(count))
}

/// So many of the first types, or all where there are fewer.
pub(crate) fn first_types<'c>(types: &'c [SemType], count: usize) -> &'c [SemType]
    ensures { result.now ≡ take count types.now }
{
    let behind = types.len().saturating_sub(count);
    types.split_at(types.len() - behind).0
}

/// The last type.
pub(crate) fn last<'c>(types: &'c [SemType]) -> Option<&'c SemType>
    ensures { option_copied result ≡ last_of types.now }
{
    types.last()
}

/// All types but the last.
pub(crate) fn front<'c>(types: &'c [SemType]) -> &'c [SemType]
    ensures { result.now ≡ front_of types.now }
{
    split_behind(types, 1).0
}
