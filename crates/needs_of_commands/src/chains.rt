//! What the traps in whose reach a place is need of its types.
ghost use Rattle.std.specs.Prelude.{◌≡◌, ◌≤◌, ◌-◌, ℕ, List, Option, Some, slice_get};
ghost use Rattle.stack_code.specs.Places.{stack_at as types_at};
ghost use Rattle.code_numbers.specs.Traps.{AreTrapRows, IsChain};
ghost use Rattle.code_needs.specs.Combining.{each};
ghost use Rattle.code_needs.specs.PlaceNeeds.{begins_below as begins_needs, trap_needs};
ghost use Rattle.needs_of_rows.specs.Finding.{Finds};
ghost use Rattle.needs_of_places.specs.Sites.{station_of};
ghost use Rattle.needs_of_commands.specs.inner.Descending.{Descends};

use crate::stacks::{first_types, stack_at};
use needs_of_places::Site;
use needs_of_rows::{Found, below_each};
use stack_code::Code;
use type_model::SemType;

/// The first types are below these, one by one.
fn begins_below<'c>(found: &mut Found<'c>, types: &'c [SemType], below: &'c [SemType])
    ensures { Finds (begins_needs types.now below.now) found.old found.new }
{
    let front = first_types(types, below.len());
    below_each(found, front, below);
}

/// The innermost trap in whose reach a place is, by its row. Nothing where there is no row.
pub fn row_at(rows: &[Option<u32>], first: u32, place: u32) -> Option<Option<u32>>
    requires { first ≤ place }
    ensures { result ≡ slice_get rows.now (place - first) }
{
    rows.get((place - first) as usize).copied()
}

/// The innermost trap in whose reach the trap's own place is.
pub fn outside(rows: &[Option<u32>], first: u32, trap: u32) -> Option<u32>
    requires { first ≤ trap }
    ensures { (o : Option ℕ) → slice_get rows.now (trap - first) ≡ Some o → result ≡ o }
{
    match row_at(rows, first, trap) {
        Some(row) => row,
        None => None,
    }
}

/// What the traps from the innermost one on need of the types at a place.
fn chain<'c>(
    found: &mut Found<'c>,
    code: &'c Code,
    place: u32,
    rows: &[Option<u32>],
    first: u32,
    innermost: Option<u32>,
)
    requires descends { Descends first rows.now }
    requires chain { (ts : List ℕ) × IsChain first rows.now innermost ts }
    ensures { (ts : List ℕ) → IsChain first rows.now innermost ts → Finds (each (λ t. begins_needs (types_at code.now place) (types_at code.now t)) ts) found.old found.new }
{
    let types = stack_at(code, place as usize);
    let mut next = innermost;
    while let Some(trap) = next {
        let below = stack_at(code, trap as usize);
        begins_below(found, types, below);
        next = outside(rows, first, trap);
    }
}

/// Finds what the traps in whose reach a place is need of its types, by the rows of its unit; a test fails where more traps are
/// closed before it than were opened.
pub fn traps<'c>(found: &mut Found<'c>, site: Site<'c>, place: u32, rows: &[Option<u32>])
    requires rows { AreTrapRows site.code.now site.unit.now.first (site.unit.now.end - site.unit.now.first) rows.now }
    requires from { site.unit.now.first ≤ place }
    requires to { place ≤ site.unit.now.end }
    ensures { Finds (trap_needs site.entry.code.now site.entry.unit.now (station_of site.entry) place) found.old found.new }
{
    match row_at(rows, site.unit.first, place) {
        Some(innermost) => chain(found, site.code, place, rows, site.unit.first, innermost),
        None => found.refuse(),
    }
}
