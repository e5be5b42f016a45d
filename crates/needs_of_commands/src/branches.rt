//! What jumps, branches and traps need of the places where they go on.
ghost use Rattle.std.specs.Option.{option_copied};
ghost use Rattle.stack_code.specs.Places.{stack_at as types_at};
ghost use Rattle.code_needs.specs.Combining.{◌&◌, need, of_some};
ghost use Rattle.code_needs.specs.declared.kind.Kind.TheVariants.{Booleans, Errors};
ghost use Rattle.code_needs.specs.Needs.{Has as HasKind, Within as IsWithin};
ghost use Rattle.code_needs.specs.PlaceNeeds.{branch_needs, landing_needs};
ghost use Rattle.code_needs.specs.RowNeeds.{below_each as below_needs, within as within_needs};
ghost use Rattle.needs_of_rows.specs.Finding.{Finds};
ghost use Rattle.needs_of_places.specs.Sites.{station_of};

use crate::stacks::{front, last, stack_at};
use code_needs::Kind;
use needs_of_places::Site;
use needs_of_rows::{Found, below_each, same_each};
use type_model::SemType;

/// The types at the first place are below those at the second.
pub(crate) fn goes_on<'c>(found: &mut Found<'c>, site: Site<'c>, from: u32, to: usize)
    ensures { Finds (below_needs (types_at site.entry.code.now from) (types_at site.entry.code.now to)) found.old found.new }
{
    let own = stack_at(site.code, from as usize);
    let next = stack_at(site.code, to);
    below_each(found, own, next);
}

/// The condition of a branch is a boolean.
fn condition<'c>(found: &mut Found<'c>, condition: Option<&'c SemType>)
    ensures { Finds (of_some (option_copied condition.entry) (λ c. within_needs c Booleans)) found.old found.new }
{
    match condition {
        Some(t) => found.within(t, Kind::Booleans),
        None => found.refuse(),
    }
}

/// A condition, and what stands below it goes on at the next place and at the other one.
pub(crate) fn goes_either<'c>(found: &mut Found<'c>, site: Site<'c>, place: u32, to: u32)
    ensures { Finds (branch_needs site.entry.code.now site.entry.unit.now (station_of site.entry) place to) found.old found.new }
{
    let types = stack_at(site.code, place as usize);
    let next = stack_at(site.code, place as usize + 1);
    let other = stack_at(site.code, to as usize);
    let rest = front(types);
    condition(found, last(types));
    below_each(found, rest, next);
    below_each(found, rest, other);
}

/// The type has all errors and nothing else.
fn all_errors<'c>(found: &mut Found<'c>, error: Option<&'c SemType>)
    ensures { Finds (of_some (option_copied error.entry) (λ e. need (IsWithin e Errors) & need (HasKind e Errors))) found.old found.new }
{
    match error {
        Some(t) => {
            found.within(t, Kind::Errors);
            found.has_kind(t, Kind::Errors);
        }
        None => found.refuse(),
    }
}

/// Where a trap lands, an error stands above the types at the trap.
pub(crate) fn landing<'c>(found: &mut Found<'c>, site: Site<'c>, place: u32, to: u32)
    ensures { Finds (landing_needs site.entry.code.now site.entry.unit.now (station_of site.entry) place to) found.old found.new }
{
    let types = stack_at(site.code, to as usize);
    let own = stack_at(site.code, place as usize);
    all_errors(found, last(types));
    same_each(found, front(types), own);
}
