//! Rows of calls: of units, of function values, and of strands that are started.
#![tactic(auto, using(crate::proofs::Finding::finding))]

ghost use Rattle.std.specs.Option.{option_copied};
ghost use Rattle.code_needs.specs.Combining.{◌&◌, as_many as count_needs, need, of_some, one_and_more};
ghost use Rattle.code_needs.specs.declared.kind.Kind.TheVariants.{Functions};
ghost use Rattle.code_needs.specs.Needs.{Applies, Gives as GivesIn, GivesFuture as GivesFutureIn};
ghost use Rattle.code_needs.specs.RowNeeds.{below_each as below_needs, has_all as all_needs, within as within_needs};
ghost use Rattle.needs_of_rows.specs.Finding.{Finds};

use crate::found::Found;
use crate::lists::below_each;
use crate::operands::first_of;
use code_needs::Kind;
use stack_code::Unit;
use type_model::SemType;

// ---- units

/// Operands below the types, and a result with all of the last one.
fn passes<'c>(
    found: &mut Found<'c>,
    operands: &'c [SemType],
    types: &'c [SemType],
    own: &'c SemType,
    given: Option<&'c SemType>,
)
    ensures { Finds (below_needs operands.now types.now & all_needs (option_copied given.entry) own.now) found.old found.new }
{
    below_each(found, operands, types);
    found.has_all(given, own);
}

/// The unit's arguments, and its result.
fn called<'c>(
    found: &mut Found<'c>,
    operands: &'c [SemType],
    unit: Option<&'c Unit>,
    given: Option<&'c SemType>,
)
    ensures { Finds (of_some (option_copied unit.entry) (λ u. below_needs operands.now u.params & all_needs (option_copied given.entry) u.result)) found.old found.new }
{
    match unit {
        Some(u) => passes(found, operands, u.params.as_slice(), &u.result, given),
        None => found.refuse(),
    }
}

/// So many arguments of the unit, and its result.
pub fn calls<'c>(
    found: &mut Found<'c>,
    operands: &'c [SemType],
    count: usize,
    unit: Option<&'c Unit>,
    given: Option<&'c SemType>,
)
    ensures { Finds (count_needs operands.now count & of_some (option_copied unit.entry) (λ u. below_needs operands.now u.params & all_needs (option_copied given.entry) u.result)) found.old found.new }
{
    found.as_many(operands, count);
    called(found, operands, unit, given);
}

/// The unit's arguments, and its future's type.
fn started<'c>(
    found: &mut Found<'c>,
    operands: &'c [SemType],
    unit: Option<&'c Unit>,
    future: &'c SemType,
    given: Option<&'c SemType>,
)
    ensures { Finds (of_some (option_copied unit.entry) (λ u. below_needs operands.now u.params & all_needs (option_copied given.entry) future.now)) found.old found.new }
{
    match unit {
        Some(u) => passes(found, operands, u.params.as_slice(), future, given),
        None => found.refuse(),
    }
}

/// So many arguments of the unit, and its future's type.
pub fn starts<'c>(
    found: &mut Found<'c>,
    operands: &'c [SemType],
    count: usize,
    unit: Option<&'c Unit>,
    future: &'c SemType,
    given: Option<&'c SemType>,
)
    ensures { Finds (count_needs operands.now count & of_some (option_copied unit.entry) (λ u. below_needs operands.now u.params & all_needs (option_copied given.entry) future.now)) found.old found.new }
{
    found.as_many(operands, count);
    started(found, operands, unit, future, given);
}

/// What the unit captures, and its function's type.
fn made<'c>(
    found: &mut Found<'c>,
    operands: &'c [SemType],
    unit: Option<&'c Unit>,
    function: &'c SemType,
    given: Option<&'c SemType>,
)
    ensures { Finds (of_some (option_copied unit.entry) (λ u. below_needs operands.now u.captured & all_needs (option_copied given.entry) function.now)) found.old found.new }
{
    match unit {
        Some(u) => passes(found, operands, u.captured.as_slice(), function, given),
        None => found.refuse(),
    }
}

/// As many operands as the unit captures, and its function's type.
pub fn makes_function<'c>(
    found: &mut Found<'c>,
    operands: &'c [SemType],
    count: usize,
    unit: Option<&'c Unit>,
    function: &'c SemType,
    given: Option<&'c SemType>,
)
    ensures { Finds (count_needs operands.now count & of_some (option_copied unit.entry) (λ u. below_needs operands.now u.captured & all_needs (option_copied given.entry) function.now)) found.old found.new }
{
    found.as_many(operands, count);
    made(found, operands, unit, function, given);
}

// ---- function values

/// A function value below so many arguments, and what it gives.
pub fn calls_value<'c>(
    found: &mut Found<'c>,
    operands: &'c [SemType],
    count: usize,
    given: Option<&'c SemType>,
)
    ensures { Finds (one_and_more operands.now (λ f args. count_needs args count & within_needs f Functions & need (Applies f args) & of_some (option_copied given.entry) (λ r. need (GivesIn f args r)))) found.old found.new }
{
    match first_of(operands) {
        Some((f, more)) => {
            found.as_many(more, count);
            found.within(f, Kind::Functions);
            found.gives(given, f, more);
        }
        None => found.refuse(),
    }
}

/// The same in a strand that is started, and a future of what it gives.
pub fn starts_value<'c>(
    found: &mut Found<'c>,
    operands: &'c [SemType],
    count: usize,
    given: Option<&'c SemType>,
)
    ensures { Finds (one_and_more operands.now (λ f args. count_needs args count & within_needs f Functions & need (Applies f args) & of_some (option_copied given.entry) (λ r. need (GivesFutureIn f args r)))) found.old found.new }
{
    match first_of(operands) {
        Some((f, more)) => {
            found.as_many(more, count);
            found.within(f, Kind::Functions);
            found.gives_future(given, f, more);
        }
        None => found.refuse(),
    }
}
