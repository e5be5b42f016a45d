//! Rows of waits.
#![tactic(auto, using(crate::proofs::Finding::finding))]

ghost use Rattle.std.specs.Option.{option_copied};
ghost use Rattle.code_needs.specs.Combining.{◌&◌, need, of_some, one};
ghost use Rattle.code_needs.specs.declared.kind.Kind.TheVariants.{Errors, Futures};
ghost use Rattle.code_needs.specs.Needs.{Has as HasKind, PartIn as IsPartIn};
ghost use Rattle.code_needs.specs.RowNeeds.{within as within_needs};
ghost use Rattle.needs_of_rows.specs.Finding.{Finds};

use crate::found::Found;
use crate::members::has_part_or;
use crate::operands::one_of;
use code_needs::Kind;
use type_model::{Keys, SemType};

/// A future, and what it may give: its results, and errors. `keys` is all results.
pub fn waits_for<'c>(
    found: &mut Found<'c>,
    f: &'c SemType,
    keys: &'c Keys,
    given: Option<&'c SemType>,
)
    ensures { Finds (within_needs f.now Futures & of_some (option_copied given.entry) (λ r. need (IsPartIn f.now keys.now r) & need (HasKind r Errors))) found.old found.new }
{
    found.within(f, Kind::Futures);
    has_part_or(found, given, f, keys, Kind::Errors);
}

/// One future, and what it may give. `keys` is all results.
pub fn waits_one<'c>(
    found: &mut Found<'c>,
    operands: &'c [SemType],
    keys: &'c Keys,
    given: Option<&'c SemType>,
)
    ensures { Finds (one operands.now (λ f. within_needs f Futures & of_some (option_copied given.entry) (λ r. need (IsPartIn f keys.now r) & need (HasKind r Errors)))) found.old found.new }
{
    match one_of(operands) {
        Some(f) => waits_for(found, f, keys, given),
        None => found.refuse(),
    }
}
