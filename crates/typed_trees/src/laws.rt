//! The law of whole runs. This call does nothing: its clause is a law.
ghost use Rattle.typed_needs.specs.TypedRuns.{AllRunsAreTyped};

use check_laws::positions_are_kept;
use type_model::Types;
use typed_exprs::{
    actions_are_typed, calls_are_typed, conditions_are_typed, constructors_are_typed,
    elements_are_typed, lines_are_typed, prefixes_are_typed,
};
use typed_functions::functions_are_typed;
use typed_needs::runs_go_on;

/// All needs of an expression, of a part of one, or of an action come to one typed part more, from a state that is ready and in which what is kept is so, to an end that is the
/// place's; and the anonymous functions in it are typed in units of their own.
pub fn runs_are_typed<T: Types>()
    ensures { AllRunsAreTyped T.passes }
{
    positions_are_kept::<T>();
    runs_go_on::<T>();
    lines_are_typed::<T>();
    prefixes_are_typed::<T>();
    elements_are_typed::<T>();
    conditions_are_typed::<T>();
    constructors_are_typed::<T>();
    calls_are_typed::<T>();
    actions_are_typed::<T>();
    functions_are_typed::<T>();
}
