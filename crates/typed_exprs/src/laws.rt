//! Laws of lines of the tables. These calls do nothing: their clauses are laws.
ghost use Rattle.typed_exprs.specs.Actions.{AllActionsAreTyped};
ghost use Rattle.typed_exprs.specs.Calls.{AllCallsAreTyped};
ghost use Rattle.typed_exprs.specs.Conditions.{AllConditionsAreTyped};
ghost use Rattle.typed_exprs.specs.Constructors.{AllConstructorsAreTyped};
ghost use Rattle.typed_exprs.specs.Elements.{AllElementsAreTyped};
ghost use Rattle.typed_exprs.specs.Lines.{TheseLinesAreTyped};
ghost use Rattle.typed_exprs.specs.Prefixes.{AllPrefixesAreTyped};

use calm_needs::{needs_are_calm, ways_stay_on};
use check_laws::effects_are_kept;
use type_model::Types;
use typed_calls::{
    needs_make_typed_errors, needs_make_typed_library_calls, needs_make_typed_mappings,
    needs_make_typed_waits, needs_open_typed_calls, needs_start_typed_values,
};

/// Where what is read of operands comes to typed parts, so does what is read of the whole: of a binary operator that enters no way, of a literal and of a name, of what
/// stands in parentheses or behind `trap`, and of a field.
pub fn lines_are_typed<T: Types>()
    ensures { TheseLinesAreTyped T.passes }
{
    needs_are_calm::<T>();
}

/// The same for what stands behind a prefix, for casts, and for tests of types.
pub fn prefixes_are_typed<T: Types>()
    ensures { AllPrefixesAreTyped T.passes }
{
    needs_are_calm::<T>();
}

/// The same for an element of a string, of a list or of a mapping.
pub fn elements_are_typed<T: Types>()
    ensures { AllElementsAreTyped T.passes }
{
    needs_are_calm::<T>();
}

/// The same for what enters ways: `a && b`, `a || b` and `c ? a : b`. What is known where a way is entered is of variables in slots of their declared types.
pub fn conditions_are_typed<T: Types>()
    ensures { AllConditionsAreTyped T.passes }
{
    needs_are_calm::<T>();
    ways_stay_on::<T>();
}

/// The same for constructors of lists, of mappings and of errors, whose items, members and details are read one behind another: each key and value comes to two typed
/// parts, and what is open has them.
pub fn constructors_are_typed<T: Types>()
    ensures { AllConstructorsAreTyped T.passes }
{
    needs_are_calm::<T>();
    needs_make_typed_errors::<T>();
    needs_make_typed_mappings::<T>();
}

/// The same for calls of functions, of function values and of the library, and for calls that are started: what is called is opened, its arguments are read one behind
/// another, and each fits its place.
pub fn calls_are_typed<T: Types>()
    ensures { AllCallsAreTyped T.passes }
{
    needs_are_calm::<T>();
    needs_open_typed_calls::<T>();
    needs_make_typed_library_calls::<T>();
    needs_start_typed_values::<T>();
}

/// The same for actions, where each worker that is named is one of the function, and what workers give is what the place has: messages, waits, and what stands behind
/// `check`, `checkpanic` or `trap`.
pub fn actions_are_typed<T: Types>()
    ensures { AllActionsAreTyped T.passes }
{
    needs_are_calm::<T>();
    effects_are_kept::<T>();
    needs_make_typed_errors::<T>();
    needs_make_typed_waits::<T>();
}
