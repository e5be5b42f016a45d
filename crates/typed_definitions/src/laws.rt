//! The laws. These calls do nothing: their clauses are laws.
ghost use Rattle.typed_definitions.specs.Functions.{AllWholeFunctionsAreTyped};
ghost use Rattle.typed_definitions.specs.Initials.{AllInitialValuesAreTyped};

use check_laws::{positions_are_kept, stmt_positions_are_kept};
use kept_done::{done_is_kept, trees_end_none};
use type_model::Types;
use typed_blocks::statements_are_known;
use typed_needs::runs_go_on;
use typed_units::{function_bodies_are_typed, workers_are_typed};

/// All needs of a function, from where it begins to where it ends, come to one function more, which is the unit of its signature. Where the place has the package's variables and
/// functions, and each action in it is of another worker, all its units are typed: its own, those of its workers, and those of the anonymous functions in it. Its parameters stand in
/// its first slots, and what its workers give is what their descriptors say.
pub fn whole_functions_are_typed<T: Types>()
    ensures { AllWholeFunctionsAreTyped T.passes }
{
    positions_are_kept::<T>();
    stmt_positions_are_kept::<T>();
    runs_go_on::<T>();
    done_is_kept::<T>();
    trees_end_none();
    workers_are_typed::<T>();
    function_bodies_are_typed::<T>();
}

/// All needs of a variable of a module come to one variable more, and where the module is initialised to one initial value more: it is typed in the unit of the module's
/// initialiser, whatever that unit has become in the end, and below the type of its variable; nil is a result of the unit; and the functions in it are typed in units of their own.
pub fn initial_values_are_typed<T: Types>()
    ensures { AllInitialValuesAreTyped T.passes }
{
    positions_are_kept::<T>();
    runs_go_on::<T>();
    statements_are_known::<T>();
    done_is_kept::<T>();
    trees_end_none();
}
