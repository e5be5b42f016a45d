//! The laws. These calls do nothing: their clauses are laws.
ghost use Rattle.typed_packages.specs.Naming.{NamedUnitsAreTyped};
ghost use Rattle.typed_packages.specs.Packages.{CheckedUnitsAreTyped};

use check_laws::functions_end_whole;
use type_model::Types;
use typed_definitions::{initial_values_are_typed, whole_functions_are_typed};
use typed_units::bodies_make_typed_units;
use unit_crews::placed_crews;

/// All units of a package that is checked are typed by the types of operands: those of its functions, of their workers, of the anonymous functions in them, and of the initialisers
/// of its modules. Their numbers, and those of functions and variables that names stand for, lead to what they are numbers of, and each action of a function is of another worker
/// of it.
pub fn checked_packages_have_typed_units<T: Types>()
    ensures { CheckedUnitsAreTyped T.passes }
{
    bodies_make_typed_units();
    functions_end_whole::<T>();
    whole_functions_are_typed::<T>();
    initial_values_are_typed::<T>();
}

/// The same where names lead to the definitions of the package: a variable that a name stands for is the one of its number among the variables in the order of the text, and a
/// function is one of the package, whose unit has the number and the types of its signature; so each function and variable that a name stands for is the one by its number.
/// Units are numbered without gaps, and so each is the one by its number; and each unit of the package is placed.
pub fn named_packages_have_typed_units<T: Types>()
    ensures { NamedUnitsAreTyped T.passes }
{
    bodies_make_typed_units();
    placed_crews();
    functions_end_whole::<T>();
    whole_functions_are_typed::<T>();
    initial_values_are_typed::<T>();
}
