//! The law of anonymous functions. This call does nothing: its clause is a law.
ghost use Rattle.typed_functions.specs.Functions.{AllFunctionsAreTyped};

use type_model::Types;

/// Where the needs of the value of an anonymous function come to a typed part, in the unit that they are met in, all needs of the function come to one typed part more, what it
/// captures is typed where it stands, and its unit is typed.
pub fn functions_are_typed<T: Types>()
    ensures { AllFunctionsAreTyped T.passes }
{}
