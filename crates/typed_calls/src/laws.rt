//! Laws of needs that are met, piece by piece. These calls do nothing: their clauses are laws.
ghost use Rattle.typed_calls.specs.Callees.{AllCalleesAreOpened};
ghost use Rattle.typed_calls.specs.Errors.{AllErrorsAreTyped};
ghost use Rattle.typed_calls.specs.LibraryCalls.{AllLibraryCallsAreTyped};
ghost use Rattle.typed_calls.specs.Mappings.{AllMappingsAreTyped};
ghost use Rattle.typed_calls.specs.ValueStarts.{ValueStartsAreTyped};
ghost use Rattle.typed_calls.specs.WholeWaits.{AllWholeWaitsAreTyped};

use type_model::Types;

/// Where the need of a wait is met, and all its names are known, there is one typed part in place of its futures: one name's result, or a record of all of them.
pub fn needs_make_typed_waits<T: Types>()
    ensures { AllWholeWaitsAreTyped T.passes }
{}

/// Where the need of what is called is met, a call is opened: of a function that takes so many arguments and that the place has, of a function value, which is a typed part, or of
/// the library by its row, whose receiver, if it has one, is of the row's kind.
pub fn needs_open_typed_calls<T: Types>()
    ensures { AllCalleesAreOpened T.passes }
{}

/// Of each argument of a call of the library what its place takes is wanted, and it is below that; and where the call is made there is one typed part in place of its receiver and
/// its arguments.
pub fn needs_make_typed_library_calls<T: Types>()
    ensures { AllLibraryCallsAreTyped T.passes }
{}

/// Where the need of a start of a function value is met, there is one typed part in place of the value and its arguments: a future of what it gives to them.
pub fn needs_start_typed_values<T: Types>()
    ensures { ValueStartsAreTyped T.passes }
{}

/// An error constructor holds its details so far, each of which is a key that is known and a value that can't change: so it is where one begins, behind each key and value, and where
/// the error is made there is one typed part in place of its message, its cause or nil, and its details.
pub fn needs_make_typed_errors<T: Types>()
    ensures { AllErrorsAreTyped T.passes }
{}

/// A mapping constructor holds its members so far, each of whose values is in the type of each key that its key may be: so it is where one begins, behind each key and value, and
/// where the mapping is made there is one typed part in place of its keys and values. Its required fields are among the members that were seen as it began.
pub fn needs_make_typed_mappings<T: Types>()
    ensures { AllMappingsAreTyped T.passes }
{}
