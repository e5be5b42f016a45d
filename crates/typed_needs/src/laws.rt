//! Laws of needs that are met, piece by piece. These calls do nothing: their clauses are laws.
ghost use Rattle.typed_needs.specs.Anonymous.{AnonymousAreTyped};
ghost use Rattle.typed_needs.specs.Asked.{NeedsAskOfParts};
ghost use Rattle.typed_needs.specs.Choices.{AllChoicesAreTyped};
ghost use Rattle.typed_needs.specs.FunctionCalls.{AllFunctionCallsAreTyped};
ghost use Rattle.typed_needs.specs.Going.{NeedsGoOn};
ghost use Rattle.typed_needs.specs.Items.{AllListsAreTyped};
ghost use Rattle.typed_needs.specs.Messages.{AllMessagesAreTyped};
ghost use Rattle.typed_needs.specs.Named.{NamesAreTyped};
ghost use Rattle.typed_needs.specs.OnTheWay.{PlacesAreKept, StatesAreBefore};
ghost use Rattle.typed_needs.specs.Pieces.{AllConditionsAreTyped, ComparisonsAreTyped, KindsAreAsked, LiteralsAreTyped, OperatorsAreTyped, SumsAreTyped, TrapsAreTyped, WantsAreAsked};
ghost use Rattle.typed_needs.specs.MemberReads.{AllReadsAreTyped};
ghost use Rattle.typed_needs.specs.ValueCalls.{ValueCallsAreTyped};
ghost use Rattle.typed_needs.specs.Waits.{AllWaitsAreTyped};
ghost use Rattle.typed_needs.specs.WholeRuns.{RunsGoOn};

use check_laws::{positions_are_kept, stmt_positions_are_kept};
use type_model::Types;

/// Where a need that asks for a kind, or for what is wanted, is met, the last part is so, over all atoms that there are at the end, and nothing changes. So it is of the
/// sort that an operator works on and of what a member is taken of, which are chosen by the part, and kept.
pub fn needs_ask_of_parts<T: Types>()
    ensures kinds { KindsAreAsked T.passes }
    ensures wants { WantsAreAsked T.passes }
    ensures more { NeedsAskOfParts T.passes }
{}

/// Where the need of a literal, of an operator, on ints or strings or whatever it takes, of a condition, of parentheses or of `trap` is met, and its parts are typed and
/// what the operator takes, there is one typed part in their place.
pub fn needs_make_typed_parts<T: Types>()
    ensures literals { LiteralsAreTyped T.passes }
    ensures operators { OperatorsAreTyped T.passes }
    ensures sums { SumsAreTyped T.passes }
    ensures comparisons { ComparisonsAreTyped T.passes }
    ensures traps { TrapsAreTyped T.passes }
    ensures conditions { AllConditionsAreTyped T.passes }
{}

/// Where the need of `? :`, of `?:`, of a cast, of `is`, of `check` or of `checkpanic` is met, and its parts are typed, there is one typed part in their place: what
/// a construct keeps stands in a slot of its own of the unit at hand, and errors that `check` returns are results of the unit.
pub fn needs_make_typed_choices<T: Types>()
    ensures { AllChoicesAreTyped T.passes }
{}

/// Where the need of a name is met, there is one typed part more: a variable that is seen there, whose slot is of its declared type, a constant, or what a module
/// defines, as the place has it.
pub fn needs_make_typed_names<T: Types>()
    ensures { NamesAreTyped T.passes }
{}

/// Where the need of `a[i]`, of `a.f` or of `a?.f` is met, and its parts are typed and what it is read of, there is one typed part in their place.
pub fn needs_make_typed_reads<T: Types>()
    ensures { AllReadsAreTyped T.passes }
{}

/// A list constructor holds its items so far, each of which fits its place, or what is made of them where nothing is chosen, and may stand in an immutable list where it
/// is one: so it is where one begins, behind each item that is below what is wanted of it, and where the list is made there is one typed part in place of its items.
pub fn needs_make_typed_lists<T: Types>()
    ensures { AllListsAreTyped T.passes }
{}

/// Where a need finds on a state what it takes, and is met, atoms come behind those that are there, and none is gone or changed; and each unit of that state stays the same
/// unit, with slots behind its own, whatever becomes of units that stand on them. A state that goes on to one whose
/// atoms are the first ones of those at the end is itself such a state, and its unit at hand has the first slots of the same place, where no unit has come.
pub fn needs_go_on<T: Types>()
    ensures on { NeedsGoOn T.passes }
    ensures before { StatesAreBefore }
    ensures placed { PlacesAreKept }
{}

/// Where the need of a send, of a receive or of a flush is met that names another worker, and what is sent is typed and may be sent, there is one typed part in its place.
pub fn needs_make_typed_messages<T: Types>()
    ensures { AllMessagesAreTyped T.passes }
{}

/// Of each argument of a function what its parameter takes is wanted, and it is below that; and where the call, or the start, is made there is one typed part in place of
/// its arguments, where they are as many as the function takes, and the place has the function's unit.
pub fn needs_make_typed_function_calls<T: Types>()
    ensures { AllFunctionCallsAreTyped T.passes }
{}

/// Where all needs of an expression, of an action, of a statement, of a block or of a worker are met, atoms have come behind those that were there, and each unit that was
/// there is the same unit, with slots behind its own; units of anonymous functions and of workers have come and gone.
pub fn runs_go_on<T: Types>()
    ensures { RunsGoOn T.passes }
{
    positions_are_kept::<T>();
    stmt_positions_are_kept::<T>();
}

/// Where the need that ends an anonymous function is met, there is one typed part in place of its value, where what it captures is typed, and the place has its unit.
pub fn needs_make_typed_functions<T: Types>()
    ensures { AnonymousAreTyped T.passes }
{}

/// Where the need of a name in a wait is met, a type is wanted that has all that the worker, or the future, gives; and a future is a typed part.
pub fn needs_await_typed_names<T: Types>()
    ensures { AllWaitsAreTyped T.passes }
{}

/// Where the need of a call of a function value is met, there is one typed part in place of the value and its arguments: those are in its domain, and the type is that of
/// what it gives to them.
pub fn needs_make_typed_value_calls<T: Types>()
    ensures { ValueCallsAreTyped T.passes }
{}
