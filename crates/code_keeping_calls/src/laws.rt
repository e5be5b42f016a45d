//! Laws of steps that call function values. These calls do nothing: their clauses are laws.
ghost use Rattle.code_keeping_calls.specs.Laws.{ValuesAreCalled, ValuesAreStarted};

use op_model::Meaning;

/// What a frame of well-typed code asks for fits, whatever comes, and something comes, where a function value is called or started:
/// the function never fails at arguments of these types, so they fit its unit's parameters, and the unit's result is among what the
/// function may give.
pub fn values_are_called<N: Meaning>()
    ensures calls { ValuesAreCalled N.answers }
    ensures starts { ValuesAreStarted N.answers }
{}
