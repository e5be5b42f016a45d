//! Laws of code. These calls do nothing: their clauses are laws.
ghost use Rattle.stack_code.specs.Laws.{CodeStepsOnce, CodeRunsOnce, CallsStandAtNumbers, NoneBreaks};
ghost use Rattle.stack_code.specs.Worked.{LandingIsRefused, ReturnIsRefused, TrappedWorkersAreRefused, WorkedIsWellTyped, WorkerStands, WrongCrewIsRefused};

use op_model::Meaning;

/// A state of code has at most one next one, and by an order at most one run, where the natives come to one thing.
pub fn code_has_one_next_state<N: Meaning>()
    ensures steps { CodeStepsOnce N.answers }
    ensures runs { CodeRunsOnce N.answers }
{}

/// Each call of the library stands in the table at its number.
pub fn calls_stand_at_numbers()
    ensures { CallsStandAtNumbers }
{}

/// In well-typed code no place is the first that breaks a rule.
pub fn well_typed_code_breaks_nowhere()
    ensures { NoneBreaks }
{}

/// The smallest code with a named worker and a message is well typed. So the worker's entry holds, with a number for each
/// worker of its function.
pub fn a_worker_stands()
    ensures whole { WorkedIsWellTyped }
    ensures entry { WorkerStands }
{}

/// Codes that break a rule are refused: numbers of another crew, a trap round the start of workers, a landing without its
/// error, a return above its unit's result.
pub fn wrong_codes_are_refused()
    ensures crew { WrongCrewIsRefused }
    ensures workers { TrappedWorkersAreRefused }
    ensures landing { LandingIsRefused }
    ensures result { ReturnIsRefused }
{}
