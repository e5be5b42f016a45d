//! Laws of output. These calls do nothing: their clauses are laws.
ghost use Rattle.op_model.specs.Library.{LibraryAnswers};
ghost use Rattle.output_growth.specs.Growth.{AnswersGrow, OutputGrows, ReachedGrows};

use machine_model::AnyMachine;
use op_model::Meaning;

/// What was written before a step is a first part of what was written behind it, and the output of a state that is reached is a
/// first part of that of whatever a run comes to from there, where no call of the natives takes output back.
pub fn output_only_grows<N: Meaning, M: AnyMachine>()
    ensures steps { OutputGrows N.answers M.machine }
    ensures runs { ReachedGrows N.answers M.machine }
{}

/// No call of the library takes output back.
pub fn the_library_only_writes()
    ensures { AnswersGrow LibraryAnswers }
{}
