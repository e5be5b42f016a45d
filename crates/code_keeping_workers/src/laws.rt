//! Laws of steps that start named workers. These calls do nothing: their clauses are laws.
ghost use Rattle.code_keeping_workers.specs.Laws.{WorkersAreStarted};

use op_model::Meaning;

/// What a frame of well-typed code asks for fits, whatever comes, and something comes, where its function's named workers are
/// started: a strand for each begins it with what it captures, and the frame goes on as the default worker.
pub fn workers_are_started<N: Meaning>()
    ensures { WorkersAreStarted N.answers }
{}
