//! Laws of runs of code. These calls do nothing: their clauses are laws.
ghost use Rattle.code_runs.specs.Alike.{ProgramsRunAlike};

use op_model::Meaning;

/// What comes of runs of the machine of a program, by the picks of a seed, comes of runs of the machine of the code that it is made
/// of.
pub fn programs_run_alike<N: Meaning>()
    ensures { ProgramsRunAlike N.answers }
{}
