//! Laws of machines that run alike. This call does nothing: its clauses are laws.
ghost use Rattle.code_frames.specs.Laws.{AlikeAreAllowed, AlikeAreReached, AlikeStarts, AlikeSteps};

use op_model::Meaning;

/// Machines that run alike begin alike, have the same steps, reach the same states in as many steps by the same picks, and have the same
/// outcomes, whatever the calls of the library come to.
pub fn machines_that_run_alike<N: Meaning>()
    ensures starts { AlikeStarts }
    ensures steps { AlikeSteps N.answers }
    ensures states { AlikeAreReached N.answers }
    ensures outcomes { AlikeAreAllowed N.answers }
{}
