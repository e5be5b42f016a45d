//! Laws of steps that start strands. These calls do nothing: their clauses are laws.
ghost use Rattle.code_keeping_starts.specs.Laws.{StartsAreDone};

use op_model::Meaning;

/// What a frame of well-typed code asks for fits, whatever comes, and something comes, where a unit is started: the strand that is
/// made begins it with arguments that fit, and what is given is a future of its result.
pub fn starts_are_done<N: Meaning>()
    ensures { StartsAreDone N.answers }
{}
