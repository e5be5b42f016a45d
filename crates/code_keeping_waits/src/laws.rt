//! Laws of steps that wait. These calls do nothing: their clauses are laws.
ghost use Rattle.code_keeping_waits.specs.Laws.{AlternateWaitsAreDone, MultipleWaitsAreDone, SingleWaitsAreDone};

use op_model::Meaning;

/// What a frame of well-typed code asks for fits, whatever comes, and something comes, where a worker or a future is waited for:
/// what it gives, its panic, or, of a future whose result was taken, an error. And so with one of several, and
/// with several whose results are given as a mapping.
pub fn waits_are_done<N: Meaning>()
    ensures single { SingleWaitsAreDone N.answers }
    ensures alternate { AlternateWaitsAreDone N.answers }
    ensures multiple { MultipleWaitsAreDone N.answers }
{}
