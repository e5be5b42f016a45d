//! Laws of steps that send messages. These calls do nothing: their clauses are laws.
ghost use Rattle.code_keeping_sends.specs.Laws.{SendsAreDone};

use op_model::Meaning;

/// What a frame of well-typed code asks for fits, whatever comes, and something comes, where a message is sent: each mutable
/// structure that it reaches is copied, and the copy fits where the value fits.
pub fn sends_are_done<N: Meaning>()
    ensures { SendsAreDone N.answers }
{}
