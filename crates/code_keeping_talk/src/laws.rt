//! Laws of steps that speak to workers, wait or end. These calls do nothing: their clauses are laws.
ghost use Rattle.code_keeping_talk.specs.Laws.{BlockingKeeps, ClosingKeeps, ContinuingKeeps, EndingKeeps, LaterFollows, PickingKeeps, ReceivesAreDone, WhatHeldHolds};

use op_model::Meaning;

/// What comes later than something that comes later comes later.
pub fn later_follows()
    ensures { LaterFollows }
{}

/// What held of frames, of results and errors, and of strands holds later.
pub fn what_held_holds()
    ensures { WhatHeldHolds }
{}

/// A ready strand is picked, a panic ends a worker, the running strand ends, or strand 0 begins its next unit: what is
/// shared stays good.
pub fn strands_keep()
    ensures picks { PickingKeeps }
    ensures closes { ClosingKeeps }
    ensures ends { EndingKeeps }
    ensures continues { ContinuingKeeps }
{}

/// Where the running strand blocks for something that is there and not met, all that is shared is good.
pub fn blocking_keeps()
    ensures { BlockingKeeps }
{}

/// What a frame of well-typed code asks for fits, whatever comes, and something comes, where a message is received, or it
/// waits until its messages are.
pub fn receives_are_done<N: Meaning>()
    ensures { ReceivesAreDone N.answers }
{}
