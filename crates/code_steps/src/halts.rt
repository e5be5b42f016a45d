//! Why runs stop.

use bal_base::LimitKind;

/// Why the machine does not go on.
#[derive(Clone, Copy)]
pub enum Halt {
    /// No strand is ready.
    Over,
    /// The next step needs a tick, and none is left.
    TicksSpent,
    /// The next step would pass a limit.
    PastLimit(LimitKind),
}

/// Why a run is not followed any further, where the machine says nothing of its end.
#[derive(Clone, Copy)]
pub enum Short {
    /// The order has no place left, or names none of the ready list.
    NoPlace,
    /// No number counts the picks any more.
    TooManyPicks,
    /// The next step begins a unit that isn't there.
    NoUnit,
    /// The next step is none.
    Stuck,
    /// What the next operation comes to is not told.
    Undecided,
    /// All the steps that it may make were made.
    PastSteps,
}
