//! Worked cases of the definitions. This call does nothing: its clauses are the cases.
ghost use Rattle.lowered_ends.specs.Cases.{CallsStartNothing, DefaultIsNotAwaited, EndsStartNothing, StartsAreSeen, WaitsAreForNamed};

/// Which constructs start something, as it was reasoned out by hand: a `start` does, and a call and an end don't; and that a wait for the
/// default worker is none for a named one.
pub fn definitions_come_to_cases()
    ensures starts_are_seen { StartsAreSeen }
    ensures calls_start_nothing { CallsStartNothing }
    ensures ends_start_nothing { EndsStartNothing }
    ensures waits_are_for_named { WaitsAreForNamed }
    ensures default_is_not_awaited { DefaultIsNotAwaited }
{}
