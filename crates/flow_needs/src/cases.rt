//! Worked cases of the definitions. This call does nothing: its clauses are the cases.
ghost use Rattle.flow_needs.specs.Cases.{EndedWaysAreNotNarrower, KnownSlotsAreNotFree, NothingIsReached, SharedSlotsAreRefused, VariablesAreInSlots};

/// What the definitions come to in small cases, as it was reasoned out by hand: what is so, and what isn't.
pub fn definitions_come_to_cases()
    ensures variables_are_in_slots { VariablesAreInSlots }
    ensures nothing_is_reached { NothingIsReached }
    ensures shared_slots_are_refused { SharedSlotsAreRefused }
    ensures known_slots_are_not_free { KnownSlotsAreNotFree }
    ensures ended_ways_are_not_narrower { EndedWaysAreNotNarrower }
{}
