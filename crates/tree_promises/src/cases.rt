//! Worked cases of the definitions. This call does nothing: its clauses are the cases.
ghost use Rattle.tree_promises.specs.Cases.{BreaksStandInLoops, CallsHaveTheirArguments, NarrowedIsKnown, NilIsNoText, NilIsReturned, ReachedEndsAreSaid, TestsNarrow, TestsOfCopiesNarrow, TextsAreTexts, UnsetIsNotRead};

/// What the definitions come to on small trees, as it was reasoned out by hand: what passes, and what doesn't.
pub fn definitions_come_to_cases()
    ensures texts_are_texts { TextsAreTexts }
    ensures nil_is_no_text { NilIsNoText }
    ensures calls_have_their_arguments { CallsHaveTheirArguments }
    ensures breaks_stand_in_loops { BreaksStandInLoops }
    ensures narrowed_is_known { NarrowedIsKnown }
    ensures unset_is_not_read { UnsetIsNotRead }
    ensures tests_narrow { TestsNarrow }
    ensures tests_of_copies_narrow { TestsOfCopiesNarrow }
    ensures reached_ends_are_said { ReachedEndsAreSaid }
    ensures nil_is_returned { NilIsReturned }
{}
