//! Worked cases of the definitions. This call does nothing: its clauses are the cases.
ghost use Rattle.eval_model.specs.Cases.{CapturesWhatIsNarrowed, NeverAtItsEnd, ReturnsAtItsEnd, SetsAfterItsValue};

/// What the definitions come to on small trees, as it was reasoned out by hand.
pub fn definitions_come_to_cases()
    ensures returns_at_its_end { ReturnsAtItsEnd }
    ensures never_at_its_end { NeverAtItsEnd }
    ensures sets_after_its_value { SetsAfterItsValue }
    ensures captures_what_is_narrowed { CapturesWhatIsNarrowed }
{}
