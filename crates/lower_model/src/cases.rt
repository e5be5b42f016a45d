//! Worked cases of the definitions. This call does nothing: its clauses are the cases.
ghost use Rattle.lower_model.specs.Cases.{OwnReachIsRefused, TrapIsMade, TrapStands};

/// What the definitions come to on small trees, as it was reasoned out by hand.
pub fn definitions_come_to_cases()
    ensures trap_is_made { TrapIsMade }
    ensures trap_stands { TrapStands }
    ensures own_reach { OwnReachIsRefused }
{}
