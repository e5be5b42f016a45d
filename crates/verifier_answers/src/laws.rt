//! Laws of what is said of places. These calls do nothing: their clauses are laws.
ghost use Rattle.verifier_answers.specs.Laws.{PlacesDecide, ShownPlacesBreak, VerifiedIsNotBad};

use code_needs::{needs_decide_code, needs_decide_fields};

/// A place holds, with the fields at place 0, exactly where its numbers pass and each of its needs is met.
pub fn places_decide()
    ensures { PlacesDecide }
{
    needs_decide_code();
    needs_decide_fields();
}

/// Where all places before one hold, and what is shown of this one shows that it breaks a rule, it is the first that does. It
/// can't be shown of a place that holds.
pub fn shown_places_break()
    ensures { ShownPlacesBreak }
{
    places_decide();
}

/// Code that is verified has no bad place, whichever shape is to show it.
pub fn verified_is_not_bad()
    ensures { VerifiedIsNotBad }
{
    shown_places_break();
}
