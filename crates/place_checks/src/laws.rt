//! Laws of places that stand. These calls do nothing: their clauses are laws.
ghost use Rattle.place_checks.specs.Laws.{FirstIsOne, NeedsDecideStanding, NeedsTellPlaces, NoneIsFirst, ShownIsFallen};

use code_needs::needs_decide_places;

/// A place stands exactly where its numbers pass and each of its needs is met; what shows that one doesn't can't be shown of one
/// that does. Where its other numbers pass, what is told of its needs is told of the whole place.
pub fn needs_decide_standing()
    ensures decide { NeedsDecideStanding }
    ensures told { NeedsTellPlaces }
    ensures fallen { ShownIsFallen }
{
    needs_decide_places();
}

/// Where all places of a unit stand, none is the first that doesn't, and only one is.
pub fn only_one_is_first()
    ensures no_one { NoneIsFirst }
    ensures one { FirstIsOne }
{
    needs_decide_standing();
}
