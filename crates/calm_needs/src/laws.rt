//! Laws of what needs keep. These calls do nothing: their clauses are laws.
ghost use Rattle.calm_needs.specs.Calm.{AllNeedsAreCalm};
ghost use Rattle.calm_needs.specs.Staying.{AllWaysStayOn};

use type_model::Types;

/// Where a need of an expression or of an action is met, the units of the anonymous functions in the parts are the same, in the same order, and the variables that are
/// seen, and those of which a condition says something, are in slots of their declared types where they were; and where ways are entered and left by conditions, what
/// is known there is so too. Of the needs of anonymous functions, which open a unit and end it, nothing is said.
pub fn needs_are_calm<T: Types>()
    ensures { AllNeedsAreCalm T.passes }
{}

/// Where ways are entered and left by conditions, each unit goes on and the units in the parts are the same, whatever is known of variables: so what is known of the end
/// of a run is known before they are.
pub fn ways_stay_on<T: Types>()
    ensures { AllWaysStayOn T.passes }
{}
