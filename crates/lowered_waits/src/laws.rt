//! Laws of workers of code. These calls do nothing: their clauses are laws.
ghost use Rattle.lowered_waits.specs.Laws.{LoweredHolds, LoweredNeverRings};

use op_model::Meaning;
use type_model::Types;

/// In code that is lowered from a package in which each function has a plan, and whose narrowed variables hold values of their
/// narrower types, no workers of an activation wait for one another in a ring, at no time of any run; and what holds of the strands
/// of machines holds of each state that it reaches.
pub fn lowered_code_never_rings<T: Types, N: Meaning>()
    ensures rings { LoweredNeverRings T.passes N.answers }
    ensures strands { LoweredHolds T.passes N.answers }
{}
