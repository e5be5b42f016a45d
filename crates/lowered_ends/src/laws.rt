//! Laws of packages that don't wait for ever. These calls do nothing: their clauses are laws.
ghost use Rattle.lowered_ends.specs.Laws.{KeptAllEnd, KeptHasNoStalls, KeptNeverRings, KeptNeverStalls};

use lowered_waits::lowered_code_never_rings;
use op_model::Meaning;
use type_model::Types;

/// In a package in which each function has a plan, and in its well-typed code, no workers of an activation wait for one another, at no
/// time of any run. And where it has no `start`, main has ended whenever no strand is ready, and so have all other strands: no run of it
/// stalls, for any words, input, order and number of ticks.
pub fn kept_packages_never_stall<T: Types, N: Meaning>()
    ensures rings { KeptNeverRings T.passes N.answers }
    ensures stalls { KeptNeverStalls T.passes N.answers }
    ensures ends { KeptAllEnd T.passes N.answers }
    ensures outcomes { KeptHasNoStalls T.passes N.answers }
{
    lowered_code_never_rings::<T, N>();
}
