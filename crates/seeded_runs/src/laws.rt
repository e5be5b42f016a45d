//! Laws of runs by a seed. These calls do nothing: their clauses are laws.
ghost use Rattle.seeded_runs.specs.Laws.{FollowersReachAlike, FollowersRunAlike};

use machine_model::Followed;
use op_model::Meaning;

/// Where each frame of the first machine is followed by one of the second and comes to what it asks, each state that the second
/// machine reaches by some picks has one of the first beside it that is reached by the same picks; so what comes of a run of
/// the second machine, by the picks of a seed, comes of a run of the first, and so does what was written of it.
pub fn followers_run_alike<N: Meaning, P: Followed>()
    ensures reached { FollowersReachAlike N.answers P.first P.second P.follows P.fine }
    ensures runs { FollowersRunAlike N.answers P.first P.second P.follows P.fine }
{}
