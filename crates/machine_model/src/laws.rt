//! Laws of machines. These calls do nothing: their clauses are laws.
ghost use Rattle.machine_model.specs.Machine.{Machine};
ghost use Rattle.machine_model.specs.Laws.{StepsOnce, RunsOnce, FollowersDoTheSame, KeptHolds, KeepsAlong, SoundFollowersAreFine, SoundFollowersDoTheSame};
ghost use Rattle.machine_model.specs.Matching.{ReachedFollow};
ghost use Rattle.machine_model.specs.Strands.{HoldOfStrands};
ghost use Rattle.machine_model.specs.Steps.{GoesAreSteps, StepsChain, StepsAreReached, StepsThenRuns};

use op_model::Meaning;

/// A machine.
pub trait AnyMachine {
    ghost use Rattle.machine_model.specs.Machine.{Machine};

    /// What its frames keep.
    ghost control: { Type 0 };

    ghost machine: { Machine control };
}

/// Two machines, of which the second follows the first.
pub trait Followed {
    ghost use Rattle.machine_model.specs.Machine.{Machine};
    ghost use Rattle.op_model.specs.Common.{Common};

    /// What frames of the first keep.
    ghost control: { Type 0 };

    ghost first: { Machine control };

    /// What frames of the second keep.
    ghost other_control: { Type 0 };

    ghost second: { Machine other_control };

    /// Which frames of the second follow which of the first.
    ghost follows: { control → other_control → Type 0 };

    /// What has to hold of a frame of the first, wherever it runs.
    ghost fine: { Common → control → Type 0 };
}

/// A machine, and what is to hold of its states.
pub trait Kept {
    ghost use Rattle.machine_model.specs.Machine.{Machine};
    ghost use Rattle.machine_model.specs.Keeping.{Invariant};

    /// What its frames keep.
    ghost control: { Type 0 };

    ghost machine: { Machine control };

    ghost invariant: { Invariant control };
}

/// Two machines, of which the second follows the first, what the second one keeps, and facts of the first one's frames that
/// ride on it.
pub trait FollowedAlong {
    ghost use Rattle.std.specs.Prelude.{ℕ};
    ghost use Rattle.machine_model.specs.Machine.{Machine, Frame};
    ghost use Rattle.machine_model.specs.Keeping.{Invariant};
    ghost use Rattle.op_model.specs.Common.{Common};

    /// What frames of the first keep.
    ghost control: { Type 0 };

    ghost first: { Machine control };

    /// What frames of the second keep.
    ghost other_control: { Type 0 };

    ghost second: { Machine other_control };

    /// Which frames of the second follow which of the first.
    ghost follows: { control → other_control → Type 0 };

    /// What has to hold of a frame of the first, wherever it runs.
    ghost fine: { Common → control → Type 0 };

    /// What the second keeps.
    ghost invariant: { Invariant other_control };

    /// What is to hold besides of a frame of the first that is about to go on.
    ghost flows: { Common → Frame control → Type 0 };

    /// What is to hold besides of a frame of the first that awaits the result of a unit.
    ghost flows_behind: { Common → Frame control → ℕ → Type 0 };
}

/// A state has at most one next one, and by an order at most one run, where the natives come to one thing.
pub fn states_have_one_next<N: Meaning, M: AnyMachine>()
    ensures steps { StepsOnce N.answers M.machine }
    ensures runs { RunsOnce N.answers M.machine }
{}

/// Machines whose frames answer alike have the same outcomes, and each state that the second reaches goes along with one that
/// the first reaches.
pub fn followers_do_the_same<N: Meaning, P: Followed>()
    ensures outcomes { FollowersDoTheSame N.answers P.first P.second P.follows P.fine }
    ensures reached { ReachedFollow N.answers P.first P.second P.follows P.fine }
{}

/// What single frames and what they share keep holds of each state that a machine reaches.
pub fn what_is_kept_holds<N: Meaning, K: Kept>()
    ensures { KeptHolds N.answers K.machine K.invariant }
{}

/// Facts of the first machine's frames that ride on what the second one keeps are kept. So these frames are as they have to be,
/// and both machines have the same outcomes.
pub fn sound_followers_do_the_same<N: Meaning, P: FollowedAlong>()
    ensures keeps { KeepsAlong N.answers P.first P.second P.follows P.fine P.invariant P.flows P.flows_behind }
    ensures fine { SoundFollowersAreFine N.answers P.first P.second P.follows P.fine P.invariant P.flows P.flows_behind }
    ensures outcomes { SoundFollowersDoTheSame N.answers P.first P.second P.follows P.fine P.invariant P.flows P.flows_behind }
{}

/// Counted steps of a frame are steps of its state; steps add up, and are part of runs.
pub fn steps_add_up<N: Meaning, M: AnyMachine>()
    ensures of_frames { GoesAreSteps N.answers M.machine }
    ensures chain { StepsChain N.answers M.machine }
    ensures reached { StepsAreReached N.answers M.machine }
    ensures runs { StepsThenRuns N.answers M.machine }
{}

/// What holds of strands, workers and the ready list holds of each state that a machine reaches, where a frame that is a worker
/// starts no workers and no alternate wait is for nothing.
pub fn strands_hold<N: Meaning, M: AnyMachine>()
    ensures { HoldOfStrands N.answers M.machine }
{}
