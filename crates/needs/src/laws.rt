//! The laws of needs. These calls do nothing: their clauses are laws.
ghost use Rattle.needs.specs.Agreement.{NeedsAgree};
ghost use Rattle.needs.specs.Laws.{MetInTurn, RefusedByFirst, RunsBoth, RunsNothing, RunsOne, RunsOut, RunsStopped};

/// Needs of one kind, over states of one kind.
pub trait Needs {
    ghost use Rattle.checks.specs.Checks.{Check};

    /// What needs read and change.
    ghost State: { Type 0 };

    ghost Need: { Type 0 };

    /// What it means that a need is met.
    ghost meets: { Need → Check State (Unit {0}) };

    /// Which states correspond, where two runs are compared.
    ghost twins: { State → State → Type 0 };
}

/// All needs are met exactly where each in turn is, and they are refused exactly with the fault of the first that is.
pub fn needs_are_met_in_turn<N: Needs>()
    ensures met { MetInTurn N.meets }
    ensures refused { RefusedByFirst N.meets }
{}

/// A run of needs is put together of runs of its parts, in order; what has stopped stays as it is.
pub fn runs_are_put_together<N: Needs>()
    ensures nothing { RunsNothing N.meets }
    ensures one { RunsOne N.meets }
    ensures both { RunsBoth N.meets }
    ensures stopped { RunsStopped N.meets }
    ensures out { RunsOut N.meets }
{}

/// From states that correspond two runs of the same needs agree, where two runs of each need do.
pub fn needs_agree<N: Needs>()
    ensures { NeedsAgree N.twins N.meets }
{}
