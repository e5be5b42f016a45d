//! Laws of workers that wait. These calls do nothing: their clauses are laws.
ghost use Rattle.worker_waits.specs.Laws.{BranchKeepsEvents, EndsAll, EvalKeepsEvents, ExecKeepsEvents, MarksAreShown, PlannedNeverRing, RingsNever, SilenceShowsNothing, TurnKeepsEvents};

use machine_model::AnyMachine;
use op_model::Meaning;
use type_model::Types;

/// Where the workers of an activation stand among events that are paired and numbered, no workers of it wait for one another.
pub fn workers_in_no_ring<M: AnyMachine>()
    ensures { RingsNever M.machine }
{}

/// Where only workers were started, and none wait for one another, all strands have ended when none is ready.
pub fn workers_end_all<M: AnyMachine>()
    ensures { EndsAll M.machine }
{}

/// What is left to be made stays the same, where an expression is taken apart.
pub fn expressions_keep_events()
    ensures keeps { EvalKeepsEvents }
    ensures silent { SilenceShowsNothing }
{}

/// And so it does where statements are taken apart, loops go on, and choices are made; a frame that leaves a loop outside of any
/// has nothing left to do.
pub fn statements_keep_events()
    ensures statements { ExecKeepsEvents }
    ensures choices { BranchKeepsEvents }
    ensures turns { TurnKeepsEvents }
{}

/// The events that pairing sees in expressions and statements are just those that are made on the way through them.
pub fn marks_are_shown()
    ensures { MarksAreShown }
{}

/// In a package in which each function has a plan no workers of an activation wait for one another in a ring, at no time of any
/// run, nor does any set of them in which each waits for another one; also where workers have ended early, with an error or a panic.
pub fn planned_workers_never_ring<T: Types, N: Meaning>()
    ensures { PlannedNeverRing T.passes N.answers }
{}
