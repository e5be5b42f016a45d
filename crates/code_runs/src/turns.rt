//! A run on its way: picks by a seed, and the steps of the strands that are picked.
#![tactic(auto, using(crate::proofs::Turning::turning))]

ghost use Rattle.std.specs.Prelude.{◌≡◌, ◌<◌, IfOk, List, length, true, false, ℕ};
ghost use Rattle.bal_base.specs.declared.text.Text.{Text as TextOf};
ghost use Rattle.plain_run.specs.Held.{common_of};
ghost use Rattle.code_frames.specs.Programs.{command_at, machine_of};
ghost use Rattle.code_frames.specs.declared.held.Program.{Program as ProgramOf};
ghost use Rattle.seeded_runs.specs.Seeds.{place_named};
ghost use Rattle.fast_code.specs.Entries.{AreMade};
ghost use Rattle.code_runs.specs.inner.Turns.{HasCome, IsPlace, IsTurned, output_in, runs_on as runs_on_of, turned_by};

use crate::hurry::{Made, hurry};
use bal_base::Memory;
use code_steps::{Halt, Next, Picked, Short, State, Stepped, pick, step};
use plain_run::Common;
use std::alloc::Global;

/// A run on its way.
#[derive(Drop)]
pub(crate) struct Run {
    pub(crate) state: State,
    /// Whether a strand runs.
    pub(crate) running: bool,
    /// How many picks were made.
    pub(crate) turn: u64,
}

/// What a turn came to.
#[derive(Clone, Copy)]
pub(crate) enum Turned {
    GoesOn,
    /// The machine does not go on.
    Halts(Halt),
    /// The run is not followed any further.
    Breaks(Short),
}

/// The place of a ready list that a seed names at a turn, of so many places: the first one by seed 0, and else one that goes round
/// with the turns.
pub fn place_by(seed: u64, turn: u64, count: u64) -> u64
    requires some { 0 < count }
    ensures named { result ≡ place_named seed turn count }
    ensures there { result < count }
{
    if seed == 0 {
        return 0;
    }
    let sum = (turn % count) as u128 + (seed % count) as u128;
    (sum % count as u128) as u64
}

/// The place that is picked, where a strand is ready.
fn place_in(common: &Common, seed: u64, turn: u64) -> Option<u64>
    ensures { IsPlace seed turn (common_of common.now).ready result }
{
    let count = common.ready.len() as u64;
    if count == 0 {
        return None;
    }
    Some(place_by(seed, turn, count))
}

/// Whether the strand runs on behind the step.
fn runs_on(stepped: &Stepped) -> bool
    ensures { result ≡ runs_on_of stepped.now }
{
    match stepped {
        Stepped::Did(next) => matches!(next, Next::Moved),
        Stepped::NeedsTick | Stepped::Limit(_) => true,
        Stepped::NoUnit | Stepped::Stuck | Stepped::Undecided => true,
    }
}

/// What the step says of the run.
fn said_by(stepped: Stepped) -> Turned
    ensures { result ≡ turned_by stepped }
{
    match stepped {
        Stepped::Did(_) => Turned::GoesOn,
        Stepped::NeedsTick => Turned::Halts(Halt::TicksSpent),
        Stepped::Limit(limit) => Turned::Halts(Halt::PastLimit(limit)),
        Stepped::NoUnit => Turned::Breaks(Short::NoUnit),
        Stepped::Stuck => Turned::Breaks(Short::Stuck),
        Stepped::Undecided => Turned::Breaks(Short::Undecided),
    }
}

/// The running strand goes on as far as that can be done at once, and then makes a step.
fn step_turn<'a>(alloc: Global, made: &Made<'a>, run: &mut Run) -> Result<Turned, Memory>
    requires made { AreMade (command_at made.now.program.steps.items) made.now.entries.items }
    requires running { run.old.running ≡ true }
    ensures { IfOk result (λ t. (words : List TextOf) (input : List ℕ) (ticks seed : ℕ) → HasCome (machine_of made.now.program) words input ticks seed run.old → IsTurned (machine_of made.now.program) words input ticks seed (output_in run.old) run.new t) }
{
    hurry(alloc, made, &mut run.state)?;
    let stepped = step(alloc, &made.program, &mut run.state)?;
    run.running = runs_on(&stepped);
    Ok(said_by(stepped))
}

/// The strand at this place of the ready list runs.
fn pick_by(alloc: Global, place: u64, run: &mut Run) -> Turned
    ensures { (p : ProgramOf) (words : List TextOf) (input : List ℕ) (ticks seed : ℕ) → run.old.running ≡ false → place ≡ place_named seed run.old.turn (length (common_of run.old.state.common).ready) → HasCome (machine_of p) words input ticks seed run.old → IsTurned (machine_of p) words input ticks seed (output_in run.old) run.new result }
{
    if run.turn == u64::MAX {
        return Turned::Breaks(Short::TooManyPicks);
    }
    match pick(alloc, place, &mut run.state) {
        Picked::Runs => {
            run.running = true;
            run.turn += 1;
            Turned::GoesOn
        }
        Picked::NoPlace => Turned::Breaks(Short::NoPlace),
        Picked::TooMany => Turned::Breaks(Short::TooManyPicks),
    }
}

/// A pick, where a strand is ready.
fn pick_turn(alloc: Global, seed: u64, run: &mut Run) -> Turned
    requires { run.old.running ≡ false }
    ensures { (p : ProgramOf) (words : List TextOf) (input : List ℕ) (ticks : ℕ) → HasCome (machine_of p) words input ticks seed run.old → IsTurned (machine_of p) words input ticks seed (output_in run.old) run.new result }
{
    match place_in(&run.state.common, seed, run.turn) {
        None => Turned::Halts(Halt::Over),
        Some(place) => pick_by(alloc, place, run),
    }
}

/// A step, or a pick where no strand runs.
pub(crate) fn turn<'a>(
    alloc: Global,
    made: &Made<'a>,
    seed: u64,
    run: &mut Run,
) -> Result<Turned, Memory>
    requires made { AreMade (command_at made.now.program.steps.items) made.now.entries.items }
    ensures { IfOk result (λ t. (words : List TextOf) (input : List ℕ) (ticks : ℕ) → HasCome (machine_of made.now.program) words input ticks seed run.old → IsTurned (machine_of made.now.program) words input ticks seed (output_in run.old) run.new t) }
{
    if run.running {
        return step_turn(alloc, made, run);
    }
    Ok(pick_turn(alloc, seed, run))
}
