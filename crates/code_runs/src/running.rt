//! Whole runs.
#![tactic(auto)]

ghost use Rattle.std.specs.Prelude.{◌≡◌, [], IfOk, List, OnErr, Some, ℕ};
ghost use Rattle.bal_base.specs.declared.text.Text.{Text as TextOf};
ghost use Rattle.bal_io.specs.Faults.{CountsFaults};
ghost use Rattle.op_model.specs.Library.{LibraryAnswers};
ghost use Rattle.fast_code.specs.Entries.{AreMade};
ghost use Rattle.plain_run.specs.Held.{common_of};
ghost use Rattle.code_steps.specs.Ended.{IsOutcome, outcome_of, stop_of};
ghost use Rattle.code_frames.specs.Programs.{command_at, machine_of};
ghost use Rattle.seeded_runs.specs.Runs.{IsCut, RunsTo};
ghost use Rattle.code_runs.specs.inner.Turns.{HasCome, output_in};

use crate::hurry::Made;
use crate::turns::Run;
use crate::writing::follow;
use bal_base::{Failed, Stop, Text};
use bal_io::Sink;
use code_frames::Program;
use code_steps::{Halt, Outcome, start, what_comes};
use fast_code::make;
use plain_run::Common;
use std::alloc::Global;

/// What a run is given.
#[derive(Clone, Copy)]
pub struct Given<'a> {
    /// The words that are passed to `main`, where it takes some.
    pub words: &'a [Text],
    /// All the input that can be read.
    pub input: &'a [u8],
    /// How many ticks may be spent.
    pub ticks: u64,
    /// By which the strands that run are picked.
    pub seed: u64,
}

/// What comes of a run that halts so.
fn outcome(alloc: Global, ticks: u64, how: Halt, common: &Common) -> Result<Outcome, Stop<Failed>>
    ensures comes { IfOk result (λ o. IsOutcome ticks (stop_of how) (common_of common.now) (Some o)) }
    ensures faults { (n : ℕ) → CountsFaults n n result }
{
    match what_comes(alloc, ticks, how, common) {
        Err(_) | Ok(None) => Err(Stop::Memory),
        Ok(Some(outcome)) => Ok(outcome),
    }
}

/// The run from its first state on.
fn run_on<'a, O: Sink>(
    alloc: Global,
    made: &Made<'a>,
    ticks: u64,
    seed: u64,
    begun: &mut Run,
    out: &mut O,
) -> Result<Outcome, Stop<Failed>>
    requires made { AreMade (command_at made.now.program.steps.items) made.now.entries.items }
    ensures faults { CountsFaults (O.faults out.old) (O.faults out.new) result }
    ensures comes { IfOk result (λ o. (words : List TextOf) (input : List ℕ) → HasCome (machine_of made.now.program) words input ticks seed begun.old → output_in begun.old ≡ [] → RunsTo LibraryAnswers (machine_of made.now.program) words input ticks seed (outcome_of o) (O.written out.old) (O.written out.new)) }
    ensures cut { OnErr result ((words : List TextOf) (input : List ℕ) → HasCome (machine_of made.now.program) words input ticks seed begun.old → output_in begun.old ≡ [] → IsCut LibraryAnswers (machine_of made.now.program) words input ticks seed (O.written out.old) (O.written out.new)) }
{
    match follow(alloc, made, seed, begun, out) {
        Err(stop) => Err(stop),
        Ok(how) => outcome(alloc, ticks, how, &begun.state.common),
    }
}

/// The run of a program: what comes of it, by the picks that the seed names. Its output is written as it comes, and all of it is written
/// where an outcome is answered; nothing is written after a call that did not succeed, which is answered with `Failed`. It
/// answers want of memory also where the run is not followed to its end: where there is no unit to begin with or to call, where
/// the next step is none or isn't told, where `main` returned what is neither nil nor an error, and where the picks can't be counted any
/// more. What can be done at once is done so (`fast_code`), and each other step costs by its operands; the whole output is kept.
pub fn run<'a, O: Sink>(
    alloc: Global,
    program: Program<'a>,
    given: Given<'_>,
    out: &mut O,
) -> Result<Outcome, Stop<Failed>>
    ensures faults { CountsFaults (O.faults out.old) (O.faults out.new) result }
    ensures comes { IfOk result (λ o. RunsTo LibraryAnswers (machine_of program.entry) given.entry.words.now given.entry.input.now given.entry.ticks given.entry.seed (outcome_of o) (O.written out.old) (O.written out.new)) }
    ensures cut { OnErr result (IsCut LibraryAnswers (machine_of program.entry) given.entry.words.now given.entry.input.now given.entry.ticks given.entry.seed (O.written out.old) (O.written out.new)) }
{
    match make(alloc, &program) {
        Err(_) => Err(Stop::Memory),
        Ok(entries) => run_made(alloc, Made { program, entries }, given, out),
    }
}

/// The same, with what can be done at once.
fn run_made<'a, O: Sink>(
    alloc: Global,
    made: Made<'a>,
    given: Given<'_>,
    out: &mut O,
) -> Result<Outcome, Stop<Failed>>
    requires made { AreMade (command_at made.program.steps.items) made.entries.items }
    ensures faults { CountsFaults (O.faults out.old) (O.faults out.new) result }
    ensures comes { IfOk result (λ o. RunsTo LibraryAnswers (machine_of made.entry.program) given.entry.words.now given.entry.input.now given.entry.ticks given.entry.seed (outcome_of o) (O.written out.old) (O.written out.new)) }
    ensures cut { OnErr result (IsCut LibraryAnswers (machine_of made.entry.program) given.entry.words.now given.entry.input.now given.entry.ticks given.entry.seed (O.written out.old) (O.written out.new)) }
{
    match start(alloc, &made.program, given.words, given.input, given.ticks) {
        Err(_) | Ok(None) => Err(Stop::Memory),
        Ok(Some(state)) => {
            let mut begun = Run {
                state,
                running: false,
                turn: 0,
            };
            run_on(alloc, &made, given.ticks, given.seed, &mut begun, out)
        }
    }
}
