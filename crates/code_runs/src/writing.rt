//! A run on its way, and what of its output is written.
#![tactic(auto)]

ghost use Rattle.std.specs.Prelude.{◌≡◌, [], IfOk, List, OnErr, OnOk, drop, length, ℕ};
ghost use Rattle.bal_base.specs.declared.text.Text.{Text as TextOf};
ghost use Rattle.bal_io.specs.Content.{Appends, AppendsFront, Told};
ghost use Rattle.bal_io.specs.Faults.{CountsFaults};
ghost use Rattle.fast_code.specs.Entries.{AreMade};
ghost use Rattle.op_model.specs.Library.{LibraryAnswers};
ghost use Rattle.code_frames.specs.Programs.{command_at, machine_of};
ghost use Rattle.plain_run.specs.Held.{common_of};
ghost use Rattle.seeded_runs.specs.Runs.{IsCut};
ghost use Rattle.code_runs.specs.inner.Turns.{AppendsBehind, HasCome, IsHalted, IsTurned, output_in, turned_of};

use crate::hurry::Made;
use crate::turns::{Run, Turned, turn};
use bal_base::{Failed, Stop};
use bal_io::Sink;
use code_steps::Halt;
use plain_run::Common;
use std::alloc::Global;

/// Writes the output behind its first so many bytes, in one call where there is any, and answers what is handed on.
fn write_behind<O: Sink>(
    common: &Common,
    written: usize,
    out: &mut O,
    halt: Option<Halt>,
) -> Result<Option<Halt>, Stop<Failed>>
    ensures faults { CountsFaults (O.faults out.old) (O.faults out.new) result }
    ensures same { IfOk result (λ h. h ≡ halt) }
    ensures ok { OnOk result (Told (Appends (drop written (common_of common.now).world.output)) (O.written out.old) (O.written out.new)) }
    ensures err { OnErr result (Told (AppendsFront (drop written (common_of common.now).world.output)) (O.written out.old) (O.written out.new)) }
{
    let output = common.world.output.as_slice();
    let done = written >= output.len();
    if done {
        return Ok(halt);
    }
    match out.write(&output[written..]) {
        Ok(()) => Ok(halt),
        Err(stop) => Err(stop),
    }
}

/// The next turn, and the output that it gained is written: whether the run halts there. Nothing is written where the run is not
/// followed any further.
fn advance<'a, O: Sink>(
    alloc: Global,
    made: &Made<'a>,
    seed: u64,
    run: &mut Run,
    written: usize,
    out: &mut O,
) -> Result<Option<Halt>, Stop<Failed>>
    requires made { AreMade (command_at made.now.program.steps.items) made.now.entries.items }
    ensures faults { CountsFaults (O.faults out.old) (O.faults out.new) result }
    ensures on { IfOk result (λ h. (words : List TextOf) (input : List ℕ) (ticks : ℕ) → HasCome (machine_of made.now.program) words input ticks seed run.old → IsTurned (machine_of made.now.program) words input ticks seed (output_in run.old) run.new (turned_of h)) }
    ensures ok { OnOk result (Told (Appends (drop written (output_in run.new))) (O.written out.old) (O.written out.new)) }
    ensures err { OnErr result ((words : List TextOf) (input : List ℕ) (ticks : ℕ) → HasCome (machine_of made.now.program) words input ticks seed run.old → written ≡ length (output_in run.old) → Told (AppendsBehind (machine_of made.now.program) words input ticks seed (output_in run.old)) (O.written out.old) (O.written out.new)) }
{
    match turn(alloc, made, seed, run) {
        Err(_) => Err(Stop::Memory),
        Ok(Turned::Breaks(_)) => Err(Stop::Memory),
        Ok(Turned::GoesOn) => write_behind(&run.state.common, written, out, None),
        Ok(Turned::Halts(how)) => write_behind(&run.state.common, written, out, Some(how)),
    }
}

/// The run up to where it halts. What a step prints is written behind it, in one call. A
/// run that is not followed to where it halts is answered with want of memory: where the next step begins a unit that isn't there
/// or is none, where it isn't told what it comes to, and where no number counts the picks or the turns any more.
pub(crate) fn follow<'a, O: Sink>(
    alloc: Global,
    made: &Made<'a>,
    seed: u64,
    run: &mut Run,
    out: &mut O,
) -> Result<Halt, Stop<Failed>>
    requires made { AreMade (command_at made.now.program.steps.items) made.now.entries.items }
    ensures faults { CountsFaults (O.faults out.old) (O.faults out.new) result }
    ensures halts { IfOk result (λ how. (words : List TextOf) (input : List ℕ) (ticks : ℕ) → HasCome (machine_of made.now.program) words input ticks seed run.old → output_in run.old ≡ [] → IsHalted (machine_of made.now.program) words input ticks seed how (common_of run.new.state.common)) }
    ensures written { IfOk result (λ how. (words : List TextOf) (input : List ℕ) (ticks : ℕ) → HasCome (machine_of made.now.program) words input ticks seed run.old → output_in run.old ≡ [] → Told (Appends (output_in run.new)) (O.written out.old) (O.written out.new)) }
    ensures cut { OnErr result ((words : List TextOf) (input : List ℕ) (ticks : ℕ) → HasCome (machine_of made.now.program) words input ticks seed run.old → output_in run.old ≡ [] → IsCut LibraryAnswers (machine_of made.now.program) words input ticks seed (O.written out.old) (O.written out.new)) }
{
    let mut written = 0;
    for _ in 0..u64::MAX {
        match advance(alloc, made, seed, run, written, out) {
            Ok(None) => written = run.state.common.world.output.len(),
            Ok(Some(how)) => return Ok(how),
            Err(stop) => return Err(stop),
        }
    }
    Err(Stop::Memory)
}
