//! Running what was compiled, against the input and the output.
ghost use Rattle.std.specs.Prelude.{◌≡◌, IfOk, Ok, Some};
ghost use Rattle.machine_model.specs.Runs.{AreWords};
ghost use Rattle.input_calls.specs.Calls.{CallsReadln};
ghost use Rattle.status_texts.specs.Outside.{IsAsBefore, sink_tells, source_tells};
ghost use Rattle.folder_programs.specs.Runs.{sides, IsStalledBy, IsStatusOf, IsLargeOr, IsRunOf, IsStatusOfStop, RunEnded};
ghost use Rattle.status_texts.specs.Report.{CanReport};
ghost use Rattle.code_steps.specs.Ended.{ending_of};

use crate::compiling::{Built, Ready};
use crate::refusing::{fault_of, unplaced};
use bal_base::{FaultCode, Memory, Ring, Stop};
use bal_io::{Sink, Source};
use bal_tree::Package;
use code_steps::{Ending, Outcome};
use package_runs::{Bounds, RunFault, run_accepted};
use status_texts::{Run, Status};
use std::alloc::Global;

/// Runs the program that was compiled, by these words for its `main`, so many ticks and this seed. The status is the one that is due of
/// the run: of its end, of a call on the input or the output that failed, of a question about types that is too large, or of want of
/// memory. It costs what `run_accepted` costs.
pub fn execute<I: Source, O: Sink>(
    alloc: Global,
    ready: Ready,
    bounds: Bounds<'_>,
    input: &mut I,
    out: &mut O,
) -> Run
    requires words { AreWords bounds.words.now }
    ensures kept { result.built ≡ Some ready.built.source }
    ensures ended { RunEnded ready.types.atoms ready.built.typed bounds.entry.words.now bounds.entry.ticks bounds.entry.seed
        (sides (source_tells (I.faults input.old) (I.rest input.old)) (sink_tells (O.faults out.old) (O.written out.old)))
        (sides (source_tells (I.faults input.new) (I.rest input.new)) (sink_tells (O.faults out.new) (O.written out.new)))
        result result.status }
    ensures untouched { ¬ CallsReadln ready.built.typed → IsAsBefore (source_tells (I.faults input.old) (I.rest input.old)) (source_tells (I.faults input.new) (I.rest input.new)) }
    ensures text { CanReport result.status }
{
    let Ready { types, built } = ready;
    let Built { source, typed, .. } = built;
    let mut types = types;
    let mut typed = typed;
    let ended = run_accepted(alloc, &mut types, &mut typed, bounds, input, out);
    run_of(alloc, source, bounds.ticks, ended)
}

/// The run of a program of this package that had so many ticks and ended so.
fn run_of(alloc: Global, source: Package, ticks: u64, ended: Result<Outcome, Stop<RunFault>>) -> Run
    ensures { IsRunOf source ticks ended result }
{
    match ended {
        Ok(outcome) => came(alloc, source, ticks, outcome),
        Err(stop) => Run {
            status: stopped(alloc, stop),
            built: Some(source),
            turns: 0,
            spent: 0,
        },
    }
}

/// The run of a program that came to this outcome.
fn came(alloc: Global, source: Package, ticks: u64, outcome: Outcome) -> Run
    ensures { IsRunOf source ticks (Ok outcome) result }
{
    let turns = outcome.picks;
    let spent = outcome.spent;
    Run {
        status: status_of(alloc, ticks, outcome.ending),
        built: Some(source),
        turns,
        spent,
    }
}

/// The status of a run that had so many ticks and ends so, if there is memory for it.
fn status_of(alloc: Global, ticks: u64, ending: Ending) -> Status
    ensures { IsStatusOf ticks (ending_of ending) result }
{
    match ending {
        Ending::ReturnsNil => Status::Done,
        Ending::ReturnsError(message) => Status::ErrorReturned(message),
        Ending::Panics(message) => Status::Panicked(message),
        Ending::Stalls(strands) => stalled(alloc, strands.as_slice()),
        Ending::GoesOn => Status::GoesOn { ticks },
        Ending::Passes(limit) => Status::Limit(limit),
    }
}

/// The status of a run in which these strands wait for one another.
fn stalled(alloc: Global, strands: &[u64]) -> Status
    ensures { IsStalledBy strands.now result }
{
    match ring_of(alloc, strands) {
        Ok(ring) => Status::Stalled { ring },
        Err(Memory) => Status::Memory,
    }
}

/// The ring of these strands, whose numbers are below 2 to the power 32 in any run for which there is memory.
fn ring_of(alloc: Global, strands: &[u64]) -> Result<Ring, Memory>
    ensures { IfOk result (λ ring. ring ≡ strands.now) }
{
    let mut ring = Vec::new(alloc);
    for n in strands.iter() {
        ring.push(narrow(*n)?)?;
    }
    Ok(Ring::of(ring))
}

/// The number of a strand as that of a ring.
fn narrow(n: u64) -> Result<u32, Memory>
    ensures { IfOk result (λ m. m ≡ n) }
{
    if n > u32::MAX as u64 {
        return Err(Memory);
    }
    Ok(n as u32)
}

/// The status of a run that came to no outcome, if there is memory for it.
fn stopped(alloc: Global, stop: Stop<RunFault>) -> Status
    ensures { IsStatusOfStop stop result }
{
    match stop {
        Stop::Memory => Status::Memory,
        Stop::Fault(RunFault::Input) => Status::InputFault,
        Stop::Fault(RunFault::Output) => Status::OutFault,
        Stop::Fault(RunFault::Types(_)) => too_large(alloc),
    }
}

/// The status of a program whose lists lead to a question about types that is too large.
fn too_large(alloc: Global) -> Status
    ensures { IsLargeOr result }
{
    match unplaced(alloc, fault_of(FaultCode::TypeLimit)) {
        Ok(refusal) => Status::Refused(refusal),
        Err(Memory) => Status::Memory,
    }
}
