//! Runs of accepted packages.
#![tactic(auto)]

ghost use Rattle.std.specs.Prelude.{◌≡◌, IfOk, List, OnErr, Option, length, ℕ};
ghost use Rattle.bal_io.specs.Faults.{CountsFaults};
ghost use Rattle.input_calls.specs.Calls.{CallsReadln};
ghost use Rattle.machine_model.specs.Runs.{AreWords};
ghost use Rattle.filler_tables.specs.Tables.{IsFillerTable};
ghost use Rattle.package_runs.specs.Ended.{Ended, IsGivenInput, IsPartlyRead};
ghost use Rattle.package_runs.specs.Outside.{CountsRunFaults, IsUntouched, outside};
ghost use Rattle.package_runs.specs.inner.Limits.{none_passes};

use bal_base::{Failed, Stop, Text};
use bal_io::{Sink, Source};
use code_runs::Given;
use code_steps::Outcome;
use filler_tables::fillers_of;
use input_calls::calls_readln;
use package_code::run_package;
use std::alloc::Global;
use type_model::{TypeEnv, TypeLimit, Types};
use typed_tree::TypedPackage;
use value_model::FillerList;
use whole_input::read_whole;

/// What a run is given beside the outside.
#[derive(Clone, Copy)]
pub struct Bounds<'a> {
    /// The words that are passed to `main`, where it takes some.
    pub words: &'a [Text],
    /// How many ticks may be spent.
    pub ticks: u64,
    /// By which the strands that run are picked.
    pub seed: u64,
}

/// Why a run has no outcome.
#[derive(Clone, Copy)]
pub enum RunFault {
    /// A call on the input failed.
    Input,
    /// A call on the output failed.
    Output,
    /// A question about types, to which the fillers of lists lead, passes this limit.
    Types(TypeLimit),
}

/// What a package runs by.
#[derive(Clone, Copy)]
struct Ready<'a> {
    atoms: &'a TypeEnv,
    fillers: &'a [FillerList],
    bounds: Bounds<'a>,
}

/// The run of a package, over these types, against an input and an output: what comes of it comes of the package's trees. It runs as code.
///
/// First the fillers of the lists of all atoms are found, by questions about the types: `Types` where one of them passes a limit;
/// nothing is read or written then. Then the input is read to its end, where the package calls `io:readln` anywhere; else it isn't
/// touched. `Input` where a call on it failed; nothing is written then. Then its code is made and runs, by the picks that the seed names,
/// and its output is written as it comes: `Output` where a call on it failed, and nothing is written after that. From then on the package
/// reads its variables as they are declared.
///
/// It costs what finding the fillers costs, then time and room that grow with the input and with the package, and then those of the run
/// (`package_code::run_package`). It answers want of memory also where the run is not followed to its end, as that does.
pub fn run_accepted<T: Types, I: Source, O: Sink>(
    alloc: Global,
    types: &mut T,
    package: &mut TypedPackage,
    bounds: Bounds<'_>,
    input: &mut I,
    out: &mut O,
) -> Result<Outcome, Stop<RunFault>>
    requires words { AreWords bounds.words.now }
    ensures atoms { T.atoms types.new ≡ T.atoms types.old }
    ensures faults { CountsRunFaults (outside (I.faults input.old) (I.rest input.old) (O.faults out.old) (O.written out.old)) (outside (I.faults input.new) (I.rest input.new) (O.faults out.new) (O.written out.new)) result }
    ensures untouched { ¬ CallsReadln «package».old → IsUntouched (outside (I.faults input.old) (I.rest input.old) (O.faults out.old) (O.written out.old)) (outside (I.faults input.new) (I.rest input.new) (O.faults out.new) (O.written out.new)) }
    ensures ended { Ended T.passes (T.atoms types.old) «package».old bounds.entry.words.now bounds.entry.ticks bounds.entry.seed (outside (I.faults input.old) (I.rest input.old) (O.faults out.old) (O.written out.old)) (outside (I.faults input.new) (I.rest input.new) (O.faults out.new) (O.written out.new)) result }
{
    match fillers_of(alloc, types) {
        Ok(fillers) => {
            let ready = Ready {
                atoms: types.env(),
                fillers: &fillers,
                bounds,
            };
            read_and_run(alloc, ready, package, input, out)
        }
        Err(Stop::Memory) => Err(Stop::Memory),
        Err(Stop::Fault(limit)) => Err(Stop::Fault(RunFault::Types(limit))),
    }
}

/// The same behind the fillers: the input is read, and then the package runs.
fn read_and_run<I: Source, O: Sink>(
    alloc: Global,
    ready: Ready<'_>,
    package: &mut TypedPackage,
    input: &mut I,
    out: &mut O,
) -> Result<Outcome, Stop<RunFault>>
    requires words { AreWords ready.bounds.words.now }
    requires fillers { IsFillerTable ready.atoms.now ready.fillers.now }
    requires rows { length ready.fillers.now ≡ length ready.atoms.now }
    ensures faults { CountsRunFaults (outside (I.faults input.old) (I.rest input.old) (O.faults out.old) (O.written out.old)) (outside (I.faults input.new) (I.rest input.new) (O.faults out.new) (O.written out.new)) result }
    ensures untouched { ¬ CallsReadln «package».old → IsUntouched (outside (I.faults input.old) (I.rest input.old) (O.faults out.old) (O.written out.old)) (outside (I.faults input.new) (I.rest input.new) (O.faults out.new) (O.written out.new)) }
    ensures ended { Ended none_passes ready.entry.atoms.now «package».old ready.entry.bounds.words.now ready.entry.bounds.ticks ready.entry.bounds.seed (outside (I.faults input.old) (I.rest input.old) (O.faults out.old) (O.written out.old)) (outside (I.faults input.new) (I.rest input.new) (O.faults out.new) (O.written out.new)) result }
{
    match program_input(alloc, package, input) {
        Ok(bytes) => run_on(alloc, ready, package, &bytes, out),
        Err(Stop::Memory) => Err(Stop::Memory),
        Err(Stop::Fault(Failed)) => Err(Stop::Fault(RunFault::Input)),
    }
}

/// The input that the program is given: none where it asks for none, and else all that is left, line by line.
fn program_input<I: Source>(
    alloc: Global,
    package: &TypedPackage,
    input: &mut I,
) -> Result<Vec<u8>, Stop<Failed>>
    ensures faults { CountsFaults (I.faults input.old) (I.faults input.new) result }
    ensures none { ¬ CallsReadln «package».now → (I.rest input.new ≡ I.rest input.old) × (I.faults input.new ≡ I.faults input.old) }
    ensures given { IfOk result (λ bytes. IsGivenInput «package».now (I.rest input.old) (I.rest input.new) bytes.items) }
    ensures asked { OnErr result (CallsReadln «package».now) }
    ensures part { OnErr result (IsPartlyRead «package».now (I.rest input.old) (I.rest input.new)) }
{
    if calls_readln(package) {
        read_whole(alloc, input)
    } else {
        Ok(Vec::new(alloc))
    }
}

/// The run on this input, whatever was left of the one outside before it was read and behind.
fn run_on<O: Sink>(
    alloc: Global,
    ready: Ready<'_>,
    package: &mut TypedPackage,
    bytes: &[u8],
    out: &mut O,
) -> Result<Outcome, Stop<RunFault>>
    requires words { AreWords ready.bounds.words.now }
    requires fillers { IsFillerTable ready.atoms.now ready.fillers.now }
    requires rows { length ready.fillers.now ≡ length ready.atoms.now }
    ensures faults { (n : ℕ) (old new : Option (List ℕ)) → CountsRunFaults (outside n old (O.faults out.old) (O.written out.old)) (outside n new (O.faults out.new) (O.written out.new)) result }
    ensures ended { (n m : ℕ) (old new : Option (List ℕ)) → IsGivenInput «package».old old new bytes.now → Ended none_passes ready.entry.atoms.now «package».old ready.entry.bounds.words.now ready.entry.bounds.ticks ready.entry.bounds.seed (outside n old (O.faults out.old) (O.written out.old)) (outside m new (O.faults out.new) (O.written out.new)) result }
{
    let given = Given {
        words: ready.bounds.words,
        input: bytes,
        ticks: ready.bounds.ticks,
        seed: ready.bounds.seed,
    };
    match run_package(alloc, ready.atoms, ready.fillers, package, given, out) {
        Ok(outcome) => Ok(outcome),
        Err(Stop::Memory) => Err(Stop::Memory),
        Err(Stop::Fault(Failed)) => Err(Stop::Fault(RunFault::Output)),
    }
}
