//! Runs of packages.
#![tactic(auto)]

ghost use Rattle.std.specs.Prelude.{IfOk, OnErr};
ghost use Rattle.bal_io.specs.Faults.{CountsFaults};
ghost use Rattle.typed_tree.specs.declared.package.TypedPackage.{TypedPackage as TypedPackageOf};
ghost use Rattle.op_model.specs.Library.{LibraryAnswers};
ghost use Rattle.machine_model.specs.Runs.{AreWords};
ghost use Rattle.eval_model.specs.Trees.{trees};
ghost use Rattle.lower_model.specs.Whole.{IsLowered};
ghost use Rattle.declared_reads.specs.Declared.{IsDeclared};
ghost use Rattle.code_frames.specs.Programs.{fillers_by, over};
ghost use Rattle.code_steps.specs.Ended.{outcome_of};
ghost use Rattle.seeded_runs.specs.Runs.{IsCut, RunsTo};

use bal_base::{Failed, Stop};
use bal_io::Sink;
use bare_packages::read_as_declared;
use code_frames::{decode, tested_types};
use code_runs::{Given, run};
use code_steps::Outcome;
use lower_package::lower_to_run;
use stack_code::Code;
use std::alloc::Global;
use type_model::TypeEnv;
use typed_tree::TypedPackage;
use value_model::FillerList;

/// The run of a package as code, over the definitions of its atoms and these fillers of lists, by the numbers of atoms: what comes of it
/// comes of the package's trees, by the picks that the seed names. Its output is written as it comes, and all of it is written where an
/// outcome is answered; nothing is written after a call that did not succeed, which is answered with `Failed`. It answers want
/// of memory also where the run is not followed to its end (`code_runs::run`). The package reads its variables as declared from then on
/// (`bare_packages::read_as_declared`). Making the code takes time and room that grow with the package, before anything is written.
pub fn run_package<O: Sink>(
    alloc: Global,
    atoms: &TypeEnv,
    fillers: &[FillerList],
    package: &mut TypedPackage,
    given: Given<'_>,
    out: &mut O,
) -> Result<Outcome, Stop<Failed>>
    requires words { AreWords given.words.now }
    ensures faults { CountsFaults (O.faults out.old) (O.faults out.new) result }
    ensures comes { IfOk result (λ o. RunsTo LibraryAnswers (trees atoms.now (fillers_by fillers.now) «package».old) given.entry.words.now given.entry.input.now given.entry.ticks given.entry.seed (outcome_of o) (O.written out.old) (O.written out.new)) }
    ensures cut { OnErr result (IsCut LibraryAnswers (trees atoms.now (fillers_by fillers.now) «package».old) given.entry.words.now given.entry.input.now given.entry.ticks given.entry.seed (O.written out.old) (O.written out.new)) }
{
    match read_as_declared(alloc, package) {
        Err(_) => Err(Stop::Memory),
        Ok(()) => run_declared(alloc, atoms, fillers, package, given, out),
    }
}

/// The run of a package that is another one with its variables read as declared.
fn run_declared<O: Sink>(
    alloc: Global,
    atoms: &TypeEnv,
    fillers: &[FillerList],
    read: &TypedPackage,
    given: Given<'_>,
    out: &mut O,
) -> Result<Outcome, Stop<Failed>>
    requires words { AreWords given.words.now }
    ensures faults { CountsFaults (O.faults out.old) (O.faults out.new) result }
    ensures comes { IfOk result (λ o. (p : TypedPackageOf) → IsDeclared p read.now → RunsTo LibraryAnswers (trees atoms.now (fillers_by fillers.now) p) given.entry.words.now given.entry.input.now given.entry.ticks given.entry.seed (outcome_of o) (O.written out.old) (O.written out.new)) }
    ensures cut { OnErr result ((p : TypedPackageOf) → IsDeclared p read.now → IsCut LibraryAnswers (trees atoms.now (fillers_by fillers.now) p) given.entry.words.now given.entry.input.now given.entry.ticks given.entry.seed (O.written out.old) (O.written out.new)) }
{
    match lower_to_run(alloc, atoms, read) {
        Err(_) => Err(Stop::Memory),
        Ok(code) => run_code(alloc, atoms, fillers, &code, given, out),
    }
}

/// The run of the code.
fn run_code<O: Sink>(
    alloc: Global,
    atoms: &TypeEnv,
    fillers: &[FillerList],
    code: &Code,
    given: Given<'_>,
    out: &mut O,
) -> Result<Outcome, Stop<Failed>>
    requires words { AreWords given.words.now }
    ensures faults { CountsFaults (O.faults out.old) (O.faults out.new) result }
    ensures comes { IfOk result (λ o. (p q : TypedPackageOf) → IsDeclared p q → IsLowered atoms.now q (over atoms.now code.now) → RunsTo LibraryAnswers (trees atoms.now (fillers_by fillers.now) p) given.entry.words.now given.entry.input.now given.entry.ticks given.entry.seed (outcome_of o) (O.written out.old) (O.written out.new)) }
    ensures cut { OnErr result ((p q : TypedPackageOf) → IsDeclared p q → IsLowered atoms.now q (over atoms.now code.now) → IsCut LibraryAnswers (trees atoms.now (fillers_by fillers.now) p) given.entry.words.now given.entry.input.now given.entry.ticks given.entry.seed (O.written out.old) (O.written out.new)) }
{
    match tested_types(alloc, code) {
        Err(_) => Err(Stop::Memory),
        Ok(types) => match decode(alloc, atoms, fillers, code, &types) {
            Err(_) => Err(Stop::Memory),
            Ok(program) => run(alloc, program, given, out),
        },
    }
}
