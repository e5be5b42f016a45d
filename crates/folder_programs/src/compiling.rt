//! Compiling: from a folder's package to one that the front accepts, with the types over which it was checked.
ghost use Rattle.std.specs.Prelude.{◌≡◌, IfErr, OnOk};
ghost use Rattle.lower_package.specs.Limits.{PassesNodes};
ghost use Rattle.folder_programs.specs.Compiling.{ComesOfPackage, CountsCompileFaults, IsLargeStop, IsOfSource, IsStopBare, IsStopRefused, IsStopShown, IsStopUnloaded};
ghost use Rattle.folder_programs.specs.Programs.{Compiled};
ghost use Rattle.folder_programs.specs.Refusals.{large_fault};

use crate::packages::{AnswerFault, package_of};
use crate::refusing::{refusal_in, unplaced};
use bal_base::{Fault, FaultCode, Kept, Memory, Refusal, Stop};
use bal_io::Folder;
use bal_tree::Package;
use compile_front::{Answered, accept};
use lower_package::MOST_NODES;
use package_plans::PackagePlans;
use std::alloc::Global;
use subtype_decider::Decider;
use typed_tree::{TypedPackage, nodes};

/// A program that was accepted.
#[derive(Drop)]
pub struct Built {
    /// The package that was read.
    pub source: Package,
    /// Its bodies, typed, which say what it does, and of which its code is made.
    pub typed: TypedPackage,
    /// The plans of its functions, by which their messages are paired.
    pub plans: PackagePlans,
}

/// A program that was accepted, and the types over which it was checked.
#[derive(Drop)]
pub struct Ready {
    /// The types, with the atoms that the front added.
    pub types: Decider,
    /// The program.
    pub built: Built,
}

/// Why a program is refused, and its package where that came to be looked at: the events that a refusal shows are found in its files.
#[derive(Drop)]
pub struct Refusing {
    /// Why.
    pub refusal: Refusal,
    /// The package, where the front refused it.
    pub source: Option<Package>,
}

/// Why a folder does not compile.
#[derive(Drop)]
pub enum CompileFault {
    /// The folder could not be read.
    Folder,
    /// The program is refused.
    Source(Refusing),
}

/// The program of the folder's package, accepted.
///
/// `Folder` where a call on the folder failed. `Source` where the program is refused: as `load` refuses the folder's files; as `accept`
/// refuses their package; and with 501 where it has more nodes than code is made of. It costs what `load` and `accept` cost, one after the
/// other.
pub fn compile<F: Folder>(alloc: Global, folder: &mut F) -> Result<Ready, Stop<CompileFault>>
    ensures faults { CountsCompileFaults (F.faults folder.old) (F.faults folder.new) result }
    ensures compiled { Compiled (F.files folder.old) result }
{
    match package_of(alloc, folder) {
        Ok(source) => of_source(package_program(alloc, source)),
        Err(stop) => Err(unloaded(stop)),
    }
}

/// The answer for a folder by that for its package.
fn of_source(ready: Result<Ready, Stop<Refusing>>) -> Result<Ready, Stop<CompileFault>>
    ensures { IsOfSource ready result }
{
    match ready {
        Ok(ready) => Ok(ready),
        Err(Stop::Memory) => Err(Stop::Memory),
        Err(Stop::Fault(refusing)) => Err(Stop::Fault(CompileFault::Source(refusing))),
    }
}

/// The package that was read, of a program that was accepted.
pub fn source_of(ready: Ready) -> Package
    ensures { result ≡ ready.built.source }
{
    let Ready { built, .. } = ready;
    let Built { source, .. } = built;
    source
}

/// The stop of a folder whose files make no package.
fn unloaded(stop: Stop<AnswerFault>) -> Stop<CompileFault>
    ensures { IsStopUnloaded stop result }
{
    match stop {
        Stop::Memory => Stop::Memory,
        Stop::Fault(AnswerFault::Folder) => Stop::Fault(CompileFault::Folder),
        Stop::Fault(AnswerFault::Source(refusal)) => Stop::Fault(CompileFault::Source(Refusing {
            refusal,
            source: None,
        })),
    }
}

/// The program of this package.
fn package_program(alloc: Global, source: Package) -> Result<Ready, Stop<Refusing>>
    ensures { ComesOfPackage source result }
{
    let Answered { types, answer } = accept(alloc, Decider::new(alloc), &source);
    match answer {
        Ok(accepted) => match within_nodes(alloc, &accepted.package) {
            Ok(()) => Ok(Ready {
                types,
                built: Built {
                    source,
                    typed: accepted.package,
                    plans: accepted.plans,
                },
            }),
            Err(stop) => Err(stop),
        },
        Err(stop) => Err(refused(alloc, stop, source)),
    }
}

/// Refuses trees with more nodes than code is made of.
fn within_nodes(alloc: Global, typed: &TypedPackage) -> Result<(), Stop<Refusing>>
    ensures within { OnOk result (¬ PassesNodes typed.now) }
    ensures large { IfErr result (IsLargeStop typed.now) }
{
    let count = nodes(typed);
    if count > MOST_NODES {
        return Err(bare(unplaced(alloc, too_large(count))));
    }
    Ok(())
}

/// The fault of so many nodes.
fn too_large(count: u64) -> Fault
    ensures { result ≡ large_fault count }
{
    Fault {
        code: FaultCode::CodeLimit,
        at: None,
        kept: Kept::Count(count),
    }
}

/// The stop by a fault of the front in this package.
fn refused(alloc: Global, stop: Stop<Fault>, source: Package) -> Stop<Refusing>
    ensures { IsStopRefused source stop result }
{
    match stop {
        Stop::Memory => Stop::Memory,
        Stop::Fault(fault) => {
            let refusal = refusal_in(alloc, source.modules.as_slice(), fault);
            shown(refusal, source)
        }
    }
}

/// The stop by a refusal that shows nothing of a package, if there was memory for it.
fn bare(refusal: Result<Refusal, Memory>) -> Stop<Refusing>
    ensures { IsStopBare refusal result }
{
    match refusal {
        Ok(refusal) => Stop::Fault(Refusing {
            refusal,
            source: None,
        }),
        Err(Memory) => Stop::Memory,
    }
}

/// The stop by a refusal of this package, if there was memory for it.
fn shown(refusal: Result<Refusal, Memory>, source: Package) -> Stop<Refusing>
    ensures { IsStopShown refusal source result }
{
    match refusal {
        Ok(refusal) => Stop::Fault(Refusing {
            refusal,
            source: Some(source),
        }),
        Err(Memory) => Stop::Memory,
    }
}
