//! The package of a folder.
ghost use Rattle.folder_programs.specs.Packages.{CountsFolderFaults, IsLoadedOf, IsWithoutFiles};

use bal_base::{Refusal, Stop};
use bal_io::Folder;
use bal_tree::Package;
use module_loader::{LoadFault, load};
use std::alloc::Global;

/// Why a folder comes to no answer.
#[derive(Drop)]
pub enum AnswerFault {
    /// The folder could not be read.
    Folder,
    /// Its files make no package, or what is asked of that is refused.
    Source(Refusal),
}

/// The package that the folder's files make, or why they make none, as `load` says it. It costs what `load` costs.
pub fn package_of<F: Folder>(alloc: Global, folder: &mut F) -> Result<Package, Stop<AnswerFault>>
    ensures faults { CountsFolderFaults (F.faults folder.old) (F.faults folder.new) result }
    ensures loaded { IsLoadedOf (F.files folder.old) result }
{
    match load(alloc, folder) {
        Ok(package) => Ok(package),
        Err(stop) => Err(without_files(stop)),
    }
}

/// The stop without the files that were read by then: no refusal of them shows one.
fn without_files(stop: Stop<LoadFault>) -> Stop<AnswerFault>
    ensures { IsWithoutFiles stop result }
{
    match stop {
        Stop::Memory => Stop::Memory,
        Stop::Fault(LoadFault::Folder) => Stop::Fault(AnswerFault::Folder),
        Stop::Fault(LoadFault::Source(refusal, _)) => Stop::Fault(AnswerFault::Source(refusal)),
    }
}
