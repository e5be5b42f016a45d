//! Why a folder makes no package.
ghost use Rattle.std.specs.Prelude.{◌≡◌, ℕ, List, [], None as Absent, Some as Present, IfOk};
ghost use Rattle.module_loader.specs.Faults.{at_import as refusal_at, cyclic as cycle_of, too_large as too_large_by};
ghost use Rattle.module_loader.specs.Files.{AreRead, Taken};
ghost use Rattle.module_loader.specs.inner.Linked.{IsInFile, IsInFiles, IsTextOf};
ghost use Rattle.source_files.specs.Told.{refusal_of};

use bal_base::{Fault, FaultCode, Kept, Memory, Name, NameList, Place, Refusal, Stop};
use bal_tree::{Files, SourceFile};
use source_files::refusal;
use std::alloc::Global;

/// Why a folder makes no package.
#[derive(Drop)]
pub enum LoadFault {
    /// The folder could not be read.
    Folder,
    /// The package is refused; with the files that were read by then.
    Source(Refusal, Files),
}

/// The stop by a refusal, with these files.
pub(crate) fn refused(refusal: Refusal, read: Vec<SourceFile>) -> Stop<LoadFault>
    ensures { result ≡ Stop.Fault (LoadFault.Source refusal read.items) }
{
    Stop::Fault(LoadFault::Source(refusal, Files::of(read)))
}

/// The name of no file.
pub(crate) fn no_name(alloc: Global) -> Result<Name, Memory>
    ensures { IfOk result (λ name. name ≡ []) }
{
    Name::new(alloc, "")
}

/// The refusal for a fault without a place, which is in no file.
pub(crate) fn unplaced(no_name: Name, code: FaultCode, kept: Kept) -> Refusal
    requires { no_name ≡ [] }
    ensures { result ≡ refusal_of [] [] (record { code = code; at = Absent; kept = kept }) }
{
    Refusal {
        fault: Fault {
            code,
            at: None,
            kept,
        },
        file: no_name,
        line: 0,
        column: 0,
    }
}

/// There are too many files, modules or bytes.
pub(crate) fn too_large(alloc: Global, count: u64) -> Result<Refusal, Memory>
    ensures { IfOk result (λ r. r ≡ too_large_by count) }
{
    let none = no_name(alloc)?;
    Ok(unplaced(none, FaultCode::TooLarge, Kept::Count(count)))
}

/// Modules with these names import one another, each the next one.
pub(crate) fn cyclic(alloc: Global, names: Vec<Name>) -> Result<Refusal, Memory>
    ensures { IfOk result (λ r. r ≡ cycle_of names.items) }
{
    let none = no_name(alloc)?;
    let kept = Kept::Names(NameList::of(names));
    Ok(unplaced(none, FaultCode::ImportCycle, kept))
}

/// A fault at the place of an import of these files.
pub(crate) fn at_import(
    alloc: Global,
    read: &[SourceFile],
    code: FaultCode,
    at: Place,
) -> Result<Refusal, Memory>
    requires { IsInFiles read.now at }
    ensures { IfOk result (λ r. (taken : List Taken) → AreRead 0 taken read.now → r ≡ refusal_at taken code at) }
{
    let number = at.file as usize;
    in_file(alloc, &read[number], code, at)
}

/// The same in the file that has the place.
fn in_file(alloc: Global, file: &SourceFile, code: FaultCode, at: Place) -> Result<Refusal, Memory>
    requires { IsInFile at file.now }
    ensures { IfOk result (λ r. (bytes : List ℕ) → IsTextOf bytes file.now → r ≡ refusal_of file.now.name bytes (record { code = code; at = Present at; kept = Kept.Nothing })) }
{
    refusal(
        alloc,
        &file.name,
        file.text.as_str(),
        Fault {
            code,
            at: Some(at),
            kept: Kept::Nothing,
        },
    )
}
