//! The manifest of a folder, read.
ghost use Rattle.std.specs.Prelude.{◌≡◌, ℕ, List, [], IfOk, IfSome};
ghost use Rattle.bal_io.specs.Content.{CanOpen};
ghost use Rattle.folder_files.specs.Files.{Files, IsFrontOf, names};
ghost use Rattle.manifests.specs.Manifests.{IsBad, Says, bad_manifest};
ghost use Rattle.package_files.specs.Listings.{IsFirstOf, manifest_name};
ghost use Rattle.module_loader.specs.Faults.{IsBadManifest};
ghost use Rattle.module_loader.specs.Files.{IsManifest};
ghost use Rattle.module_loader.specs.Loading.{CountsLoadFaults, IfRefused};
ghost use Rattle.module_loader.specs.inner.Linked.{IsOfFiles, IsStopBy};
ghost use Rattle.source_files.specs.Told.{refusal_of};

use crate::faults::{LoadFault, no_name, refused, unplaced};
use bal_base::{Failed, FaultCode, Kept, Memory, Stop};
use bal_io::Folder;
use folder_files::front;
use manifests::{Manifest, read_manifest};
use std::alloc::Global;

/// The bytes of a file of the folder, as far as one byte more than a file may have.
pub(crate) fn bytes_of<F: Folder>(
    alloc: Global,
    folder: &mut F,
    number: u32,
) -> Result<Vec<u8>, Stop<LoadFault>>
    requires { CanOpen (F.files folder.old) number }
    ensures faults { CountsLoadFaults (F.faults folder.old) (F.faults folder.new) result }
    ensures unchanged { F.files folder.new ≡ F.files folder.old }
    ensures front { IfOk result (λ front. IfSome (F.files folder.old) (λ files. IsFrontOf files number front.items)) }
    ensures unrefused { IfRefused result (λ r read. ⊥) }
{
    match front(alloc, folder, number) {
        Ok(bytes) => Ok(bytes),
        Err(Stop::Memory) => Err(Stop::Memory),
        Err(Stop::Fault(Failed)) => Err(Stop::Fault(LoadFault::Folder)),
    }
}

/// What the manifest with this number in the folder says, or what is so where there is none.
pub(crate) fn folder_manifest<F: Folder>(
    alloc: Global,
    folder: &mut F,
    number: Option<u32>,
) -> Result<Manifest, Stop<LoadFault>>
    requires { IfSome (F.files folder.old) (λ files. IsFirstOf (names files) manifest_name number) }
    ensures faults { CountsLoadFaults (F.faults folder.old) (F.faults folder.new) result }
    ensures unchanged { F.files folder.new ≡ F.files folder.old }
    ensures says { IfOk result (λ m. IfSome (F.files folder.old) (λ files. IsManifest files m)) }
    ensures bad { IfRefused result (λ r read. IfSome (F.files folder.old) (λ files. IsBadManifest files r read)) }
{
    match number {
        Some(number) => manifest_at(alloc, folder, number),
        None => Ok(Manifest::without_file(alloc)?),
    }
}

fn manifest_at<F: Folder>(
    alloc: Global,
    folder: &mut F,
    number: u32,
) -> Result<Manifest, Stop<LoadFault>>
    requires { IfSome (F.files folder.old) (λ files. IsFirstOf (names files) manifest_name (Some number)) }
    ensures faults { CountsLoadFaults (F.faults folder.old) (F.faults folder.new) result }
    ensures unchanged { F.files folder.new ≡ F.files folder.old }
    ensures says { IfOk result (λ m. IfSome (F.files folder.old) (λ files. IsManifest files m)) }
    ensures bad { IfRefused result (λ r read. IfSome (F.files folder.old) (λ files. IsBadManifest files r read)) }
{
    match bytes_of(alloc, folder, number) {
        Ok(front) => manifest_of(alloc, front.as_slice()),
        Err(stop) => Err(stop),
    }
}

/// What a manifest says that begins with these bytes.
fn manifest_of(alloc: Global, front: &[u8]) -> Result<Manifest, Stop<LoadFault>>
    ensures files { IsOfFiles result }
    ensures says { IfOk result (λ m. Says front.now m) }
    ensures bad { IfRefused result (λ r read. IsBad front.now × (r ≡ refusal_of [] [] bad_manifest) × (read ≡ [])) }
{
    match read_manifest(alloc, front) {
        Ok(manifest) => Ok(manifest),
        Err(Stop::Memory) => Err(Stop::Memory),
        Err(Stop::Fault(_fault)) => Err(bad(alloc)),
    }
}

/// The stop by a bad manifest, if there is memory for it.
fn bad(alloc: Global) -> Stop<LoadFault>
    ensures { IsStopBy (refusal_of [] [] bad_manifest) [] result }
{
    match no_name(alloc) {
        Ok(none) => refused(
            unplaced(none, FaultCode::BadManifest, Kept::Nothing),
            Vec::new(alloc),
        ),
        Err(Memory) => Stop::Memory,
    }
}
