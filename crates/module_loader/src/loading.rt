//! The package of a folder.
ghost use Rattle.std.specs.Prelude.{◌≡◌, ◌≤◌, [], ℕ, List, IfOk, IfSome, length};
ghost use Rattle.bal_base.specs.declared.fault.Refusal.{Refusal};
ghost use Rattle.folder_files.specs.Files.{names};
ghost use Rattle.package_files.specs.Listings.{IsListing};
ghost use Rattle.module_loader.specs.Faults.{HasLinkFault, IsRefusedFor, too_large as too_large_by};
ghost use Rattle.module_loader.specs.Files.{AreRead, IsManifest, Taken};
ghost use Rattle.module_loader.specs.Loading.{CountsLoadFaults, IfRefused, IsRefusedAs, IsUnrefused};
ghost use Rattle.module_loader.specs.Packages.{Makes, PackageOf, folders_of};
ghost use Rattle.module_loader.specs.inner.Begun.{AreSources};
ghost use Rattle.module_loader.specs.inner.Linked.{IsOfFiles, IsStopBy};
ghost use Rattle.module_loader.specs.inner.Sources.{AreListed, IsFound, folders_in};

use crate::faults::{LoadFault, refused, too_large};
use crate::limits::MOST_FILES;
use crate::making::make;
use crate::manifest::folder_manifest;
use crate::reading::read_all;
use crate::sources::{Source, sources_of};
use bal_base::{Failed, Memory, Stop};
use bal_io::Folder;
use bal_tree::{Package, SourceFile};
use folder_files::list;
use manifests::Manifest;
use package_files::Listing;
use package_modules::modules_of;
use std::alloc::Global;

/// The package of a folder. A file `X.bal` belongs to the default module, `modules/M/X.bal` to the module M; other files are passed
/// over. Files are taken in the order of their names' bytes; of several with one name the first counts.
///
/// `Folder` is answered exactly where a call on the folder failed. The refusals are, in this order: too many files; a bad manifest; file
/// by file one that is too long, no text, no tokens or no tree, and too many bytes; too many modules; two imports of a file with one
/// prefix; an import that names nothing; modules that import one another. Its cost grows with the bytes of the files.
pub fn load<F: Folder>(alloc: Global, folder: &mut F) -> Result<Package, Stop<LoadFault>>
    ensures faults { CountsLoadFaults (F.faults folder.old) (F.faults folder.new) result }
    ensures unchanged { F.files folder.new ≡ F.files folder.old }
    ensures package { IfOk result (λ p. IfSome (F.files folder.old) (λ files. PackageOf files p)) }
    ensures refused { IfRefused result (λ r read. IfSome (F.files folder.old) (λ files. IsRefusedFor files r read)) }
    ensures package_due { IfSome (F.files folder.old) (λ files. (p : Package) → PackageOf files p → IsUnrefused result) }
    ensures refusal_due { IfSome (F.files folder.old) (λ files. (r : Refusal) (read : List SourceFile) → IsRefusedFor files r read → IsRefusedAs r result) }
{
    match list(alloc, folder) {
        Ok(listing) => load_listed(alloc, folder, &listing),
        Err(Stop::Memory) => Err(Stop::Memory),
        Err(Stop::Fault(Failed)) => Err(Stop::Fault(LoadFault::Folder)),
    }
}

/// The package of the files of this listing.
fn load_listed<F: Folder>(
    alloc: Global,
    folder: &mut F,
    listing: &Listing,
) -> Result<Package, Stop<LoadFault>>
    requires { IfSome (F.files folder.old) (λ files. IsListing (names files) listing.now) }
    ensures faults { CountsLoadFaults (F.faults folder.old) (F.faults folder.new) result }
    ensures unchanged { F.files folder.new ≡ F.files folder.old }
    ensures package { IfOk result (λ p. IfSome (F.files folder.old) (λ files. PackageOf files p)) }
    ensures refused { IfRefused result (λ r read. IfSome (F.files folder.old) (λ files. IsRefusedFor files r read)) }
{
    let sources = sources_of(alloc, listing)?;
    let count = sources.len();
    if count > MOST_FILES {
        return Err(too_many(alloc, count as u64));
    }
    load_found(alloc, folder, listing, sources.as_slice())
}

/// The stop by so many files, if there is memory for it.
fn too_many(alloc: Global, count: u64) -> Stop<LoadFault>
    ensures { IsStopBy (too_large_by count) [] result }
{
    match too_large(alloc, count) {
        Ok(refusal) => refused(refusal, Vec::new(alloc)),
        Err(Memory) => Stop::Memory,
    }
}

/// The package of these source files of the listing.
fn load_found<F: Folder>(
    alloc: Global,
    folder: &mut F,
    listing: &Listing,
    sources: &[Source],
) -> Result<Package, Stop<LoadFault>>
    requires few { length sources.now ≤ MOST_FILES }
    requires folders { AreListed listing.now sources.now }
    requires found { IfSome (F.files folder.old) (λ files. IsFound files listing.now sources.now) }
    ensures faults { CountsLoadFaults (F.faults folder.old) (F.faults folder.new) result }
    ensures unchanged { F.files folder.new ≡ F.files folder.old }
    ensures package { IfOk result (λ p. IfSome (F.files folder.old) (λ files. PackageOf files p)) }
    ensures refused { IfRefused result (λ r read. IfSome (F.files folder.old) (λ files. IsRefusedFor files r read)) }
{
    match folder_manifest(alloc, folder, listing.manifest) {
        Ok(manifest) => load_all(alloc, folder, manifest, listing, sources),
        Err(stop) => Err(stop),
    }
}

/// The package of these source files of the listing, whose manifest says this.
fn load_all<F: Folder>(
    alloc: Global,
    folder: &mut F,
    manifest: Manifest,
    listing: &Listing,
    sources: &[Source],
) -> Result<Package, Stop<LoadFault>>
    requires few { length sources.now ≤ MOST_FILES }
    requires folders { AreListed listing.now sources.now }
    requires found { IfSome (F.files folder.old) (λ files. IsFound files listing.now sources.now) }
    requires says { IfSome (F.files folder.old) (λ files. IsManifest files manifest) }
    ensures faults { CountsLoadFaults (F.faults folder.old) (F.faults folder.new) result }
    ensures unchanged { F.files folder.new ≡ F.files folder.old }
    ensures package { IfOk result (λ p. IfSome (F.files folder.old) (λ files. PackageOf files p)) }
    ensures refused { IfRefused result (λ r read. IfSome (F.files folder.old) (λ files. IsRefusedFor files r read)) }
{
    match read_all(alloc, folder, sources) {
        Ok(read) => load_read(alloc, manifest, listing, sources, read),
        Err(stop) => Err(stop),
    }
}

/// The package of these source files, which were read.
fn load_read(
    alloc: Global,
    manifest: Manifest,
    listing: &Listing,
    sources: &[Source],
    read: Vec<SourceFile>,
) -> Result<Package, Stop<LoadFault>>
    requires read { AreSources read.items }
    requires folders { AreListed listing.now sources.now }
    ensures files { IsOfFiles result }
    ensures package { IfOk result (λ p. (taken : List Taken) → AreRead 0 taken read.items → folders_of taken ≡ folders_in sources.now → Makes manifest taken read.items p) }
    ensures rest { IfRefused result (λ r after. after ≡ read.items) }
    ensures refused { IfRefused result (λ r after. (taken : List Taken) → AreRead 0 taken read.items → folders_of taken ≡ folders_in sources.now → HasLinkFault manifest taken read.items r) }
{
    let folders = modules_of(alloc, &listing.sources)?;
    make(alloc, manifest, sources, folders.as_slice(), read)
}
