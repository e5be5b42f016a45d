//! The names and the numbers of a package's modules.
ghost use Rattle.std.specs.Prelude.{◌≡◌, IfOk, map, position};
ghost use Rattle.package_files.specs.Names.{is_empty};
ghost use Rattle.package_imports.specs.Imports.{is_same};
ghost use Rattle.module_loader.specs.Packages.{behind_first, home_of, module_name, names_of, number_of};

use crate::sources::Source;
use bal_base::{Memory, Name};
use manifests::Manifest;
use package_imports::Home;
use std::alloc::Global;

/// The package as imports name its modules, which are in these folders.
pub(crate) fn home_of(alloc: Global, manifest: &Manifest, folders: &[Name]) -> Result<Home, Memory>
    ensures { IfOk result (λ home. home ≡ home_of manifest.now folders.now) }
{
    let org = shared(&manifest.org);
    Home::new(alloc, &manifest.name, org, behind_first(folders))
}

fn shared(name: &Option<Name>) -> Option<Name>
    ensures { result ≡ name.now }
{
    match name {
        Some(name) => Some(name.share()),
        None => None,
    }
}

/// The folders of all modules but the default one.
fn behind_first(folders: &[Name]) -> &[Name]
    ensures { result.now ≡ behind_first folders.now }
{
    if folders.is_empty() {
        return folders;
    }
    &folders[1..]
}

/// The names of the modules in these folders.
pub(crate) fn module_names(
    alloc: Global,
    manifest: &Manifest,
    folders: &[Name],
) -> Result<Vec<Name>, Memory>
    ensures { IfOk result (λ names. names.items ≡ names_of manifest.now folders.now) }
{
    let mut names = Vec::new(alloc);
    for folder in folders {
        names.push(module_name(manifest, folder))?;
    }
    Ok(names)
}

/// The name of a module: that of the default one, which has no folder, is the package's.
fn module_name(manifest: &Manifest, folder: &Name) -> Name
    ensures { result ≡ module_name manifest.now folder.now }
{
    if is_default(folder) {
        return manifest.name.share();
    }
    folder.share()
}

fn is_default(folder: &Name) -> bool
    ensures { result ≡ is_empty folder.now }
{
    folder.as_text().length() == 0
}

/// The numbers of the modules of these source files.
pub(crate) fn module_numbers(
    alloc: Global,
    sources: &[Source],
    folders: &[Name],
) -> Result<Vec<usize>, Memory>
    ensures { IfOk result (λ numbers. numbers.items ≡ map (λ s. number_of folders.now s.folder) sources.now) }
{
    let mut numbers = Vec::new(alloc);
    for source in sources {
        numbers.push(number_of(folders, &source.folder))?;
    }
    Ok(numbers)
}

/// The place of a module among all of them.
fn number_of(folders: &[Name], folder: &Name) -> usize
    ensures { result ≡ number_of folders.now folder.now }
{
    match place_of(folders, folder) {
        Some(place) => place,
        None => 0,
    }
}

fn place_of(folders: &[Name], folder: &Name) -> Option<usize>
    ensures { result ≡ position (λ known. is_same known folder.now) folders.now }
{
    folders.iter().position(|known| is_same(known, folder))
}

fn is_same(a: &Name, b: &Name) -> bool
    ensures { result ≡ is_same a.now b.now }
{
    a.as_text() == b.as_text()
}
