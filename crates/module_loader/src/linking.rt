//! What the imports of a package name.
ghost use Rattle.std.specs.Prelude.{◌≡◌, ◌<◌, ◌≤◌, ◌++◌, [], ℕ, List, IfOk, OnOk, get_or, if◌then◌else◌, length, map};
ghost use Rattle.graphs.specs.Ordering.{IsInside};
ghost use Rattle.package_imports.specs.Imports.{imported};
ghost use Rattle.package_making.specs.Making.{numbered};
ghost use Rattle.package_modules.specs.Modules.{AreModules};
ghost use Rattle.module_loader.specs.Files.{AreRead, Taken};
ghost use Rattle.module_loader.specs.Packages.{folders_of, graph_from, home_of, imports_of};
ghost use Rattle.module_loader.specs.inner.Begun.{AreSources};
ghost use Rattle.module_loader.specs.inner.Linked.{IsCycleTold, IsLink, IsOfFew, IsOrdering, graph_in};
ghost use Rattle.module_loader.specs.inner.Sources.{folders_in};

use crate::faults::{cyclic, no_name, too_large};
use crate::imports::import_fault;
use crate::limits::MOST_MODULES;
use crate::naming::{home_of, module_names, module_numbers};
use crate::sources::Source;
use bal_base::{Memory, Name, Refusal};
use bal_tree::SourceFile;
use manifests::Manifest;
use package_imports::{Home, least_cycle, module_order};
use std::alloc::Global;

/// The modules of a package by their numbers: their names, and which ones each imports; the number of the module of each file; and the
/// order of the modules.
#[derive(Drop)]
pub(crate) struct Linked {
    pub(crate) names: Vec<Name>,
    pub(crate) numbers: Vec<usize>,
    pub(crate) next: Vec<Vec<usize>>,
    pub(crate) order: Vec<usize>,
}

/// What linking the modules of a package comes to.
#[derive(Drop)]
pub(crate) enum Link {
    Refused(Refusal),
    Ordered(Linked),
}

/// What the imports of these files name, whose modules are in these folders.
pub(crate) fn link_modules(
    alloc: Global,
    manifest: &Manifest,
    sources: &[Source],
    folders: &[Name],
    read: &[SourceFile],
) -> Result<Link, Memory>
    requires read { AreSources read.now }
    requires modules { AreModules (folders_in sources.now) folders.now }
    ensures link { IfOk result (λ link. (taken : List Taken) → AreRead 0 taken read.now → folders_of taken ≡ folders_in sources.now → IsLink manifest.now folders.now taken read.now link) }
    ensures few { IfOk result IsOfFew }
{
    let count = folders.len();
    if count > MOST_MODULES {
        let refusal = too_large(alloc, count as u64)?;
        return Ok(Link::Refused(refusal));
    }
    let home = home_of(alloc, manifest, folders)?;
    link_few(alloc, &home, manifest, sources, folders, read)
}

/// The same, where there are not too many modules and imports name them so.
fn link_few(
    alloc: Global,
    home: &Home,
    manifest: &Manifest,
    sources: &[Source],
    folders: &[Name],
    read: &[SourceFile],
) -> Result<Link, Memory>
    requires few { length folders.now ≤ MOST_MODULES }
    requires home { home.now ≡ home_of manifest.now folders.now }
    requires read { AreSources read.now }
    requires modules { AreModules (folders_in sources.now) folders.now }
    ensures link { IfOk result (λ link. (taken : List Taken) → AreRead 0 taken read.now → folders_of taken ≡ folders_in sources.now → IsLink manifest.now folders.now taken read.now link) }
    ensures few { IfOk result IsOfFew }
{
    let found = import_fault(alloc, home, read)?;
    match found {
        Some(refusal) => Ok(Link::Refused(refusal)),
        None => {
            let names = module_names(alloc, manifest, folders)?;
            let numbers = module_numbers(alloc, sources, folders)?;
            in_order(alloc, home, names, numbers, read)
        }
    }
}

/// The same, where no import is refused and the modules have these names, the files modules of these numbers.
fn in_order(
    alloc: Global,
    home: &Home,
    names: Vec<Name>,
    numbers: Vec<usize>,
    read: &[SourceFile],
) -> Result<Link, Memory>
    requires { length home.now.paths < length names.items }
    ensures { IfOk result (λ link. IsOrdering names.items numbers.items (graph_in home.now numbers.items read.now (length names.items)) link) }
{
    let next = graph(alloc, home, names.len(), numbers.as_slice(), read)?;
    ordered(alloc, names, numbers, next)
}

/// The same, where each module imports those that `next` has for it.
fn ordered(
    alloc: Global,
    names: Vec<Name>,
    numbers: Vec<usize>,
    next: Vec<Vec<usize>>,
) -> Result<Link, Memory>
    requires inside { IsInside (map (λ v. v.items) next.items) }
    requires count { length next.items ≡ length names.items }
    requires some { 0 < length next.items }
    ensures { IfOk result (λ link. IsOrdering names.items numbers.items (map (λ v. v.items) next.items) link) }
{
    let found = cycle_fault(alloc, names.as_slice(), next.as_slice())?;
    match found {
        Some(refusal) => Ok(Link::Refused(refusal)),
        None => {
            let order = module_order(alloc, next.as_slice())?;
            Ok(Link::Ordered(Linked {
                names,
                numbers,
                next,
                order,
            }))
        }
    }
}

/// By module which modules it imports. `numbers` has the number of the module of each file.
fn graph(
    alloc: Global,
    home: &Home,
    count: usize,
    numbers: &[usize],
    read: &[SourceFile],
) -> Result<Vec<Vec<usize>>, Memory>
    ensures { IfOk result (λ next. map (λ v. v.items) next.items ≡ graph_from home.now (numbered numbers.now 0 read.now) 0 count) }
{
    let mut next = Vec::new(alloc);
    for number in 0..count {
        let all = imports_of(alloc, home, numbers, read, number)?;
        next.push(all)?;
    }
    Ok(next)
}

/// Which modules the module with this number imports, file by file.
fn imports_of(
    alloc: Global,
    home: &Home,
    numbers: &[usize],
    read: &[SourceFile],
    number: usize,
) -> Result<Vec<usize>, Memory>
    ensures { IfOk result (λ all. all.items ≡ imports_of home.now (numbered numbers.now 0 read.now) number) }
{
    let mut all = Vec::new(alloc);
    for place in 0..read.len() {
        let is_its = number_at(numbers, place) == number;
        add_imports(alloc, home, &read[place], is_its, &mut all)?;
    }
    Ok(all)
}

/// What the file imports, behind those of `all`, if it is one of the module.
fn add_imports(
    alloc: Global,
    home: &Home,
    file: &SourceFile,
    is_its: bool,
    all: &mut Vec<usize>,
) -> Result<(), Memory>
    ensures { OnOk result (all.new.items ≡ all.old.items ++ (if is_its then imported home.now file.now.tree.imports.items else [])) }
{
    if is_its {
        return home.add_imports(alloc, file.tree.imports.as_slice(), all);
    }
    Ok(())
}

fn number_at(numbers: &[usize], place: usize) -> usize
    ensures { result ≡ get_or numbers.now place 0 }
{
    match numbers.get(place) {
        Some(number) => *number,
        None => 0,
    }
}

/// The refusal of modules that import one another, if they do.
fn cycle_fault(
    alloc: Global,
    names: &[Name],
    next: &[Vec<usize>],
) -> Result<Option<Refusal>, Memory>
    ensures { IfOk result (λ found. IsCycleTold names.now (map (λ v. v.items) next.now) found) }
{
    let found = least_cycle(alloc, next)?;
    match found {
        Some(cycle) => {
            let shown = names_at(alloc, names, cycle.as_slice())?;
            let refusal = cyclic(alloc, shown)?;
            Ok(Some(refusal))
        }
        None => Ok(None),
    }
}

/// The names with these numbers.
fn names_at(alloc: Global, names: &[Name], numbers: &[usize]) -> Result<Vec<Name>, Memory>
    ensures { IfOk result (λ all. all.items ≡ map (λ i. get_or names.now i []) numbers.now) }
{
    let mut all = Vec::new(alloc);
    for number in numbers {
        let name = name_at(alloc, names, *number)?;
        all.push(name)?;
    }
    Ok(all)
}

fn name_at(alloc: Global, names: &[Name], number: usize) -> Result<Name, Memory>
    ensures { IfOk result (λ name. name ≡ get_or names.now number []) }
{
    match names.get(number) {
        Some(name) => Ok(name.share()),
        None => no_name(alloc),
    }
}
