//! What imports name in a package that is put together.
ghost use Rattle.std.specs.Prelude.{◌≡◌, IfOk, option_map, position};
ghost use Rattle.package_imports.specs.Imports.{path_of};
ghost use Rattle.package_imports.specs.InPackage.{is_path, linked as linked_of, module_named, path_in, paths_from, target_named};

use crate::targets::{Target, behind_dot, is_io, is_own, is_same, path};
use bal_base::{Memory, Name};
use bal_tree::{Import, Module, Package};
use std::alloc::Global;
use std::marker::Model;

/// A package that is put together, as its imports name its modules.
#[derive(Drop)]
pub struct Linked {
    org: Option<Name>,
    // by number, the path by which each module is imported; none of the default one
    paths: Vec<Option<Name>>,
}

impl Model for Linked {
    ghost use Rattle.package_imports.specs.InPackage.{Linked as LinkedOf};

    ghost Value = { LinkedOf };

    ghost view = { λ l. record { org = l.org; paths = l.paths.items } };
}

impl Linked {
    /// The package's modules by their numbers. Its cost grows with their number.
    pub fn new(alloc: Global, package: &Package) -> Result<Linked, Memory>
        ensures { IfOk result (λ l. l ≡ linked_of «package».now) }
    {
        let paths = paths_in(alloc, package)?;
        Ok(Linked {
            org: shared(&package.org),
            paths,
        })
    }

    /// What the import names, if it names anything. Its cost grows with the number of modules.
    pub fn target(&self, alloc: Global, import: &Import) -> Result<Option<Target>, Memory>
        ensures { IfOk result (λ t. t ≡ target_named self.now import.now) }
    {
        let path = path(alloc, import)?;
        Ok(self.target_at(import, &path))
    }

    /// What an import with this path names.
    fn target_at(&self, import: &Import, path: &Name) -> Option<Target>
        requires { path.now ≡ path_of import.now }
        ensures { result ≡ target_named self.now import.now }
    {
        if is_io(import, path) {
            return Some(Target::Library);
        }
        self.module(import, path)
    }

    fn module(&self, import: &Import, path: &Name) -> Option<Target>
        requires { path.now ≡ path_of import.now }
        ensures { result ≡ option_map Target.Module (module_named self.now import.now) }
    {
        if !is_own(&self.org, import) {
            return None;
        }
        match self.place_of(path) {
            Some(place) => Some(Target::Module(place)),
            None => None,
        }
    }

    /// The number of the first module with this path.
    fn place_of(&self, path: &Name) -> Option<usize>
        ensures { result ≡ position (is_path path.now) self.now.paths }
    {
        self.paths.iter().position(|known| is_path(known, path))
    }
}

/// By number, the path by which each module is imported.
fn paths_in(alloc: Global, package: &Package) -> Result<Vec<Option<Name>>, Memory>
    ensures { IfOk result (λ paths. paths.items ≡ paths_from «package».now 0 «package».now.modules) }
{
    let mut paths = Vec::new(alloc);
    for (number, module) in package.modules.as_slice().iter().enumerate() {
        paths.push(path_in(alloc, package, number, module)?)?;
    }
    Ok(paths)
}

/// The path by which the module with this number is imported.
fn path_in(
    alloc: Global,
    package: &Package,
    number: usize,
    module: &Module,
) -> Result<Option<Name>, Memory>
    ensures { IfOk result (λ path. path ≡ path_in «package».now number «module».now) }
{
    if number == package.main as usize {
        return Ok(None);
    }
    Ok(Some(behind_dot(alloc, &package.name, &module.name)?))
}

fn shared(name: &Option<Name>) -> Option<Name>
    ensures { result ≡ name.now }
{
    match name {
        Some(name) => Some(name.share()),
        None => None,
    }
}

fn is_path(known: &Option<Name>, path: &Name) -> bool
    ensures { result ≡ is_path path.now known.now }
{
    match known {
        Some(known) => is_same(known, path),
        None => false,
    }
}
