//! The package of files that were read.
ghost use Rattle.std.specs.Prelude.{◌≡◌, ℕ, List, IfOk, nat_eq, position, slice_get};
ghost use Rattle.package_modules.specs.Modules.{AreModules};
ghost use Rattle.module_loader.specs.Faults.{IsLinkFault};
ghost use Rattle.module_loader.specs.Files.{AreRead, Taken};
ghost use Rattle.module_loader.specs.Loading.{IfRefused};
ghost use Rattle.module_loader.specs.Packages.{Makes, folders_of};
ghost use Rattle.module_loader.specs.inner.Begun.{AreSources};
ghost use Rattle.module_loader.specs.inner.Linked.{IsOfFiles, IsOrderOfFew, IsPutTogether};
ghost use Rattle.module_loader.specs.inner.Sources.{folders_in};

use crate::faults::{LoadFault, refused};
use crate::linking::{Link, Linked, link_modules};
use crate::sources::Source;
use bal_base::{Memory, Name, Stop};
use bal_tree::{Package, SourceFile};
use manifests::Manifest;
use package_making::modules;
use std::alloc::Global;

/// The package of these files, which were read and whose modules are in these folders.
pub(crate) fn make(
    alloc: Global,
    manifest: Manifest,
    sources: &[Source],
    folders: &[Name],
    read: Vec<SourceFile>,
) -> Result<Package, Stop<LoadFault>>
    requires read { AreSources read.items }
    requires modules { AreModules (folders_in sources.now) folders.now }
    ensures files { IsOfFiles result }
    ensures package { IfOk result (λ p. (taken : List Taken) → AreRead 0 taken read.items → folders_of taken ≡ folders_in sources.now → Makes manifest taken read.items p) }
    ensures rest { IfRefused result (λ r after. after ≡ read.items) }
    ensures refused { IfRefused result (λ r after. (taken : List Taken) → AreRead 0 taken read.items → folders_of taken ≡ folders_in sources.now → IsLinkFault manifest folders.now taken read.items r) }
{
    let link = link_modules(alloc, &manifest, sources, folders, read.as_slice())?;
    match link {
        Link::Refused(refusal) => Err(refused(refusal, read)),
        Link::Ordered(linked) => {
            let made = package(alloc, manifest, linked, read)?;
            Ok(made)
        }
    }
}

/// The package of these modules and files.
fn package(
    alloc: Global,
    manifest: Manifest,
    linked: Linked,
    read: Vec<SourceFile>,
) -> Result<Package, Memory>
    requires { IsOrderOfFew linked.order.items }
    ensures { IfOk result (λ p. IsPutTogether manifest linked read.items p) }
{
    let order = linked.order.as_slice();
    let main = place_of_main(order);
    let modules = modules(
        alloc,
        linked.names.as_slice(),
        linked.next.as_slice(),
        order,
        linked.numbers.as_slice(),
        read,
    )?;
    Ok(Package {
        name: manifest.name,
        org: manifest.org,
        modules,
        main,
    })
}

/// Where the default module stands, whose number is 0.
fn place_of_main(order: &[usize]) -> u32
    requires { IsOrderOfFew order.now }
    ensures { slice_get order.now result ≡ Some 0 }
{
    match place_in(order) {
        Some(place) => place as u32,
        None => 0,
    }
}

fn place_in(order: &[usize]) -> Option<usize>
    ensures { result ≡ position (λ number. nat_eq number 0) order.now }
{
    order.iter().position(|number| *number == 0)
}
