//! What the names of a package stand for.
ghost use Rattle.std.specs.Prelude.{◌≡◌, IfOk, length};
ghost use Rattle.bal_base.specs.Stops.{IfFault};
ghost use Rattle.checks.specs.Checks.{Comes};
ghost use Rattle.descriptors.specs.Steps.{AreNames, AreOwnTypes};
ghost use Rattle.bal_tree.specs.declared.package.Package.{Package as Whole};
ghost use Rattle.name_resolution.specs.Definitions.{definitions_of};
ghost use Rattle.name_resolution.specs.Excerpts.{HasSameImports};
ghost use Rattle.graphs.specs.Ordering.{IsOrder};
ghost use Rattle.name_resolution.specs.Outlines.{outlines_of};
ghost use Rattle.name_resolution.specs.Resolved.{parts};
ghost use Rattle.type_builder.specs.Building.{defines_all};
ghost use Rattle.type_builder.specs.Listing.{IsListing};
ghost use Rattle.type_builder.specs.MainInPlace.{built, built_named};
ghost use Rattle.type_builder.specs.Passes.{AreNamed, HaveRoom};
ghost use Rattle.type_model.specs.Calls.{KeepsTypes};

use crate::defining::define;
use crate::keeping::kept_types;
use crate::main_function::check_main;
use crate::main_in_place::first_told;
use crate::placed::{Listing, definitions};
use crate::room::check_room;
use bal_base::{Fault, Stop};
use bal_tree::Package;
use checks::add;
use descriptors::{Names, OwnTypes, own_types};
use name_resolution::{check_names, parts_first};
use std::alloc::Global;
use type_model::Types;

/// What the names of a package stand for (Ballerina specification, section 6), over the atoms that are added for its definitions; or
/// the first fault: in names (`Duplicate`, `Unknown`, `NotPublic`, `IllFounded`) and in what the function `main` is (`BadMain`, and
/// `TypeLimit` where the question about its result is too large), in text order; then for want of room for atoms (`AtomLimit`).
///
/// The question about the result of `main` is asked before a fault in names that stands behind it, where nothing that `main` reaches
/// has one, and where there is room for the atoms of that; where there is no fault in names it is asked behind the room for all atoms.
pub fn build<T: Types>(
    alloc: Global,
    types: &mut T,
    package: &Package,
) -> Result<Names, Stop<Fault>>
    ensures comes { Comes (built T.passes «package».now) (T.atoms types.old) result (T.atoms types.new) }
    ensures kept { KeepsTypes (T.atoms types.old) (T.atoms types.new) }
    ensures names { IfOk result (AreNames (T.atoms types.new)) }
{
    match check_names(alloc, package) {
        Ok(()) => build_named(alloc, types, package),
        Err(Stop::Fault(behind)) => Err(first_told(alloc, types, package, behind)),
        Err(Stop::Memory) => Err(Stop::Memory),
    }
}

/// All of it behind the names, which are without fault.
fn build_named<T: Types>(
    alloc: Global,
    types: &mut T,
    package: &Package,
) -> Result<Names, Stop<Fault>>
    requires { AreNamed «package».now }
    ensures comes { Comes (built_named T.passes «package».now) (T.atoms types.old) result (T.atoms types.new) }
    ensures kept { KeepsTypes (T.atoms types.old) (T.atoms types.new) }
    ensures names { IfOk result (AreNames (T.atoms types.new)) }
{
    let own = own_types(alloc, types)?;
    check_room(alloc, types.env(), package)?;
    let names = define_package(alloc, types, package, own)?;
    check_main(alloc, types, package, &names)?;
    Ok(names)
}

/// All definitions of a package whose names are without fault, where there is room for their atoms.
fn define_package<T: Types>(
    alloc: Global,
    types: &mut T,
    package: &Package,
    own: OwnTypes,
) -> Result<Names, Stop<Fault>>
    requires named { AreNamed «package».now }
    requires own { AreOwnTypes (T.atoms types.old) own }
    requires room { HaveRoom (length (T.atoms types.old)) «package».now }
    ensures comes { Comes (defines_all «package».now own) (T.atoms types.old) result (T.atoms types.new) }
    ensures kept { KeepsTypes (T.atoms types.old) (T.atoms types.new) }
    ensures names { IfOk result (AreNames (T.atoms types.new)) }
{
    let listing = definitions(alloc, package, types.env().defs().len() as u32)?;
    let order = parts_first(alloc, package)?;
    define_all(alloc, types, package, &listing, &order, own)
}

/// The definitions that are listed, which are those of a package with the modules of this one (`whole`).
pub(crate) fn define_all<T: Types>(
    alloc: Global,
    types: &mut T,
    package: &Package,
    listing: &Listing,
    order: &[usize],
    own: OwnTypes,
) -> Result<Names, Stop<Fault>>
    ghost whole: { Whole }
    requires imports { HasSameImports «package».now whole }
    requires named { AreNamed whole }
    requires listed { IsListing (definitions_of whole) listing.now }
    requires order { IsOrder (parts (outlines_of whole)) order.now }
    requires first { listing.now.first ≡ length (T.atoms types.old) }
    requires own { AreOwnTypes (T.atoms types.old) own }
    requires room { HaveRoom (length (T.atoms types.old)) whole }
    ensures comes { Comes (defines_all whole own) (T.atoms types.old) result (T.atoms types.new) }
    ensures kept { KeepsTypes (T.atoms types.old) (T.atoms types.new) }
    ensures names { IfOk result (AreNames (T.atoms types.new)) }
{
    let mut names = kept_types(alloc, package, listing, order, own)?;
    let group = define(alloc, listing, &mut names)?;
    add(alloc, types, group, None)?;
    Ok(names)
}
