//! The question about the result of the function `main` in its place among the faults of names.
ghost use Rattle.std.specs.Prelude.{◌≡◌, length};
ghost use Rattle.bal_tree.specs.declared.package.Package.{Package as Whole};
ghost use Rattle.checks.specs.Checks.{Comes};
ghost use Rattle.descriptors.specs.Steps.{AreOwnTypes};
ghost use Rattle.name_resolution.specs.Definitions.{definitions_of};
ghost use Rattle.name_resolution.specs.Excerpts.{HasSameImports, IsExcerpt};
ghost use Rattle.graphs.specs.Ordering.{IsOrder};
ghost use Rattle.name_resolution.specs.Outlines.{outlines_of};
ghost use Rattle.name_resolution.specs.Reached.{is_reached};
ghost use Rattle.name_resolution.specs.Resolved.{parts};
ghost use Rattle.type_builder.specs.Listing.{IsListing};
ghost use Rattle.type_builder.specs.MainInPlace.{IsToldFirst, result_fits};
ghost use Rattle.type_builder.specs.Passes.{AreNamed, HaveRoom};
ghost use Rattle.type_builder.specs.inner.Telling.{IsFirstStop, IsRest, IsStop, IsStopOf, IsUnasked};
ghost use Rattle.type_model.specs.Calls.{KeepsTypes};

use crate::building::define_all;
use crate::main_function::listed_fits;
use crate::placed::{Listing, excerpt_definitions};
use crate::room::room;
use bal_base::{Fault, Memory, Stop};
use bal_tree::Package;
use descriptors::{OwnTypes, own_types};
use name_resolution::{Excerpt, main_excerpt};
use std::alloc::Global;
use type_model::Types;

/// Which fault is told where there is one in names: that of the question about the result of `main` where this can be asked before it,
/// or else the one in names. The atoms of what `main` reaches are added where it is asked.
pub(crate) fn first_told<T: Types>(
    alloc: Global,
    types: &mut T,
    package: &Package,
    behind: Fault,
) -> Stop<Fault>
    ensures told { IsStop (λ told. IsToldFirst T.passes «package».now behind (T.atoms types.old) told (T.atoms types.new)) result }
    ensures kept { KeepsTypes (T.atoms types.old) (T.atoms types.new) }
{
    match main_excerpt(alloc, package) {
        Ok(Some(excerpt)) => asked(alloc, types, package, &excerpt, behind),
        Ok(None) => Stop::Fault(behind),
        Err(Memory) => Stop::Memory,
    }
}

/// The same of what `main` reaches, which is without fault and makes up a package (`whole`).
fn asked<T: Types>(
    alloc: Global,
    types: &mut T,
    package: &Package,
    excerpt: &Excerpt,
    behind: Fault,
) -> Stop<Fault>
    ghost whole: { Whole }
    requires excerpt { IsExcerpt (is_reached excerpt.now.away.items) «package».now whole }
    requires named { AreNamed whole }
    requires order { IsOrder (parts (outlines_of whole)) excerpt.now.order.items }
    ensures told { IsStop (IsStopOf T.passes whole behind (T.atoms types.old) (T.atoms types.new)) result }
    ensures kept { KeepsTypes (T.atoms types.old) (T.atoms types.new) }
{
    match own_types(alloc, types) {
        Ok(own) => asked_with(alloc, types, package, excerpt, own, behind),
        Err(stop) => unless_memory(stop, behind),
    }
}

/// The same behind the language's own types.
fn asked_with<T: Types>(
    alloc: Global,
    types: &mut T,
    package: &Package,
    excerpt: &Excerpt,
    own: OwnTypes,
    behind: Fault,
) -> Stop<Fault>
    ghost whole: { Whole }
    requires excerpt { IsExcerpt (is_reached excerpt.now.away.items) «package».now whole }
    requires named { AreNamed whole }
    requires order { IsOrder (parts (outlines_of whole)) excerpt.now.order.items }
    requires own { AreOwnTypes (T.atoms types.old) own }
    ensures told { IsStop (IsRest T.passes whole own behind (T.atoms types.old) (T.atoms types.new)) result }
    ensures kept { KeepsTypes (T.atoms types.old) (T.atoms types.new) }
{
    let first = types.env().defs().len() as u32;
    let listing = match excerpt_definitions(alloc, package, first, excerpt) {
        Ok(listing) => listing,
        Err(Memory) => return Stop::Memory,
    };
    match room(first as usize, &listing.places) {
        Ok(()) => {
            let asked = question(alloc, types, package, &listing, &excerpt.order, own);
            first_of(asked, behind)
        }
        Err(stop) => unless_memory(stop, behind),
    }
}

/// Whether the result of `main` is as it has to be, over the atoms of the definitions that are listed.
fn question<T: Types>(
    alloc: Global,
    types: &mut T,
    package: &Package,
    listing: &Listing,
    order: &[usize],
    own: OwnTypes,
) -> Result<(), Stop<Fault>>
    ghost whole: { Whole }
    requires main { whole.main ≡ «package».now.main }
    requires imports { HasSameImports «package».now whole }
    requires named { AreNamed whole }
    requires listed { IsListing (definitions_of whole) listing.now }
    requires order { IsOrder (parts (outlines_of whole)) order.now }
    requires first { listing.now.first ≡ length (T.atoms types.old) }
    requires own { AreOwnTypes (T.atoms types.old) own }
    requires room { HaveRoom (length (T.atoms types.old)) whole }
    ensures comes { Comes (result_fits T.passes whole own) (T.atoms types.old) result (T.atoms types.new) }
    ensures kept { KeepsTypes (T.atoms types.old) (T.atoms types.new) }
{
    let names = define_all(alloc, types, package, listing, order, own)?;
    listed_fits(alloc, types, listing, &names, package.main)
}

/// The fault behind, where a fault stopped a call that asked nothing.
fn unless_memory(stop: Stop<Fault>, behind: Fault) -> Stop<Fault>
    ensures { IsUnasked stop behind result }
{
    match stop {
        Stop::Fault(_) => Stop::Fault(behind),
        Stop::Memory => Stop::Memory,
    }
}

/// What the question came to, or else the fault behind.
fn first_of(asked: Result<(), Stop<Fault>>, behind: Fault) -> Stop<Fault>
    ensures { IsFirstStop asked behind result }
{
    match asked {
        Ok(()) => Stop::Fault(behind),
        Err(stop) => stop,
    }
}
