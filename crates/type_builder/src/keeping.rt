//! The first pass: the types that definitions define, each by itself.
ghost use Rattle.std.specs.Prelude.{◌≡◌, ◌<◌, ◌≤◌, [], IfOk, List, OnOk, length, map, ℕ};
ghost use Rattle.bal_base.specs.Stops.{IfFault};
ghost use Rattle.bal_base.specs.declared.limits.TheConstants.{MOST_ATOMS as most};
ghost use Rattle.descriptors.specs.Drafts.{AreNamesBelow};
ghost use Rattle.bal_tree.specs.declared.package.Package.{Package as Whole};
ghost use Rattle.name_resolution.specs.Definitions.{definitions_of};
ghost use Rattle.name_resolution.specs.Excerpts.{HasSameImports};
ghost use Rattle.graphs.specs.Ordering.{IsOrder};
ghost use Rattle.name_resolution.specs.Outlines.{outlines_of};
ghost use Rattle.name_resolution.specs.Resolved.{parts};
ghost use Rattle.type_builder.specs.Keeping.{AreKept};
ghost use Rattle.type_builder.specs.Listing.{IsListing, placed_of};
ghost use Rattle.type_builder.specs.Passes.{AreNamed, HaveRoom, IsEmptyFrom, IsKept, IsOwnBelow, end_of};

use crate::flat::flat;
use crate::noting::{first_names, note};
use crate::placed::{Listing, Site};
use bal_base::{Fault, Stop};
use bal_tree::{Def, Package};
use descriptors::{Draft, Meaning, Names, OwnTypes, type_tree};
use std::alloc::Global;

/// What names stand for, as far as types and constants go: each type is drafted by itself from the number of its own first atom on,
/// those of which it is put together before it. The atoms are dropped: what stands inside them may not have its type yet. The
/// definitions are those of a package with the modules of this one (`whole`).
pub(crate) fn kept_types(
    alloc: Global,
    package: &Package,
    listing: &Listing,
    order: &[usize],
    own: OwnTypes,
) -> Result<Names, Stop<Fault>>
    ghost whole: { Whole }
    requires imports { HasSameImports «package».now whole }
    requires named { AreNamed whole }
    requires listed { IsListing (definitions_of whole) listing.now }
    requires order { IsOrder (parts (outlines_of whole)) order.now }
    requires room { HaveRoom listing.now.first whole }
    requires own { IsOwnBelow listing.now.first own }
    ensures below { IfOk result (λ names. AreNamesBelow names (end_of listing.now.first whole)) }
    ensures kept { IfOk result (AreKept whole own listing.now.first) }
    ensures faultless { IfFault result (λ f. ⊥) }
{
    let mut names = first_names(alloc, package, &listing.sites, own)?;
    for number in order {
        if let Some(site) = listing.sites.get(*number) {
            keep(alloc, &mut names, site)?;
        }
    }
    Ok(names)
}

/// The type of a type definition, drafted from its own first atom on, with its union flat.
fn keep(alloc: Global, names: &mut Names, site: &Site) -> Result<(), Stop<Fault>>
    requires placed { site.now.«module» < length names.old.modules.items }
    requires room { site.now.first ≤ most }
    ensures { IsKept site.now.first (placed_of site.now) names.old result names.new }
{
    match site.def {
        Def::Type(d) => {
            let mut draft = new_draft(alloc, site.first);
            let t = type_tree(alloc, &mut draft, names, site.scope(), &d.ty)?;
            let kept = flat(alloc, &t)?;
            note(names, site, Meaning::TypeName(kept))?;
            Ok(())
        }
        Def::Const(_) | Def::Variable(_) | Def::Function(_) => Ok(()),
    }
}

/// A draft without atoms, from this number on.
pub(crate) fn new_draft(alloc: Global, first: usize) -> Draft
    requires { first ≤ most }
    ensures { IsEmptyFrom first result }
{
    Draft {
        first: first as u32,
        atoms: Vec::new(alloc),
    }
}
