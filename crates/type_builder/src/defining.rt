//! The second pass: all definitions in text order, which gives their atoms, and what variables and functions are.
ghost use Rattle.std.specs.Prelude.{◌≡◌, ◌+◌, ◌++◌, ◌<◌, IfOk, List, OnOk, Some as Present, length, ℕ};
ghost use Rattle.bal_base.specs.Stops.{IfFault};
ghost use Rattle.bal_tree.specs.declared.package.Package.{Package as Whole};
ghost use Rattle.descriptors.specs.Described.{Atoms};
ghost use Rattle.descriptors.specs.Drafts.{AreNamesBelow, AreSound};
ghost use Rattle.descriptors.specs.Naming.{entry_in};
ghost use Rattle.descriptors.specs.Steps.{AreOwnTypes, MeaningBelow};
ghost use Rattle.descriptors.specs.declared.names.Entry.{Entry as AnyEntry};
ghost use Rattle.name_resolution.specs.Definitions.{definitions_of};
ghost use Rattle.type_builder.specs.Building.{AreNamesOf};
ghost use Rattle.type_builder.specs.Keeping.{AreKept};
ghost use Rattle.type_builder.specs.Listing.{IsListing, placed_of};
ghost use Rattle.type_builder.specs.Passes.{AreNamed, HaveRoom, IsValueNoted, end_of};

use crate::earlier::Earlier;
use crate::keeping::new_draft;
use crate::meanings::meaning;
use crate::noting::note;
use crate::placed::{Listing, Site};
use bal_base::{Fault, Memory, Stop};
use bal_tree::Def;
use descriptors::{Meaning, Names};
use std::alloc::Global;
use type_model::AtomDef;

/// The atoms of the definitions of a package (`whole`), in the order of their numbers; and what variables and functions stand for.
pub(crate) fn define(
    alloc: Global,
    listing: &Listing,
    names: &mut Names,
) -> Result<Vec<AtomDef>, Stop<Fault>>
    ghost whole: { Whole }
    requires named { AreNamed whole }
    requires listed { IsListing (definitions_of whole) listing.now }
    requires room { HaveRoom listing.now.first whole }
    requires kept { AreKept whole names.old.own listing.now.first names.old }
    requires below { AreNamesBelow names.old (end_of listing.now.first whole) }
    ensures defined { IfOk result (λ group. (old : Atoms) → length old ≡ listing.now.first → AreOwnTypes (old ++ group.items) names.old.own → AreNamesOf whole names.old.own old group.items names.new) }
    ensures long { IfOk result (λ group. listing.now.first + length group.items ≡ end_of listing.now.first whole) }
    ensures sound { IfOk result (λ group. AreSound (listing.now.first + length group.items) group.items) }
    ensures meanings { IfOk result (λ group. (home : ℕ) (name : List ℕ) (e : AnyEntry) → entry_in names.new name home ≡ Present e → MeaningBelow (end_of listing.now.first whole) e.meaning) }
    ensures faultless { IfFault result (λ f. ⊥) }
{
    let mut draft = new_draft(alloc, listing.first as usize);
    let mut before = Earlier {
        functions: 0,
        variables: 0,
    };
    for site in &listing.sites {
        let meant = meaning(alloc, &mut draft, names, site.scope(), before, site.def)?;
        note_value(names, site, meant)?;
        before = before.with(site.def)?;
    }
    Ok(draft.atoms)
}

/// From here on a variable or a function stands for this; types and constants are left.
fn note_value(names: &mut Names, site: &Site, meaning: Meaning) -> Result<(), Memory>
    requires { site.now.«module» < length names.old.modules.items }
    ensures { OnOk result (IsValueNoted (placed_of site.now) site.now.def.now meaning names.old names.new) }
{
    match site.def {
        Def::Type(_) | Def::Const(_) => Ok(()),
        Def::Variable(_) | Def::Function(_) => note(names, site, meaning),
    }
}
