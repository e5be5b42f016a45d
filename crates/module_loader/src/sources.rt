//! The source files of a folder, taken down in order.
ghost use Rattle.std.specs.Prelude.{◌≡◌, ℕ, List, All, IfOk, map};
ghost use Rattle.std.specs.BTreeMap.{IsOrdered, values};
ghost use Rattle.std.specs.Cmp.Lexicographic.{slice_cmp};
ghost use Rattle.std.specs.Ordering.{nat_cmp};
ghost use Rattle.folder_files.specs.Files.{Files, names};
ghost use Rattle.package_files.specs.Listings.{IsListing, found_at};
ghost use Rattle.module_loader.specs.Files.{AreTaken};
ghost use Rattle.module_loader.specs.inner.Sources.{AreThere, folders_in, source_of, taken_in};

use bal_base::{Memory, Name, Text};
use package_files::{Found, Listing};
use std::alloc::Global;
use std::collections::BTreeMap;

/// A source file that was found in a folder.
#[derive(Drop)]
pub(crate) struct Source {
    /// Its name in the folder.
    pub(crate) name: Name,
    /// Its module.
    pub(crate) folder: Name,
    /// Its number in the folder.
    pub(crate) number: u32,
}

/// The source files of a listing, in the order of their names.
pub(crate) fn sources_of(alloc: Global, listing: &Listing) -> Result<Vec<Source>, Memory>
    ensures taken { IfOk result (λ found. (files : Files) → IsListing (names files) listing.now → AreTaken files (taken_in files found.items)) }
    ensures there { IfOk result (λ found. (files : Files) → IsListing (names files) listing.now → AreThere files found.items) }
    ensures folders { IfOk result (λ found. folders_in found.items ≡ map (λ f. f.«module») (values listing.now.sources)) }
{
    taken_down(alloc, &listing.sources)
}

/// What entries say, one after another.
fn taken_down(alloc: Global, entries: &BTreeMap<Text, Found>) -> Result<Vec<Source>, Memory>
    ensures are { IfOk result (λ found. found.items ≡ map source_of entries.now.entries) }
    ensures ordered { IsOrdered (slice_cmp nat_cmp) entries.now }
    ensures found { All (λ e. found_at entries.now e.0 ≡ Some e.1) entries.now.entries }
{
    let mut found = Vec::new(alloc);
    for (name, file) in entries {
        found.push(entry_source(name, file))?;
    }
    Ok(found)
}

fn entry_source(name: &Text, file: &Found) -> Source
    ensures { result ≡ source_of (name.now, file.now) }
{
    Source {
        name: Name::of(name.share()),
        folder: file.module.share(),
        number: file.number,
    }
}
