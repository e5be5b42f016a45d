//! The files that are read, among those that were listed.
ghost use Rattle.std.specs.Prelude.{◌≡◌, ◌++◌, ◌∷◌, ◌↔◌, [], ℕ, List, IfOk, IsTrue, OnOk, Some, None, length};
ghost use Rattle.package_files.specs.Listings.{IsListing, first_number, manifest_name};
ghost use Rattle.package_files.specs.Names.{module_of as module_in};

use crate::names::module_of;
use bal_base::{Memory, Name, Text};
use std::alloc::Global;
use std::collections::BTreeMap;

/// A source file that was found.
#[derive(Drop)]
pub struct Found {
    /// The file's number in the folder.
    pub number: u32,
    /// Its module.
    pub module: Name,
}

/// What is read of the files that were listed.
#[derive(Drop)]
pub struct Listing {
    /// The source files, by their names.
    pub sources: BTreeMap<Text, Found>,
    /// The number of the manifest, if there is one.
    pub manifest: Option<u32>,
}

impl Listing {
    /// Nothing was listed yet. Takes no memory.
    pub fn new(alloc: Global) -> Listing
        ensures { IsListing [] result }
    {
        Listing {
            sources: BTreeMap::new(alloc),
            manifest: None,
        }
    }

    /// One more file was listed, with the number that is next. Of several files with one name the first counts. After `Memory` the listing
    /// is as it was. Its cost grows with the length of the name, and little with the number of files.
    pub fn add(&mut self, alloc: Global, name: Name, number: u32) -> Result<(), Memory>
        ensures { (names : List (List ℕ)) → IsListing names self.old → length names ≡ number → OnOk result (IsListing (names ++ name ∷ []) self.new) }
    {
        match module_of(alloc, &name)? {
            Some(module) => self.add_source(&name, Found { number, module }),
            None => {
                self.add_other(&name, number);
                Ok(())
            }
        }
    }

    fn add_source(&mut self, name: &Name, found: Found) -> Result<(), Memory>
        ensures { (names : List (List ℕ)) → IsListing names self.old → length names ≡ found.number → module_in name.now ≡ Some found.«module» → OnOk result (IsListing (names ++ name.now ∷ []) self.new) }
    {
        if self.sources.contains_key(name.as_text()) {
            return Ok(());
        }
        self.sources.insert(name.as_text().share(), found)?;
        Ok(())
    }

    fn add_other(&mut self, name: &Name, number: u32)
        ensures { (names : List (List ℕ)) → IsListing names self.old → length names ≡ number → module_in name.now ≡ None → IsListing (names ++ name.now ∷ []) self.new }
    {
        if is_manifest(name) {
            self.add_manifest(number);
        }
    }

    fn add_manifest(&mut self, number: u32)
        ensures sources { self.new.sources ≡ self.old.sources }
        ensures manifest { self.new.manifest ≡ first_number self.old.manifest number }
    {
        match self.manifest {
            Some(_) => {}
            None => self.manifest = Some(number),
        }
    }
}

fn is_manifest(name: &Name) -> bool
    ensures { IsTrue result ↔ (name.now ≡ manifest_name) }
{
    name.as_str() == "Ballerina.toml"
}
