//! Definitions in text order, each with where it stands and the number of its first atom.
ghost use Rattle.std.specs.Prelude.{◌≡◌, ◌∷◌, [], IfOk, OnOk, Some as Present, map};
ghost use Rattle.descriptors.specs.Steps.{scope_of};
ghost use Rattle.name_resolution.specs.Definitions.{definitions_of, in_files, is_public as is_public_def, name_of, placed};
ghost use Rattle.name_resolution.specs.Excerpts.{picked};
ghost use Rattle.name_resolution.specs.Reached.{is_reached};
ghost use Rattle.type_builder.specs.Listing.{IsListing, Lists, if_wanted, placed_of};

use crate::atom_places::def_places;
use bal_base::{Memory, Name, Place};
use bal_tree::{Def, Module, Package, SourceFile};
use descriptors::Scope;
use name_resolution::Excerpt;
use std::alloc::Global;

/// A definition, the number of its module, that of its file in the module, and that of its first atom.
#[derive(Drop)]
pub(crate) struct Site<'a> {
    pub(crate) module: usize,
    pub(crate) file: usize,
    pub(crate) first: usize,
    pub(crate) def: &'a Def,
}

/// Definitions in text order, and the places of their atoms, which are numbered from `first` on.
#[derive(Drop)]
pub(crate) struct Listing<'a> {
    pub(crate) first: u32,
    pub(crate) places: Vec<Place>,
    pub(crate) sites: Vec<Site<'a>>,
}

impl Site<'_> {
    /// Where its descriptors stand.
    pub(crate) fn scope(&self) -> Scope
        ensures { result ≡ scope_of self.now.«module» (Present self.now.file) }
    {
        Scope {
            module: self.module,
            file: Some(self.file),
        }
    }

    pub(crate) fn name(&self) -> &Name
        ensures { result.now ≡ name_of self.now.def.now }
    {
        match self.def {
            Def::Type(d) => &d.name.name,
            Def::Const(d) => &d.name.name,
            Def::Variable(d) => &d.name.name,
            Def::Function(d) => &d.name.name,
        }
    }

    pub(crate) fn is_public(&self) -> bool
        ensures { result ≡ is_public_def self.now.def.now }
    {
        match self.def {
            Def::Type(d) => d.public,
            Def::Const(d) => d.public,
            Def::Variable(d) => d.public,
            Def::Function(d) => d.public,
        }
    }
}

/// The definitions of a package in text order, whose atoms are numbered from `first` on.
pub(crate) fn definitions(
    alloc: Global,
    package: &Package,
    first: u32,
) -> Result<Listing<'_>, Memory>
    ensures listed { IfOk result (IsListing (definitions_of «package».now)) }
    ensures first { IfOk result (λ made. made.first ≡ first) }
{
    let mut out = Listing {
        first,
        places: Vec::new(alloc),
        sites: Vec::new(alloc),
    };
    for (module, m) in package.modules.as_slice().iter().enumerate() {
        out.files(module, m.files.as_slice())?;
    }
    Ok(out)
}

/// Those of them that an excerpt has, in text order, whose atoms are numbered from `first` on.
pub(crate) fn excerpt_definitions<'a>(
    alloc: Global,
    package: &'a Package,
    first: u32,
    excerpt: &Excerpt,
) -> Result<Listing<'a>, Memory>
    ensures listed { IfOk result (IsListing (picked (is_reached excerpt.now.away.items) 0 (definitions_of «package».now))) }
    ensures first { IfOk result (λ made. made.first ≡ first) }
{
    let whole = definitions(alloc, package, first)?;
    let mut out = Listing {
        first,
        places: Vec::new(alloc),
        sites: Vec::new(alloc),
    };
    for (number, site) in whole.sites.iter().enumerate() {
        out.site_if(excerpt.has(number), site)?;
    }
    Ok(out)
}

impl<'a> Listing<'a> {
    /// A definition that is listed elsewhere, if it is wanted.
    fn site_if(&mut self, wanted: bool, site: &Site<'a>) -> Result<(), Memory>
        ensures { OnOk result (Lists (if_wanted wanted (placed_of site.now)) self.old self.new) }
    {
        if wanted {
            self.def(site.module, site.file, site.def)
        } else {
            Ok(())
        }
    }

    fn files(&mut self, module: usize, files: &'a [SourceFile]) -> Result<(), Memory>
        ensures { OnOk result (Lists (in_files «module» 0 files.now) self.old self.new) }
    {
        for (file, f) in files.iter().enumerate() {
            self.defs(module, file, &f.tree.defs)?;
        }
        Ok(())
    }

    fn defs(&mut self, module: usize, file: usize, defs: &'a [Def]) -> Result<(), Memory>
        ensures { OnOk result (Lists (map (placed «module» file) defs.now) self.old self.new) }
    {
        for def in defs {
            self.def(module, file, def)?;
        }
        Ok(())
    }

    fn def(&mut self, module: usize, file: usize, def: &'a Def) -> Result<(), Memory>
        ensures { OnOk result (Lists (placed «module» file def.now ∷ []) self.old self.new) }
    {
        self.sites.push(Site {
            module,
            file,
            first: self.first as usize + self.places.len(),
            def,
        })?;
        def_places(&mut self.places, def)
    }
}
