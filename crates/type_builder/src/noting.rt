//! What names stand for, definition by definition.
ghost use Rattle.std.specs.Prelude.{◌≡◌, ◌<◌, ◌≤◌, IfOk, IsTrue, List, OnOk, length, map};
ghost use Rattle.std.specs.List.{AllZip};
ghost use Rattle.type_builder.specs.Building.{IsFile, IsModule};
ghost use Rattle.bal_tree.specs.declared.package.Package.{Package as Whole};
ghost use Rattle.package_imports.specs.InPackage.{linked};
ghost use Rattle.name_resolution.specs.Definitions.{definitions_of};
ghost use Rattle.name_resolution.specs.Excerpts.{HasSameImports};
ghost use Rattle.type_builder.specs.Listing.{placed_of};
ghost use Rattle.descriptors.specs.Described.{plain as plain_of, value_set as value_set_of};
ghost use Rattle.type_builder.specs.Passes.{AreApart, AreEmpty, AreEntries, IsNoted, first_meaning as first_meaning_of, first_of};
ghost use Rattle.type_model.specs.declared.basic.BasicSet.TheVariants.{Never as IsNever};
ghost use Rattle.type_model.specs.declared.basic.SemType.{Basic as IsBasic};

use crate::placed::Site;
use bal_base::Memory;
use bal_tree::{ConstValue, Def, Module, Package, SourceFile};
use descriptors::{
    Entry, FileNames, Meaning, ModuleNames, Names, OwnTypes, literal_set, negative_set, plain,
};
use indexmap::IndexMap;
use name_resolution::prefixes;
use package_imports::Linked;
use std::alloc::Global;
use type_model::{BasicSet, SemType, Ty};

/// What names stand for before types are known: constants for that of their value, types for `never`. The definitions are those of a
/// package with the modules of this one (`whole`).
pub(crate) fn first_names(
    alloc: Global,
    package: &Package,
    sites: &[Site],
    own: OwnTypes,
) -> Result<Names, Memory>
    ghost whole: { Whole }
    requires imports { HasSameImports «package».now whole }
    requires sites { map placed_of sites.now ≡ definitions_of whole }
    requires apart { AreApart (definitions_of whole) }
    ensures { IfOk result (AreEntries whole own (map first_of (definitions_of whole))) }
{
    let mut names = Names {
        own,
        modules: modules_in(alloc, package)?,
    };
    for site in sites {
        let meaning = first_meaning(alloc, site.def);
        note(&mut names, site, meaning)?;
    }
    Ok(names)
}

/// The modules of a package without names, with the prefixes of their files.
fn modules_in(alloc: Global, package: &Package) -> Result<Vec<ModuleNames>, Memory>
    ensures files { IfOk result (λ made. AllZip (IsModule (linked «package».now)) «package».now.modules made.items) }
    ensures empty { IfOk result (λ made. AreEmpty made.items) }
{
    let home = Linked::new(alloc, package)?;
    modules(alloc, &home, package.modules.as_slice())
}

fn modules(alloc: Global, home: &Linked, modules: &[Module]) -> Result<Vec<ModuleNames>, Memory>
    ensures files { IfOk result (λ made. AllZip (IsModule home.now) modules.now made.items) }
    ensures empty { IfOk result (λ made. AreEmpty made.items) }
{
    let mut out = Vec::new(alloc);
    for module in modules {
        out.push(ModuleNames {
            entries: IndexMap::new(alloc),
            files: files(alloc, home, module.files.as_slice())?,
        })?;
    }
    Ok(out)
}

fn files(alloc: Global, home: &Linked, files: &[SourceFile]) -> Result<Vec<FileNames>, Memory>
    ensures { IfOk result (λ made. AllZip (IsFile home.now) files.now made.items) }
{
    let mut out = Vec::new(alloc);
    for file in files {
        out.push(prefixes(alloc, home, &file.tree.imports)?)?;
    }
    Ok(out)
}

/// What a definition's name stands for before its type is known.
fn first_meaning(alloc: Global, def: &Def) -> Meaning
    ensures { result ≡ first_meaning_of def.now }
{
    match def {
        Def::Type(_) => Meaning::TypeName(nothing(alloc)),
        Def::Const(d) => Meaning::Constant(plain(alloc, SemType::Basic(value_set(&d.value)))),
        Def::Variable(d) => Meaning::Variable {
            number: 0,
            is_final: d.is_final,
            ty: nothing(alloc),
        },
        Def::Function(_) => Meaning::Variable {
            number: 0,
            is_final: true,
            ty: nothing(alloc),
        },
    }
}

fn nothing(alloc: Global) -> Ty
    ensures { result ≡ plain_of (IsBasic IsNever) }
{
    plain(alloc, SemType::Basic(BasicSet::Never))
}

/// The set of a constant's value.
pub(crate) fn value_set(value: &ConstValue) -> BasicSet
    ensures { result ≡ value_set_of value.now }
{
    match value {
        ConstValue::Literal(l) => literal_set(l),
        ConstValue::Negative { int, .. } => negative_set(int),
    }
}

/// From here on the name of a definition stands for this.
pub(crate) fn note(names: &mut Names, site: &Site, meaning: Meaning) -> Result<(), Memory>
    requires { site.now.«module» < length names.old.modules.items }
    ensures { OnOk result (IsNoted (placed_of site.now) meaning names.old names.new) }
{
    let entry = Entry {
        public: site.is_public(),
        meaning,
    };
    names.modules[site.module]
        .entries
        .insert(site.name().share(), entry)?;
    Ok(())
}
