//! What the function `main` has to give.
ghost use Rattle.std.specs.Prelude.{◌≡◌, IfOk, Some as Present, map};
ghost use Rattle.std.specs.Option.{option_copied};
ghost use Rattle.bal_tree.specs.declared.package.Package.{Package as Whole};
ghost use Rattle.checks.specs.Checks.{Comes};
ghost use Rattle.descriptors.specs.Described.{Atoms};
ghost use Rattle.descriptors.specs.Naming.{entry_in};
ghost use Rattle.name_resolution.specs.Definitions.{definitions_of};
ghost use Rattle.type_builder.specs.Listing.{IsListing, first_main, main_at as main_at_place, placed_of};
ghost use Rattle.type_builder.specs.MainFunction.{IsErrorOrNil, ResultsAreDefined, gives_errors, good_if, if_main, main_among as main_among_of, main_fits, main_fits_if, main_if as main_if_of, main_in_files as main_in_files_of, main_of as main_of_package, result_in as result_in_names, result_of as result_of_meaning};
ghost use Rattle.type_model.specs.Defined.{IsDefined};

use crate::placed::{Listing, Site};
use bal_base::{Fault, FaultCode, Kept, Memory, Name, Place, Stop};
use bal_tree::{Def, FunctionDef, Package, SourceFile};
use checks::is_below;
use descriptors::{Entry, Meaning, Names};
use name_resolution::is_main;
use std::alloc::Global;
use type_model::{BasicSet, SemType, Types};

/// Whether the function `main`, where the default module has one, gives nothing but errors and nil: else `BadMain` at its first
/// token. `TypeLimit` there where the question about what it gives is too large.
pub fn check_main<T: Types>(
    alloc: Global,
    types: &mut T,
    package: &Package,
    names: &Names,
) -> Result<(), Stop<Fault>>
    requires defined { ResultsAreDefined (T.atoms types.old) names.now «package».now.main }
    ensures atoms { T.atoms types.new ≡ T.atoms types.old }
    ensures comes { Comes (main_fits T.passes «package».now names.now) (T.atoms types.old) result (T.atoms types.new) }
{
    match main_of(package) {
        Some(f) => function_fits(alloc, types, names, package.main, f),
        None => Ok(()),
    }
}

/// The same of the definitions that are listed, which are those of a package (`whole`) with the default module `home`.
pub(crate) fn listed_fits<T: Types>(
    alloc: Global,
    types: &mut T,
    listing: &Listing,
    names: &Names,
    home: u32,
) -> Result<(), Stop<Fault>>
    ghost whole: { Whole }
    requires main { whole.main ≡ home }
    requires listed { IsListing (definitions_of whole) listing.now }
    requires defined { ResultsAreDefined (T.atoms types.old) names.now home }
    ensures atoms { T.atoms types.new ≡ T.atoms types.old }
    ensures comes { Comes (main_fits T.passes whole names.now) (T.atoms types.old) result (T.atoms types.new) }
{
    match main_listed(&listing.sites, home) {
        Some(f) => function_fits(alloc, types, names, home, f),
        None => Ok(()),
    }
}

fn function_fits<T: Types>(
    alloc: Global,
    types: &mut T,
    names: &Names,
    home: u32,
    f: &FunctionDef,
) -> Result<(), Stop<Fault>>
    requires defined { ResultsAreDefined (T.atoms types.old) names.now home }
    ensures atoms { T.atoms types.new ≡ T.atoms types.old }
    ensures comes { Comes (main_fits_if T.passes names.now home (Present f.now)) (T.atoms types.old) result (T.atoms types.new) }
{
    match result_in(names, home, &f.name.name) {
        Some(given) => below_errors(alloc, types, given, f.at),
        None => Ok(()),
    }
}

/// Whether what a function gives is an error or nil.
fn below_errors<T: Types>(
    alloc: Global,
    types: &mut T,
    given: &SemType,
    at: Place,
) -> Result<(), Stop<Fault>>
    requires defined { IsDefined (T.atoms types.old) given.now }
    ensures atoms { T.atoms types.new ≡ T.atoms types.old }
    ensures comes { Comes (gives_errors T.passes given.now at) (T.atoms types.old) result (T.atoms types.new) }
{
    let errors = match errors_or_nil(alloc) {
        Ok(errors) => errors,
        Err(Memory) => return Err(Stop::Memory),
    };
    match is_below(alloc, types, given, &errors, Some(at)) {
        Ok(fits) => good(at, fits),
        Err(stop) => Err(stop),
    }
}

fn errors_or_nil(alloc: Global) -> Result<SemType, Memory>
    ensures { IfOk result (λ t. (env : Atoms) → IsErrorOrNil env t) }
{
    let errors = Box::new(alloc, SemType::Basic(BasicSet::ErrorAll))?;
    let nil = Box::new(alloc, SemType::Basic(BasicSet::Nil))?;
    Ok(SemType::Or(errors, nil))
}

/// `BadMain` unless the function fits.
#[tactic(auto, unfolding(checks::specs::Checks::Comes, checks::specs::Checks::gives_some, checks::specs::Checks::refuses))]
fn good(at: Place, fits: bool) -> Result<(), Stop<Fault>>
    ensures { (env : Atoms) → Comes (good_if at fits) env result env }
{
    if fits {
        Ok(())
    } else {
        Err(Stop::Fault(Fault {
            code: FaultCode::BadMain,
            at: Some(at),
            kept: Kept::Nothing,
        }))
    }
}

// ---- what functions give

/// What a function of a module gives.
fn result_in<'a>(names: &'a Names, home: u32, name: &Name) -> Option<&'a SemType>
    ensures { option_copied result ≡ result_in_names names.now home name.now }
{
    result_of(&entry(names, home, name)?.meaning)
}

fn entry<'a>(names: &'a Names, home: u32, name: &Name) -> Option<&'a Entry>
    ensures { option_copied result ≡ entry_in names.now name.now home }
{
    names.modules.get(home as usize)?.entries.get(name)
}

fn result_of(meaning: &Meaning) -> Option<&SemType>
    ensures { option_copied result ≡ result_of_meaning meaning.now }
{
    match meaning {
        Meaning::Function(f) => Some(&f.result.sem),
        Meaning::TypeName(_) | Meaning::Constant(_) | Meaning::Variable { .. } => None,
    }
}

// ---- which function it is

/// The first function `main` of the module `home` among these definitions.
fn main_listed<'s>(sites: &'s [Site<'_>], home: u32) -> Option<&'s FunctionDef>
    ensures { option_copied result ≡ first_main home (map placed_of sites.now) }
{
    for site in sites {
        if let Some(f) = main_at(site, home) {
            return Some(f);
        }
    }
    None
}

fn main_at<'s>(site: &'s Site<'_>, home: u32) -> Option<&'s FunctionDef>
    ensures { option_copied result ≡ main_at_place home (placed_of site.now) }
{
    if site.module == home as usize {
        main_if(site.def)
    } else {
        None
    }
}

/// The function `main` of the default module.
fn main_of(package: &Package) -> Option<&FunctionDef>
    ensures { option_copied result ≡ main_of_package «package».now }
{
    main_in_files(
        package
            .modules
            .as_slice()
            .get(package.main as usize)?
            .files
            .as_slice(),
    )
}

fn main_in_files(files: &[SourceFile]) -> Option<&FunctionDef>
    ensures { option_copied result ≡ main_in_files_of files.now }
{
    for file in files {
        if let Some(f) = main_among(&file.tree.defs) {
            return Some(f);
        }
    }
    None
}

fn main_among(defs: &[Def]) -> Option<&FunctionDef>
    ensures { option_copied result ≡ main_among_of defs.now }
{
    for def in defs {
        if let Some(f) = main_if(def) {
            return Some(f);
        }
    }
    None
}

fn main_if(def: &Def) -> Option<&FunctionDef>
    ensures { option_copied result ≡ main_if_of def.now }
{
    match def {
        Def::Function(f) => named_main(f),
        Def::Type(_) | Def::Const(_) | Def::Variable(_) => None,
    }
}

fn named_main(f: &FunctionDef) -> Option<&FunctionDef>
    ensures { option_copied result ≡ if_main f.now }
{
    if is_main(&f.name.name) { Some(f) } else { None }
}
