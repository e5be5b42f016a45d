//! The modules of source files.
ghost use Rattle.std.specs.Prelude.{◌≡◌, ◌||◌, ℕ, List, [], IfOk, map};
ghost use Rattle.std.specs.BTreeMap.{values};
ghost use Rattle.std.specs.BTreeSet.{contains};
ghost use Rattle.std.specs.Cmp.Lexicographic.{slice_cmp};
ghost use Rattle.std.specs.List.{list_any};
ghost use Rattle.std.specs.List.Sorted.{IsStrictlySortedBy};
ghost use Rattle.std.specs.Ordering.{nat_cmp};
ghost use Rattle.std.specs.Str.{bytes_eq};
ghost use Rattle.package_modules.specs.Modules.{AreModules};

use bal_base::{Memory, Name, Text};
use package_files::Found;
use std::alloc::Global;
use std::collections::{BTreeMap, BTreeSet};

/// The modules of the source files, by their names: the default one, which has no characters, and those in which files are. Its cost
/// grows with the number of files, and little with that of modules.
pub fn modules_of(alloc: Global, sources: &BTreeMap<Text, Found>) -> Result<Vec<Name>, Memory>
    ensures { IfOk result (λ names. AreModules (map (λ f. f.«module») (values sources.now)) names.items) }
{
    let folders = folders_of(alloc, sources)?;
    let known = each_once(alloc, folders.as_slice())?;
    names_in(alloc, &known)
}

/// The module of each file.
fn folders_of(alloc: Global, sources: &BTreeMap<Text, Found>) -> Result<Vec<Name>, Memory>
    ensures { IfOk result (λ folders. folders.items ≡ map (λ f. f.«module») (values sources.now)) }
{
    let mut folders = Vec::new(alloc);
    for found in sources.values() {
        folders.push(found.module.share())?;
    }
    Ok(folders)
}

/// These and the default module, each once.
fn each_once(alloc: Global, folders: &[Name]) -> Result<BTreeSet<Text>, Memory>
    ensures { IfOk result (λ known. (q : List ℕ) → contains (slice_cmp nat_cmp) known q ≡ (bytes_eq q [] || list_any (bytes_eq q) folders.now)) }
{
    let mut known = BTreeSet::new(alloc);
    known.insert(Text::new(alloc, "")?)?;
    for folder in folders {
        known.insert(folder.as_text().share())?;
    }
    Ok(known)
}

/// The names, in order.
fn names_in(alloc: Global, known: &BTreeSet<Text>) -> Result<Vec<Name>, Memory>
    ensures are { IfOk result (λ names. names.items ≡ known.now.keys) }
    ensures rising { IfOk result (λ names. IsStrictlySortedBy (slice_cmp nat_cmp) names.items) }
{
    let mut names = Vec::new(alloc);
    for name in known.iter() {
        names.push(Name::of(name.share()))?;
    }
    Ok(names)
}
