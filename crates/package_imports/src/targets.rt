//! What imports name.
ghost use Rattle.std.specs.Prelude.{◌≡◌, ◌<◌, ◌^◌, ◌++◌, ◌∷◌, [], IfOk, IfSome, OnOk, map, option_map, position, true};
ghost use Rattle.std.specs.Char.{is_ascii};
ghost use Rattle.std.specs.List.{cons_option, list_all};
ghost use Rattle.package_imports.specs.Imports.{dotted, first_unknown as unknown_among, imported, is_known, is_library, is_org, is_own_org, is_same, module_number, org_of, own_module, path_of, path_to, target_of, word_or};

use bal_base::{Memory, Name, Place, Text};
use bal_tree::{Import, Word};
use std::alloc::Global;
use std::marker::Model;

/// What an import names.
#[derive(Clone, Copy)]
pub enum Target {
    /// The module `io` of the library.
    Library,
    /// A module of the package, by its number.
    Module(usize),
}

/// A package, as its imports name its modules.
#[derive(Drop)]
pub struct Home {
    org: Option<Name>,
    // the path by which each module behind the default one is imported
    paths: Vec<Name>,
}

impl Model for Home {
    ghost use Rattle.package_imports.specs.Imports.{Home as HomeOf};

    ghost Value = { HomeOf };

    ghost view = { λ h. record { org = h.org; paths = h.paths.items } };
}

impl Home {
    /// The package with this name and this organisation, and with modules in these folders behind the default one.
    pub fn new(
        alloc: Global,
        name: &Name,
        org: Option<Name>,
        folders: &[Name],
    ) -> Result<Home, Memory>
        ensures { IfOk result (λ h. h ≡ record { org = org; paths = map (path_to name.now) folders.now }) }
    {
        let paths = paths_to(alloc, name, folders)?;
        Ok(Home { org, paths })
    }

    /// What the import names, if it names anything. Its cost grows with the number of modules.
    pub fn target(&self, alloc: Global, import: &Import) -> Result<Option<Target>, Memory>
        ensures { IfOk result (λ t. t ≡ target_of self.now import.now) }
    {
        let path = path(alloc, import)?;
        Ok(self.target_at(import, &path))
    }

    /// The modules of the package that these imports name, one for each import of one, behind those of `out`.
    pub fn add_imports(
        &self,
        alloc: Global,
        imports: &[Import],
        out: &mut Vec<usize>,
    ) -> Result<(), Memory>
        ensures { OnOk result (out.new.items ≡ out.old.items ++ imported self.now imports.now) }
    {
        for import in imports {
            self.add_import(alloc, import, out)?;
        }
        Ok(())
    }

    /// The module that an import names, if it names one of the package, behind those of `out`.
    fn add_import(&self, alloc: Global, import: &Import, out: &mut Vec<usize>) -> Result<(), Memory>
        ensures { OnOk result (out.new.items ≡ out.old.items ++ cons_option (module_number (target_of self.now import.now)) []) }
    {
        let target = self.target(alloc, import)?;
        match module_number(target) {
            Some(number) => {
                out.push(number)?;
                Ok(())
            }
            None => Ok(()),
        }
    }

    /// What an import with this path names.
    fn target_at(&self, import: &Import, path: &Name) -> Option<Target>
        requires { path.now ≡ path_of import.now }
        ensures { result ≡ target_of self.now import.now }
    {
        if is_io(import, path) {
            return Some(Target::Library);
        }
        self.own_module(import, path)
    }

    fn own_module(&self, import: &Import, path: &Name) -> Option<Target>
        requires { path.now ≡ path_of import.now }
        ensures { result ≡ option_map Target.Module (own_module self.now import.now) }
    {
        if !is_own(&self.org, import) {
            return None;
        }
        match self.place_of(path) {
            Some(place) => Some(Target::Module(place + 1)),
            None => None,
        }
    }

    /// The place of the first module with this path.
    fn place_of(&self, path: &Name) -> Option<usize>
        ensures place { result ≡ position (λ known. is_same known path.now) self.now.paths }
        ensures small { IfSome result (λ place. place < 2 ^ 63) }
    {
        self.paths.iter().position(|known| is_same(known, path))
    }
}

/// Whether the import may name a module of a package of this organisation.
pub(crate) fn is_own(own: &Option<Name>, import: &Import) -> bool
    ensures { result ≡ is_own_org own.now (org_of import.now) }
{
    match &import.second {
        Some(_) => is_of(own, &import.first.name),
        None => true,
    }
}

fn is_of(own: &Option<Name>, org: &Name) -> bool
    ensures { result ≡ is_org org.now own.now }
{
    match own {
        Some(own) => is_same(own, org),
        None => false,
    }
}

/// The place of the first import of a file that names nothing.
pub fn first_unknown(
    alloc: Global,
    home: &Home,
    imports: &[Import],
) -> Result<Option<Place>, Memory>
    ensures { IfOk result (λ at. at ≡ unknown_among home.now imports.now) }
{
    for import in imports {
        let target = home.target(alloc, import)?;
        if !is_known(target) {
            return Ok(Some(import.at));
        }
    }
    Ok(None)
}

fn is_known(target: Option<Target>) -> bool
    ensures { result ≡ is_known target }
{
    match target {
        Some(_) => true,
        None => false,
    }
}

fn module_number(target: Option<Target>) -> Option<usize>
    ensures { result ≡ module_number target }
{
    match target {
        Some(target) => own_number(target),
        None => None,
    }
}

fn own_number(target: Target) -> Option<usize>
    ensures { result ≡ module_number (Some target) }
{
    match target {
        Target::Library => None,
        Target::Module(number) => Some(number),
    }
}

fn paths_to(alloc: Global, name: &Name, folders: &[Name]) -> Result<Vec<Name>, Memory>
    ensures { IfOk result (λ paths. paths.items ≡ map (path_to name.now) folders.now) }
{
    let mut paths = Vec::new(alloc);
    for folder in folders {
        paths.push(behind_dot(alloc, name, folder)?)?;
    }
    Ok(paths)
}

/// A name, a dot and another name.
pub(crate) fn behind_dot(alloc: Global, first: &Name, second: &Name) -> Result<Name, Memory>
    ensures { IfOk result (λ n. n ≡ first.now ++ 46 ∷ second.now) }
{
    let dot = Text::new(alloc, ".")?;
    let rest = Text::join(alloc, &dot, second.as_text())?;
    let whole = Text::join(alloc, first.as_text(), &rest)?;
    Ok(Name::of(whole))
}

/// What stands behind the organisation of an import, as one name.
pub(crate) fn path(alloc: Global, import: &Import) -> Result<Name, Memory>
    ensures { IfOk result (λ p. p ≡ path_of import.now) }
{
    let first = or_word(&import.second, &import.first).name.share();
    with_words(alloc, first, import.more.as_slice())
}

fn with_words(alloc: Global, first: Name, words: &[Word]) -> Result<Name, Memory>
    ensures { IfOk result (λ p. p ≡ dotted first words.now) }
{
    let mut path = first;
    for word in words {
        let longer = behind_dot(alloc, &path, &word.name)?;
        path = longer;
    }
    Ok(path)
}

pub(crate) fn or_word<'a>(word: &'a Option<Word>, other: &'a Word) -> &'a Word
    ensures { result.now ≡ word_or word.now other.now }
{
    match word {
        Some(word) => word,
        None => other,
    }
}

/// Whether the import, with this path, is `ballerina/io`.
pub(crate) fn is_io(import: &Import, path: &Name) -> bool
    requires { path.now ≡ path_of import.now }
    ensures { result ≡ is_library import.now }
{
    match &import.second {
        Some(_) => is_word(&import.first.name, "ballerina") && is_word(path, "io"),
        None => false,
    }
}

/// Whether the name is this word.
fn is_word(name: &Name, word: &str) -> bool
    requires { list_all is_ascii word.now ≡ true }
    ensures { result ≡ is_same name.now word.now }
{
    name.as_str() == word
}

pub(crate) fn is_same(a: &Name, b: &Name) -> bool
    ensures { result ≡ is_same a.now b.now }
{
    a.as_text() == b.as_text()
}
