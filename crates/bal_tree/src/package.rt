//! Packages: modules, and their source files with the trees.
ghost use Rattle.std.specs.Prelude.{◌≡◌};
ghost use Rattle.std.specs.Option.{option_copied};
ghost use Rattle.bal_tree.specs.Files.{file_in, file_numbered};

use crate::def::FileTree;
use bal_base::{Name, Numbers, Row, Text};

/// A package.
#[derive(Drop)]
pub struct Package {
    pub name: Name,
    /// The organisation, where one is named.
    pub org: Option<Name>,
    pub modules: Modules,
    /// The number of the default module.
    pub main: u32,
}

/// A module of a package.
#[derive(Drop)]
pub struct Module {
    pub name: Name,
    /// The numbers of the modules that it imports.
    pub imports: Numbers,
    pub files: Files,
}

/// A source file of a module.
#[derive(Drop)]
pub struct SourceFile {
    pub name: Name,
    pub text: Text,
    pub tree: FileTree,
}

/// Modules, as those of a package.
pub type Modules = Row<Module>;

/// Source files, as those of a module.
pub type Files = Row<SourceFile>;

/// The file with this number, as its places have it, of any of the modules; the first one. Its cost grows with the number of files.
pub fn file_in(modules: &[Module], number: u32) -> Option<&SourceFile>
    ensures { option_copied result ≡ file_in number modules.now }
{
    for module in modules {
        if let Some(file) = file_numbered(module.files.as_slice(), number) {
            return Some(file);
        }
    }
    None
}

/// The first of these files that has this number.
pub fn file_numbered(files: &[SourceFile], number: u32) -> Option<&SourceFile>
    ensures { option_copied result ≡ file_numbered number files.now }
{
    files.iter().find(|file| file.tree.at.file == number)
}
