//! What the names of a package stand for.

use bal_base::Name;
use indexmap::IndexMap;
use type_model::{Ty, TyList};

/// What the names of a package stand for: those of its modules, the prefixes of its files, and the types that the language itself
/// names.
#[derive(Drop)]
pub struct Names {
    pub own: OwnTypes,
    pub modules: Vec<ModuleNames>,
}

/// The types of the language that need atoms.
#[derive(Drop)]
pub struct OwnTypes {
    /// `anydata`
    pub anydata: Ty,
    /// The atom of all lists, `(any|error)[]`.
    pub any_members: u32,
    /// The atom of all mappings, `map<any|error>`.
    pub any_fields: u32,
    /// The atom of all isolated functions.
    pub isolated: u32,
}

/// The names that a module defines, and the prefixes of its files.
#[derive(Drop)]
pub struct ModuleNames {
    pub entries: IndexMap<Name, Entry>,
    pub files: Vec<FileNames>,
}

/// The prefixes of a file's imports.
#[derive(Drop)]
pub struct FileNames {
    pub prefixes: IndexMap<Name, Source>,
}

/// What a prefix stands for.
#[derive(Clone, Copy)]
pub enum Source {
    /// The library.
    Library,
    /// The module of the package with this number.
    Module(u32),
}

/// What a module defines under a name.
#[derive(Drop)]
pub struct Entry {
    pub public: bool,
    pub meaning: Meaning,
}

/// What a name stands for.
#[derive(Drop)]
pub enum Meaning {
    /// A type.
    TypeName(Ty),
    /// A constant, with the type of its value alone.
    Constant(Ty),
    /// A variable of a module, with its number among those of the package, from 0 in text order, and its declared type.
    Variable { number: u32, is_final: bool, ty: Ty },
    /// A function.
    Function(Signature),
}

/// The signature of a function.
#[derive(Drop)]
pub struct Signature {
    /// The function's number, from 0 in text order.
    pub unit: u32,
    pub isolated: bool,
    pub params: TyList,
    pub rest: Option<Ty>,
    pub result: Ty,
    /// The number of the atom of the function's own type.
    pub arrow: u32,
    /// The number of the atom of the lists of what takes the rest, or of the empty list where nothing does.
    pub lists: u32,
    /// The number of the atom of the futures of its result.
    pub future: u32,
}

/// Where a descriptor stands: in a module, and in one of its files, where the file is known.
#[derive(Clone, Copy)]
pub struct Scope {
    /// The module's number.
    pub module: usize,
    /// The file's number among those of the module.
    pub file: Option<usize>,
}
