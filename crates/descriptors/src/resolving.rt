//! What a name stands for in a descriptor, as it is seen from a module and a file.
ghost use Rattle.std.specs.Prelude.{◌≡◌, IfOk, IfErr, Ok as Found, Err as Wrong};
ghost use Rattle.std.specs.Option.{option_copied};
ghost use Rattle.descriptors.specs.Naming.{file_source, first_source as first_source_of, source_in, module_of as module_of_source, home_of, imported as imported_as, entry_in, as_type as type_of, meaning_named, source_named, type_named as type_named_in};

use crate::names::{Entry, FileNames, Meaning, ModuleNames, Names, Scope, Source};
use bal_base::{FaultCode, Name};
use bal_tree::{Prefix, QualifiedName};
use type_model::Ty;

impl FileNames {
    /// What the prefix stands for in the file.
    pub fn source(&self, prefix: &Name) -> Option<Source>
        ensures { result ≡ file_source prefix.now self.now }
    {
        self.prefixes.get(prefix).copied()
    }
}

/// What the prefix stands for in the first file that has it.
fn first_source(files: &[FileNames], prefix: &Name) -> Option<Source>
    ensures { result ≡ first_source_of prefix.now files.now }
{
    for file in files {
        if let Some(source) = file.source(prefix) {
            return Some(source);
        }
    }
    None
}

impl ModuleNames {
    fn source(&self, file: Option<usize>, prefix: &Name) -> Option<Source>
        ensures { result ≡ source_in prefix.now file self.now }
    {
        match file {
            Some(file) => self.files.get(file)?.source(prefix),
            None => first_source(&self.files, prefix),
        }
    }
}

impl Source {
    /// The module of the package for which it stands, if it is one.
    pub fn module(self) -> Option<u32>
        ensures { result ≡ module_of_source self }
    {
        match self {
            Source::Library => None,
            Source::Module(number) => Some(number),
        }
    }
}

impl Meaning {
    /// The type that stands under the name, or why there is none.
    fn as_type(&self) -> Result<&Ty, FaultCode>
        ensures found { IfOk result (λ t. type_of self.now ≡ Found t.now) }
        ensures none { IfErr result (λ code. type_of self.now ≡ Wrong code) }
    {
        match self {
            Meaning::TypeName(ty) => Ok(ty),
            Meaning::Constant(ty) => Ok(ty),
            Meaning::Variable { .. } => Err(FaultCode::Unknown),
            Meaning::Function(_) => Err(FaultCode::Unknown),
        }
    }
}

impl Names {
    /// What a prefix stands for, seen from a module and a file: the library or a module of the package, if it stands
    /// for anything.
    pub fn source(&self, scope: Scope, prefix: &Name) -> Option<Source>
        ensures { result ≡ source_named self.now scope prefix.now }
    {
        self.modules.get(scope.module)?.source(scope.file, prefix)
    }

    /// The module for which a prefix stands.
    fn imported(&self, scope: Scope, prefix: &Name) -> Option<usize>
        ensures { result ≡ imported_as self.now scope prefix.now }
    {
        Some(self.source(scope, prefix)?.module()? as usize)
    }

    /// The module in which a name with this prefix is sought.
    fn home(&self, scope: Scope, prefix: &Option<Prefix>) -> Option<usize>
        ensures { result ≡ home_of self.now scope prefix.now }
    {
        match prefix {
            Some(Prefix::Word(prefix)) => self.imported(scope, &prefix.name),
            Some(Prefix::Int { .. }) => None,
            None => Some(scope.module),
        }
    }

    /// What a module defines under a name.
    fn entry(&self, module: usize, name: &Name) -> Option<&Entry>
        ensures { option_copied result ≡ entry_in self.now name.now «module» }
    {
        self.modules.get(module)?.entries.get(name)
    }

    /// What a name stands for, a type, a constant, a variable or a function, seen from a module and a file (Ballerina
    /// specification, section 8): `Unknown` where it stands for nothing, and `NotPublic` where it is another module's
    /// and isn't public.
    pub fn meaning(&self, scope: Scope, name: &QualifiedName) -> Result<&Meaning, FaultCode>
        ensures found { IfOk result (λ m. meaning_named self.now scope name.now ≡ Found m.now) }
        ensures none { IfErr result (λ code. meaning_named self.now scope name.now ≡ Wrong code) }
    {
        let Some(home) = self.home(scope, &name.prefix) else {
            return Err(FaultCode::Unknown);
        };
        let Some(entry) = self.entry(home, &name.word.name) else {
            return Err(FaultCode::Unknown);
        };
        if home == scope.module || entry.public {
            Ok(&entry.meaning)
        } else {
            Err(FaultCode::NotPublic)
        }
    }

    /// The type that a name stands for in a descriptor: `Unknown` or `NotPublic` where it stands for none.
    pub(crate) fn type_named(&self, scope: Scope, name: &QualifiedName) -> Result<&Ty, FaultCode>
        ensures found { IfOk result (λ t. type_named_in self.now scope name.now ≡ Found t.now) }
        ensures none { IfErr result (λ code. type_named_in self.now scope name.now ≡ Wrong code) }
    {
        self.meaning(scope, name)?.as_type()
    }
}
