//! What the definitions of a package say of names.
ghost use Rattle.std.specs.Prelude.{◌≡◌, ◌++◌, ◌∷◌, [], IfOk, List, None, OnOk, fold, if◌then◌else◌, ℕ};
ghost use Rattle.std.specs.List.{flat_map};
ghost use Rattle.std.specs.Option.{option_or};
ghost use Rattle.type_model.specs.Places.{is_same_text};
ghost use Rattle.name_resolution.specs.Mentions.{sources};
ghost use Rattle.descriptors.specs.Naming.{file_source};
ghost use Rattle.name_resolution.specs.Outlines.{const_mentions, file_outlines, function_mentions, import_source, outline_of, outlines_from, outlines_of, param_mentions, rest_mentions, source_of, type_mentions, variable_mentions};
ghost use Rattle.name_resolution.specs.declared.mentions.Mention.TheVariants.{Own};

use crate::main_form::may_be_main;
use crate::mentions::{Mention, Reader};
use bal_base::{Memory, Name, Place, Row};
use bal_tree::{
    ConstDef, Def, FileTree, FunctionDef, Import, Module, Package, Param, SourceFile, TypeDef,
    VariableDef, Word,
};
use descriptors::{FileNames, Source};
use indexmap::IndexMap;
use package_imports::{Linked, Target, prefix};
use std::alloc::Global;

/// What a definition defines.
#[derive(Clone, Copy)]
pub(crate) enum Kind {
    TypeName,
    Constant,
    Variable,
    Function,
}

/// What a definition says of names.
#[derive(Drop)]
pub(crate) struct Outline {
    /// The number of its module.
    pub(crate) module: usize,
    pub(crate) kind: Kind,
    pub(crate) public: bool,
    pub(crate) name: Name,
    /// The place of its first token.
    pub(crate) at: Place,
    /// What it mentions of names, in text order.
    pub(crate) mentions: Row<Mention>,
    /// Whether a function may be `main`; true of all else.
    pub(crate) may_be_main: bool,
}

/// What the definitions of a package say of names, in text order.
pub(crate) fn package_outlines(alloc: Global, package: &Package) -> Result<Vec<Outline>, Memory>
    ensures { IfOk result (λ made. made.items ≡ outlines_of «package».now) }
{
    let home = Linked::new(alloc, package)?;
    modules_outlines(alloc, &home, package.modules.as_slice())
}

fn modules_outlines(
    alloc: Global,
    home: &Linked,
    modules: &[Module],
) -> Result<Vec<Outline>, Memory>
    ensures { IfOk result (λ made. made.items ≡ outlines_from home.now 0 modules.now) }
{
    let mut out = Vec::new(alloc);
    for (number, module) in modules.iter().enumerate() {
        module_outlines(alloc, home, &mut out, number, module)?;
    }
    Ok(out)
}

fn module_outlines(
    alloc: Global,
    home: &Linked,
    out: &mut Vec<Outline>,
    number: usize,
    module: &Module,
) -> Result<(), Memory>
    ensures { OnOk result (out.new.items ≡ out.old.items ++ flat_map (λ file. file_outlines home.now number file.tree) «module».now.files) }
{
    for file in module.files.as_slice() {
        outlines_in_file(alloc, home, out, number, file)?;
    }
    Ok(())
}

fn outlines_in_file(
    alloc: Global,
    home: &Linked,
    out: &mut Vec<Outline>,
    number: usize,
    file: &SourceFile,
) -> Result<(), Memory>
    ensures { OnOk result (out.new.items ≡ out.old.items ++ file_outlines home.now number file.now.tree) }
{
    let prefixes = prefixes(alloc, home, &file.tree.imports)?;
    let reader = Reader {
        alloc,
        module: number,
        file: &prefixes,
    };
    for def in &file.tree.defs {
        out.push(reader.outline(def)?)?;
    }
    Ok(())
}

/// What the prefixes of a file stand for, by its imports, in the package whose modules `home` names. Its cost grows with the number of
/// imports times that of modules.
pub fn prefixes(alloc: Global, home: &Linked, imports: &[Import]) -> Result<FileNames, Memory>
    ensures { IfOk result (λ made. (prefix : List ℕ) → file_source prefix made ≡ import_source home.now imports.now prefix) }
{
    let mut names = FileNames {
        prefixes: IndexMap::new(alloc),
    };
    for import in imports {
        let source = source_of(home.target(alloc, import)?)?;
        note(&mut names, prefix(import), source)?;
    }
    Ok(names)
}

/// What stands under a prefix where an import names this. A number that has more than 32 bits, as no package is so large, is want of
/// memory.
fn source_of(target: Option<Target>) -> Result<Option<Source>, Memory>
    ensures { IfOk result (λ source. source ≡ source_of target) }
{
    match target {
        None => Ok(None),
        Some(Target::Library) => Ok(Some(Source::Library)),
        Some(Target::Module(number)) => match u32::try_from(number) {
            Ok(number) => Ok(Some(Source::Module(number))),
            Err(_) => Err(Memory),
        },
    }
}

/// The prefix stands for this from here on, if it stands for nothing so far.
fn note(names: &mut FileNames, prefix: &Name, source: Option<Source>) -> Result<(), Memory>
    ensures { OnOk result ((name : List ℕ) → file_source name names.new ≡ option_or (file_source name names.old) (if is_same_text name prefix.now then source else None)) }
{
    let Some(source) = source else {
        return Ok(());
    };
    if names.source(prefix).is_none() {
        names.prefixes.insert(prefix.share(), source)?;
    }
    Ok(())
}

impl Reader<'_> {
    fn outline(&self, def: &Def) -> Result<Outline, Memory>
        ensures { IfOk result (λ made. made ≡ outline_of self.now.«module» (sources self.now.file.now) def.now) }
    {
        match def {
            Def::Type(d) => Ok(Outline {
                module: self.module,
                kind: Kind::TypeName,
                public: d.public,
                name: d.name.name.share(),
                at: d.at,
                mentions: self.type_def(d)?,
                may_be_main: true,
            }),
            Def::Const(d) => Ok(Outline {
                module: self.module,
                kind: Kind::Constant,
                public: d.public,
                name: d.name.name.share(),
                at: d.at,
                mentions: self.const_def(d)?,
                may_be_main: true,
            }),
            Def::Variable(d) => Ok(Outline {
                module: self.module,
                kind: Kind::Variable,
                public: d.public,
                name: d.name.name.share(),
                at: d.at,
                mentions: self.variable_def(d)?,
                may_be_main: true,
            }),
            Def::Function(d) => Ok(Outline {
                module: self.module,
                kind: Kind::Function,
                public: d.public,
                name: d.name.name.share(),
                at: d.at,
                mentions: self.function_def(d)?,
                may_be_main: may_be_main(d),
            }),
        }
    }

    fn type_def(&self, d: &TypeDef) -> Result<Row<Mention>, Memory>
        ensures { IfOk result (λ made. made ≡ type_mentions self.now.«module» (sources self.now.file.now) d.now) }
    {
        let mut out = Vec::new(self.alloc);
        own(&mut out, &d.name)?;
        self.type_tree(&mut out, false, &d.ty)?;
        Ok(Row::of(out))
    }

    fn const_def(&self, d: &ConstDef) -> Result<Row<Mention>, Memory>
        ensures { IfOk result (λ made. made ≡ const_mentions self.now.«module» (sources self.now.file.now) d.now) }
    {
        let mut out = Vec::new(self.alloc);
        self.type_if(&mut out, false, &d.ty)?;
        own(&mut out, &d.name)?;
        Ok(Row::of(out))
    }

    fn variable_def(&self, d: &VariableDef) -> Result<Row<Mention>, Memory>
        ensures { IfOk result (λ made. made ≡ variable_mentions self.now.«module» (sources self.now.file.now) d.now) }
    {
        let mut out = Vec::new(self.alloc);
        self.type_tree(&mut out, false, &d.ty)?;
        own(&mut out, &d.name)?;
        Ok(Row::of(out))
    }

    fn function_def(&self, d: &FunctionDef) -> Result<Row<Mention>, Memory>
        ensures { IfOk result (λ made. made ≡ function_mentions self.now.«module» (sources self.now.file.now) d.now) }
    {
        let mut out = Vec::new(self.alloc);
        own(&mut out, &d.name)?;
        self.params(&mut out, &d.params.params)?;
        self.rest_param(&mut out, &d.params.rest)?;
        self.type_if(&mut out, false, &d.result)?;
        Ok(Row::of(out))
    }

    fn params(&self, out: &mut Vec<Mention>, params: &[Param]) -> Result<(), Memory>
        ensures { OnOk result (out.new.items ≡ fold (param_mentions self.now.«module» (sources self.now.file.now)) out.old.items params.now) }
    {
        for p in params {
            self.type_tree(out, false, &p.ty)?;
        }
        Ok(())
    }

    fn rest_param(&self, out: &mut Vec<Mention>, rest: &Option<Param>) -> Result<(), Memory>
        ensures { OnOk result (out.new.items ≡ rest_mentions self.now.«module» (sources self.now.file.now) rest.now out.old.items) }
    {
        match rest {
            None => Ok(()),
            Some(p) => self.type_tree(out, false, &p.ty),
        }
    }
}

/// The name that a definition gives.
fn own(out: &mut Vec<Mention>, name: &Word) -> Result<(), Memory>
    ensures { OnOk result (out.new.items ≡ out.old.items ++ Own name.now.at ∷ []) }
{
    out.push(Mention::Own { at: name.at })?;
    Ok(())
}
