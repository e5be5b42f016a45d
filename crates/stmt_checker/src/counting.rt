//! How many functions a package defines.
#![tactic(auto)]

ghost use Rattle.std.specs.Prelude.{◌≡◌, ◌+◌, IfOk};
ghost use Rattle.name_resolution.specs.Definitions.{functions_in as functions_in_def};
ghost use Rattle.package_checks.specs.Checked.{functions_of as functions_of_package};
ghost use Rattle.stmt_checker.specs.Counting.{with_defs as defs_from, with_files as files_from, with_modules as modules_from};

use bal_base::Memory;
use bal_tree::{Def, Module, Package, SourceFile};

/// So many of those defined by a definition.
fn functions_in(def: &Def) -> u32
    ensures { result ≡ functions_in_def def.now }
{
    match def {
        Def::Type(_) | Def::Const(_) | Def::Variable(_) => 0,
        Def::Function(_) => 1,
    }
}

/// The sum. More than a number may tell are want of memory.
fn plus(count: u32, more: u32) -> Result<u32, Memory>
    ensures { IfOk result (λ n. n ≡ count + more) }
{
    if count > u32::MAX - more {
        return Err(Memory);
    }
    Ok(count + more)
}

/// So many, and those of the definitions.
fn with_defs(start: u32, defs: &[Def]) -> Result<u32, Memory>
    ensures { IfOk result (λ n. n ≡ defs_from start defs.now) }
{
    let mut count = start;
    for def in defs {
        count = plus(count, functions_in(def))?;
    }
    Ok(count)
}

/// So many, and those of the files.
fn with_files(start: u32, files: &[SourceFile]) -> Result<u32, Memory>
    ensures { IfOk result (λ n. n ≡ files_from start files.now) }
{
    let mut count = start;
    for file in files {
        count = with_defs(count, file.tree.defs.as_slice())?;
    }
    Ok(count)
}

/// So many, and those of the modules.
fn with_modules(start: u32, modules: &[Module]) -> Result<u32, Memory>
    ensures { IfOk result (λ n. n ≡ modules_from start modules.now) }
{
    let mut count = start;
    for module in modules {
        count = with_files(count, module.files.as_slice())?;
    }
    Ok(count)
}

/// How many functions the package defines. Takes no memory, and costs by its definitions.
pub(crate) fn functions_of(package: &Package) -> Result<u32, Memory>
    ensures { IfOk result (λ n. n ≡ functions_of_package «package».now) }
{
    with_modules(0, package.modules.as_slice())
}
