//! Imports that are refused.
ghost use Rattle.std.specs.Prelude.{◌≡◌, ℕ, List, IfOk};
ghost use Rattle.module_loader.specs.Files.{AreRead, Taken};
ghost use Rattle.module_loader.specs.Packages.{first_place, repeat_in, unknown_in};
ghost use Rattle.module_loader.specs.inner.Begun.{AreSources};
ghost use Rattle.module_loader.specs.inner.Linked.{import_refusal, refused_at};

use crate::faults::at_import;
use bal_base::{FaultCode, Memory, Place, Refusal};
use bal_tree::SourceFile;
use package_imports::{Home, first_repeat, first_unknown};
use std::alloc::Global;

/// The refusal of the imports of these files, if one is due: two of a file with one prefix, or one that names nothing.
pub(crate) fn import_fault(
    alloc: Global,
    home: &Home,
    read: &[SourceFile],
) -> Result<Option<Refusal>, Memory>
    requires { AreSources read.now }
    ensures { IfOk result (λ found. (taken : List Taken) → AreRead 0 taken read.now → found ≡ import_refusal home.now taken read.now) }
{
    let found = first_repeated(alloc, read)?;
    match found {
        Some(at) => {
            let refusal = at_import(alloc, read, FaultCode::Duplicate, at)?;
            Ok(Some(refusal))
        }
        None => unknown_fault(alloc, home, read),
    }
}

/// The refusal of the first import that names nothing, if there is one.
fn unknown_fault(alloc: Global, home: &Home, read: &[SourceFile]) -> Result<Option<Refusal>, Memory>
    requires { AreSources read.now }
    ensures { IfOk result (λ found. (taken : List Taken) → AreRead 0 taken read.now → found ≡ refused_at taken FaultCode.NoModule (first_place (unknown_in home.now) read.now)) }
{
    let found = first_unnamed(alloc, home, read)?;
    match found {
        Some(at) => {
            let refusal = at_import(alloc, read, FaultCode::NoModule, at)?;
            Ok(Some(refusal))
        }
        None => Ok(None),
    }
}

/// The place of the first import whose prefix an import before it in its file has.
fn first_repeated(alloc: Global, read: &[SourceFile]) -> Result<Option<Place>, Memory>
    ensures { IfOk result (λ at. at ≡ first_place repeat_in read.now) }
{
    for file in read {
        let found = first_repeat(alloc, file.tree.imports.as_slice())?;
        match found {
            Some(at) => return Ok(Some(at)),
            None => {}
        }
    }
    Ok(None)
}

/// The place of the first import that names nothing.
fn first_unnamed(alloc: Global, home: &Home, read: &[SourceFile]) -> Result<Option<Place>, Memory>
    ensures { IfOk result (λ at. at ≡ first_place (unknown_in home.now) read.now) }
{
    for file in read {
        let found = first_unknown(alloc, home, file.tree.imports.as_slice())?;
        match found {
            Some(at) => return Ok(Some(at)),
            None => {}
        }
    }
    Ok(None)
}
