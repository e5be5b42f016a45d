//! Which files of a folder belong to a package.

use crate::fault_count::stop_of;
use bal_base::{Failed, Name, Stop};
use std::alloc::Global;
use std::fs;
use std::fs::Metadata;
use std::io::ErrorKind;
use std::rt::Files;

/// How many entries a folder may have.
const MOST_ENTRIES: usize = 65_536;

/// The names of a package's files, in order: `Ballerina.toml`, the files `*.bal`, and the files
/// `modules/M/*.bal`, where they are there and are plain files. It fails where a folder can't be listed, has
/// more entries than it may have, or has an entry whose name isn't UTF-8.
pub(crate) fn list_package<R: Files + AllocGlobal + Clone + Drop>(
    rt: &R,
    alloc: Global,
    root: &str,
) -> Result<Vec<Name>, Stop<Failed>> {
    let mut names = Vec::new(alloc);
    list_sources(rt, alloc, root, "", &mut names)?;
    list_modules(rt, alloc, root, &mut names)?;
    let manifest = format!(in alloc; "{root}/Ballerina.toml")?;
    if is_file(rt, manifest.as_str())? {
        names.push(Name::new(alloc, "Ballerina.toml")?)?;
    }
    names.sort()?;
    Ok(names)
}

/// Adds the names of the files in the folders below `modules`, where there is such a folder.
fn list_modules<R: Files + AllocGlobal + Clone + Drop>(
    rt: &R,
    alloc: Global,
    root: &str,
    names: &mut Vec<Name>,
) -> Result<(), Stop<Failed>> {
    let modules = format!(in alloc; "{root}/modules")?;
    if !is_dir(rt, modules.as_str())? {
        return Ok(());
    }
    for module in &entries(rt, alloc, modules.as_str())? {
        let folder = format!(in alloc; "{root}/modules/{module}")?;
        if is_dir(rt, folder.as_str())? {
            let prefix = format!(in alloc; "modules/{module}/")?;
            list_sources(rt, alloc, folder.as_str(), prefix.as_str(), names)?;
        }
    }
    Ok(())
}

/// Adds the names of the plain files `*.bal` in the folder, each after the prefix.
fn list_sources<R: Files + AllocGlobal + Clone + Drop>(
    rt: &R,
    alloc: Global,
    folder: &str,
    prefix: &str,
    names: &mut Vec<Name>,
) -> Result<(), Stop<Failed>> {
    for entry in &entries(rt, alloc, folder)? {
        if !entry.as_str().ends_with(".bal") {
            continue;
        }
        let path = format!(in alloc; "{folder}/{entry}")?;
        if is_file(rt, path.as_str())? {
            let name = format!(in alloc; "{prefix}{entry}")?;
            names.push(Name::new(alloc, name.as_str())?)?;
        }
    }
    Ok(())
}

/// The names of the entries of a folder.
fn entries<R: Files + AllocGlobal + Clone + Drop>(
    rt: &R,
    alloc: Global,
    folder: &str,
) -> Result<Vec<String>, Stop<Failed>> {
    let mut names = Vec::new(alloc);
    for entry in fs::read_dir(rt, folder).map_err(stop_of)? {
        let entry = entry.map_err(stop_of)?;
        if names.len() == MOST_ENTRIES {
            return Err(Stop::Fault(Failed));
        }
        names.push(String::from_str(alloc, entry.file_name())?)?;
    }
    Ok(names)
}

/// Whether a plain file stands at the path, or at the end of the links there.
fn is_file<R: Files>(rt: &R, path: &str) -> Result<bool, Stop<Failed>> {
    let found = at(rt, path)?;
    Ok(found.is_some_and(|found| found.is_file()))
}

/// Whether a folder stands at the path, or at the end of the links there.
fn is_dir<R: Files>(rt: &R, path: &str) -> Result<bool, Stop<Failed>> {
    let found = at(rt, path)?;
    Ok(found.is_some_and(|found| found.is_dir()))
}

/// What stands at the path, if anything does.
fn at<R: Files>(rt: &R, path: &str) -> Result<Option<Metadata>, Stop<Failed>> {
    match fs::metadata(rt, path) {
        Ok(found) => Ok(Some(found)),
        Err(error) if error.kind() == ErrorKind::NotFound => Ok(None),
        Err(error) => Err(stop_of(error)),
    }
}
