//! The modules of files, by their names.
ghost use Rattle.std.specs.Prelude.{◌≡◌, ◌<◌, ℕ, List, IfOk, Some, length, option_map, position};
ghost use Rattle.package_files.specs.Names.{folder_at, is_plain, is_slash, module_below, module_of};

use bal_base::{Memory, Name};
use std::alloc::Global;

/// How the name of a source file ends.
const SUFFIX: [char; 4] = ['.', 'b', 'a', 'l'];

/// In front of the folders of modules.
const MODULES: [char; 8] = ['m', 'o', 'd', 'u', 'l', 'e', 's', '/'];

/// The module of the file with this name; the default module has no characters. None where the file is no source file. Its cost grows
/// with the length of the name.
pub fn module_of(alloc: Global, name: &Name) -> Result<Option<Name>, Memory>
    ensures { IfOk result (λ found. found ≡ module_of name.now) }
{
    let all = characters(alloc, name)?;
    match folder_in(all.as_slice()) {
        Some(folder) => Ok(folder_name(alloc, name, folder.len())?),
        None => Ok(None),
    }
}

fn characters(alloc: Global, name: &Name) -> Result<Vec<char>, Memory>
    ensures { IfOk result (λ all. all.items ≡ name.now) }
{
    Ok(name.as_str().chars().collect(alloc)?)
}

/// The name of the module whose name has so many characters, where the file's name is one of a source file.
fn folder_name(alloc: Global, name: &Name, count: usize) -> Result<Option<Name>, Memory>
    requires { count < 18446744073709551607 }
    ensures { (folder : List ℕ) → module_of name.now ≡ Some folder → length folder ≡ count → IfOk result (λ found. found ≡ Some folder) }
{
    if count == 0 {
        return Ok(Some(Name::new(alloc, "")?));
    }
    match name
        .as_text()
        .substring(MODULES.len(), MODULES.len() + count)
    {
        Some(folder) => Ok(Some(Name::new(alloc, folder)?)),
        None => Ok(None),
    }
}

/// The folder of the module, where the name is that of a source file.
fn folder_in(name: &[char]) -> Option<&[char]>
    ensures { option_map (λ f. f.now) result ≡ module_of name.now }
{
    if is_plain(name) {
        return Some(&[]);
    }
    match name.strip_prefix(&MODULES) {
        Some(rest) => folder_below(rest),
        None => None,
    }
}

/// The same of what stands behind `modules/`.
fn folder_below(rest: &[char]) -> Option<&[char]>
    ensures { option_map (λ f. f.now) result ≡ module_below rest.now }
{
    match slash_in(rest) {
        Some(slash) => folder_before(rest, slash),
        None => None,
    }
}

/// The folder, where the first slash stands at this place.
fn folder_before(rest: &[char], slash: usize) -> Option<&[char]>
    requires { slash < length rest.now }
    ensures { option_map (λ f. f.now) result ≡ folder_at rest.now slash }
{
    let folder = &rest[..slash];
    if is_plain(&rest[slash + 1..]) && !folder.is_empty() {
        return Some(folder);
    }
    None
}

/// Where the first slash stands.
fn slash_in(rest: &[char]) -> Option<usize>
    ensures { result ≡ position is_slash rest.now }
{
    rest.iter().position(|c| *c == '/')
}

/// Whether the name ends with `.bal` and has no slash.
fn is_plain(name: &[char]) -> bool
    ensures { result ≡ is_plain name.now }
{
    name.ends_with(&SUFFIX) && !name.contains(&'/')
}
