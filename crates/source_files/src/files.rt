//! Source files with their trees.
ghost use Rattle.std.specs.Prelude.{◌≡◌, IfOk, chars};
ghost use Rattle.source_files.specs.Files.{IsFileReading, IsStopOf};
ghost use Rattle.source_files.specs.Sources.{IsText};

use crate::reading::{text_of, tree_of};
use crate::telling::refusal;
use bal_base::{Memory, Name, Refusal, Stop, Text};
use bal_tree::{FileTree, SourceFile};
use std::alloc::Global;

/// The file with this number among those of its package, with this name and these bytes, which may be one more than a file may have; or
/// the refusal that is due.
pub fn source_file(
    alloc: Global,
    file: u32,
    name: &Name,
    bytes: &[u8],
) -> Result<SourceFile, Stop<Refusal>>
    ensures { IsFileReading file name.now bytes.now result }
{
    match text_of(file, bytes) {
        Ok(text) => text_file(alloc, file, name, text),
        Err(fault) => Err(stop(refusal(alloc, name, "", fault))),
    }
}

/// The file with this text.
fn text_file(alloc: Global, file: u32, name: &Name, text: &str) -> Result<SourceFile, Stop<Refusal>>
    requires { IsText text.now }
    ensures { IsFileReading file name.now text.now result }
{
    match tree_of(alloc, file, text) {
        Ok(tree) => Ok(tree_file(alloc, name, text, tree)?),
        Err(Stop::Memory) => Err(Stop::Memory),
        Err(Stop::Fault(fault)) => Err(stop(refusal(alloc, name, text, fault))),
    }
}

/// The file with this text and this tree.
fn tree_file(alloc: Global, name: &Name, text: &str, tree: FileTree) -> Result<SourceFile, Memory>
    ensures { IfOk result (λ file. file ≡ record { name = name.now; text = chars text.now; tree = tree }) }
{
    let text = Text::new(alloc, text)?;
    Ok(SourceFile {
        name: name.share(),
        text,
        tree,
    })
}

/// The stop by a refusal, if there was memory for it.
fn stop(refusal: Result<Refusal, Memory>) -> Stop<Refusal>
    ensures { IsStopOf refusal result }
{
    match refusal {
        Ok(refusal) => Stop::Fault(refusal),
        Err(Memory) => Stop::Memory,
    }
}
