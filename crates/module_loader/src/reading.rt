//! The source files of a folder, read one after another.
ghost use Rattle.std.specs.Prelude.{◌≡◌, ◌<◌, ◌≤◌, IfOk, IfSome, length};
ghost use Rattle.module_loader.specs.Faults.{IsReadingFault, too_large as too_large_by};
ghost use Rattle.module_loader.specs.Loading.{CountsLoadFaults, IfRefused};
ghost use Rattle.module_loader.specs.inner.Begun.{AreReadFrom, IsNext, IsPut, IsStopAt, IsWithFiles};
ghost use Rattle.module_loader.specs.inner.Sources.{AreThere, taken_in};

use crate::faults::{LoadFault, refused, too_large};
use crate::limits::{MOST_FILES, MOST_PACKAGE_BYTES};
use crate::manifest::bytes_of;
use crate::sources::Source;
use bal_base::{MOST_FILE_BYTES, Memory, Name, Refusal, Stop};
use bal_io::Folder;
use bal_tree::SourceFile;
use source_files::source_file;
use std::alloc::Global;

/// The source files that were read so far, and how many bytes they have.
#[derive(Drop)]
pub(crate) struct Reading {
    pub(crate) read: Vec<SourceFile>,
    pub(crate) bytes: u64,
}

/// These source files of the folder, read in order. A refusal comes with those that were read by then.
pub(crate) fn read_all<F: Folder>(
    alloc: Global,
    folder: &mut F,
    sources: &[Source],
) -> Result<Vec<SourceFile>, Stop<LoadFault>>
    requires few { length sources.now ≤ MOST_FILES }
    requires there { IfSome (F.files folder.old) (λ files. AreThere files sources.now) }
    ensures faults { CountsLoadFaults (F.faults folder.old) (F.faults folder.new) result }
    ensures unchanged { F.files folder.new ≡ F.files folder.old }
    ensures read { IfOk result (λ read. AreReadFrom (F.files folder.old) sources.now read.items) }
    ensures refused { IfRefused result (λ r read. IfSome (F.files folder.old) (λ files. IsReadingFault (taken_in files sources.now) r read)) }
{
    let read = Vec::new(alloc);
    let mut reading = Reading { read, bytes: 0 };
    for source in sources {
        let front = match bytes_of(alloc, folder, source.number) {
            Ok(front) => front,
            Err(stop) => return Err(stop),
        };
        match reading.add(alloc, &source.name, front.as_slice()) {
            Ok(()) => {}
            Err(stop) => return Err(with_files(stop, reading.read)),
        }
    }
    Ok(reading.read)
}

impl Reading {
    /// Reads one more file, with this name and these bytes, which may be one more than a file may have.
    fn add(&mut self, alloc: Global, name: &Name, front: &[u8]) -> Result<(), Stop<Refusal>>
        requires few { length self.old.read.items < MOST_FILES }
        requires small { self.old.bytes ≤ MOST_PACKAGE_BYTES }
        ensures { IsNext self.old self.new name.now front.now result }
    {
        let number = self.read.len() as u32;
        match source_file(alloc, number, name, front) {
            Ok(file) => self.put(alloc, file, front.len()),
            Err(stop) => Err(stop),
        }
    }

    /// One more file was read, which has so many bytes.
    fn put(&mut self, alloc: Global, file: SourceFile, size: usize) -> Result<(), Stop<Refusal>>
        requires small { self.old.bytes ≤ MOST_PACKAGE_BYTES }
        requires short { size ≤ MOST_FILE_BYTES }
        ensures { IsPut self.old self.new file size result }
    {
        self.read.push(file)?;
        let bytes = self.bytes + size as u64;
        self.bytes = bytes;
        if bytes > MOST_PACKAGE_BYTES {
            return Err(too_much(alloc, bytes));
        }
        Ok(())
    }
}

/// The stop by so many bytes, if there is memory for it.
fn too_much(alloc: Global, bytes: u64) -> Stop<Refusal>
    ensures { IsStopAt (too_large_by bytes) result }
{
    match too_large(alloc, bytes) {
        Ok(refusal) => Stop::Fault(refusal),
        Err(Memory) => Stop::Memory,
    }
}

/// The stop by a refusal, with the files that were read by then.
fn with_files(stop: Stop<Refusal>, read: Vec<SourceFile>) -> Stop<LoadFault>
    ensures { IsWithFiles stop read.items result }
{
    match stop {
        Stop::Memory => Stop::Memory,
        Stop::Fault(refusal) => refused(refusal, read),
    }
}
