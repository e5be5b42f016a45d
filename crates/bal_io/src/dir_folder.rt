//! A folder of the system.
ghost use Rattle.std.specs.Prelude.{◌≡◌, ◌≤◌, ◌+◌, IfOk, IfSome, take, vec_len};

use crate::fault_count::{FaultCount, stop_of};
use crate::listing::list_package;
use crate::outside::Folder;
use bal_base::{Failed, Name, Stop};
use std::alloc::Global;
use std::fs::File;
use std::io::Read;
use std::marker::Model;
use std::rt::Files;

/// The files of a package in a folder of the system, seen as its count of failed calls. It tells nothing of
/// the files.
///
/// The first call lists them: the folder's `Ballerina.toml`, its files `*.bal`, and the files
/// `modules/M/*.bal`, in the order of their names. Where that doesn't succeed, the next call lists them
/// anew. A call with the number of no file fails.
#[derive(Drop)]
pub struct DirFolder<'a, R> {
    rt: R,
    path: &'a str,
    names: Option<Vec<Name>>,
    faults: FaultCount,
}

impl<'a, R> Model for DirFolder<'a, R> {
    ghost use Rattle.std.specs.Prelude.{ℕ};

    ghost Value = { ℕ };

    ghost view = { λ f. f.faults };
}

impl<'a, R: Files + AllocGlobal + Clone + Drop> DirFolder<'a, R> {
    /// The folder at the path. Takes no memory.
    pub fn new(rt: R, path: &'a str) -> DirFolder<'a, R>
        ensures { result ≡ 0 }
    {
        DirFolder {
            rt,
            path,
            names: None,
            faults: FaultCount::new(),
        }
    }

    /// The names of the files, which are listed where they aren't yet.
    fn take_names(&mut self, alloc: Global) -> Result<Vec<Name>, Stop<Failed>>
        ensures { self.new ≡ self.old }
    {
        match self.names.take() {
            Some(names) => Ok(names),
            None => list_package(&self.rt, alloc, self.path),
        }
    }

    fn count_files(&mut self, alloc: Global) -> Result<u32, Stop<Failed>>
        ensures { self.new ≡ self.old }
    {
        let names = self.take_names(alloc)?;
        let count = names.len();
        self.names = Some(names);
        u32::try_from(count).map_err(|_| Stop::Memory)
    }

    fn name_of(&mut self, alloc: Global, i: u32) -> Result<Name, Stop<Failed>>
        ensures { self.new ≡ self.old }
    {
        let names = self.take_names(alloc)?;
        let name = names.get(i as usize).map(|name| name.share());
        self.names = Some(names);
        name.ok_or(Stop::Fault(Failed))
    }

    fn read_file(&mut self, alloc: Global, i: u32, max: u64) -> Result<Vec<u8>, Stop<Failed>>
        ensures unchanged { self.new ≡ self.old }
        ensures bound { IfOk result (λ v. vec_len v ≤ max + 1) }
    {
        let name = self.name_of(alloc, i)?;
        let root = self.path;
        let file = name.as_str();
        let path = format!(in alloc; "{root}/{file}")?;
        let file = File::open(&self.rt, path.as_str()).map_err(stop_of)?;
        read_front(file, alloc, max)
    }
}

impl<R: Files + AllocGlobal + Clone + Drop> Folder for DirFolder<'_, R> {
    ghost use Rattle.std.specs.Prelude.{None};

    ghost faults = { λ f. f };

    ghost files = { λ _. None };

    /// How many files there are. Where they are too many for the count, it answers want of memory.
    fn count(&mut self, alloc: Global) -> Result<u32, Stop<Failed>> {
        let answer = self.count_files(alloc);
        self.faults.counted(answer)
    }

    fn name(&mut self, alloc: Global, i: u32) -> Result<Name, Stop<Failed>> {
        let answer = self.name_of(alloc, i);
        self.faults.counted(answer)
    }

    fn read(&mut self, alloc: Global, i: u32, max: u64) -> Result<Vec<u8>, Stop<Failed>> {
        let answer = self.read_file(alloc, i, max);
        self.faults.counted(answer)
    }
}

/// The first `max + 1` bytes of a file, or all its bytes where there are fewer.
fn read_front<F: Read + Drop>(file: F, alloc: Global, max: u64) -> Result<Vec<u8>, Stop<Failed>>
    ensures bytes { IfOk result (λ v. IfSome (F.remaining file) (λ all. v.items ≡ take (max + 1) all)) }
    ensures bound { IfOk result (λ v. vec_len v ≤ max + 1) }
{
    let most = max.saturating_add(1);
    let mut bytes = Vec::new(alloc);
    file.take(most).read_to_end(&mut bytes).map_err(stop_of)?;
    bytes.truncate(most as usize);
    Ok(bytes)
}
