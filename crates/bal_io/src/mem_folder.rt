//! A folder in memory.
ghost use Rattle.std.specs.Prelude.{◌≡◌, ◌≤◌, ◌<◌, ◌+◌, ◌^◌, ◌↔◌, IfOk, OnErr, IsTrue, length, vec_len};
ghost use Rattle.bal_io.specs.Calls.{no_calls, WillFail, has_failed, LogsCall};
ghost use Rattle.bal_io.specs.Content.{IsNameAt, IsFrontAt};
ghost use Rattle.bal_io.specs.Faults.{CountsFaults};

use crate::calls::{Calls, Fails};
use crate::fronts::first_bytes;
use crate::outside::Folder;
use bal_base::{Bytes, Failed, Name, Stop};
use std::alloc::Global;
use std::marker::Model;

/// A list of files in memory, which tells them. No call changes it, whatever the call answers.
#[derive(Drop)]
pub struct MemFolder {
    files: Vec<(Name, Bytes)>,
    calls: Calls,
}

impl Model for MemFolder {
    ghost use Rattle.bal_io.specs.Held.{HeldFolder};

    ghost Value = { HeldFolder };

    ghost view = { λ f. record { files = f.files.items; calls = f.calls } };
}

impl MemFolder {
    /// The folder with these files. Its calls whose numbers stand in `fails`, counted from 0 over all
    /// methods, will fail. Takes no memory.
    pub fn new(files: Vec<(Name, Bytes)>, fails: Vec<u64>) -> MemFolder
        ensures { result ≡ record { files = files.items; calls = no_calls fails.items } }
    {
        MemFolder {
            files,
            calls: Calls::new(Fails::Listed(fails)),
        }
    }
}

impl Folder for MemFolder {
    ghost use Rattle.std.specs.Prelude.{Some};

    ghost faults = { λ f. f.calls.faults };

    ghost files = { λ f. Some f.files };

    /// How many files there are. Takes no memory; but where there are 2 to the power 32 or more, which the
    /// count can't tell, it answers want of memory.
    fn count(&mut self, _alloc: Global) -> Result<u32, Stop<Failed>>
        ensures faults { CountsFaults self.old.calls.faults self.new.calls.faults result }
        ensures unchanged { self.new.files ≡ self.old.files }
        ensures count { IfOk result (λ n. n ≡ length self.old.files) }
        ensures err { length self.old.files < 2 ^ 32 → OnErr result (WillFail self.old.calls) }
        ensures log { LogsCall self.old.calls self.new.calls (has_failed result) }
        ensures due { IsTrue (has_failed result) ↔ WillFail self.old.calls }
    {
        if self.calls.next_fails() {
            return Err(Stop::Fault(Failed));
        }
        u32::try_from(self.files.len()).map_err(|_| Stop::Memory)
    }

    /// The name of the file with the number `i`, from 0. Takes no memory.
    fn name(&mut self, _alloc: Global, i: u32) -> Result<Name, Stop<Failed>>
        requires { i < length self.old.files }
        ensures faults { CountsFaults self.old.calls.faults self.new.calls.faults result }
        ensures unchanged { self.new.files ≡ self.old.files }
        ensures name { IfOk result (IsNameAt self.old.files i) }
        ensures err { OnErr result (WillFail self.old.calls) }
        ensures log { LogsCall self.old.calls self.new.calls (has_failed result) }
        ensures due { IsTrue (has_failed result) ↔ WillFail self.old.calls }
    {
        if self.calls.next_fails() {
            return Err(Stop::Fault(Failed));
        }
        Ok(self.files[i as usize].0.share())
    }

    /// The first `max + 1` bytes of the file with the number `i`, or all its bytes where there are fewer.
    fn read(&mut self, alloc: Global, i: u32, max: u64) -> Result<Vec<u8>, Stop<Failed>>
        requires { i < length self.old.files }
        ensures faults { CountsFaults self.old.calls.faults self.new.calls.faults result }
        ensures unchanged { self.new.files ≡ self.old.files }
        ensures bytes { IfOk result (λ v. IsFrontAt self.old.files i (max + 1) v.items) }
        ensures bound { IfOk result (λ v. vec_len v ≤ max + 1) }
        ensures log { LogsCall self.old.calls self.new.calls (has_failed result) }
        ensures due { IsTrue (has_failed result) ↔ WillFail self.old.calls }
    {
        if self.calls.next_fails() {
            return Err(Stop::Fault(Failed));
        }
        let bytes = self.files[i as usize].1.as_slice();
        Ok(Vec::from_slice(alloc, first_bytes(bytes, max))?)
    }
}
