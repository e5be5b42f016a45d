//! An input in memory.
ghost use Rattle.std.specs.Prelude.{◌≡◌, ◌≤◌, ◌↔◌, length, IsTrue, IfOk, IfSome, OnErr};
ghost use Rattle.bal_io.specs.Calls.{no_calls, WillFail, has_failed, LogsCall};
ghost use Rattle.bal_io.specs.Content.{ReadsLine};
ghost use Rattle.bal_io.specs.Faults.{CountsFaults};

use crate::calls::{Calls, Fails};
use crate::fronts::{FirstLine, first_line};
use crate::outside::{Line, Source};
use bal_base::{Bytes, Failed, Stop};
use std::alloc::Global;
use std::marker::Model;

/// An input in memory, which tells what is still to be read.
#[derive(Drop)]
pub struct MemSource {
    bytes: Vec<u8>,
    at: usize,
    calls: Calls,
}

impl Model for MemSource {
    ghost use Rattle.std.specs.Prelude.{◌≤◌, vec_len, drop};
    ghost use Rattle.bal_io.specs.Held.{HeldInput};

    ghost Value = { HeldInput };

    ghost view = { λ s. record { rest = drop s.at s.bytes.items; calls = s.calls } };

    ghost invariant = { λ s. s.at ≤ vec_len s.bytes };
}

impl MemSource {
    /// The input of these bytes. Its calls whose numbers stand in `fails`, counted from 0, will fail. Takes
    /// no memory.
    pub fn new(bytes: Vec<u8>, fails: Vec<u64>) -> MemSource
        ensures { result ≡ record { rest = bytes.items; calls = no_calls fails.items } }
    {
        MemSource {
            bytes,
            at: 0,
            calls: Calls::new(Fails::Listed(fails)),
        }
    }
}

impl Source for MemSource {
    ghost use Rattle.std.specs.Prelude.{Some};

    ghost faults = { λ s. s.calls.faults };

    ghost rest = { λ s. Some s.rest };

    /// The next line. Where the call does not succeed, nothing is taken.
    fn read_line(&mut self, alloc: Global, max: u64) -> Result<Option<Line>, Stop<Failed>>
        ensures faults { CountsFaults self.old.calls.faults self.new.calls.faults result }
        ensures line { IfOk result (λ line. ReadsLine max line self.old.rest self.new.rest) }
        ensures bound { IfOk result (λ line. IfSome line (λ l. length l.bytes ≤ max)) }
        ensures err { OnErr result (self.new.rest ≡ self.old.rest) }
        ensures log { LogsCall self.old.calls self.new.calls (has_failed result) }
        ensures due { IsTrue (has_failed result) ↔ WillFail self.old.calls }
    {
        if self.calls.next_fails() {
            return Err(Stop::Fault(Failed));
        }
        let rest = &self.bytes.as_slice()[self.at..];
        if rest.is_empty() {
            return Ok(None);
        }
        let FirstLine { text, size, whole } = first_line(rest, max);
        let bytes = Bytes::of(Vec::from_slice(alloc, text)?);
        self.at += size;
        Ok(Some(Line { bytes, whole }))
    }
}
