//! An output in memory.
ghost use Rattle.std.specs.Prelude.{◌≡◌, [], ◌∷◌, IsTrue, OnOk, OnErr, take};
ghost use Rattle.bal_base.specs.Stops.{IfFault};
ghost use Rattle.bal_io.specs.Calls.{no_calls, WillFail, has_failed, LogsCall};
ghost use Rattle.bal_io.specs.Content.{Appends, AppendsFront};
ghost use Rattle.bal_io.specs.Faults.{CountsFaults};

use crate::calls::{Calls, Fails};
use crate::fronts::front;
use crate::outside::Sink;
use bal_base::{Failed, Stop};
use std::alloc::Global;
use std::marker::Model;

/// An output in memory, which tells what was written to it.
#[derive(Drop)]
pub struct MemSink {
    written: Vec<u8>,
    taken: u64,
    calls: Calls,
}

impl Model for MemSink {
    ghost use Rattle.bal_io.specs.Held.{HeldOutput};

    ghost Value = { HeldOutput };

    ghost view = { λ s. record { written = s.written.items; taken = s.taken; calls = s.calls } };
}

impl MemSink {
    /// An output to which nothing was written. Its calls whose numbers stand in `fails`, counted from 0,
    /// will take nothing and fail. Takes no memory.
    pub fn new(alloc: Global, fails: Vec<u64>) -> MemSink
        ensures { result ≡ record { written = []; taken = 0; calls = no_calls fails.items } }
    {
        MemSink {
            written: Vec::new(alloc),
            taken: 0,
            calls: Calls::new(Fails::Listed(fails)),
        }
    }

    /// An output to which nothing was written. Its call with the given number, counted from 0, will take the
    /// first `taken` bytes of its piece, or the whole piece where that is shorter, and then fail. Takes no
    /// memory.
    pub fn cut(alloc: Global, call: u64, taken: u64) -> MemSink
        ensures { result ≡ record { written = []; taken = taken; calls = no_calls (call ∷ []) } }
    {
        MemSink {
            written: Vec::new(alloc),
            taken,
            calls: Calls::new(Fails::Only(call)),
        }
    }

    /// The bytes that were written. Takes no memory.
    pub fn written(&self) -> &[u8]
        ensures { result.now ≡ self.now.written }
    {
        self.written.as_slice()
    }
}

impl Sink for MemSink {
    ghost use Rattle.std.specs.Prelude.{Some};

    ghost faults = { λ s. s.calls.faults };

    ghost written = { λ s. Some s.written };

    /// Writes all of `bytes`, or, where the call is to fail, those that it is to take, or, where memory runs
    /// out, none of them.
    fn write(&mut self, bytes: &[u8]) -> Result<(), Stop<Failed>>
        ensures faults { CountsFaults self.old.calls.faults self.new.calls.faults result }
        ensures log { LogsCall self.old.calls self.new.calls (has_failed result) }
        ensures same { self.new.taken ≡ self.old.taken }

        // What was written at each answer.
        ensures ok { OnOk result (Appends bytes.now self.old.written self.new.written) }
        ensures failed { IfFault result
            (λ _. Appends (take self.old.taken bytes.now) self.old.written self.new.written) }
        ensures err { OnErr result (AppendsFront bytes.now self.old.written self.new.written) }
        ensures memory { result ≡ Err Stop.Memory → self.new.written ≡ self.old.written }

        // A call that is to fail never succeeds, no other fails, and what it takes alone can want memory.
        ensures not_ok { OnOk result (¬ WillFail self.old.calls) }
        ensures not_failed { IfFault result (λ _. WillFail self.old.calls) }
        ensures due { WillFail self.old.calls → take self.old.taken bytes.now ≡ []
            → IsTrue (has_failed result) }
    {
        let fails = self.calls.will_fail();
        let part = if fails {
            front(bytes, self.taken)
        } else {
            bytes
        };
        if self.written.extend_from_slice(part).is_err() {
            self.calls.log(false);
            return Err(Stop::Memory);
        }
        self.calls.log(fails);
        if fails {
            return Err(Stop::Fault(Failed));
        }
        Ok(())
    }
}
