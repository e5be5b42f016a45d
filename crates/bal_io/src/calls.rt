//! The calls on an object in memory, some of which fail as they are told to.
ghost use Rattle.std.specs.Prelude.{◌≡◌, ◌↔◌, IsTrue, MatchBool, Contains};
ghost use Rattle.bal_io.specs.Calls.{fails_list, no_calls, WillFail, LogsCall};
ghost use Rattle.bal_io.specs.Faults.{Rises};

use std::marker::Model;

/// The numbers of the calls that fail, counted from 0.
#[derive(Drop)]
pub(crate) enum Fails {
    /// Those of a list.
    Listed(Vec<u64>),
    /// One alone.
    Only(u64),
}

impl Fails {
    /// Whether the call with the number fails.
    fn contains(&self, call: u64) -> bool
        ensures { IsTrue result ↔ Contains (fails_list self.now) call }
    {
        match self {
            Fails::Listed(numbers) => numbers.contains(&call),
            Fails::Only(number) => *number == call,
        }
    }
}

/// Which calls fail, how many calls were made, and how many failed.
#[derive(Drop)]
pub(crate) struct Calls {
    fails: Fails,
    made: u64,
    faults: u64,
}

impl Model for Calls {
    ghost use Rattle.bal_io.specs.Calls.{CallLog, fails_list};

    ghost Value = { CallLog };

    ghost view = { λ c. record { fails = fails_list c.fails; made = c.made; faults = c.faults } };
}

impl Calls {
    /// No call was made yet, and those with the given numbers will fail. Takes no memory.
    pub(crate) fn new(fails: Fails) -> Calls
        ensures { result ≡ no_calls (fails_list fails) }
    {
        Calls {
            fails,
            made: 0,
            faults: 0,
        }
    }

    /// Whether the next call is one of those that fail.
    pub(crate) fn will_fail(&self) -> bool
        ensures { IsTrue result ↔ WillFail self.now }
    {
        self.fails.contains(self.made)
    }

    /// Counts one more call, and it among those that failed where it did.
    pub(crate) fn log(&mut self, failed: bool)
        ensures log { LogsCall self.old self.new failed }
        ensures faults { MatchBool failed (Rises self.old.faults self.new.faults)
            (self.new.faults ≡ self.old.faults) }
    {
        self.made = self.made.saturating_add(1);
        if failed {
            self.faults = self.faults.saturating_add(1);
        }
    }

    /// Makes one more call, and tells whether it is one of those that fail.
    pub(crate) fn next_fails(&mut self) -> bool
        ensures log { LogsCall self.old self.new result }
        ensures due { IsTrue result ↔ WillFail self.old }
        ensures faults { MatchBool result (Rises self.old.faults self.new.faults)
            (self.new.faults ≡ self.old.faults) }
    {
        let fails = self.will_fail();
        self.log(fails);
        fails
    }
}
