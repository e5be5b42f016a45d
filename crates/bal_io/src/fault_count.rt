//! How an adapter of the real outside counts its failed calls.
ghost use Rattle.std.specs.Prelude.{◌≡◌, ◌↔◌};
ghost use Rattle.std.specs.IoError.{error_kind};
ghost use Rattle.bal_io.specs.Faults.{CountsFaults};

use bal_base::{Failed, Stop};
use std::io::{Error, ErrorKind};
use std::marker::Model;

/// A count of failed calls, which stays at its last value.
#[derive(Drop)]
pub(crate) struct FaultCount {
    count: u64,
}

impl Model for FaultCount {
    ghost use Rattle.std.specs.Prelude.{ℕ};

    ghost Value = { ℕ };

    ghost view = { λ c. c.count };
}

impl FaultCount {
    /// No call has failed yet.
    pub(crate) fn new() -> FaultCount
        ensures { result ≡ 0 }
    {
        FaultCount { count: 0 }
    }

    /// The given answer of a call, which is counted where it is a fault.
    pub(crate) fn counted<T>(&mut self, answer: Result<T, Stop<Failed>>) -> Result<T, Stop<Failed>>
        ensures same { result ≡ answer }
        ensures faults { CountsFaults self.old self.new result }
    {
        if let Err(Stop::Fault(Failed)) = &answer {
            self.count = self.count.saturating_add(1);
        }
        answer
    }
}

/// Why a call stops where the system answers with an error: want of memory where the system says so, and
/// else that the call failed.
pub(crate) fn stop_of(error: Error) -> Stop<Failed>
    ensures { (result ≡ Stop.Memory) ↔ (error_kind error ≡ ErrorKind.OutOfMemory) }
{
    match error.kind() {
        ErrorKind::OutOfMemory => Stop::Memory,
        _ => Stop::Fault(Failed),
    }
}
