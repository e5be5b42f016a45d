//! Why a call stops before its work is done.
ghost use Rattle.std.specs.Prelude.{◌≡◌};
ghost use Rattle.bal_base.specs.declared.stop.Stop.TheVariants.{Memory as OutOfMemory};

use std::alloc::{AllocError, AllocFailed};
use thiserror::Error;

/// Want of memory. What was lent to the call that answers it is as the call's contract says.
#[derive(Clone, Copy, Debug, PartialEq, Eq, Error)]
#[error("out of memory")]
pub struct Memory;

impl From<AllocError> for Memory {
    fn from(_error: AllocError) -> Memory {
        Memory
    }
}

impl<T: Drop> From<AllocFailed<T>> for Memory {
    fn from(_error: AllocFailed<T>) -> Memory {
        Memory
    }
}

/// A call on an object of the outside failed: its count of faults tells it.
#[derive(Clone, Copy, Debug, PartialEq, Eq, Error)]
#[error("a call on the outside failed")]
pub struct Failed;

/// Why a call stopped: for want of memory, or for a fault of its own kind.
#[derive(Clone, Copy, PartialEq, Eq, Drop)]
pub enum Stop<F> {
    /// Memory ran out.
    Memory,
    /// The call's own fault.
    Fault(F),
}

impl<F> From<Memory> for Stop<F> {
    ghost from_gives = { λ _ stop. stop ≡ OutOfMemory };

    fn from(_memory: Memory) -> Stop<F> {
        Stop::Memory
    }
}

impl<F> From<AllocError> for Stop<F> {
    ghost from_gives = { λ _ stop. stop ≡ OutOfMemory };

    fn from(_error: AllocError) -> Stop<F> {
        Stop::Memory
    }
}

impl<F, T: Drop> From<AllocFailed<T>> for Stop<F> {
    ghost from_gives = { λ _ stop. stop ≡ OutOfMemory };

    fn from(_error: AllocFailed<T>) -> Stop<F> {
        Stop::Memory
    }
}
