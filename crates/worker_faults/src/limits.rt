//! Limits of workers and events.
#![tactic(auto)]

ghost use Rattle.std.specs.Prelude.{◌<◌, ℕ, Err};
ghost use Rattle.worker_pairing.specs.Faults.{Atoms, most_events, most_workers, within_limit};
ghost use Rattle.checks.specs.Checks.{Comes, ◌▷◌};

use bal_base::{Fault, FaultCode, Kept, Place, Stop};

/// The most named workers of a function.
const MOST_WORKERS: usize = 64;

/// The most events of a function's workers.
const MOST_EVENTS: usize = 4096;

/// `WorkerLimit` with the count.
fn too_many(count: usize, at: Place) -> Stop<Fault>
    ensures { (most : ℕ) (env : Atoms) → most < count → Comes (within_limit most count at) env (Err result) env }
{
    Stop::Fault(Fault {
        code: FaultCode::WorkerLimit,
        at: Some(at),
        kept: Kept::Count(count as u64),
    })
}

fn within_limit_of(most: usize, count: usize, at: Place) -> Result<(), Stop<Fault>>
    ensures { (env : Atoms) → Comes (within_limit most count at) env result env }
{
    if count <= most {
        return Ok(());
    }
    Err(too_many(count, at))
}

/// Not more than 64 named workers, and not more than 4,096 events of all workers: else `WorkerLimit` with the count, at the function's
/// first token. Takes no memory.
pub fn within_limits(named: usize, events: usize, at: Place) -> Result<(), Stop<Fault>>
    ensures { (env : Atoms) → Comes (within_limit most_workers named at ▷ λ _. within_limit most_events events at) env result env }
{
    match within_limit_of(MOST_WORKERS, named, at) {
        Ok(()) => within_limit_of(MOST_EVENTS, events, at),
        Err(stop) => Err(stop),
    }
}
