//! The workers that actions name.
ghost use Rattle.std.specs.Prelude.{◌≡◌, IfErr, IfOk, List, Ok as Given, Some as There, slice_get};
ghost use Rattle.checks.specs.Checks.{Comes};
ghost use Rattle.type_model.specs.declared.atoms.AtomDef.{AtomDef as Atom};
ghost use Rattle.typed_tree.specs.Skeleton.{other_than};
ghost use Rattle.check_words.specs.Actions.{peer_named, peer_of as peer_of_of};
ghost use Rattle.check_words.specs.Seen.{worker_from};
ghost use Rattle.check_work.specs.Views.{state_of};
ghost use Rattle.needs_of_actions.specs.Failing.{IsToldOf};

use bal_base::{Fault, Kept, Memory, Name, Stop};
use bal_tree::Peer;
use check_work::{Site, Work, at_hand};
use typed_tree::SharedTy;

/// The number of the first worker with the name, the first one being 1.
pub(crate) fn worker(workers: &[Name], name: &Name) -> Result<Option<u32>, Memory>
    ensures { IfOk result (λ n. n ≡ worker_from 1 workers.now name.now) }
{
    let mut number: u32 = 1;
    for worker in workers {
        if *worker == *name {
            return Ok(Some(number));
        }
        number = number.checked_add(1).ok_or(Memory)?;
    }
    Ok(None)
}

fn other(own: u32, number: Option<u32>) -> Option<u32>
    ensures { result ≡ other_than own number }
{
    match number {
        None => None,
        Some(n) => { if n == own { None } else { Some(n) } }
    }
}

/// The number of the worker that an action of the worker `own` names, if it is another one of these.
fn number_of(workers: &[Name], own: u32, peer: &Peer) -> Result<Option<u32>, Memory>
    ensures { IfOk result (λ n. n ≡ peer_named workers.now own peer.now) }
{
    match peer {
        Peer::Word(w) => Ok(other(own, worker(workers, &w.name)?)),
        Peer::Function { .. } => Ok(other(own, Some(0))),
    }
}

/// The worker that an action of the unit at hand names, if it is another one of the function.
pub(crate) fn peer_of(work: &Work<'_>, peer: &Peer) -> Result<Option<u32>, Memory>
    ensures { IfOk result (λ p. (env : List Atom) → Comes (peer_of_of peer.now) (state_of env work.now) (Given p) (state_of env work.now)) }
{
    let unit = at_hand(&work.unit)?;
    let number = number_of(work.site.workers.as_slice(), unit.worker, peer)?;
    Ok(number)
}

/// The fault once more. Those of descriptors show nothing; another one is as if memory were wanted.
fn told(fault: &Fault) -> Stop<Fault>
    ensures { IsToldOf (There (Err fault.now)) result }
{
    match &fault.kept {
        Kept::Nothing => Stop::Fault(Fault {
            code: fault.code,
            at: fault.at,
            kept: Kept::Nothing,
        }),
        Kept::Shape(_) | Kept::Names(_) | Kept::Events(_) => Stop::Memory,
        Kept::Counts(_, _) | Kept::Count(_) => Stop::Memory,
    }
}

/// What a worker of the function gives, or the fault of the descriptor that says so. Where there is no such worker it is as if
/// memory were wanted.
pub(crate) fn result_of(site: &Site, worker: u32) -> Result<&SharedTy, Stop<Fault>>
    ensures found { IfOk result (λ t. slice_get site.now.results.items worker ≡ There (Given t.now)) }
    ensures refused { IfErr result (IsToldOf (slice_get site.now.results.items worker)) }
{
    match site.results.as_slice().get(worker as usize) {
        Some(Ok(t)) => Ok(t),
        Some(Err(fault)) => Err(told(fault)),
        None => Err(Stop::Memory),
    }
}
