//! Whom messages and flushes name.
#![tactic(auto)]

ghost use Rattle.std.specs.Prelude.{◌≡◌, length, map};
ghost use Rattle.bal_base.specs.declared.fault.FaultCode.TheVariants.{NoPeer};
ghost use Rattle.bal_base.specs.declared.fault.Kept.TheVariants.{Nothing};
ghost use Rattle.checks.specs.Checks.{Comes};
ghost use Rattle.worker_pairing.specs.Faults.{Atoms, at_event, has_no_peer, is_other as is_other_of, names_other as names_other_of, none_bad};
ghost use Rattle.worker_pairing.specs.Marks.{Members};
ghost use Rattle.worker_members.specs.Held.{kind_of, numbered_held};
ghost use Rattle.worker_faults.specs.inner.InTurn.{no_peer_among};

use crate::faults::fault_at;
use bal_base::{Fault, FaultCode, Kept, Stop};
use typed_tree::Peer;
use worker_members::{SaidKind, Standing};

/// Whether this is the number of another worker of so many.
fn is_other(workers: usize, own: u32, peer: Peer) -> bool
    ensures { result ≡ is_other_of workers own peer }
{
    match peer {
        Some(n) => (n as usize) < workers && n != own,
        None => false,
    }
}

/// Whether whom a message or a flush names is another worker.
fn names_other(workers: usize, own: u32, kind: SaidKind<'_>) -> bool
    ensures { result ≡ names_other_of workers own (kind_of kind.entry) }
{
    match kind {
        SaidKind::Send(peer) | SaidKind::Post(peer) | SaidKind::Done(peer) => {
            is_other(workers, own, peer)
        }
        SaidKind::Receive(peer) | SaidKind::Flush(peer) => is_other(workers, own, peer),
        SaidKind::Wait(_) | SaidKind::End => true,
    }
}

fn has_none(workers: usize, event: Standing<'_>) -> bool
    ensures { result ≡ no_peer_among workers (numbered_held event.entry) }
{
    match event.said.initial {
        true => true,
        false => !names_other(workers, event.worker, event.said.kind),
    }
}

/// Each message and flush names another worker of the function, and no event stands in the initial part ("Async send action", "Flush
/// action"): else `NoPeer` at the first event in text order for which that is not so. `workers` is how many the function has, the
/// default one among them. Takes time that grows with the events, and no memory.
pub fn peers_named(workers: usize, text: &[Standing<'_>]) -> Result<(), Stop<Fault>>
    ensures { (ms : Members) (env : Atoms) → length ms ≡ workers → Comes (none_bad (has_no_peer ms) (at_event NoPeer Nothing) (map numbered_held text.now)) env result env }
{
    for event in text {
        if has_none(workers, *event) {
            return Err(Stop::Fault(fault_at(*event, FaultCode::NoPeer, Kept::Nothing)));
        }
    }
    Ok(())
}
