//! Faults at events, and events that may be left out or done again.
#![tactic(auto)]

ghost use Rattle.std.specs.Prelude.{map};
ghost use Rattle.bal_base.specs.declared.fault.FaultCode.TheVariants.{Conditional};
ghost use Rattle.bal_base.specs.declared.fault.Kept.TheVariants.{Nothing};
ghost use Rattle.checks.specs.Checks.{Comes};
ghost use Rattle.worker_pairing.specs.Faults.{Atoms, at_event, is_conditional, none_bad};
ghost use Rattle.worker_members.specs.Held.{numbered_held};

use bal_base::{Fault, FaultCode, Kept, Stop};
use worker_members::Standing;

/// A fault at an event.
pub(crate) fn fault_at(event: Standing<'_>, code: FaultCode, kept: Kept) -> Fault
    ensures { at_event code kept (numbered_held event.entry) result }
{
    Fault {
        code,
        at: Some(event.said.at),
        kept,
    }
}

/// No event may be left out or done again, as one in a branch, a loop, the right side of `&&` or `||`, or a message that a trap guards
/// ("Async send action", "Single receive action"): else `Conditional` at the first in text order. Takes time that grows with the events,
/// and no memory.
pub fn none_conditional(text: &[Standing<'_>]) -> Result<(), Stop<Fault>>
    ensures { (env : Atoms) → Comes (none_bad is_conditional (at_event Conditional Nothing) (map numbered_held text.now)) env result env }
{
    for event in text {
        if event.said.inner {
            return Err(Stop::Fault(fault_at(*event, FaultCode::Conditional, Kept::Nothing)));
        }
    }
    Ok(())
}
