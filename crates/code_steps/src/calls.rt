//! The calls of a strand, the last one last.
#![tactic(auto, using(crate::proofs::Calling::calling))]

ghost use Rattle.std.specs.Prelude.{◌≡◌, ◌∷◌, OnOk};
ghost use Rattle.code_steps.specs.States.{TakesCall, call_of, calls_of};

use crate::held::Call;
use bal_base::Memory;

/// One call more.
pub(crate) fn push(calls: &mut Vec<Call>, call: Call) -> Result<(), Memory>
    ensures { OnOk result (calls_of calls.new.items ≡ call_of call ∷ calls_of calls.old.items) }
{
    calls.push(call)?;
    Ok(())
}

/// The last call is taken off.
pub(crate) fn take_last(calls: &mut Vec<Call>) -> Option<Call>
    ensures { TakesCall result calls.old.items calls.new.items }
{
    calls.pop()
}
