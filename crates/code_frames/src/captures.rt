//! What named workers capture.
#![tactic(auto, using(crate::proofs::Capturing::capturing))]

ghost use Rattle.std.specs.Prelude.{◌≡◌, [], IfOk};
ghost use Rattle.operations.specs.declared.operation.Operation.TheVariants.{Workers};
ghost use Rattle.op_model.specs.Local.{captures};
ghost use Rattle.code_frames.specs.Asking.{captured_act};
ghost use Rattle.code_frames.specs.Frames.{local_of};

use crate::held::Held;
use crate::local::in_slot;
use bal_base::Memory;
use std::alloc::Global;
use value_model::Value;

/// What is in the slots that named workers capture.
#[derive(Drop)]
pub enum Captures {
    /// These values.
    Values(Vec<Value>),
    /// This slot, the first such one, was never stored.
    Unset(u32),
    /// There is no such slot.
    Missing,
}

/// What is in these slots.
pub fn capture(alloc: Global, captured: &[u32], local: &Held) -> Result<Captures, Memory>
    ensures { IfOk result (λ c. captures Workers (local_of local.now) captured.now [] ≡ captured_act c (local_of local.now)) }
{
    let mut values = Vec::new(alloc);
    for slot in captured {
        match in_slot(local.slots.as_slice(), *slot as u64) {
            None => return Ok(Captures::Missing),
            Some(kept) => match kept {
                None => return Ok(Captures::Unset(*slot)),
                Some(v) => values.push(v)?,
            },
        }
    }
    Ok(Captures::Values(values))
}
