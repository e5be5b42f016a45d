//! How a call of a unit begins.
#![tactic(auto, using(crate::proofs::Filling::filling))]

ghost use Rattle.std.specs.Prelude.{◌≡◌, ◌++◌, IfOk, None, OnOk, Some, map, replicate};
ghost use Rattle.machine_model.specs.Machine.{first_slots};
ghost use Rattle.code_frames.specs.Frames.{standing_of};
ghost use Rattle.code_frames.specs.Programs.{begins};

use crate::held::{Frame, Held, UnitCode};
use bal_base::Memory;
use std::alloc::Global;
use value_model::Value;

/// These values stand in the next slots.
fn set(slots: &mut Vec<Option<Value>>, values: &[Value]) -> Result<(), Memory>
    ensures { OnOk result (slots.new.items ≡ slots.old.items ++ map Some values.now) }
{
    for v in values {
        slots.push(Some(v.share()))?;
    }
    Ok(())
}

/// So many slots have no value yet.
fn unset(slots: &mut Vec<Option<Value>>, count: u64) -> Result<(), Memory>
    ensures { OnOk result (slots.new.items ≡ slots.old.items ++ replicate count None) }
{
    for _ in 0..count {
        slots.push(None)?;
    }
    Ok(())
}

/// The slots of a call: the arguments stand in the first ones, and the others have no value yet. What stood there is gone.
fn fill(slots: &mut Vec<Option<Value>>, count: u64, args: &[Value]) -> Result<(), Memory>
    ensures { OnOk result (slots.new.items ≡ first_slots count args.now) }
{
    slots.clear();
    set(slots, args)?;
    unset(slots, count.saturating_sub(args.len() as u64))?;
    Ok(())
}

/// A call of the unit with these arguments, and what it captured behind them, in the room of a call that is over. It takes time
/// that grows with its slots, and no more room where there is enough.
pub fn enter_again(
    alloc: Global,
    unit: &UnitCode,
    args: &[Value],
    held: Held,
) -> Result<Frame, Memory>
    ensures { IfOk result (λ f. standing_of f ≡ begins args.now unit.now) }
{
    let mut local = held;
    fill(&mut local.slots, unit.slots, args)?;
    local.stack.clear();
    Ok(Frame {
        place: unit.first,
        traps: Vec::new(alloc),
        local,
    })
}

/// A call of the unit with these arguments, and what it captured behind them. It takes time and room that grow with its slots.
pub fn enter(alloc: Global, unit: &UnitCode, args: &[Value]) -> Result<Frame, Memory>
    ensures { IfOk result (λ f. standing_of f ≡ begins args.now unit.now) }
{
    let held = Held {
        slots: Vec::with_capacity(alloc, unit.slots as usize)?,
        stack: Vec::new(alloc),
    };
    enter_again(alloc, unit, args, held)
}
