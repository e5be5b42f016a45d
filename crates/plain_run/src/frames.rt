//! Slots, ticks, calls, and the ends of frames.
ghost use Rattle.std.specs.Prelude.{◌≡◌, IfOk, true};
ghost use Rattle.operations.specs.declared.operation.Operation.TheVariants as operation;
ghost use Rattle.plain_run.specs.declared.facts.ProgramFacts.{ProgramFacts as FactsOf};
ghost use Rattle.plain_run.specs.declared.held.Caller.{Caller as CallerOf};
ghost use Rattle.plain_run.specs.declared.held.Common.{Common as CommonOf};
ghost use Rattle.plain_run.specs.Effects.{IsPerformed, Stays};

use crate::effect::{Effect, Performed, lifted};
use crate::held::Common;
use crate::world::{Came, panics};
use bal_base::{LimitKind, Memory};
use std::alloc::Global;
use value_model::{PanicName, Value};

/// A slot that was never stored is loaded.
pub fn perform_load(
    alloc: Global,
    slot: u64,
    operands: &[Value],
    common: &mut Common,
) -> Result<Performed, Memory>
    ensures row { IfOk result (λ done. (facts : FactsOf) (caller : CallerOf) → IsPerformed facts (operation.Load slot) operands.now caller common.old common.new ⊥ done) }
    ensures stays { IfOk result (Stays common.old common.new) }
{
    match operands {
        [] => {
            let came = panics(alloc, &mut common.world, PanicName::NotInitialised)?;
            Ok(Performed::Done(lifted(came)))
        }
        _ => Ok(Performed::Stuck),
    }
}

/// The frame ends.
pub fn perform_return(operands: &[Value], common: &Common) -> Performed
    ensures row { (facts : FactsOf) (caller : CallerOf) → IsPerformed facts operation.Return operands.now caller common.now common.now ⊥ result }
    ensures stays { Stays common.now common.now result }
{
    match operands {
        [v] => Performed::Done(Effect::Leaves(v.share())),
        _ => Performed::Stuck,
    }
}

/// A panic with an error.
pub fn perform_panic(operands: &[Value], common: &Common) -> Performed
    ensures row { (facts : FactsOf) (caller : CallerOf) → IsPerformed facts operation.Panic operands.now caller common.now common.now ⊥ result }
    ensures stays { Stays common.now common.now result }
{
    match operands {
        [Value::Error(n)] => Performed::Done(Effect::Fails(Value::Error(*n))),
        _ => Performed::Stuck,
    }
}

/// The same values again.
pub fn share_all(alloc: Global, values: &[Value]) -> Result<Vec<Value>, Memory>
    ensures { IfOk result (λ shared. shared.items ≡ values.now) }
{
    let mut shared = Vec::new(alloc);
    for v in values {
        shared.push(v.share())?;
    }
    Ok(shared)
}

/// A call of a unit.
pub fn perform_call(
    alloc: Global,
    unit: u32,
    count: u64,
    operands: &[Value],
    common: &Common,
) -> Result<Performed, Memory>
    ensures row { IfOk result (λ done. (facts : FactsOf) (caller : CallerOf) → IsPerformed facts (operation.Call unit count) operands.now caller common.now common.now ⊥ done) }
    ensures stays { IfOk result (Stays common.now common.now) }
{
    Ok(Performed::Done(Effect::Enters {
        unit,
        args: share_all(alloc, operands)?,
    }))
}

/// A tick is spent, and then there are not too many frames. No tick is spent where the panic passes a limit.
pub fn perform_tick(
    alloc: Global,
    depth: u64,
    operands: &[Value],
    common: &mut Common,
) -> Result<Performed, Memory>
    ensures row { IfOk result (λ done. (facts : FactsOf) (caller : CallerOf) → caller.depth ≡ depth → IsPerformed facts operation.Tick operands.now caller common.old common.new ⊥ done) }
    ensures stays { IfOk result (Stays common.old common.new) }
{
    if !operands.is_empty() {
        return Ok(Performed::Stuck);
    }
    if common.ticks == 0 {
        return Ok(Performed::Done(Effect::NoTick));
    }
    if depth <= 4096 {
        common.ticks -= 1;
        return Ok(Performed::Done(Effect::Gives(None)));
    }
    match panics(alloc, &mut common.world, PanicName::StackOverflow)? {
        Came::PassesCells => Ok(Performed::Done(Effect::Beyond(LimitKind::Cells))),
        Came::Threw(e) => {
            common.ticks -= 1;
            Ok(Performed::Done(Effect::Fails(e)))
        }
        Came::Gave(v) => {
            common.ticks -= 1;
            Ok(Performed::Done(Effect::Gives(v)))
        }
    }
}
