//! The named workers of a function.
#![tactic(auto, using(crate::proofs::Making::making))]

ghost use Rattle.std.specs.Prelude.{◌≡◌, ◌∷◌, ◌+◌, ◌++◌, ◌<◌, ◌^◌, [], IfOk, None, OnOk, length, map, option_map, replicate, true};
ghost use Rattle.operations.specs.declared.operation.Operation.TheVariants as operation;
ghost use Rattle.op_model.specs.CallRows as model;
ghost use Rattle.op_model.specs.Levels.{numbers_from};
ghost use Rattle.op_model.specs.Strands.{no_channel};
ghost use Rattle.plain_run.specs.Effects.{EffectStays, IsPerformed, Stays, effect_of, spawned_of};
ghost use Rattle.plain_run.specs.ProgramFacts.{worker_facts_of};
ghost use Rattle.plain_run.specs.Held.{activation_of, channel_of, common_of, end_of};
ghost use Rattle.plain_calls.specs.Making.{with_another};

use crate::slices::{behind, front};
use crate::starting::{MOST_STRANDS, make_strand};
use bal_base::{LimitKind, Memory};
use plain_run::{
    Activation, Caller, Channel, Common, Effect, End, Performed, ProgramFacts, Role, Spawned,
    WorkerFacts, share_all,
};
use std::alloc::Global;
use value_model::Value;

/// The workers from this one on, behind the others: each with the values that it captures.
fn add_workers(
    alloc: Global,
    activation: u64,
    worker: u64,
    workers: &[WorkerFacts],
    values: &[Value],
    spawned: &mut Vec<Spawned>,
) -> Result<(), Memory>
    requires { worker + length workers.now < 2 ^ 64 }
    ensures { OnOk result (map spawned_of spawned.new.items ≡ map spawned_of spawned.old.items ++ model.workers_from activation worker (map worker_facts_of workers.now) values.now) }
{
    let mut left = values;
    let mut number = worker;
    for next in workers {
        let count = next.captured.len();
        let args = share_all(alloc, front(left, count))?;
        spawned.push(Spawned {
            unit: next.unit,
            args,
            role: Some(Role {
                activation,
                worker: number,
            }),
        })?;
        left = behind(left, count);
        number += 1;
    }
    Ok(())
}

/// The numbers from this one on, one for each worker, behind the others.
fn add_numbers(first: u64, workers: &[WorkerFacts], numbers: &mut Vec<u64>) -> Result<(), Memory>
    requires { first + length workers.now < 2 ^ 64 }
    ensures { OnOk result (numbers.new.items ≡ numbers.old.items ++ numbers_from first (length workers.now)) }
{
    let mut number = first;
    for _ in workers {
        numbers.push(number)?;
        number += 1;
    }
    Ok(())
}

/// So many workers, none of which has ended.
fn no_ends(alloc: Global, count: u64) -> Result<Vec<Option<End>>, Memory>
    ensures { IfOk result (λ ends. map (option_map end_of) ends.items ≡ replicate count None) }
{
    let mut ends = Vec::new(alloc);
    for _ in 0..count {
        ends.push(None)?;
    }
    Ok(ends)
}

/// So many channels without a message.
fn no_channels(alloc: Global, count: u64) -> Result<Vec<Channel>, Memory>
    ensures { IfOk result (λ row. map channel_of row.items ≡ replicate count no_channel) }
{
    let mut row = Vec::new(alloc);
    for _ in 0..count {
        row.push(Channel {
            sent: 0,
            received: 0,
            queue: Vec::new(alloc),
        })?;
    }
    Ok(row)
}

/// So many rows of so many.
fn no_rows(alloc: Global, count: u64, width: u64) -> Result<Vec<Vec<Channel>>, Memory>
    ensures { IfOk result (λ rows. map (λ xs. map channel_of xs.items) rows.items ≡ replicate count (replicate width no_channel)) }
{
    let mut rows = Vec::new(alloc);
    for _ in 0..count {
        rows.push(no_channels(alloc, width)?)?;
    }
    Ok(rows)
}

/// The activation of the function with this unit, whose default worker is the running strand.
fn new_activation(
    alloc: Global,
    common: &Common,
    unit: u32,
    workers: &[WorkerFacts],
) -> Result<Activation, Memory>
    requires { length common.now.strands + length workers.now < 2 ^ 63 }
    ensures { IfOk result (λ a. activation_of a ≡ model.new_activation (common_of common.now) unit (length workers.now)) }
{
    let mut strands = vec![in alloc; common.running]?;
    add_numbers(common.strands.len() as u64, workers, &mut strands)?;
    let count = workers.len() as u64 + 1;
    Ok(Activation {
        unit,
        strands,
        ends: no_ends(alloc, count)?,
        channels: no_rows(alloc, count, count)?,
    })
}

/// The strands of these are made in this order.
fn make_strands(common: &mut Common, spawned: &[Spawned]) -> Result<(), Memory>
    ensures { OnOk result (common_of common.new ≡ model.strands_made (map spawned_of spawned.now) (common_of common.old)) }
{
    for s in spawned {
        make_strand(common, s.unit, s.role)?;
    }
    Ok(())
}

/// One activation more.
fn add_activation(common: &mut Common, activation: Activation) -> Result<(), Memory>
    ensures { OnOk result (common_of common.new ≡ with_another (common_of common.old) (activation_of activation)) }
{
    common.activations.push(activation)?;
    Ok(())
}

/// These workers of the function with this unit start, as far as there may be so many strands.
fn starts_workers(
    alloc: Global,
    common: &mut Common,
    unit: u32,
    workers: &[WorkerFacts],
    values: &[Value],
) -> Result<Effect, Memory>
    ensures row { IfOk result (λ e. effect_of e common.new ≡ model.starts_workers (common_of common.old) unit (map worker_facts_of workers.now) values.now) }
    ensures stays { IfOk result (EffectStays common.old common.new) }
{
    let there = common.strands.len();
    if there > MOST_STRANDS || workers.len() > MOST_STRANDS - there {
        return Ok(Effect::Beyond(LimitKind::Strands));
    }
    let activation = common.activations.len() as u64;
    let mut spawned = Vec::new(alloc);
    add_workers(alloc, activation, 1, workers, values, &mut spawned)?;
    let made = new_activation(alloc, common, unit, workers)?;
    add_activation(common, made)?;
    make_strands(common, spawned.as_slice())?;
    Ok(Effect::Spawns {
        spawned,
        role: Some(Role {
            activation,
            worker: 0,
        }),
        given: None,
    })
}

/// The named workers of the unit start, with the values that they capture.
pub fn perform_workers(
    alloc: Global,
    facts: &ProgramFacts,
    operands: &[Value],
    caller: &Caller,
    common: &mut Common,
) -> Result<Performed, Memory>
    ensures row { IfOk result (λ done. IsPerformed facts.now operation.Workers operands.now caller.now common.old common.new ⊥ done) }
    ensures stays { IfOk result (Stays common.old common.new) }
{
    match facts.units.get(caller.unit as usize) {
        None => Ok(Performed::Stuck),
        Some(unit) => Ok(Performed::Done(starts_workers(
            alloc,
            common,
            caller.unit,
            unit.workers.as_slice(),
            operands,
        )?)),
    }
}
