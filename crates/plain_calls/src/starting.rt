//! Strands that are made.
#![tactic(auto, using(crate::proofs::Making::making))]

ghost use Rattle.std.specs.Prelude.{◌≡◌, IfOk, OnOk, map, option_map, true};
ghost use Rattle.operations.specs.declared.operation.Operation.TheVariants as operation;
ghost use Rattle.op_model.specs.CallRows as model;
ghost use Rattle.op_model.specs.Strands.{strand_made};
ghost use Rattle.plain_run.specs.declared.facts.ProgramFacts.{ProgramFacts as FactsOf};
ghost use Rattle.plain_run.specs.Effects.{EffectStays, IsPerformed, Stays, effect_of, spawned_of};
ghost use Rattle.plain_run.specs.Held.{common_of, role_of};

use bal_base::{LimitKind, Memory};
use plain_run::{Caller, Common, Effect, Performed, Role, Spawned, Status, Strand, share_all};
use std::alloc::Global;
use value_model::Value;

/// The most strands that are made in a run.
pub(crate) const MOST_STRANDS: usize = 65_536;

/// A strand is made for a unit, and is ready last.
pub(crate) fn make_strand(common: &mut Common, unit: u32, role: Option<Role>) -> Result<(), Memory>
    ensures { OnOk result (common_of common.new ≡ strand_made unit (option_map role_of role) (common_of common.old)) }
{
    let number = common.strands.len() as u64;
    common.strands.push(Strand {
        unit,
        role,
        status: Status::Active,
        taken: false,
    })?;
    common.ready.push(number)?;
    Ok(())
}

/// One strand more, whose future is given.
pub(crate) fn starts(
    alloc: Global,
    common: &mut Common,
    role: Option<Role>,
    unit: u32,
    args: Vec<Value>,
) -> Result<Effect, Memory>
    ensures row { IfOk result (λ e. effect_of e common.new ≡ model.starts (common_of common.old) (option_map role_of role) unit args.items) }
    ensures stays { IfOk result (EffectStays common.old common.new) }
{
    let strand = common.strands.len();
    if strand >= MOST_STRANDS {
        return Ok(Effect::Beyond(LimitKind::Strands));
    }
    make_strand(common, unit, None)?;
    let spawned = Spawned {
        unit,
        args,
        role: None,
    };
    Ok(Effect::Spawns {
        spawned: vec![in alloc; spawned]?,
        role,
        given: Some(Value::Future {
            strand: strand as u32,
            unit,
        }),
    })
}

/// A strand is started with a call of a unit.
pub fn perform_start(
    alloc: Global,
    unit: u32,
    count: u64,
    operands: &[Value],
    caller: &Caller,
    common: &mut Common,
) -> Result<Performed, Memory>
    ensures row { IfOk result (λ done. (facts : FactsOf) → IsPerformed facts (operation.Start unit count) operands.now caller.now common.old common.new ⊥ done) }
    ensures stays { IfOk result (Stays common.old common.new) }
{
    let args = share_all(alloc, operands)?;
    Ok(Performed::Done(starts(alloc, common, caller.role, unit, args)?))
}
