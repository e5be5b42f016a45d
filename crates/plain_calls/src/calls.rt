//! Calls of function values.
#![tactic(auto, using(crate::proofs::Calling::calling))]

ghost use Rattle.std.specs.Prelude.{◌≡◌, ◌∷◌, ◌-◌, ◌++◌, [], IfOk, OnOk, Some, nat_le, option_map, slice_get, true, ℕ};
ghost use Rattle.operations.specs.declared.operation.Operation.TheVariants as operation;
ghost use Rattle.value_model.specs.Heap.{Items, cells};
ghost use Rattle.value_model.specs.declared.value.Value.TheVariants.{Function, Struct};
ghost use Rattle.op_model.specs.Limits.{most_cells};
ghost use Rattle.op_model.specs.Rows.{makes, new_structure as new_structure_of, next_structure};
ghost use Rattle.plain_run.specs.Effects.{EffectStays, IsPerformed, Stays, effect_of};
ghost use Rattle.plain_run.specs.declared.held.Caller.{Caller as CallerOf};
ghost use Rattle.plain_run.specs.ProgramFacts.{unit_facts_of};
ghost use Rattle.plain_run.specs.Held.{common_of, function_of, role_of, world_of};
ghost use Rattle.plain_calls.specs.Callees.{all_passed, rest_fits, value_called, value_started, with_list};

use crate::slices::{behind, front};
use crate::starting::{MOST_STRANDS, starts};
use bal_base::{LimitKind, Memory};
use plain_run::{
    Caller, Common, Effect, FunctionObject, Members, Performed, ProgramFacts, UnitFacts, World,
    has_room_for, new_structure, share_all,
};
use std::alloc::Global;
use value_model::Value;

/// The function value with this number, where it is there.
fn function_at(alloc: Global, world: &World, n: u32) -> Result<Option<FunctionObject>, Memory>
    ensures { IfOk result (λ f. option_map function_of f ≡ slice_get (world_of world.now).heap.functions n) }
{
    match world.heap.functions.get(n as usize) {
        None => Ok(None),
        Some(f) => Ok(Some(FunctionObject {
            unit: f.unit,
            captured: share_all(alloc, f.captured.as_slice())?,
        })),
    }
}

/// How many parameters stand before the rest parameter.
fn before_rest(unit: &UnitFacts) -> usize
    ensures { result ≡ unit.now.params - 1 }
{
    unit.params.saturating_sub(1) as usize
}

/// Whether the list of the rest parameter, if there is one, has room.
fn fits(unit: &UnitFacts, world: &World, args: &[Value]) -> bool
    ensures { result ≡ rest_fits (unit_facts_of unit.now) (world_of world.now) args.now }
{
    match unit.rest {
        None => has_room_for(&world.heap, 0, 0),
        Some(_) => {
            let list = behind(args, before_rest(unit));
            has_room_for(&world.heap, list.len() as u64, 1)
        }
    }
}

/// A list is made for which there is room.
fn make_list(world: &mut World, atom: u32, items: Vec<Value>) -> Result<Value, Memory>
    requires { nat_le (cells (makes (world_of world.old) (new_structure_of (Some atom) true (Items items.items) ∷ [])).heap) most_cells ≡ true }
    ensures given { IfOk result (λ v. v ≡ Struct (next_structure (world_of world.old))) }
    ensures made { OnOk result (world_of world.new ≡ makes (world_of world.old) (new_structure_of (Some atom) true (Items items.items) ∷ [])) }
{
    let number = world.heap.structures.len() as u32;
    let made = new_structure(Some(atom), true, Members::Items(items));
    world.heap.structures.push(made)?;
    Ok(Value::Struct(number))
}

/// These values again, behind the others.
fn add_shared(values: &[Value], shared: &mut Vec<Value>) -> Result<(), Memory>
    ensures { OnOk result (shared.new.items ≡ shared.old.items ++ values.now) }
{
    for v in values {
        shared.push(v.share())?;
    }
    Ok(())
}

/// The arguments of a call: those past the other parameters are in a list, which is made; the captured values come last.
fn pass_args(
    alloc: Global,
    unit: &UnitFacts,
    captured: &[Value],
    args: &[Value],
    world: &mut World,
) -> Result<Vec<Value>, Memory>
    requires { rest_fits (unit_facts_of unit.now) (world_of world.old) args.now ≡ true }
    ensures passed { IfOk result (λ vs. vs.items ≡ all_passed (unit_facts_of unit.now) (world_of world.old) args.now captured.now) }
    ensures made { OnOk result (world_of world.new ≡ with_list (unit_facts_of unit.now) (world_of world.old) args.now) }
{
    match unit.rest {
        None => {
            let mut passed = share_all(alloc, args)?;
            add_shared(captured, &mut passed)?;
            Ok(passed)
        }
        Some(atom) => {
            let mut passed = share_all(alloc, front(args, before_rest(unit)))?;
            let items = share_all(alloc, behind(args, before_rest(unit)))?;
            passed.push(make_list(world, atom, items)?)?;
            add_shared(captured, &mut passed)?;
            Ok(passed)
        }
    }
}

/// A call of the unit of a function value.
fn enters(
    alloc: Global,
    unit: &UnitFacts,
    f: &FunctionObject,
    args: &[Value],
    common: &mut Common,
) -> Result<Effect, Memory>
    ensures row { IfOk result (λ e. effect_of e common.new ≡ value_called (common_of common.old) (function_of f.now) (unit_facts_of unit.now) args.now) }
    ensures stays { IfOk result (EffectStays common.old common.new) }
{
    if !fits(unit, &common.world, args) {
        return Ok(Effect::Beyond(LimitKind::Cells));
    }
    let args = pass_args(alloc, unit, f.captured.as_slice(), args, &mut common.world)?;
    Ok(Effect::Enters { unit: f.unit, args })
}

/// A call of the function value with this number.
fn calls_value(
    alloc: Global,
    facts: &ProgramFacts,
    n: u32,
    args: &[Value],
    common: &mut Common,
) -> Result<Performed, Memory>
    ensures row { IfOk result (λ done. (caller : CallerOf) (count : ℕ) → IsPerformed facts.now (operation.CallValue count) (Function n ∷ args.now) caller common.old common.new ⊥ done) }
    ensures stays { IfOk result (Stays common.old common.new) }
{
    match function_at(alloc, &common.world, n)? {
        None => Ok(Performed::Stuck),
        Some(f) => match facts.units.get(f.unit as usize) {
            None => Ok(Performed::Stuck),
            Some(unit) => Ok(Performed::Done(enters(alloc, unit, &f, args, common)?)),
        },
    }
}

/// A call of a function value.
pub fn perform_call_value(
    alloc: Global,
    facts: &ProgramFacts,
    count: u64,
    operands: &[Value],
    common: &mut Common,
) -> Result<Performed, Memory>
    ensures row { IfOk result (λ done. (caller : CallerOf) → IsPerformed facts.now (operation.CallValue count) operands.now caller common.old common.new ⊥ done) }
    ensures stays { IfOk result (Stays common.old common.new) }
{
    match operands {
        [Value::Function(n), args @ ..] => calls_value(alloc, facts, *n, args, common),
        _ => Ok(Performed::Stuck),
    }
}

/// A strand is started with a call of the unit of a function value.
fn starts_value(
    alloc: Global,
    unit: &UnitFacts,
    f: &FunctionObject,
    args: &[Value],
    caller: &Caller,
    common: &mut Common,
) -> Result<Effect, Memory>
    ensures row { IfOk result (λ e. effect_of e common.new ≡ value_started (common_of common.old) (option_map role_of caller.now.role) (function_of f.now) (unit_facts_of unit.now) args.now) }
    ensures stays { IfOk result (EffectStays common.old common.new) }
{
    if !fits(unit, &common.world, args) {
        return Ok(Effect::Beyond(LimitKind::Cells));
    }
    if common.strands.len() >= MOST_STRANDS {
        return Ok(Effect::Beyond(LimitKind::Strands));
    }
    let args = pass_args(alloc, unit, f.captured.as_slice(), args, &mut common.world)?;
    starts(alloc, common, caller.role, f.unit, args)
}

/// A strand is started with the function value with this number.
fn starts_function(
    alloc: Global,
    facts: &ProgramFacts,
    n: u32,
    args: &[Value],
    caller: &Caller,
    common: &mut Common,
) -> Result<Performed, Memory>
    ensures row { IfOk result (λ done. (count : ℕ) → IsPerformed facts.now (operation.StartValue count) (Function n ∷ args.now) caller.now common.old common.new ⊥ done) }
    ensures stays { IfOk result (Stays common.old common.new) }
{
    match function_at(alloc, &common.world, n)? {
        None => Ok(Performed::Stuck),
        Some(f) => match facts.units.get(f.unit as usize) {
            None => Ok(Performed::Stuck),
            Some(unit) => {
                let effect = starts_value(alloc, unit, &f, args, caller, common)?;
                Ok(Performed::Done(effect))
            }
        },
    }
}

/// A strand is started with a function value.
pub fn perform_start_value(
    alloc: Global,
    facts: &ProgramFacts,
    count: u64,
    operands: &[Value],
    caller: &Caller,
    common: &mut Common,
) -> Result<Performed, Memory>
    ensures row { IfOk result (λ done. IsPerformed facts.now (operation.StartValue count) operands.now caller.now common.old common.new ⊥ done) }
    ensures stays { IfOk result (Stays common.old common.new) }
{
    match operands {
        [Value::Function(n), args @ ..] => {
            starts_function(alloc, facts, *n, args, caller, common)
        }
        _ => Ok(Performed::Stuck),
    }
}
