//! The units of a code.

ghost use Rattle.std.specs.Prelude.{◌≡◌, IfOk, Some, length, map, take};
ghost use Rattle.std.specs.List.{AllZip};
ghost use Rattle.type_model.specs.SameType.{IsSameType};
ghost use Rattle.typed_tree.specs.declared.unit.Captured.{Captured as CapturedOf};
ghost use Rattle.eval_model.specs.Trees.{worker_facts, workers_in};
ghost use Rattle.lower_stmt.specs.Bodies.{body_of};
ghost use Rattle.code_assembly.specs.Copies.{IsCopy};
ghost use Rattle.code_assembly.specs.Unit.{IsUnitOf, params_in, spawn_facts};
ghost use Rattle.typed_tree.specs.Units.{OfFunction};

use bal_base::{Memory, Numbers};
use lower_stmt::Body;
use package_units::HeldUnit;
use stack_code::{Spawn, Spawns, Unit};
use std::alloc::Global;
use type_model::{SemType, TypeList};
use typed_tree::{Captured, SharedTy, TypedBody, TypedUnit, TypedWorker};

/// A unit whose steps stand in a draft, from the first to before the end.
#[derive(Clone, Copy)]
pub struct LaidUnit<'a> {
    pub held: HeldUnit<'a>,
    pub first: u32,
    pub end: u32,
}

/// A copy of the type.
fn sem(alloc: Global, t: &SharedTy) -> Result<SemType, Memory>
    ensures { IfOk result (IsCopy t.now) }
{
    t.sem.copy(alloc)
}

/// Copies of types.
pub fn types(alloc: Global, slots: &[SharedTy]) -> Result<Vec<SemType>, Memory>
    ensures copies { IfOk result (λ ts. AllZip IsCopy slots.now ts.items) }
    ensures count { IfOk result (λ ts. length ts.items ≡ length slots.now) }
{
    let mut types = Vec::new(alloc);
    for t in slots {
        types.push(sem(alloc, t)?)?;
    }
    Ok(types)
}

/// The first so many, where there are as many.
fn front(slots: &[SharedTy], count: usize) -> Result<&[SharedTy], Memory>
    ensures front { IfOk result (λ part. part.now ≡ take count slots.now) }
    ensures count { IfOk result (λ part. length part.now ≡ count) }
{
    if count > slots.len() {
        return Err(Memory);
    }
    Ok(&slots[..count])
}

/// The types of what a unit captures, which stand behind its parameters.
fn captured(alloc: Global, u: HeldUnit<'_>) -> Result<TypeList, Memory>
    ensures { IfOk result (λ ts. length ts ≡ u.entry.captured) }
{
    let slots = u.unit.slots.as_slice();
    let params = front(slots, u.unit.params as usize)?;
    let captured = front(&slots[params.len()..], u.captured)?;
    Ok(TypeList::of(types(alloc, captured)?))
}

/// The types of a unit's parameters, which are those of its first slots.
fn params(alloc: Global, u: &TypedUnit) -> Result<TypeList, Memory>
    ensures { IfOk result (λ ts. length ts ≡ u.now.params) }
{
    let params = front(u.slots.as_slice(), u.params as usize)?;
    Ok(TypeList::of(types(alloc, params)?))
}

/// The slots of captured variables.
fn captured_slots(alloc: Global, cs: &[Captured]) -> Result<Vec<u32>, Memory>
    ensures { IfOk result (λ ns. ns.items ≡ map (λ (c : CapturedOf). c.slot) cs.now) }
{
    let mut slots = Vec::new(alloc);
    for c in cs {
        slots.push(c.slot)?;
    }
    Ok(slots)
}

fn spawn(alloc: Global, w: &TypedWorker) -> Result<Spawn, Memory>
    ensures { IfOk result (λ s. spawn_facts s ≡ worker_facts w.now) }
{
    let slots = captured_slots(alloc, w.captured.as_slice())?;
    Ok(Spawn {
        unit: w.unit.number,
        slots: Numbers::of(slots),
    })
}

fn spawns_of(alloc: Global, ws: &[TypedWorker]) -> Result<Vec<Spawn>, Memory>
    ensures { IfOk result (λ ss. map spawn_facts ss.items ≡ map worker_facts ws.now) }
{
    let mut spawns = Vec::new(alloc);
    for w in ws {
        spawns.push(spawn(alloc, w)?)?;
    }
    Ok(spawns)
}

/// The named workers of a function.
fn spawns_in(alloc: Global, b: &TypedBody) -> Result<Spawns, Memory>
    ensures { IfOk result (λ ss. map spawn_facts ss ≡ workers_in (OfFunction b.now)) }
{
    match b {
        TypedBody::Block { workers, .. } => Ok(Spawns::of(spawns_of(alloc, workers)?)),
        TypedBody::Expr { .. } => Ok(Spawns::of(Vec::new(alloc))),
    }
}

/// The named workers of a unit.
fn spawns(alloc: Global, body: Body<'_>) -> Result<Spawns, Memory>
    ensures { IfOk result (λ ss. map spawn_facts ss ≡ workers_in (body_of body.entry)) }
{
    match body {
        Body::Function(b) => spawns_in(alloc, b),
        Body::Worker(_) | Body::Anonymous(_) => Ok(Spawns::of(Vec::new(alloc))),
        Body::Initialiser(_) => Ok(Spawns::of(Vec::new(alloc))),
    }
}

/// The unit of a code.
fn unit(alloc: Global, l: LaidUnit<'_>) -> Result<Unit, Memory>
    ensures { IfOk result (IsUnitOf l.entry) }
{
    let own = l.held.unit;
    let params = params(alloc, own)?;
    let captured = captured(alloc, l.held)?;
    let slots = types(alloc, own.slots.as_slice())?;
    let result = own.result.sem.copy(alloc)?;
    let workers = spawns(alloc, l.held.body)?;
    Ok(Unit {
        first: l.first,
        end: l.end,
        params,
        captured,
        slots: TypeList::of(slots),
        result,
        rest: own.rest,
        arrow: own.arrow,
        future: own.future,
        workers,
    })
}

/// The units of a code.
pub fn units(alloc: Global, laid: &[LaidUnit<'_>]) -> Result<Vec<Unit>, Memory>
    ensures { IfOk result (λ vs. AllZip IsUnitOf laid.now vs.items) }
{
    let mut units = Vec::new(alloc);
    for l in laid {
        units.push(unit(alloc, *l)?)?;
    }
    Ok(units)
}

/// How many parameters each unit has.
pub fn param_counts(alloc: Global, laid: &[LaidUnit<'_>]) -> Result<Vec<u32>, Memory>
    ensures { IfOk result (λ ns. ns.items ≡ map params_in laid.now) }
{
    let mut counts = Vec::new(alloc);
    for l in laid {
        counts.push(l.held.unit.params)?;
    }
    Ok(counts)
}
