//! Module variables.
ghost use Rattle.std.specs.Prelude.{◌≡◌, ◌∷◌, IfOk, [], true};
ghost use Rattle.operations.specs.declared.operation.Operation.TheVariants as operation;
ghost use Rattle.op_model.specs.CallRows.{held_after as held_after_of, is_initialiser as is_initialiser_of};
ghost use Rattle.plain_run.specs.declared.facts.ProgramFacts.{ProgramFacts as FactsOf};
ghost use Rattle.plain_run.specs.declared.held.Caller.{Caller as CallerOf};
ghost use Rattle.plain_run.specs.Effects.{IsPerformed, Stays};
ghost use Rattle.plain_run.specs.ProgramFacts.{facts_of};

use crate::effect::{Effect, Performed, lifted};
use crate::facts::ProgramFacts;
use crate::held::Common;
use crate::world::panics;
use bal_base::Memory;
use std::alloc::Global;
use value_model::{PanicName, Value};

/// What is in a module variable.
pub fn perform_load_module(
    alloc: Global,
    variable: u32,
    operands: &[Value],
    common: &mut Common,
) -> Result<Performed, Memory>
    ensures row { IfOk result (λ done. (facts : FactsOf) (caller : CallerOf) → IsPerformed facts (operation.LoadModule variable) operands.now caller common.old common.new ⊥ done) }
    ensures stays { IfOk result (Stays common.old common.new) }
{
    match operands {
        [] => load_variable(alloc, variable, common),
        _ => Ok(Performed::Stuck),
    }
}

fn load_variable(alloc: Global, variable: u32, common: &mut Common) -> Result<Performed, Memory>
    ensures row { IfOk result (λ done. (facts : FactsOf) (caller : CallerOf) → IsPerformed facts (operation.LoadModule variable) [] caller common.old common.new ⊥ done) }
    ensures stays { IfOk result (Stays common.old common.new) }
{
    match common.variables.get(variable as usize) {
        None => Ok(Performed::Stuck),
        Some(Some(v)) => Ok(Performed::Done(Effect::Gives(Some(v.share())))),
        Some(None) => {
            let came = panics(alloc, &mut common.world, PanicName::NotInitialised)?;
            Ok(Performed::Done(lifted(came)))
        }
    }
}

/// Whether the unit initialises module variables.
fn is_initialiser(facts: &ProgramFacts, unit: u32) -> bool
    ensures { result ≡ is_initialiser_of (facts_of facts.now) unit }
{
    facts.initialisers.iter().any(|u| *u == unit)
}

/// What a variable holds after a value was stored.
fn held_after(initialises: bool, held: &Option<Value>, v: &Value) -> Option<Value>
    ensures { result ≡ held_after_of initialises held.now v.now }
{
    if initialises {
        return Some(v.share());
    }
    match held {
        Some(_) => Some(v.share()),
        None => None,
    }
}

fn store_variable(
    facts: &ProgramFacts,
    unit: u32,
    variable: u32,
    v: &Value,
    common: &mut Common,
) -> Performed
    ensures row { (caller : CallerOf) → caller.unit ≡ unit → IsPerformed facts.now (operation.StoreModule variable) (v.now ∷ []) caller common.old common.new ⊥ result }
    ensures stays { Stays common.old common.new result }
{
    let place = variable as usize;
    if place >= common.variables.len() {
        return Performed::Stuck;
    }
    let held = held_after(is_initialiser(facts, unit), &common.variables[place], v);
    common.variables[place] = held;
    Performed::Done(Effect::Gives(None))
}

/// A value is stored into a module variable, which an initialiser gives its first value.
pub fn perform_store_module(
    facts: &ProgramFacts,
    unit: u32,
    variable: u32,
    operands: &[Value],
    common: &mut Common,
) -> Performed
    ensures row { (caller : CallerOf) → caller.unit ≡ unit → IsPerformed facts.now (operation.StoreModule variable) operands.now caller common.old common.new ⊥ result }
    ensures stays { Stays common.old common.new result }
{
    match operands {
        [v] => store_variable(facts, unit, variable, v, common),
        _ => Performed::Stuck,
    }
}
