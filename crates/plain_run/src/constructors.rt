//! Constructors of lists and function values.
ghost use Rattle.std.specs.Prelude.{IfOk, true};
ghost use Rattle.operations.specs.declared.operation.Operation.TheVariants as operation;
ghost use Rattle.plain_run.specs.declared.facts.ProgramFacts.{ProgramFacts as FactsOf};
ghost use Rattle.plain_run.specs.declared.held.Caller.{Caller as CallerOf};
ghost use Rattle.plain_run.specs.Effects.{IsPerformed, Stays};

use crate::effect::{Performed, lifted};
use crate::frames::share_all;
use crate::held::{Common, Members};
use crate::making::{gives_function, gives_structure, new_structure};
use bal_base::Memory;
use std::alloc::Global;
use value_model::Value;

/// A list of the operands.
pub fn perform_make_list(
    alloc: Global,
    atom: u32,
    immutable: bool,
    count: u64,
    operands: &[Value],
    common: &mut Common,
) -> Result<Performed, Memory>
    ensures row { IfOk result (λ done. (facts : FactsOf) (caller : CallerOf) → IsPerformed facts (operation.MakeList atom immutable count) operands.now caller common.old common.new ⊥ done) }
    ensures stays { IfOk result (Stays common.old common.new) }
{
    let items = share_all(alloc, operands)?;
    let made = new_structure(Some(atom), !immutable, Members::Items(items));
    let came = gives_structure(&mut common.world, made)?;
    Ok(Performed::Done(lifted(came)))
}

/// A function value that captures the operands.
pub fn perform_make_function(
    alloc: Global,
    unit: u32,
    count: u64,
    operands: &[Value],
    common: &mut Common,
) -> Result<Performed, Memory>
    ensures row { IfOk result (λ done. (facts : FactsOf) (caller : CallerOf) → IsPerformed facts (operation.MakeFunction unit count) operands.now caller common.old common.new ⊥ done) }
    ensures stays { IfOk result (Stays common.old common.new) }
{
    let captured = share_all(alloc, operands)?;
    let came = gives_function(&mut common.world, unit, captured)?;
    Ok(Performed::Done(lifted(came)))
}
