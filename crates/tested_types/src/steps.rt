//! The types for which steps ask.
#![tactic(auto, using(crate::proofs::Noting::noting))]

ghost use Rattle.std.specs.Prelude.{Any, OnOk, map};
ghost use Rattle.held_operations.specs.Operation.{operation_of};
ghost use Rattle.lower_expr.specs.Drafts.{step_of};
ghost use Rattle.stack_code.specs.Commands.{Do};
ghost use Rattle.tested_types.specs.Asked.{Asks, Notes};

use crate::places::{note, note_tested};
use bal_base::Memory;
use held_operations::Op;
use lower_expr::Step;
use std::alloc::Global;
use type_model::SemType;

/// Notes the type that an operation tests or casts to.
fn operation(types: &mut Vec<SemType>, alloc: Global, op: Op<'_>) -> Result<(), Memory>
    ensures { OnOk result (Notes (Asks (Do (operation_of op.entry))) types.old.items types.new.items) }
{
    match op {
        Op::Test(t) => note_tested(types, alloc, t),
        Op::Cast(t) => note(types, alloc, &t.sem),
        Op::Const(_) | Op::Nil | Op::Truth(_) | Op::Int(_) => Ok(()),
        Op::Load(_) | Op::Store(_) | Op::Pop | Op::LoadModule(_) | Op::StoreModule(_) => Ok(()),
        Op::Tick | Op::Add | Op::Subtract | Op::Multiply | Op::Divide | Op::Remainder => Ok(()),
        Op::Negate | Op::Concat | Op::Less | Op::LessEqual | Op::Not => Ok(()),
        Op::Equal | Op::Same | Op::MakeError { .. } => Ok(()),
        Op::MakeList { .. } | Op::MakeMapping { .. } | Op::MakeFunction { .. } => Ok(()),
        Op::GetItem | Op::GetKey | Op::GetChar | Op::GetField(_) | Op::GetOptional(_) => Ok(()),
        Op::SetItem | Op::SetKey | Op::Call { .. } | Op::CallValue { .. } => Ok(()),
        Op::Library { .. } | Op::Return | Op::Panic | Op::Workers => Ok(()),
        Op::Start { .. } | Op::StartValue { .. } => Ok(()),
        Op::Send(_) | Op::Post(_) | Op::Done(_) | Op::Receive(_) | Op::Flush(_) => Ok(()),
        Op::WaitWorker(_) | Op::WaitFuture | Op::WaitAny(_) | Op::WaitAll { .. } => Ok(()),
    }
}

/// Notes the type that a step tests or casts to.
fn step(types: &mut Vec<SemType>, alloc: Global, step: Step<'_>) -> Result<(), Memory>
    ensures { OnOk result (Notes (Asks (step_of step.entry)) types.old.items types.new.items) }
{
    match step {
        Step::Do(op) => operation(types, alloc, op),
        Step::Cast(t) => note_tested(types, alloc, t),
        Step::GoTo(_) | Step::GoToIfNot(_) | Step::OpenTrap(_) | Step::CloseTrap => Ok(()),
    }
}

/// Notes the types that steps test or cast to.
pub fn steps(types: &mut Vec<SemType>, alloc: Global, steps: &[Step<'_>]) -> Result<(), Memory>
    ensures { OnOk result (Notes (λ t. Any (λ c. Asks c t) (map step_of steps.now)) types.old.items types.new.items) }
{
    for s in steps {
        step(types, alloc, *s)?;
    }
    Ok(())
}
