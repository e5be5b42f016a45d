//! The value that is assigned, and typed statements that are made of it: a call for each variant that a need here makes.
#![tactic(auto, using(typed_tree::proofs::StmtLayers::stmt_layers))]

ghost use Rattle.std.specs.Prelude.{◌∷◌, [], IfOk, List, Ok as Given, OnOk};
ghost use Rattle.checks.specs.Checks.{Comes};
ghost use Rattle.type_model.specs.declared.atoms.AtomDef.{AtomDef as Atom};
ghost use Rattle.typed_tree.specs.declared.stmt.PerformForm.TheVariants.{SetVariable as SetVariableOf};
ghost use Rattle.check_words.specs.Stands.{Stands};
ghost use Rattle.check_words.specs.Statements.{takes_part};
ghost use Rattle.check_words.specs.StmtViews.{IsPerform, IsSet, IsUpdate};
ghost use Rattle.check_work.specs.Views.{state_of};

use bal_base::{Memory, Place};
use check_work::{Work, take_part};
use std::alloc::Global;
use typed_tree::{Operator, PerformForm, TypedExpr, TypedStmt, UpdateTarget};

/// The last part is taken, in a box.
pub(crate) fn take_boxed(alloc: Global, work: &mut Work<'_>) -> Result<Box<TypedExpr>, Memory>
    ensures stands { (env : List Atom) → Stands (state_of env work.old) → OnOk result (Stands (state_of env work.new)) }
    ensures comes { (env : List Atom) → IfOk result (λ b. Comes takes_part (state_of env work.old) (Given b.value) (state_of env work.new)) }
{
    let part = take_part(work)?;
    let boxed = Box::new(alloc, part)?;
    Ok(boxed)
}

/// The value goes into the slot.
pub(crate) fn set(slot: u32, value: Box<TypedExpr>, at: Place) -> TypedStmt
    ensures { IsSet slot value.value at result }
{
    TypedStmt::Set { slot, value, at }
}

/// The operands from left to right, and then what the form says.
fn perform(form: PerformForm, operands: Vec<TypedExpr>, at: Place) -> TypedStmt
    ensures { IsPerform form operands.items at result }
{
    TypedStmt::Perform { form, operands, at }
}

/// The value goes into the variable of a module with this number.
pub(crate) fn set_variable(
    alloc: Global,
    number: u32,
    value: Box<TypedExpr>,
    at: Place,
) -> Result<TypedStmt, Memory>
    ensures { IfOk result (IsPerform (SetVariableOf number) (value.value ∷ []) at) }
{
    let mut operands = Vec::new(alloc);
    operands.push(Box::into_inner(value))?;
    Ok(perform(PerformForm::SetVariable(number), operands, at))
}

/// What is there and the value become the operands of the operator.
pub(crate) fn update(
    target: UpdateTarget,
    op: Operator,
    value: Box<TypedExpr>,
    at: Place,
) -> TypedStmt
    ensures { IsUpdate target op value.value at result }
{
    TypedStmt::Update {
        target,
        op,
        value,
        at,
    }
}
