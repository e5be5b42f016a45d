//! Small steps of the work, each as it is meant: what a body of a need does is one of them after another.
#![tactic(auto)]

ghost use Rattle.std.specs.Prelude.{◌≡◌, IfOk, List, Ok as Given, OnOk, length};
ghost use Rattle.checks.specs.Checks.{Comes};
ghost use Rattle.flow_narrowing.specs.Flows.{VariableBelow};
ghost use Rattle.type_model.specs.declared.atoms.AtomDef.{AtomDef as Atom};
ghost use Rattle.typed_tree.specs.SharedTypes.{Shared};
ghost use Rattle.check_words.specs.Sharing.{SameShared};
ghost use Rattle.check_words.specs.Stands.{PartBelow, SharedBelow, Stands};
ghost use Rattle.check_words.specs.State.{with_variable};
ghost use Rattle.check_words.specs.Statements.{closes_block, takes_part, takes_want};
ghost use Rattle.check_words.specs.Words.{changes_flow, new_slot as new_slot_of};
ghost use Rattle.check_work.specs.Views.{block_of, state_of};

use crate::parts::{last_taken, take_one, taken};
use crate::work::{Block, Work};
use bal_base::Memory;
use flow_narrowing::Variable;
use typed_tree::{SharedTy, TypedExpr};

/// The block at hand is closed. Where none is open it is as if memory were wanted.
pub fn close_block(work: &mut Work<'_>) -> Result<Block, Memory>
    ensures stands { (env : List Atom) → Stands (state_of env work.old) → OnOk result (Stands (state_of env work.new)) }
    ensures comes { (env : List Atom) → IfOk result (λ b. Comes closes_block (state_of env work.old) (Given (block_of b)) (state_of env work.new)) }
{
    let block = last_taken(&mut work.blocks)?;
    Ok(block)
}

/// The last part is taken. Where there is none it is as if memory were wanted.
pub fn take_part(work: &mut Work<'_>) -> Result<TypedExpr, Memory>
    ensures stands { (env : List Atom) → Stands (state_of env work.old) → OnOk result (Stands (state_of env work.new)) }
    ensures below { (env : List Atom) → Stands (state_of env work.old) → IfOk result (PartBelow (length env)) }
    ensures comes { (env : List Atom) → IfOk result (λ e. Comes takes_part (state_of env work.old) (Given e) (state_of env work.new)) }
{
    let part = take_one(&mut work.found)?;
    work.ways = None;
    Ok(part)
}

/// The type that is wanted last is taken. Where none is wanted it is as if memory were.
pub fn take_want(work: &mut Work<'_>) -> Result<SharedTy, Memory>
    ensures stands { (env : List Atom) → Stands (state_of env work.old) → OnOk result (Stands (state_of env work.new)) }
    ensures below { (env : List Atom) → Stands (state_of env work.old) → IfOk result (SharedBelow (length env)) }
    ensures comes { (env : List Atom) → IfOk result (λ t. Comes takes_want (state_of env work.old) (Given t) (state_of env work.new)) }
{
    let mut want = last_taken(&mut work.wants)?;
    let t = taken(&mut want)?;
    Ok(t)
}

/// A slot more of the unit at hand, of this declared type; gives its number. Where no unit is at hand it is as if memory were wanted.
pub fn keep(work: &mut Work<'_>, ty: SharedTy) -> Result<u32, Memory>
    ensures stands { (env : List Atom) → SharedBelow (length env) ty → Stands (state_of env work.old) → OnOk result (Stands (state_of env work.new)) }
    ensures comes { (env : List Atom) (t : Shared) → SameShared t ty → IfOk result (λ slot. Comes (new_slot_of t) (state_of env work.old) (Given slot) (state_of env work.new)) }
{
    let mut unit = taken(&mut work.unit)?;
    let slot = unit.new_slot(ty)?;
    work.unit = Some(unit);
    Ok(slot)
}

/// A variable more is seen. Where no unit is at hand it is as if memory were wanted.
pub fn declare(work: &mut Work<'_>, v: Variable) -> Result<(), Memory>
    ensures stands { (env : List Atom) → VariableBelow (length env) v → Stands (state_of env work.old) → OnOk result (Stands (state_of env work.new)) }
    ensures comes { (env : List Atom) → OnOk result (Comes (changes_flow (with_variable v)) (state_of env work.old) (Given tt) (state_of env work.new)) }
{
    let mut unit = taken(&mut work.unit)?;
    unit.here.declare(v)?;
    work.ways = None;
    work.unit = Some(unit);
    Ok(())
}
