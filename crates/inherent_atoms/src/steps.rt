//! The atoms that steps and units name.
#![tactic(auto, using(crate::proofs::Noting::noting))]

ghost use Rattle.std.specs.Prelude.{◌≡◌, OnOk, Some, map, slice_get};
ghost use Rattle.operations.specs.Uses.{use_of};
ghost use Rattle.held_operations.specs.Operation.{operation_of};
ghost use Rattle.lower_expr.specs.Drafts.{step_of};
ghost use Rattle.package_units.specs.Held.{tree_of};
ghost use Rattle.inherent_atoms.specs.Found.{Notes};
ghost use Rattle.inherent_atoms.specs.Named.{all_named, atoms_named, own_atoms, rests_named, steps_named, use_at, words_named};

use crate::found::Found;
use bal_base::Memory;
use held_operations::Op;
use lower_expr::Step;
use package_units::HeldUnit;

/// Notes the own atoms of a unit.
fn own(found: &mut Found, u: &HeldUnit<'_>) -> Result<(), Memory>
    ensures { OnOk result (Notes (own_atoms (Some (tree_of u.now))) found.old found.new) }
{
    found.note(u.unit.arrow)?;
    found.note(u.unit.future)?;
    Ok(())
}

/// Notes the own atoms of the unit with this number, if there is one.
fn own_of(found: &mut Found, units: &[HeldUnit<'_>], unit: u32) -> Result<(), Memory>
    ensures { OnOk result (Notes (own_atoms (slice_get (map tree_of units.now) unit)) found.old found.new) }
{
    match units.get(unit as usize) {
        Some(u) => own(found, u),
        None => Ok(()),
    }
}

/// Notes what an operation names.
fn operation(found: &mut Found, units: &[HeldUnit<'_>], op: Op<'_>) -> Result<(), Memory>
    ensures { OnOk result (Notes (atoms_named (map tree_of units.now) (use_of (operation_of op.entry))) found.old found.new) }
{
    match op {
        Op::MakeList { atom, .. } | Op::MakeMapping { atom, .. } => found.note(atom),
        Op::WaitAll { atom, .. } => found.note(atom),
        Op::Library { atom, .. } => found.note_if(atom),
        Op::MakeFunction { unit, .. } | Op::Start { unit, .. } => own_of(found, units, unit),
        Op::Const(_) | Op::Nil | Op::Truth(_) | Op::Int(_) => Ok(()),
        Op::Load(_) | Op::Store(_) | Op::Pop | Op::LoadModule(_) | Op::StoreModule(_) => Ok(()),
        Op::Tick | Op::Add | Op::Subtract | Op::Multiply | Op::Divide | Op::Remainder => Ok(()),
        Op::Negate | Op::Concat | Op::Less | Op::LessEqual | Op::Not => Ok(()),
        Op::Equal | Op::Same | Op::MakeError { .. } | Op::Test(_) | Op::Cast(_) => Ok(()),
        Op::GetItem | Op::GetKey | Op::GetChar | Op::GetField(_) | Op::GetOptional(_) => Ok(()),
        Op::SetItem | Op::SetKey | Op::Call { .. } | Op::CallValue { .. } => Ok(()),
        Op::Return | Op::Panic | Op::StartValue { .. } | Op::Workers => Ok(()),
        Op::Send(_) | Op::Post(_) | Op::Done(_) | Op::Receive(_) | Op::Flush(_) => Ok(()),
        Op::WaitWorker(_) | Op::WaitFuture | Op::WaitAny(_) => Ok(()),
    }
}

/// Notes what a step names.
fn step(found: &mut Found, units: &[HeldUnit<'_>], step: Step<'_>) -> Result<(), Memory>
    ensures { OnOk result (Notes (atoms_named (map tree_of units.now) (use_at (step_of step.entry))) found.old found.new) }
{
    match step {
        Step::Do(op) => operation(found, units, op),
        Step::Cast(_) | Step::GoTo(_) | Step::GoToIfNot(_) => Ok(()),
        Step::OpenTrap(_) | Step::CloseTrap => Ok(()),
    }
}

/// Notes what steps name.
fn all_steps(found: &mut Found, units: &[HeldUnit<'_>], steps: &[Step<'_>]) -> Result<(), Memory>
    ensures { OnOk result (Notes (steps_named (map tree_of units.now) (map step_of steps.now)) found.old found.new) }
{
    for s in steps {
        step(found, units, *s)?;
    }
    Ok(())
}

/// Notes the lists of rest parameters.
fn rests(found: &mut Found, units: &[HeldUnit<'_>]) -> Result<(), Memory>
    ensures { OnOk result (Notes (rests_named (map tree_of units.now)) found.old found.new) }
{
    for u in units {
        found.note_if(u.unit.rest)?;
    }
    Ok(())
}

/// Notes the list of main's arguments, where main has a parameter.
fn main_words(
    found: &mut Found,
    units: &[HeldUnit<'_>],
    start: u32,
    words: u32,
) -> Result<(), Memory>
    ensures { OnOk result (Notes (words_named (slice_get (map tree_of units.now) start) words) found.old found.new) }
{
    match units.get(start as usize) {
        Some(u) => {
            if u.unit.params == 0 {
                Ok(())
            } else {
                found.note(words)
            }
        }
        None => Ok(()),
    }
}

/// Notes all that is named.
pub fn all(
    found: &mut Found,
    units: &[HeldUnit<'_>],
    steps: &[Step<'_>],
    start: u32,
    words: u32,
) -> Result<(), Memory>
    ensures { OnOk result (Notes (all_named (map tree_of units.now) (map step_of steps.now) start words) found.old found.new) }
{
    all_steps(found, units, steps)?;
    rests(found, units)?;
    main_words(found, units, start, words)?;
    Ok(())
}
