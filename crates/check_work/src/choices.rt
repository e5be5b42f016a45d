//! Choices that are open.
ghost use Rattle.std.specs.Prelude.{◌≡◌, List, Ok as Given, OnOk};
ghost use Rattle.checks.specs.Checks.{Comes};
ghost use Rattle.type_model.specs.declared.atoms.AtomDef.{AtomDef as Atom};
ghost use Rattle.check_words.specs.Stands.{Stands};
ghost use Rattle.check_work.specs.Choices.{forgets_choice as forgets_choice_of};
ghost use Rattle.check_work.specs.Views.{state_of};

use crate::parts::{last_taken, taken};
use crate::work::Work;
use bal_base::Memory;
use std::alloc::Global;

/// The choice at hand is closed, and what was known before it is known again. It costs by the variables that were seen
/// there. Where none is open it is as if memory were wanted.
pub fn forget_choice(alloc: Global, work: &mut Work<'_>) -> Result<(), Memory>
    ensures stands { (env : List Atom) → Stands (state_of env work.old) → OnOk result (Stands (state_of env work.new)) }
    ensures comes { (env : List Atom) → OnOk result (Comes forgets_choice_of (state_of env work.old) (Given tt) (state_of env work.new)) }
{
    let mut unit = taken(&mut work.unit)?;
    let choice = last_taken(&mut work.choices)?;
    let _after = unit.here.enter(alloc, &choice.before)?;
    work.ways = None;
    work.unit = Some(unit);
    Ok(())
}
