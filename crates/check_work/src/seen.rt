//! Names that are seen at the place at hand.
ghost use Rattle.std.specs.Prelude.{◌≡◌, ◌||◌, List, Some as There, option_map};
ghost use Rattle.std.specs.List.{list_any};
ghost use Rattle.std.specs.Option.{option_to_list};
ghost use Rattle.bal_base.specs.declared.fault.FaultCode.TheVariants.{Duplicate};
ghost use Rattle.bal_base.specs.declared.fault.Kept.TheVariants.{Nothing};
ghost use Rattle.checks.specs.Checks.{Comes};
ghost use Rattle.checks.specs.Questions.{IsFault};
ghost use Rattle.type_model.specs.declared.atoms.AtomDef.{AtomDef as Atom};
ghost use Rattle.type_model.specs.Places.{is_same_text};
ghost use Rattle.check_words.specs.Calls.{is_new, is_seen as is_seen_in};
ghost use Rattle.check_work.specs.Seen.{has_variable as has_variable_of};
ghost use Rattle.check_work.specs.Views.{state_of, unit_of};

use crate::work::{Unit, Work};
use bal_base::{Fault, FaultCode, Kept, Name, Place, Stop};
use bal_tree::Word;

/// Whether a variable with the name is seen in the unit.
fn has_variable(unit: &Unit, name: &Name) -> bool
    ensures { result ≡ has_variable_of name.now (unit_of unit.now) }
{
    unit.here.variables.iter().any(|v| v.name == *name)
}

fn in_units(units: &[Unit], name: &Name) -> bool
    ensures { result ≡ list_any (λ u. has_variable_of name.now (unit_of u)) units.now }
{
    units.iter().any(|u| has_variable(u, name))
}

fn in_unit_if(unit: &Option<Unit>, name: &Name) -> bool
    ensures { result ≡ list_any (has_variable_of name.now) (option_to_list (option_map unit_of unit.now)) }
{
    match unit {
        Some(u) => has_variable(u, name),
        None => false,
    }
}

/// Whether a worker has the name.
fn among_workers(workers: &[Name], name: &Name) -> bool
    ensures { result ≡ list_any (is_same_text name.now) workers.now }
{
    workers.iter().any(|w| *name == *w)
}

/// Whether one of three things is so.
fn seen_by(around: bool, here: bool, worker: bool) -> bool
    ensures { result ≡ ((around || here) || worker) }
{
    (around || here) || worker
}

/// Whether a variable with the name is seen, or a worker of the function has it.
fn is_seen(work: &Work<'_>, name: &Name) -> bool
    ensures { (env : List Atom) → result ≡ is_seen_in name.now (state_of env work.now) }
{
    let units = work.around.as_slice();
    let workers = work.site.workers.as_slice();
    let around = in_units(units, name);
    let here = in_unit_if(&work.unit, name);
    let worker = among_workers(workers, name);
    seen_by(around, here, worker)
}

fn duplicate(at: Place) -> Fault
    ensures { IsFault Duplicate (There at) Nothing result }
{
    Fault {
        code: FaultCode::Duplicate,
        at: Some(at),
        kept: Kept::Nothing,
    }
}

/// No variable that is seen at the place and no worker of the function has the name: else `Duplicate` at it (Ballerina specification,
/// "Scope of variables"). It costs by the variables that are seen, those of the units around too.
pub fn new_name(work: &Work<'_>, w: &Word) -> Result<(), Stop<Fault>>
    ensures { (env : List Atom) → Comes (is_new w.now) (state_of env work.now) result (state_of env work.now) }
{
    match is_seen(work, &w.name) {
        true => Err(Stop::Fault(duplicate(w.at))),
        false => Ok(()),
    }
}
