//! Units that are opened and closed, each step as it is meant.
#![tactic(auto, using(check_words::proofs::Same::sharing))]

ghost use Rattle.std.specs.Prelude.{◌≡◌, ◌++◌, ◌∷◌, [], IfOk, List, Ok as Given, OnOk, length, map};
ghost use Rattle.checks.specs.Checks.{Comes};
ghost use Rattle.type_model.specs.declared.atoms.AtomDef.{AtomDef as Atom};
ghost use Rattle.check_words.specs.Calls.{closes_unit, new_number as new_number_of, opens_unit, typed_unit as typed_unit_of};
ghost use Rattle.check_words.specs.Sharing.{SameUnit};
ghost use Rattle.check_words.specs.Stands.{Stands, UnitBelow};
ghost use Rattle.check_words.specs.State.{UnitAtWork};
ghost use Rattle.check_work.specs.Views.{state_of, unit_of, units_of};
ghost use Rattle.needs_of_units.specs.Units.{bare_unit};

use bal_base::{Memory, Row};
use check_work::{Here, Unit, Work, taken};
use std::alloc::Global;
use std::mem;
use typed_tree::{Captured, SharedTy, TypedUnit};

/// The unit is at hand, and what was at hand stands around it.
fn put_in(around: &mut Vec<Unit>, at_hand: &mut Option<Unit>, unit: Unit) -> Result<(), Memory>
    ensures { OnOk result (units_of around.new.items at_hand.new ≡ units_of around.old.items at_hand.old ++ unit_of unit ∷ []) }
{
    match mem::replace(at_hand, Some(unit)) {
        Some(outer) => around.push(outer)?,
        None => {}
    }
    Ok(())
}

/// The unit is at hand, and what was at hand stands around it.
pub fn open_unit(work: &mut Work<'_>, unit: Unit) -> Result<(), Memory>
    ensures stands { (env : List Atom) → UnitBelow (length env) (unit_of unit) → Stands (state_of env work.old) → OnOk result (Stands (state_of env work.new)) }
    ensures comes { (env : List Atom) (u : UnitAtWork) → SameUnit u (unit_of unit) → OnOk result (Comes (opens_unit u) (state_of env work.old) (Given tt) (state_of env work.new)) }
{
    put_in(&mut work.around, &mut work.unit, unit)?;
    work.ways = None;
    Ok(())
}

/// The last of the units around.
fn outer(around: &mut Vec<Unit>) -> Option<Unit>
    ensures { map unit_of around.old.items ≡ units_of around.new.items result }
{
    match around.pop() {
        Some(unit) => Some(unit),
        None => None,
    }
}

/// The unit at hand is taken, and the one around it is at hand. Where there is none it is as if memory were wanted.
pub fn close_unit(work: &mut Work<'_>) -> Result<Unit, Memory>
    ensures stands { (env : List Atom) → Stands (state_of env work.old) → OnOk result (Stands (state_of env work.new)) }
    ensures below { (env : List Atom) → Stands (state_of env work.old) → IfOk result (λ u. UnitBelow (length env) (unit_of u)) }
    ensures comes { (env : List Atom) → IfOk result (λ u. Comes closes_unit (state_of env work.old) (Given (unit_of u)) (state_of env work.new)) }
{
    let unit = taken(&mut work.unit)?;
    work.unit = outer(&mut work.around);
    work.ways = None;
    Ok(unit)
}

/// The number as typed trees have it. One that is too large is as if memory were wanted.
pub(crate) fn small(number: usize) -> Result<u32, Memory>
    ensures { IfOk result (λ n. n ≡ number) }
{
    if number > u32::MAX as usize {
        return Err(Memory);
    }
    Ok(number as u32)
}

/// A unit with this number of the worker, in which nothing is yet.
pub fn empty_unit(alloc: Global, number: u32, worker: u32, gives: SharedTy, reached: bool) -> Unit
    ensures { unit_of result ≡ bare_unit number worker gives reached }
{
    Unit {
        number,
        worker,
        slots: Vec::new(alloc),
        params: 0,
        rest: None,
        rest_member: None,
        result: gives,
        arrow: 0,
        future: 0,
        captured: Vec::new(alloc),
        here: Here {
            variables: Vec::new(alloc),
            reached,
        },
    }
}

/// The number of a new unit. Where there are too many it is as if memory were wanted.
pub fn new_number(work: &mut Work<'_>) -> Result<u32, Memory>
    ensures stands { (env : List Atom) → Stands (state_of env work.old) → OnOk result (Stands (state_of env work.new)) }
    ensures units { units_of work.new.around.items work.new.unit ≡ units_of work.old.around.items work.old.unit }
    ensures comes { (env : List Atom) → IfOk result (λ n. Comes new_number_of (state_of env work.old) (Given n) (state_of env work.new)) }
{
    let number = work.done.next_unit;
    if number == u32::MAX {
        return Err(Memory);
    }
    work.done.next_unit = number + 1;
    Ok(number)
}

/// The unit as typed trees have it, with these atoms of its own, and what it captures.
pub fn finished(unit: Unit, arrow: u32, future: u32) -> (TypedUnit, Row<Captured>)
    ensures made { result.0 ≡ typed_unit_of (unit_of unit) arrow future }
    ensures captured { result.1 ≡ (unit_of unit).captured }
{
    let made = TypedUnit {
        number: unit.number,
        slots: Row::of(unit.slots),
        params: unit.params,
        rest: unit.rest,
        result: unit.result,
        arrow,
        future,
    };
    (made, Row::of(unit.captured))
}
