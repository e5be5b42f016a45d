//! Anonymous functions.
#![tactic(auto, using(check_work::proofs::Noting::meeting, check_words::proofs::Same::sharing))]

ghost use Rattle.std.specs.Prelude.{◌≡◌, ℕ, IfOk, List, OnOk, Ok as Given, length};
ghost use Rattle.checks.specs.Checks.{Comes};
ghost use Rattle.needs.specs.Needs.{Runs};
ghost use Rattle.type_model.specs.declared.atoms.AtomDef.{AtomDef as Atom};
ghost use Rattle.typed_tree.specs.Listed.{one};
ghost use Rattle.typed_tree.specs.SharedTypes.{Shared};
ghost use Rattle.expr_needs.specs.Needs.{BeginsAnonymous, HasParameter};
ghost use Rattle.check_words.specs.Calls.{begins_anonymous as begins_anonymous_of, has_parameter as has_parameter_of, unit_within as unit_within_of, with_parameter};
ghost use Rattle.check_words.specs.Meets.{meets};
ghost use Rattle.check_words.specs.Sharing.{SameShared, SameUnit};
ghost use Rattle.check_words.specs.Stands.{SharedBelow, Stands, UnitBelow};
ghost use Rattle.check_work.specs.Views.{Holds, going, state_of, unit_of};
ghost use Rattle.needs_of_units.specs.Parts.{adds_parameter};

use crate::parameters::parameter;
use crate::units::{empty_unit, new_number, open_unit};
use bal_base::{Fault, Memory, Name, Stop};
use bal_tree::Word;
use check_work::{
    Checker, Unit, Work, at_hand, has_stopped, last_taken, new_name, note, note_made, shared, taken,
};
use descriptors::lift;
use std::alloc::Global;
use type_model::Types;
use typed_tree::SharedTy;

/// A unit with the number, which stands where this one does.
fn unit_within(alloc: Global, around: &Unit, number: u32) -> Result<Unit, Memory>
    ensures is { IfOk result (λ u. SameUnit (unit_within_of (unit_of around.now) number) (unit_of u)) }
    ensures below { (n : ℕ) → SharedBelow n (unit_of around.now).result → IfOk result (λ u. UnitBelow n (unit_of u)) }
{
    let gives = shared(&around.result)?;
    Ok(empty_unit(alloc, number, around.worker, gives, around.here.reached))
}

/// A unit within the one at hand is opened.
fn begin_anonymous(alloc: Global, work: &mut Work<'_>) -> Result<(), Memory>
    ensures stands { (env : List Atom) → Stands (state_of env work.old) → OnOk result (Stands (state_of env work.new)) }
    ensures comes { (env : List Atom) → OnOk result (Comes begins_anonymous_of (state_of env work.old) (Given tt) (state_of env work.new)) }
{
    let number = new_number(work)?;
    let unit = unit_within(alloc, at_hand(&work.unit)?, number)?;
    open_unit(work, unit)?;
    Ok(())
}

/// An anonymous function begins ("Anonymous function expression").
pub fn begins_anonymous<T: Types>(checker: &mut Checker<'_, T>)
    requires { Holds (T.atoms checker.old.types) checker.old.names.now checker.old.work }
    ensures holds { Holds (T.atoms checker.new.types) checker.new.names.now checker.new.work }
    ensures names { checker.new.names.now ≡ checker.old.names.now }
    ensures met { Runs (meets T.passes checker.old.names.now) (one BeginsAnonymous) (going (T.atoms checker.old.types) checker.old.work) (going (T.atoms checker.new.types) checker.new.work) }
{
    if has_stopped(&checker.work) {
        return;
    }
    let made = begin_anonymous(checker.alloc, &mut checker.work);
    note_made(&checker.types, &mut checker.work, made);
}

/// A parameter more, in the next slot of the unit. Where it has too many it is as if memory were wanted.
pub fn put_parameter(unit: &mut Unit, name: &Name, t: SharedTy) -> Result<(), Memory>
    ensures { OnOk result (SameUnit (with_parameter name.now t (unit_of unit.old)) (unit_of unit.new)) }
{
    if unit.params == u32::MAX {
        return Err(Memory);
    }
    let declared = shared(&t)?;
    let slot = unit.new_slot(t)?;
    unit.here.declare(parameter(name, slot, declared, false))?;
    unit.params = unit.params + 1;
    Ok(())
}

/// The type that is wanted is that of a parameter more.
fn add_parameter(work: &mut Work<'_>, name: &Name) -> Result<(), Memory>
    ensures stands { (env : List Atom) → Stands (state_of env work.old) → OnOk result (Stands (state_of env work.new)) }
    ensures comes { (env : List Atom) → OnOk result (Comes (adds_parameter name.now) (state_of env work.old) (Given tt) (state_of env work.new)) }
{
    let mut want = last_taken(&mut work.wants)?;
    let t = taken(&mut want)?;
    let mut unit = taken(&mut work.unit)?;
    put_parameter(&mut unit, name, t)?;
    work.unit = Some(unit);
    Ok(())
}

/// It has a parameter of this name.
fn add_named(work: &mut Work<'_>, name: &Word) -> Result<(), Stop<Fault>>
    ensures stands { (env : List Atom) → Stands (state_of env work.old) → OnOk result (Stands (state_of env work.new)) }
    ensures comes { (env : List Atom) → Comes (has_parameter_of name.now) (state_of env work.old) result (state_of env work.new) }
{
    new_name(work, name)?;
    lift(add_parameter(work, &name.name))
}

/// The anonymous function has a parameter of the wanted type: `Duplicate` at its name where a variable that is seen or a worker has it. It costs by
/// the variables that are seen.
pub fn has_parameter<T: Types>(checker: &mut Checker<'_, T>, name: &Word)
    requires { Holds (T.atoms checker.old.types) checker.old.names.now checker.old.work }
    ensures holds { Holds (T.atoms checker.new.types) checker.new.names.now checker.new.work }
    ensures names { checker.new.names.now ≡ checker.old.names.now }
    ensures met { Runs (meets T.passes checker.old.names.now) (one (HasParameter name.now)) (going (T.atoms checker.old.types) checker.old.work) (going (T.atoms checker.new.types) checker.new.work) }
{
    if has_stopped(&checker.work) {
        return;
    }
    let answer = add_named(&mut checker.work, name);
    note(&checker.types, &mut checker.work, answer);
}
