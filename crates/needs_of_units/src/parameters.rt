//! The parameters of a function: the next one has a name from here on.
#![tactic(auto, using(check_work::proofs::Noting::meeting))]

ghost use Rattle.std.specs.Prelude.{◌≡◌, IfOk, List, OnOk, Ok as Given, Some as There, length, slice_get};
ghost use Rattle.checks.specs.Checks.{Comes};
ghost use Rattle.needs.specs.Needs.{Runs};
ghost use Rattle.stmt_needs.specs.PackageTable.{assigned_in_body};
ghost use Rattle.stmt_needs.specs.StmtTable.{is_among};
ghost use Rattle.type_model.specs.declared.atoms.AtomDef.{AtomDef as Atom};
ghost use Rattle.typed_tree.specs.Listed.{one};
ghost use Rattle.typed_tree.specs.SharedTypes.{Shared};
ghost use Rattle.expr_needs.specs.Needs.{NamesParameter};
ghost use Rattle.check_words.specs.Calls.{parameter as parameter_of};
ghost use Rattle.check_words.specs.Meets.{meets};
ghost use Rattle.check_words.specs.Sharing.{SameShared};
ghost use Rattle.check_words.specs.Stands.{Stands};
ghost use Rattle.check_words.specs.Units.{names_parameter as names_parameter_of};
ghost use Rattle.check_work.specs.Views.{Holds, going, state_of, unit_of};
ghost use Rattle.needs_of_units.specs.Parts.{IsNextParameter, declares_parameter};

use crate::units::small;
use assigned_names::is_assigned;
use bal_base::{Fault, Memory, Name, Stop};
use bal_tree::{Body, Word};
use check_work::{Checker, Unit, Work, has_stopped, new_name, note, shared, taken};
use descriptors::lift;
use flow_narrowing::Variable;
use std::alloc::Global;
use type_model::Types;
use typed_tree::SharedTy;

/// Whether the name is assigned in the body.
fn is_assigned_in(alloc: Global, name: &Name, body: &Body) -> Result<bool, Memory>
    ensures { IfOk result (λ b. b ≡ is_among name.now (assigned_in_body body.now)) }
{
    match body {
        Body::Block {
            stmts,
            workers,
            rest,
            ..
        } => is_assigned(alloc, name, stmts, workers, rest),
        Body::Expr { .. } => Ok(false),
    }
}

/// The declared type of a slot, by another handle. A slot that isn't there is as if memory were wanted.
fn slot_type(slots: &[SharedTy], slot: usize) -> Result<SharedTy, Memory>
    ensures { IfOk result (λ u. (t : Shared) × (slice_get slots.now slot ≡ There t) × SameShared t u) }
{
    match slots.get(slot) {
        Some(t) => Ok(shared(t)?),
        None => Err(Memory),
    }
}

/// The variable of a parameter.
pub(crate) fn parameter(name: &Name, slot: u32, declared: SharedTy, assigned: bool) -> Variable
    ensures { result ≡ parameter_of name.now slot declared assigned }
{
    Variable {
        name: name.share(),
        slot,
        declared,
        narrowed: None,
        fixed: true,
        assigned,
        captured: false,
    }
}

/// How many variables are seen in the unit.
fn count(unit: &Unit) -> usize
    ensures { result ≡ length (unit_of unit.now).flow.variables }
{
    unit.here.variables.len()
}

/// The variable of the next parameter of the unit.
fn next_parameter(unit: &Unit, name: &Name, assigned: bool) -> Result<Variable, Memory>
    ensures { IfOk result (IsNextParameter name.now assigned (unit_of unit.now)) }
{
    let number = count(unit);
    let slot = small(number)?;
    let slots = unit.slots.as_slice();
    let declared = slot_type(slots, number)?;
    Ok(parameter(name, slot, declared, assigned))
}

/// The next parameter is declared.
fn declare_parameter(work: &mut Work<'_>, name: &Name, assigned: bool) -> Result<(), Memory>
    ensures stands { (env : List Atom) → Stands (state_of env work.old) → OnOk result (Stands (state_of env work.new)) }
    ensures comes { (env : List Atom) → OnOk result (Comes (declares_parameter name.now assigned) (state_of env work.old) (Given tt) (state_of env work.new)) }
{
    let mut unit = taken(&mut work.unit)?;
    let variable = next_parameter(&unit, name, assigned)?;
    unit.here.declare(variable)?;
    work.ways = None;
    work.unit = Some(unit);
    Ok(())
}

/// The next parameter has this name.
fn name_parameter(work: &mut Work<'_>, name: &Word, assigned: bool) -> Result<(), Stop<Fault>>
    ensures stands { (env : List Atom) → Stands (state_of env work.old) → OnOk result (Stands (state_of env work.new)) }
    ensures comes { (env : List Atom) → Comes (names_parameter_of name.now assigned) (state_of env work.old) result (state_of env work.new) }
{
    new_name(work, name)?;
    lift(declare_parameter(work, &name.name, assigned))
}

/// The same, where it is found first whether the body assigns it.
fn name_in_body(
    alloc: Global,
    work: &mut Work<'_>,
    name: &Word,
    body: &Body,
) -> Result<(), Stop<Fault>>
    ensures stands { (env : List Atom) → Stands (state_of env work.old) → OnOk result (Stands (state_of env work.new)) }
    ensures comes { (env : List Atom) → Comes (names_parameter_of name.now (is_among name.now.name (assigned_in_body body.now))) (state_of env work.old) result (state_of env work.new) }
{
    let assigned = is_assigned_in(alloc, &name.name, body)?;
    name_parameter(work, name, assigned)
}

/// The next parameter of the function with this body has the name: `Duplicate` at it where a parameter before it or a worker has the name
/// ("Function definition"). It costs by the parameters before it and by the body, in which it is sought whether it is assigned.
pub fn names_parameter<T: Types>(checker: &mut Checker<'_, T>, name: &Word, body: &Body)
    requires { Holds (T.atoms checker.old.types) checker.old.names.now checker.old.work }
    ensures holds { Holds (T.atoms checker.new.types) checker.new.names.now checker.new.work }
    ensures names { checker.new.names.now ≡ checker.old.names.now }
    ensures met { Runs (meets T.passes checker.old.names.now) (one (NamesParameter name.now (is_among name.now.name (assigned_in_body body.now)))) (going (T.atoms checker.old.types) checker.old.work) (going (T.atoms checker.new.types) checker.new.work) }
{
    if has_stopped(&checker.work) {
        return;
    }
    let answer = name_in_body(checker.alloc, &mut checker.work, name, body);
    note(&checker.types, &mut checker.work, answer);
}
