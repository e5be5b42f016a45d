//! Variables of modules: where their initial values end.
#![tactic(auto, using(check_work::proofs::Noting::meeting))]

ghost use Rattle.std.specs.Prelude.{◌≡◌, ℕ, IfOk, List, OnOk, Ok as Given, length, true, false};
ghost use Rattle.bal_base.specs.declared.place.Place.{Place as PlaceOf};
ghost use Rattle.checks.specs.Checks.{Comes};
ghost use Rattle.needs.specs.Needs.{Runs};
ghost use Rattle.type_model.specs.declared.atoms.AtomDef.{AtomDef as Atom};
ghost use Rattle.typed_tree.specs.Listed.{one};
ghost use Rattle.typed_tree.specs.declared.expr.TypedExpr.{TypedExpr as Expr};
ghost use Rattle.expr_needs.specs.Needs.{EndsInitial};
ghost use Rattle.check_words.specs.Meets.{meets};
ghost use Rattle.check_words.specs.Stands.{Stands, UnitBelow};
ghost use Rattle.check_words.specs.Statements.{takes_part};
ghost use Rattle.check_words.specs.Units.{IsModuleVariable, ends_initial as ends_initial_of, ends_value};
ghost use Rattle.check_work.specs.Views.{Holds, going, state_of, unit_of};
ghost use Rattle.needs_of_functions.specs.Initials.{AddsVariable};

use crate::naming::variable_of;
use bal_base::Memory;
use bal_tree::VariableDef;
use check_work::{
    Checker, Initials, Unit, Work, has_stopped, note_made, take_part, take_want, taken,
};
use descriptors::{Names, Scope};
use needs_of_units::close_unit;
use std::alloc::Global;
use type_model::Types;
use typed_tree::{Initial, ModuleVariable, SharedTy, TypedExpr};

/// The last part is taken, in a box.
fn take_boxed(alloc: Global, work: &mut Work<'_>) -> Result<Box<TypedExpr>, Memory>
    ensures stands { (env : List Atom) → Stands (state_of env work.old) → OnOk result (Stands (state_of env work.new)) }
    ensures comes { (env : List Atom) → IfOk result (λ e. Comes takes_part (state_of env work.old) (Given e.value) (state_of env work.new)) }
{
    let part = take_part(work)?;
    Ok(Box::new(alloc, part)?)
}

/// The variable as typed trees have it. A module with a number that is none of a tree is as if memory were wanted.
fn module_variable(scope: Scope, d: &VariableDef, ty: SharedTy) -> Result<ModuleVariable, Memory>
    ensures { IfOk result (IsModuleVariable d.now scope ty) }
{
    if scope.module > u32::MAX as usize {
        return Err(Memory);
    }
    Ok(ModuleVariable {
        module: scope.module as u32,
        file: d.name.at.file,
        name: d.name.name.share(),
        ty,
        is_final: d.is_final,
        at: d.name.at,
    })
}

/// The variable is one more of the package; gives its number.
fn add_variable(
    names: &Names,
    work: &mut Work<'_>,
    d: &VariableDef,
    ty: SharedTy,
) -> Result<u32, Memory>
    ensures stands { (env : List Atom) → Stands (state_of env work.old) → OnOk result (Stands (state_of env work.new)) }
    ensures adds { (env : List Atom) → IfOk result (λ number. AddsVariable names.now d.now ty number (state_of env work.old) (state_of env work.new)) }
{
    let scope = work.site.scope;
    let v = variable_of(names, scope, &d.name)?;
    let variable = module_variable(scope, d, ty)?;
    work.done.variables.push(variable)?;
    Ok(v.0)
}

/// The value is one more of the module's initialiser, whose unit this is.
fn keep_value(work: &mut Work<'_>, unit: Unit, value: Initial) -> Result<(), Memory>
    ensures stands { (env : List Atom) → UnitBelow (length env) (unit_of unit) → Stands (state_of env work.old) → OnOk result (Stands (state_of env work.new)) }
    ensures comes { (env : List Atom) → OnOk result (Comes (ends_value true (unit_of unit) value.variable value.value.value value.at) (state_of env work.old) (Given tt) (state_of env work.new)) }
{
    let initials = taken(&mut work.initials)?;
    let mut values = initials.values;
    values.push(value)?;
    work.initials = Some(Initials { unit, values });
    Ok(())
}

/// The unit is dropped, and the numbers that were taken in it are free again.
fn drop_value(work: &mut Work<'_>, unit: Unit)
    ensures stands { (env : List Atom) → Stands (state_of env work.old) → Stands (state_of env work.new) }
    ensures comes { (env : List Atom) (number : ℕ) (value : Expr) (at : PlaceOf) → Comes (ends_value false (unit_of unit) number value at) (state_of env work.old) (Given tt) (state_of env work.new) }
{
    work.done.next_unit = unit.number;
}

/// The value is kept with its unit, or both are dropped.
fn end_value(work: &mut Work<'_>, unit: Unit, value: Initial, kept: bool) -> Result<(), Memory>
    ensures stands { (env : List Atom) → UnitBelow (length env) (unit_of unit) → Stands (state_of env work.old) → OnOk result (Stands (state_of env work.new)) }
    ensures comes { (env : List Atom) → OnOk result (Comes (ends_value kept (unit_of unit) value.variable value.value.value value.at) (state_of env work.old) (Given tt) (state_of env work.new)) }
{
    match kept {
        true => keep_value(work, unit, value),
        false => {
            drop_value(work, unit);
            Ok(())
        }
    }
}

/// The last part is the initial value of the variable.
fn end_initial(
    alloc: Global,
    names: &Names,
    work: &mut Work<'_>,
    d: &VariableDef,
    kept: bool,
) -> Result<(), Memory>
    ensures stands { (env : List Atom) → Stands (state_of env work.old) → OnOk result (Stands (state_of env work.new)) }
    ensures comes { (env : List Atom) → OnOk result (Comes (ends_initial_of names.now d.now kept) (state_of env work.old) (Given tt) (state_of env work.new)) }
{
    let value = take_boxed(alloc, work)?;
    let ty = take_want(work)?;
    let unit = close_unit(work)?;
    let variable = add_variable(names, work, d, ty)?;
    let at = d.name.at;
    let initial = Initial {
        variable,
        value,
        at,
    };
    end_value(work, unit, initial, kept)
}

/// The last part is the initial value of a variable of the module, which is done ("Module variable declaration"). Where the module isn't
/// initialised the value is dropped with its unit.
pub fn ends_initial<T: Types>(checker: &mut Checker<'_, T>, d: &VariableDef, kept: bool)
    requires { Holds (T.atoms checker.old.types) checker.old.names.now checker.old.work }
    ensures holds { Holds (T.atoms checker.new.types) checker.new.names.now checker.new.work }
    ensures names { checker.new.names.now ≡ checker.old.names.now }
    ensures met { Runs (meets T.passes checker.old.names.now) (one (EndsInitial d.now kept)) (going (T.atoms checker.old.types) checker.old.work) (going (T.atoms checker.new.types) checker.new.work) }
{
    if has_stopped(&checker.work) {
        return;
    }
    let made = end_initial(checker.alloc, checker.names, &mut checker.work, d, kept);
    note_made(&checker.types, &mut checker.work, made);
}
