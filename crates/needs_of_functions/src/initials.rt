//! Variables of modules: where their initial values begin.
#![tactic(auto, using(check_work::proofs::Noting::meeting))]

ghost use Rattle.std.specs.Prelude.{◌≡◌, IfOk, List, None as Absent, OnOk, Ok as Given, false, option_map};
ghost use Rattle.checks.specs.Checks.{Comes};
ghost use Rattle.descriptors.specs.Steps.{AreNames, AreOwnTypes};
ghost use Rattle.needs.specs.Needs.{Runs};
ghost use Rattle.type_model.specs.declared.atoms.AtomDef.{AtomDef as Atom};
ghost use Rattle.typed_tree.specs.Listed.{one};
ghost use Rattle.expr_needs.specs.Needs.{BeginsInitial};
ghost use Rattle.check_words.specs.Meets.{meets};
ghost use Rattle.check_words.specs.Stands.{Stands};
ghost use Rattle.check_words.specs.Units.{begins_initial as begins_initial_of};
ghost use Rattle.check_work.specs.Views.{Holds, going, initials_of, state_of, unit_of};
ghost use Rattle.needs_of_functions.specs.Initials.{IsUnitOf, new_if, opens_initial, wants_variable};

use crate::copies::{copied, copy_unit};
use crate::naming::variable_of;
use bal_base::Memory;
use bal_tree::VariableDef;
use check_kinds::kind_shared;
use check_work::{Checker, Initials, Unit, Work, has_stopped, note_made, shared};
use descriptors::{Names, OwnTypes};
use expr_needs::Kind;
use needs_of_units::{empty_unit, new_number, open_unit};
use std::alloc::Global;
use type_model::Types;

/// Where the module is initialised its new initialiser has this unit.
fn keep_initials(alloc: Global, initials: &mut Option<Initials>, unit: Unit, kept: bool)
    ensures { option_map initials_of initials.new ≡ new_if kept (unit_of unit) (option_map initials_of initials.old) }
{
    match kept {
        true => {
            *initials = Some(Initials {
                unit,
                values: Vec::new(alloc),
            })
        }
        false => {}
    }
}

/// A new initialiser of the module, which begins with its first variable. Its unit is opened, and it is kept where the module is initialised.
fn open_new(alloc: Global, own: &OwnTypes, work: &mut Work<'_>, kept: bool) -> Result<(), Memory>
    ensures stands { (env : List Atom) → AreOwnTypes env own.now → Stands (state_of env work.old) → OnOk result (Stands (state_of env work.new)) }
    ensures comes { (env : List Atom) → AreOwnTypes env own.now → option_map initials_of work.old.initials ≡ Absent → OnOk result (Comes (opens_initial kept) (state_of env work.old) (Given tt) (state_of env work.new)) }
{
    let number = new_number(work)?;
    let gives = kind_shared(alloc, own, Kind::ErrorOrNil)?;
    let handle = shared(&gives)?;
    let unit = empty_unit(alloc, number, 0, gives, true);
    let opened = empty_unit(alloc, number, 0, handle, true);
    keep_initials(alloc, &mut work.initials, unit, kept);
    open_unit(work, opened)?;
    Ok(())
}

/// The unit of the initialiser by other handles. Where there is none it is as if memory were wanted.
fn initials_unit(alloc: Global, initials: &Option<Initials>) -> Result<Unit, Memory>
    ensures { IfOk result (λ u. IsUnitOf (option_map initials_of initials.now) (unit_of u)) }
{
    match initials {
        Some(initials) => {
            let unit = copy_unit(alloc, &initials.unit)?;
            Ok(unit)
        }
        None => Err(Memory),
    }
}

/// The unit of the initialiser that is there is opened.
fn open_there(alloc: Global, work: &mut Work<'_>, kept: bool) -> Result<(), Memory>
    ensures stands { (env : List Atom) → Stands (state_of env work.old) → OnOk result (Stands (state_of env work.new)) }
    ensures comes { (env : List Atom) → OnOk result (Comes (opens_initial kept) (state_of env work.old) (Given tt) (state_of env work.new)) }
{
    let unit = initials_unit(alloc, &work.initials)?;
    open_unit(work, unit)?;
    Ok(())
}

/// Whether the module has an initialiser.
fn has_initials(work: &Work<'_>) -> bool
    ensures { result ≡ false → option_map initials_of work.now.initials ≡ Absent }
{
    match &work.initials {
        Some(_) => true,
        None => false,
    }
}

/// The unit of the module's initialiser is opened, or of a new one.
fn open_initial(
    alloc: Global,
    own: &OwnTypes,
    work: &mut Work<'_>,
    kept: bool,
) -> Result<(), Memory>
    ensures stands { (env : List Atom) → AreOwnTypes env own.now → Stands (state_of env work.old) → OnOk result (Stands (state_of env work.new)) }
    ensures comes { (env : List Atom) → AreOwnTypes env own.now → OnOk result (Comes (opens_initial kept) (state_of env work.old) (Given tt) (state_of env work.new)) }
{
    match has_initials(work) {
        true => open_there(alloc, work, kept),
        false => open_new(alloc, own, work, kept),
    }
}

/// The type of the variable is wanted.
fn want_variable(
    alloc: Global,
    names: &Names,
    work: &mut Work<'_>,
    d: &VariableDef,
) -> Result<(), Memory>
    ensures stands { (env : List Atom) → AreNames env names.now → Stands (state_of env work.old) → OnOk result (Stands (state_of env work.new)) }
    ensures comes { (env : List Atom) → OnOk result (Comes (wants_variable names.now d.now) (state_of env work.old) (Given tt) (state_of env work.new)) }
{
    let v = variable_of(names, work.site.scope, &d.name)?;
    let want = copied(alloc, v.1)?;
    work.wants.push(Some(want))?;
    Ok(())
}

/// The initial value of the variable begins.
fn begin_initial(
    alloc: Global,
    names: &Names,
    work: &mut Work<'_>,
    d: &VariableDef,
    kept: bool,
) -> Result<(), Memory>
    ensures stands { (env : List Atom) → AreNames env names.now → Stands (state_of env work.old) → OnOk result (Stands (state_of env work.new)) }
    ensures comes { (env : List Atom) → AreNames env names.now → OnOk result (Comes (begins_initial_of names.now d.now kept) (state_of env work.old) (Given tt) (state_of env work.new)) }
{
    open_initial(alloc, &names.own, work, kept)?;
    want_variable(alloc, names, work, d)?;
    Ok(())
}

/// The initial value of a variable of the module begins: it has to be of the variable's type ("Module variable declaration"). Where the module is
/// initialised it belongs to the module's initialiser. It costs by the size of the type, and by the slots of the initialiser.
pub fn begins_initial<T: Types>(checker: &mut Checker<'_, T>, d: &VariableDef, kept: bool)
    requires { Holds (T.atoms checker.old.types) checker.old.names.now checker.old.work }
    ensures holds { Holds (T.atoms checker.new.types) checker.new.names.now checker.new.work }
    ensures names { checker.new.names.now ≡ checker.old.names.now }
    ensures met { Runs (meets T.passes checker.old.names.now) (one (BeginsInitial d.now kept)) (going (T.atoms checker.old.types) checker.old.work) (going (T.atoms checker.new.types) checker.new.work) }
{
    if has_stopped(&checker.work) {
        return;
    }
    let made = begin_initial(checker.alloc, checker.names, &mut checker.work, d, kept);
    note_made(&checker.types, &mut checker.work, made);
}
