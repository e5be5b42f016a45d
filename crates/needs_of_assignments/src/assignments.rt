//! Assignments to names, with an operator or without one.
#![tactic(auto, using(check_work::proofs::Noting::meeting))]

ghost use Rattle.std.specs.Prelude.{◌≡◌, List, OnOk, Ok as Given, length};
ghost use Rattle.checks.specs.Checks.{Comes};
ghost use Rattle.descriptors.specs.Steps.{AreNames};
ghost use Rattle.needs.specs.Needs.{Runs};
ghost use Rattle.type_model.specs.declared.atoms.AtomDef.{AtomDef as Atom};
ghost use Rattle.typed_tree.specs.Listed.{one};
ghost use Rattle.expr_needs.specs.Needs.{Assigns, IsAssignable, ReadsName, UpdatesName};
ghost use Rattle.check_words.specs.Meets.{meets};
ghost use Rattle.check_words.specs.Stands.{SharedBelow, Stands};
ghost use Rattle.check_words.specs.Statements.{assigns as assigns_of, is_assignable as is_assignable_of, reads_name as reads_name_of, updates_name as updates_name_of};
ghost use Rattle.check_work.specs.Views.{Holds, going, state_of};
ghost use Rattle.needs_of_assignments.specs.Assigning.{stores_update, with_want};

use crate::assigned::{assignable_type, assignment, forget, read_type, target, update_target};
use crate::stmts;
use bal_base::{Fault, Memory, Place, Stop};
use bal_tree::{AssignOp, QualifiedName};
use check_work::{
    Checker, Work, add_stmt, at_hand, drop_last, has_stopped, note, note_made, result_fits,
    take_operator,
};
use descriptors::{Names, lift};
use seen_names::seen_as;
use std::alloc::Global;
use type_model::Types;
use typed_tree::SharedTy;

/// The type is wanted behind the others.
fn want(work: &mut Work<'_>, ty: SharedTy) -> Result<(), Memory>
    ensures stands { (env : List Atom) → SharedBelow (length env) ty → Stands (state_of env work.old) → OnOk result (Stands (state_of env work.new)) }
    ensures put { (env : List Atom) → OnOk result (state_of env work.new ≡ with_want (state_of env work.old) (Given ty)) }
{
    work.wants.push(Some(ty))?;
    Ok(())
}

/// The declared type of what is assigned is wanted.
fn want_assignable(
    alloc: Global,
    names: &Names,
    work: &mut Work<'_>,
    name: &QualifiedName,
) -> Result<(), Stop<Fault>>
    ensures stands { (env : List Atom) → AreNames env names.now → Stands (state_of env work.old) → OnOk result (Stands (state_of env work.new)) }
    ensures comes { (env : List Atom) → Comes (is_assignable_of names.now name.now) (state_of env work.old) result (state_of env work.new) }
{
    let unit = at_hand(&work.unit)?;
    let variables = unit.here.variables.as_slice();
    let seen = seen_as(names, &work.site, variables, name);
    match assignable_type(alloc, seen, name.at) {
        Ok(ty) => lift(want(work, ty)),
        Err(stop) => Err(stop),
    }
}

/// The name may be assigned (Ballerina specification, "Assignment statement"), and the declared type of what it stands for
/// is wanted. It costs a look for the name, and a copy of the type where a module says it.
///
/// - `AssignFinal` at the name: it stands for a final variable, a parameter, the variable of a loop, a constant or a
///   function.
/// - `Captured` there: for a variable that is captured and assigned behind its declaration.
/// - `NameAsValue` there: for a worker.
/// - `Unknown` there: for a type, or a function of the library. Where it stands for nothing, why.
pub fn is_assignable<T: Types>(checker: &mut Checker<'_, T>, name: &QualifiedName)
    requires { Holds (T.atoms checker.old.types) checker.old.names.now checker.old.work }
    ensures holds { Holds (T.atoms checker.new.types) checker.new.names.now checker.new.work }
    ensures names { checker.new.names.now ≡ checker.old.names.now }
    ensures met { Runs (meets T.passes checker.old.names.now) (one (IsAssignable name.now)) (going (T.atoms checker.old.types) checker.old.work) (going (T.atoms checker.new.types) checker.new.work) }
{
    if has_stopped(&checker.work) {
        return;
    }
    let answer = want_assignable(checker.alloc, checker.names, &mut checker.work, name);
    note(&checker.types, &mut checker.work, answer);
}

/// The last part is assigned, and what is wanted of it goes.
fn assign(
    alloc: Global,
    names: &Names,
    work: &mut Work<'_>,
    name: &QualifiedName,
    at: Place,
) -> Result<(), Memory>
    ensures stands { (env : List Atom) → Stands (state_of env work.old) → OnOk result (Stands (state_of env work.new)) }
    ensures comes { (env : List Atom) → OnOk result (Comes (assigns_of names.now name.now at) (state_of env work.old) (Given tt) (state_of env work.new)) }
{
    let value = stmts::take_boxed(alloc, work)?;
    drop_last(&mut work.wants);
    let what = target(names, work, name)?;
    forget(work, &what)?;
    let stmt = assignment(alloc, &what, value, at)?;
    add_stmt(&mut work.blocks, stmt)?;
    Ok(())
}

/// The last part is assigned to the name, which may be assigned: a variable of the unit has its declared type from now on
/// (Ballerina specification, "Assignment statement"). It costs a look for the name, and one through the variables.
pub fn assigns<T: Types>(checker: &mut Checker<'_, T>, name: &QualifiedName, at: Place)
    requires { Holds (T.atoms checker.old.types) checker.old.names.now checker.old.work }
    ensures holds { Holds (T.atoms checker.new.types) checker.new.names.now checker.new.work }
    ensures names { checker.new.names.now ≡ checker.old.names.now }
    ensures met { Runs (meets T.passes checker.old.names.now) (one (Assigns name.now at)) (going (T.atoms checker.old.types) checker.old.work) (going (T.atoms checker.new.types) checker.new.work) }
{
    if has_stopped(&checker.work) {
        return;
    }
    let made = assign(checker.alloc, checker.names, &mut checker.work, name, at);
    note_made(&checker.types, &mut checker.work, made);
}

/// The type of what is read is wanted.
fn want_read(
    alloc: Global,
    names: &Names,
    work: &mut Work<'_>,
    name: &QualifiedName,
) -> Result<(), Memory>
    ensures stands { (env : List Atom) → AreNames env names.now → Stands (state_of env work.old) → OnOk result (Stands (state_of env work.new)) }
    ensures comes { (env : List Atom) → OnOk result (Comes (reads_name_of names.now name.now) (state_of env work.old) (Given tt) (state_of env work.new)) }
{
    let unit = at_hand(&work.unit)?;
    let variables = unit.here.variables.as_slice();
    let ty = read_type(alloc, seen_as(names, &work.site, variables, name))?;
    want(work, ty)?;
    Ok(())
}

/// What the name stands for, which may be assigned, is read before it is: its type here is wanted (Ballerina
/// specification, "Compound assignment statement"). It costs a look for the name, and a copy of the type where a module
/// says it.
pub fn reads_name<T: Types>(checker: &mut Checker<'_, T>, name: &QualifiedName)
    requires { Holds (T.atoms checker.old.types) checker.old.names.now checker.old.work }
    ensures holds { Holds (T.atoms checker.new.types) checker.new.names.now checker.new.work }
    ensures names { checker.new.names.now ≡ checker.old.names.now }
    ensures met { Runs (meets T.passes checker.old.names.now) (one (ReadsName name.now)) (going (T.atoms checker.old.types) checker.old.work) (going (T.atoms checker.new.types) checker.new.work) }
{
    if has_stopped(&checker.work) {
        return;
    }
    let made = want_read(checker.alloc, checker.names, &mut checker.work, name);
    note_made(&checker.types, &mut checker.work, made);
}

/// An assignment with an operator to a name.
#[derive(Clone, Copy)]
struct Update<'a> {
    name: &'a QualifiedName,
    op: AssignOp,
    at: Place,
}

/// The last part is the right operand, where this type was read.
fn store(
    alloc: Global,
    names: &Names,
    work: &mut Work<'_>,
    update: Update<'_>,
    read: SharedTy,
) -> Result<(), Memory>
    ensures stands { (env : List Atom) → Stands (state_of env work.old) → OnOk result (Stands (state_of env work.new)) }
    ensures comes { (env : List Atom) → OnOk result (Comes (stores_update names.now update.entry.name.now update.entry.op read update.entry.at) (state_of env work.old) (Given tt) (state_of env work.new)) }
{
    let op = take_operator(work, update.op)?;
    let value = stmts::take_boxed(alloc, work)?;
    let what = target(names, work, update.name)?;
    forget(work, &what)?;
    let to = update_target(what, read);
    let stmt = stmts::update(to, op, value, update.at);
    add_stmt(&mut work.blocks, stmt)?;
    Ok(())
}

/// The result is below what is stored, and is stored.
fn update_name<T: Types>(
    alloc: Global,
    types: &mut T,
    names: &Names,
    work: &mut Work<'_>,
    update: Update<'_>,
) -> Result<(), Stop<Fault>>
    requires { Stands (state_of (T.atoms types.old) work.old) }
    ensures atoms { T.atoms types.new ≡ T.atoms types.old }
    ensures stands { OnOk result (Stands (state_of (T.atoms types.old) work.new)) }
    ensures comes { Comes (updates_name_of T.passes names.now update.entry.name.now update.entry.op update.entry.at) (state_of (T.atoms types.old) work.old) result (state_of (T.atoms types.new) work.new) }
{
    match result_fits(alloc, types, work, update.at) {
        Ok(read) => lift(store(alloc, names, work, update, read)),
        Err(stop) => Err(stop),
    }
}

/// The last part is the right operand of the operator, what was read of the name its left one, and the name is assigned:
/// a variable of the unit has its declared type from now on (Ballerina specification, "Compound assignment statement"). One
/// question of the decider; it costs a look for the name, and one through the variables.
///
/// - `NotSubtype` at the place, with a shape that shows it: the result can't be stored.
/// - `TypeLimit` at the place: the question is too large.
pub fn updates_name<T: Types>(
    checker: &mut Checker<'_, T>,
    name: &QualifiedName,
    op: AssignOp,
    at: Place,
)
    requires { Holds (T.atoms checker.old.types) checker.old.names.now checker.old.work }
    ensures holds { Holds (T.atoms checker.new.types) checker.new.names.now checker.new.work }
    ensures names { checker.new.names.now ≡ checker.old.names.now }
    ensures met { Runs (meets T.passes checker.old.names.now) (one (UpdatesName name.now op at)) (going (T.atoms checker.old.types) checker.old.work) (going (T.atoms checker.new.types) checker.new.work) }
{
    if has_stopped(&checker.work) {
        return;
    }
    let answer = update_name(
        checker.alloc,
        &mut checker.types,
        checker.names,
        &mut checker.work,
        Update { name, op, at },
    );
    note(&checker.types, &mut checker.work, answer);
}
