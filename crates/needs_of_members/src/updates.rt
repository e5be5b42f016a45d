//! Members that are assigned with an operator.
#![tactic(auto, using(check_work::proofs::Noting::meeting, typed_tree::proofs::StmtLayers::stmt_layers))]

ghost use Rattle.std.specs.Prelude.{◌≡◌, ◌++◌, ◌∷◌, [], IfOk, List, OnOk, Ok as Given, length};
ghost use Rattle.checks.specs.Checks.{Comes};
ghost use Rattle.needs.specs.Needs.{Runs};
ghost use Rattle.type_model.specs.declared.atoms.AtomDef.{AtomDef as Atom};
ghost use Rattle.typed_tree.specs.Listed.{one};
ghost use Rattle.expr_needs.specs.Needs.{UpdatesElement, UpdatesField};
ghost use Rattle.check_words.specs.Meets.{meets};
ghost use Rattle.check_words.specs.Stands.{PartBelow, Stands};
ghost use Rattle.check_words.specs.Statements.{keeps_two, updates_element as updates_element_of, updates_field as updates_field_of};
ghost use Rattle.check_words.specs.StmtViews.{IsMemberTarget, IsUpdate};
ghost use Rattle.check_work.specs.Views.{Holds, going, state_of};
ghost use Rattle.needs_of_members.specs.Fronts.{updates_by, updates_by_field, updates_parts};

use crate::reads::field_form;
use bal_base::{Fault, Memory, Place, Stop};
use bal_tree::{AssignOp, Word};
use check_members::read_of;
use check_work::{
    Checker, Work, add_stmt, has_stopped, last_taken, note, result_fits, shared, take_operator,
    taken,
};
use descriptors::lift;
use std::alloc::Global;
use type_model::Types;
use typed_tree::{Operator, Read, SharedTy, TypedExpr, TypedStmt, UpdateTarget};

/// Two slots more, for the container and its index or key; gives the number of the first.
fn keep_two(work: &mut Work<'_>, container: &TypedExpr, key: &TypedExpr) -> Result<u32, Memory>
    ensures stands { (env : List Atom) → PartBelow (length env) container.now → PartBelow (length env) key.now → Stands (state_of env work.old) → OnOk result (Stands (state_of env work.new)) }
    ensures comes { (env : List Atom) → IfOk result (λ own. Comes (keeps_two container.now key.now) (state_of env work.old) (Given own) (state_of env work.new)) }
{
    let first = shared(container.ty())?;
    let second = shared(key.ty())?;
    let mut unit = taken(&mut work.unit)?;
    let own = unit.new_slot(first)?;
    unit.new_slot(second)?;
    work.unit = Some(unit);
    Ok(own)
}

/// The last part is taken, in a box.
fn boxed_last(alloc: Global, found: &mut Vec<TypedExpr>) -> Result<Box<TypedExpr>, Memory>
    ensures { IfOk result (λ b. found.old.items ≡ found.new.items ++ b.value ∷ []) }
{
    let part = last_taken(found)?;
    Ok(Box::new(alloc, part)?)
}

/// The target: a member, which is read so and has had this type.
fn member_target(
    own: u32,
    how: Read,
    container: Box<TypedExpr>,
    key: Box<TypedExpr>,
    read: SharedTy,
) -> UpdateTarget
    ensures { IsMemberTarget own how container.value key.value read result }
{
    UpdateTarget::Member {
        own,
        read: how,
        container,
        key,
        ty: read,
    }
}

/// The statement.
fn update_stmt(target: UpdateTarget, op: Operator, value: Box<TypedExpr>, at: Place) -> TypedStmt
    ensures { IsUpdate target op value.value at result }
{
    TypedStmt::Update {
        target,
        op,
        value,
        at,
    }
}

/// The last three parts become an assignment with this operator.
fn update_parts(
    alloc: Global,
    work: &mut Work<'_>,
    how: Read,
    read: SharedTy,
    op: Operator,
    at: Place,
) -> Result<(), Memory>
    ensures stands { (env : List Atom) → Stands (state_of env work.old) → OnOk result (Stands (state_of env work.new)) }
    ensures comes { (env : List Atom) → OnOk result (Comes (updates_parts how read op at) (state_of env work.old) (Given tt) (state_of env work.new)) }
{
    let value = boxed_last(alloc, &mut work.found)?;
    let key = boxed_last(alloc, &mut work.found)?;
    let container = boxed_last(alloc, &mut work.found)?;
    work.ways = None;
    let own = keep_two(work, &container, &key)?;
    let target = member_target(own, how, container, key, read);
    add_stmt(&mut work.blocks, update_stmt(target, op, value, at))
}

/// The member at hand, of which this type was read, is assigned.
fn update_element(
    alloc: Global,
    work: &mut Work<'_>,
    op: AssignOp,
    read: SharedTy,
    at: Place,
) -> Result<(), Memory>
    ensures stands { (env : List Atom) → Stands (state_of env work.old) → OnOk result (Stands (state_of env work.new)) }
    ensures comes { (env : List Atom) → OnOk result (Comes (updates_by op read at) (state_of env work.old) (Given tt) (state_of env work.new)) }
{
    let operator = take_operator(work, op)?;
    let access = last_taken(&mut work.accesses)?;
    update_parts(alloc, work, read_of(access), read, operator, at)
}

/// The same, where what is stored may be so much.
fn require_update<T: Types>(
    alloc: Global,
    types: &mut T,
    work: &mut Work<'_>,
    op: AssignOp,
    at: Place,
) -> Result<(), Stop<Fault>>
    requires { Stands (state_of (T.atoms types.old) work.old) }
    ensures atoms { T.atoms types.new ≡ T.atoms types.old }
    ensures stands { OnOk result (Stands (state_of (T.atoms types.old) work.new)) }
    ensures comes { Comes (updates_element_of T.passes op at) (state_of (T.atoms types.old) work.old) result (state_of (T.atoms types.new) work.new) }
{
    match result_fits(alloc, types, work, at) {
        Ok(read) => lift(update_element(alloc, work, op, read, at)),
        Err(stop) => Err(stop),
    }
}

/// `a[i] += e;` and its kin ("Compound assignment statement"): the last three parts are the container, the index or key, and the
/// right operand. The container and the index are kept in two slots. One question of the decider.
///
/// - `NotSubtype` at the place, with a shape that shows it: the result can't be stored there.
/// - `TypeLimit` at the place: the question is too large.
pub fn updates_element<T: Types>(checker: &mut Checker<'_, T>, op: AssignOp, at: Place)
    requires { Holds (T.atoms checker.old.types) checker.old.names.now checker.old.work }
    ensures holds { Holds (T.atoms checker.new.types) checker.new.names.now checker.new.work }
    ensures names { checker.new.names.now ≡ checker.old.names.now }
    ensures met { Runs (meets T.passes checker.old.names.now) (one (UpdatesElement op at)) (going (T.atoms checker.old.types) checker.old.work) (going (T.atoms checker.new.types) checker.new.work) }
{
    if has_stopped(&checker.work) {
        return;
    }
    let answer = require_update(checker.alloc, &mut checker.types, &mut checker.work, op, at);
    note(&checker.types, &mut checker.work, answer);
}

/// The field, of which this type was read, is assigned.
fn update_field(
    alloc: Global,
    work: &mut Work<'_>,
    field: &Word,
    op: AssignOp,
    read: SharedTy,
    at: Place,
) -> Result<(), Memory>
    ensures stands { (env : List Atom) → Stands (state_of env work.old) → OnOk result (Stands (state_of env work.new)) }
    ensures comes { (env : List Atom) → OnOk result (Comes (updates_by_field field.now.name op read at) (state_of env work.old) (Given tt) (state_of env work.new)) }
{
    let operator = take_operator(work, op)?;
    let _access = last_taken(&mut work.accesses)?;
    update_parts(alloc, work, field_form(field), read, operator, at)
}

/// The same, where what is stored may be so much.
fn require_field_update<T: Types>(
    alloc: Global,
    types: &mut T,
    work: &mut Work<'_>,
    field: &Word,
    op: AssignOp,
    at: Place,
) -> Result<(), Stop<Fault>>
    requires { Stands (state_of (T.atoms types.old) work.old) }
    ensures atoms { T.atoms types.new ≡ T.atoms types.old }
    ensures stands { OnOk result (Stands (state_of (T.atoms types.old) work.new)) }
    ensures comes { Comes (updates_field_of T.passes field.now op at) (state_of (T.atoms types.old) work.old) result (state_of (T.atoms types.new) work.new) }
{
    match result_fits(alloc, types, work, at) {
        Ok(read) => lift(update_field(alloc, work, field, op, read, at)),
        Err(stop) => Err(stop),
    }
}

/// `a.f += e;` and its kin ("Compound assignment statement"): the last three parts are the container, the key, and the right operand.
/// The container and the key are kept in two slots. One question of the decider.
///
/// - `NotSubtype` at the place, with a shape that shows it: the result can't be stored there.
/// - `TypeLimit` at the place: the question is too large.
pub fn updates_field<T: Types>(checker: &mut Checker<'_, T>, field: &Word, op: AssignOp, at: Place)
    requires { Holds (T.atoms checker.old.types) checker.old.names.now checker.old.work }
    ensures holds { Holds (T.atoms checker.new.types) checker.new.names.now checker.new.work }
    ensures names { checker.new.names.now ≡ checker.old.names.now }
    ensures met { Runs (meets T.passes checker.old.names.now) (one (UpdatesField field.now op at)) (going (T.atoms checker.old.types) checker.old.work) (going (T.atoms checker.new.types) checker.new.work) }
{
    if has_stopped(&checker.work) {
        return;
    }
    let answer = require_field_update(
        checker.alloc,
        &mut checker.types,
        &mut checker.work,
        field,
        op,
        at,
    );
    note(&checker.types, &mut checker.work, answer);
}
