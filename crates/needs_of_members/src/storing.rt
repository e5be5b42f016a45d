//! Members that are stored.
#![tactic(auto, using(check_work::proofs::Noting::meeting, typed_tree::proofs::StmtLayers::stmt_layers))]

ghost use Rattle.std.specs.Prelude.{◌≡◌, ◌++◌, ◌∷◌, [], IfOk, IfSome, List, OnOk, Ok as Given, Some as There};
ghost use Rattle.checks.specs.Checks.{Comes};
ghost use Rattle.needs.specs.Needs.{Runs};
ghost use Rattle.type_model.specs.declared.atoms.AtomDef.{AtomDef as Atom};
ghost use Rattle.typed_tree.specs.Listed.{one};
ghost use Rattle.expr_needs.specs.Needs.{ExpectsStored, HasField, Stores};
ghost use Rattle.check_words.specs.Meets.{meets};
ghost use Rattle.check_words.specs.Members.{expects_stored as expects_stored_of, has_field as has_field_of};
ghost use Rattle.check_words.specs.Stands.{Stands};
ghost use Rattle.check_words.specs.Statements.{store_form as store_form_of, stores as stores_of};
ghost use Rattle.check_words.specs.StmtViews.{IsPerform};
ghost use Rattle.check_work.specs.Views.{Holds, going, state_of};
ghost use Rattle.needs_of_members.specs.Fronts.{IsKey};

use crate::named::stored_by;
use crate::sides::last_sides;
use bal_base::{Fault, Memory, Place, Stop, Text};
use bal_tree::Word;
use check_kinds::single_type;
use check_words::{Access, implied};
use check_work::{
    Checker, Work, add_stmt, drop_last, has_stopped, last, last_taken, note, note_made, take_parts,
};
use descriptors::lift;
use operations::Constant;
use std::alloc::Global;
use std::rc::Rc;
use type_model::Types;
use typed_tree::{PerformForm, SharedTy, TypedExpr, TypedStmt};

/// The part that stands for a key.
fn key_part(alloc: Global, text: &Text, at: Place) -> Result<TypedExpr, Memory>
    ensures { IfOk result (IsKey text.now at) }
{
    let value = Constant::Str(text.share());
    let ty = Rc::new(alloc, single_type(alloc, &value))?;
    Ok(implied(value, ty, at))
}

/// The field is the key of the member at hand.
fn give_field(alloc: Global, work: &mut Work<'_>, field: &Word) -> Result<(), Memory>
    ensures stands { (env : List Atom) → Stands (state_of env work.old) → OnOk result (Stands (state_of env work.new)) }
    ensures comes { (env : List Atom) → OnOk result (Comes (has_field_of field.now) (state_of env work.old) (Given tt) (state_of env work.new)) }
{
    let key = key_part(alloc, field.name.as_text(), field.at)?;
    work.found.push(key)?;
    work.ways = None;
    work.accesses.push(Access::Key)?;
    Ok(())
}

/// The field is the key with which a member of a mapping, the last part, is taken. A part more stands for it.
pub fn has_field<T: Types>(checker: &mut Checker<'_, T>, field: &Word)
    requires { Holds (T.atoms checker.old.types) checker.old.names.now checker.old.work }
    ensures holds { Holds (T.atoms checker.new.types) checker.new.names.now checker.new.work }
    ensures names { checker.new.names.now ≡ checker.old.names.now }
    ensures met { Runs (meets T.passes checker.old.names.now) (one (HasField field.now)) (going (T.atoms checker.old.types) checker.old.work) (going (T.atoms checker.new.types) checker.new.work) }
{
    if has_stopped(&checker.work) {
        return;
    }
    let made = give_field(checker.alloc, &mut checker.work, field);
    note_made(&checker.types, &mut checker.work, made);
}

/// This type is wanted.
pub(crate) fn want(wants: &mut Vec<Option<SharedTy>>, t: SharedTy) -> Result<(), Memory>
    ensures { OnOk result (wants.new.items ≡ wants.old.items ++ There t ∷ []) }
{
    wants.push(Some(t))?;
    Ok(())
}

/// What the last two parts name is stored.
fn expect_stored<T: Types>(
    alloc: Global,
    types: &mut T,
    work: &mut Work<'_>,
    at: Place,
) -> Result<(), Stop<Fault>>
    requires { Stands (state_of (T.atoms types.old) work.old) }
    ensures atoms { T.atoms types.new ≡ T.atoms types.old }
    ensures stands { OnOk result (Stands (state_of (T.atoms types.old) work.new)) }
    ensures comes { Comes (expects_stored_of T.passes at) (state_of (T.atoms types.old) work.old) result (state_of (T.atoms types.new) work.new) }
{
    match last(work.accesses.as_slice()) {
        Some(access) => match last_sides(work.found.as_slice()) {
            Some(sides) => match stored_by(alloc, types, *access, sides, at) {
                Ok(t) => lift(want(&mut work.wants, t)),
                Err(stop) => Err(stop),
            },
            None => Err(Stop::Memory),
        },
        None => Err(Stop::Memory),
    }
}

/// A member of the container that stands before its index or key is stored: its type is wanted, with the constructor choices that
/// the container's type says ("Assignment statement"). Three questions of the decider at most.
///
/// - `NoField` at the place: no value of the container's type has such a member.
/// - `TypeLimit` at the place: a question is too large.
pub fn expects_stored<T: Types>(checker: &mut Checker<'_, T>, at: Place)
    requires { Holds (T.atoms checker.old.types) checker.old.names.now checker.old.work }
    ensures holds { Holds (T.atoms checker.new.types) checker.new.names.now checker.new.work }
    ensures names { checker.new.names.now ≡ checker.old.names.now }
    ensures met { Runs (meets T.passes checker.old.names.now) (one (ExpectsStored at)) (going (T.atoms checker.old.types) checker.old.work) (going (T.atoms checker.new.types) checker.new.work) }
{
    if has_stopped(&checker.work) {
        return;
    }
    let answer = expect_stored(checker.alloc, &mut checker.types, &mut checker.work, at);
    note(&checker.types, &mut checker.work, answer);
}

/// The form of a store, where there is one.
fn store_form(access: Access) -> Option<PerformForm>
    ensures { IfSome result (store_form_of access) }
{
    match access {
        Access::Char => None,
        Access::Item => Some(PerformForm::SetItem),
        Access::Key => Some(PerformForm::SetKey),
    }
}

/// The statement.
fn perform_stmt(form: PerformForm, operands: Vec<TypedExpr>, at: Place) -> TypedStmt
    ensures { IsPerform form operands.items at result }
{
    TypedStmt::Perform { form, operands, at }
}

/// The last three parts become a store.
fn store(work: &mut Work<'_>, at: Place) -> Result<(), Memory>
    ensures stands { (env : List Atom) → Stands (state_of env work.old) → OnOk result (Stands (state_of env work.new)) }
    ensures comes { (env : List Atom) → OnOk result (Comes (stores_of at) (state_of env work.old) (Given tt) (state_of env work.new)) }
{
    drop_last(&mut work.wants);
    let access = last_taken(&mut work.accesses)?;
    let operands = take_parts(&mut work.found, 3)?;
    work.ways = None;
    match store_form(access) {
        Some(form) => add_stmt(&mut work.blocks, perform_stmt(form, operands, at)),
        None => Err(Memory),
    }
}

/// `a[i] = e;` or `a.f = e;`: the last three parts are the container, the index or key, and the value, of which nothing more is wanted.
pub fn stores<T: Types>(checker: &mut Checker<'_, T>, at: Place)
    requires { Holds (T.atoms checker.old.types) checker.old.names.now checker.old.work }
    ensures holds { Holds (T.atoms checker.new.types) checker.new.names.now checker.new.work }
    ensures names { checker.new.names.now ≡ checker.old.names.now }
    ensures met { Runs (meets T.passes checker.old.names.now) (one (Stores at)) (going (T.atoms checker.old.types) checker.old.work) (going (T.atoms checker.new.types) checker.new.work) }
{
    if has_stopped(&checker.work) {
        return;
    }
    let made = store(&mut checker.work, at);
    note_made(&checker.types, &mut checker.work, made);
}
