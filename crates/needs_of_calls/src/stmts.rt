//! Statements that evaluate something.
#![tactic(auto, using(check_work::proofs::Noting::meeting, typed_tree::proofs::StmtLayers::stmt_layers))]

ghost use Rattle.std.specs.Prelude.{◌≡◌, List, OnOk, Ok as Given};
ghost use Rattle.checks.specs.Checks.{Comes};
ghost use Rattle.descriptors.specs.Steps.{AreOwnTypes};
ghost use Rattle.needs.specs.Needs.{Runs};
ghost use Rattle.type_model.specs.declared.atoms.AtomDef.{AtomDef as Atom};
ghost use Rattle.typed_tree.specs.Listed.{one};
ghost use Rattle.expr_needs.specs.Needs.{IsIgnorable, Performs};
ghost use Rattle.check_words.specs.Meets.{meets};
ghost use Rattle.check_words.specs.Stands.{Stands};
ghost use Rattle.check_words.specs.Statements.{is_ignorable as is_ignorable_of, performs as performs_of};
ghost use Rattle.check_words.specs.StmtViews.{IsPerform};
ghost use Rattle.check_work.specs.Views.{Holds, going, state_of};

use crate::refusing::require;
use bal_base::{Fault, FaultCode, Memory, Place, Stop};
use check_kinds::is_of_kind;
use check_work::{Checker, Work, add_stmt, has_stopped, last, note, note_made, take_parts};
use descriptors::OwnTypes;
use expr_needs::Kind;
use std::alloc::Global;
use type_model::Types;
use typed_tree::{PerformForm, TypedExpr, TypedStmt};

/// The last part is nil.
fn require_nil<T: Types>(
    alloc: Global,
    types: &mut T,
    own: &OwnTypes,
    work: &Work<'_>,
    at: Place,
) -> Result<(), Stop<Fault>>
    requires own { AreOwnTypes (T.atoms types.old) own.now }
    requires stands { Stands (state_of (T.atoms types.old) work.now) }
    ensures atoms { T.atoms types.new ≡ T.atoms types.old }
    ensures comes { Comes (is_ignorable_of T.passes at) (state_of (T.atoms types.old) work.now) result (state_of (T.atoms types.new) work.now) }
{
    let Some(part) = last(work.found.as_slice()) else {
        return Err(Stop::Memory);
    };
    let so = is_of_kind(alloc, types, own, &part.ty().sem, Kind::Nothing, at)?;
    require(so, FaultCode::Ignored, at)
}

/// The last part is nil, so that nothing is ignored that a statement of its own gives (Ballerina specification, "Call statement"). One question of
/// the decider.
///
/// - `Ignored` at the place: it may be something else.
/// - `TypeLimit` there: the question is too large.
pub fn is_ignorable<T: Types>(checker: &mut Checker<'_, T>, at: Place)
    requires { Holds (T.atoms checker.old.types) checker.old.names.now checker.old.work }
    ensures holds { Holds (T.atoms checker.new.types) checker.new.names.now checker.new.work }
    ensures names { checker.new.names.now ≡ checker.old.names.now }
    ensures met { Runs (meets T.passes checker.old.names.now) (one (IsIgnorable at)) (going (T.atoms checker.old.types) checker.old.work) (going (T.atoms checker.new.types) checker.new.work) }
{
    if has_stopped(&checker.work) {
        return;
    }
    let answer = require_nil(
        checker.alloc,
        &mut checker.types,
        &checker.names.own,
        &checker.work,
        at,
    );
    note(&checker.types, &mut checker.work, answer);
}

/// The statement.
fn perform_stmt(form: PerformForm, operands: Vec<TypedExpr>, at: Place) -> TypedStmt
    ensures { IsPerform form operands.items at result }
{
    TypedStmt::Perform { form, operands, at }
}

/// So many of the last parts become the operands of a statement.
fn perform(work: &mut Work<'_>, form: PerformForm, count: usize, at: Place) -> Result<(), Memory>
    ensures stands { (env : List Atom) → Stands (state_of env work.old) → OnOk result (Stands (state_of env work.new)) }
    ensures comes { (env : List Atom) → OnOk result (Comes (performs_of form count at) (state_of env work.old) (Given tt) (state_of env work.new)) }
{
    let parts = take_parts(&mut work.found, count)?;
    add_stmt(&mut work.blocks, perform_stmt(form, parts, at))?;
    work.ways = None;
    Ok(())
}

/// So many of the last parts are the operands of a statement of this form.
pub fn performs<T: Types>(checker: &mut Checker<'_, T>, form: PerformForm, count: usize, at: Place)
    requires { Holds (T.atoms checker.old.types) checker.old.names.now checker.old.work }
    ensures holds { Holds (T.atoms checker.new.types) checker.new.names.now checker.new.work }
    ensures names { checker.new.names.now ≡ checker.old.names.now }
    ensures met { Runs (meets T.passes checker.old.names.now) (one (Performs form count at)) (going (T.atoms checker.old.types) checker.old.work) (going (T.atoms checker.new.types) checker.new.work) }
{
    if has_stopped(&checker.work) {
        return;
    }
    let made = perform(&mut checker.work, form, count, at);
    note_made(&checker.types, &mut checker.work, made);
}
