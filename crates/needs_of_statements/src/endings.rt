//! Ends of units.
#![tactic(auto, using(check_work::proofs::Noting::meeting))]

ghost use Rattle.std.specs.Prelude.{◌≡◌, List, OnOk, Ok as Given};
ghost use Rattle.checks.specs.Checks.{Comes};
ghost use Rattle.descriptors.specs.Steps.{AreOwnTypes};
ghost use Rattle.needs.specs.Needs.{Runs};
ghost use Rattle.type_model.specs.declared.atoms.AtomDef.{AtomDef as Atom};
ghost use Rattle.typed_tree.specs.Listed.{one};
ghost use Rattle.expr_needs.specs.Needs.{Returns, ReturnsNil};
ghost use Rattle.check_words.specs.Meets.{meets};
ghost use Rattle.check_words.specs.Stands.{Stands};
ghost use Rattle.check_words.specs.Statements.{nil_is_result, returns as returns_of, returns_nil as returns_nil_of};
ghost use Rattle.check_work.specs.Views.{Holds, going, state_of};
ghost use Rattle.needs_of_statements.specs.Parts.{ends_with_nil};

use crate::blocks::stop;
use crate::stmts;
use bal_base::{Fault, Memory, Place, Stop};
use check_kinds::kind_type;
use check_work::{
    Checker, Work, add_stmt, at_hand, drop_last, has_stopped, note, note_made, take_part,
};
use checks::require_below;
use descriptors::{OwnTypes, lift};
use expr_needs::Kind;
use std::alloc::Global;
use type_model::Types;

/// The last part is what the unit gives, and what is wanted of it goes.
fn give(alloc: Global, work: &mut Work<'_>, at: Place) -> Result<(), Memory>
    ensures stands { (env : List Atom) → Stands (state_of env work.old) → OnOk result (Stands (state_of env work.new)) }
    ensures comes { (env : List Atom) → OnOk result (Comes (returns_of at) (state_of env work.old) (Given tt) (state_of env work.new)) }
{
    let value = take_part(work)?;
    drop_last(&mut work.wants);
    let stmt = stmts::return_value(alloc, value, at)?;
    add_stmt(&mut work.blocks, stmt)?;
    stop(work)?;
    Ok(())
}

/// `return e;`, where the part is below what is wanted of it already (Ballerina specification, "Return statement").
pub fn returns<T: Types>(checker: &mut Checker<'_, T>, at: Place)
    requires { Holds (T.atoms checker.old.types) checker.old.names.now checker.old.work }
    ensures holds { Holds (T.atoms checker.new.types) checker.new.names.now checker.new.work }
    ensures names { checker.new.names.now ≡ checker.old.names.now }
    ensures met { Runs (meets T.passes checker.old.names.now) (one (Returns at)) (going (T.atoms checker.old.types) checker.old.work) (going (T.atoms checker.new.types) checker.new.work) }
{
    if has_stopped(&checker.work) {
        return;
    }
    let made = give(checker.alloc, &mut checker.work, at);
    note_made(&checker.types, &mut checker.work, made);
}

/// Nil is below the result of the unit.
fn require_nil<T: Types>(
    alloc: Global,
    types: &mut T,
    own: &OwnTypes,
    work: &Work<'_>,
    at: Place,
) -> Result<(), Stop<Fault>>
    requires own { AreOwnTypes (T.atoms types.old) own.now }
    requires stands { Stands (state_of (T.atoms types.old) work.now) }
    ensures atoms { T.atoms types.new ≡ T.atoms types.old }
    ensures comes { Comes (nil_is_result T.passes at) (state_of (T.atoms types.old) work.now) result (state_of (T.atoms types.new) work.now) }
{
    let unit = at_hand(&work.unit)?;
    let nil = kind_type(alloc, own, Kind::Nothing)?;
    require_below(alloc, types, &nil.sem, &unit.result.sem, Some(at))
}

/// The statement, behind which no way goes on.
fn end_with_nil(work: &mut Work<'_>, at: Place) -> Result<(), Memory>
    ensures stands { (env : List Atom) → Stands (state_of env work.old) → OnOk result (Stands (state_of env work.new)) }
    ensures comes { (env : List Atom) → OnOk result (Comes (ends_with_nil at) (state_of env work.old) (Given tt) (state_of env work.new)) }
{
    add_stmt(&mut work.blocks, stmts::return_nothing(at))?;
    stop(work)?;
    Ok(())
}

/// The unit gives nil.
fn give_nil<T: Types>(
    alloc: Global,
    types: &mut T,
    own: &OwnTypes,
    work: &mut Work<'_>,
    at: Place,
) -> Result<(), Stop<Fault>>
    requires own { AreOwnTypes (T.atoms types.old) own.now }
    requires stands { Stands (state_of (T.atoms types.old) work.old) }
    ensures atoms { T.atoms types.new ≡ T.atoms types.old }
    ensures stands { OnOk result (Stands (state_of (T.atoms types.old) work.new)) }
    ensures comes { Comes (returns_nil_of T.passes at) (state_of (T.atoms types.old) work.old) result (state_of (T.atoms types.new) work.new) }
{
    match require_nil(alloc, types, own, work, at) {
        Ok(()) => lift(end_with_nil(work, at)),
        Err(stop) => Err(stop),
    }
}

/// `return;` (Ballerina specification, "Return statement"). One question of the decider.
///
/// - `NotSubtype` at the place: the unit doesn't give nil.
/// - `TypeLimit` at the place: the question is too large.
pub fn returns_nil<T: Types>(checker: &mut Checker<'_, T>, at: Place)
    requires { Holds (T.atoms checker.old.types) checker.old.names.now checker.old.work }
    ensures holds { Holds (T.atoms checker.new.types) checker.new.names.now checker.new.work }
    ensures names { checker.new.names.now ≡ checker.old.names.now }
    ensures met { Runs (meets T.passes checker.old.names.now) (one (ReturnsNil at)) (going (T.atoms checker.old.types) checker.old.work) (going (T.atoms checker.new.types) checker.new.work) }
{
    if has_stopped(&checker.work) {
        return;
    }
    let answer = give_nil(
        checker.alloc,
        &mut checker.types,
        &checker.names.own,
        &mut checker.work,
        at,
    );
    note(&checker.types, &mut checker.work, answer);
}
