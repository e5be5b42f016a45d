//! Items of loops: what a loop goes through, and the variable that it gives each of them to.
#![tactic(auto, using(check_work::proofs::Noting::meeting))]

ghost use Rattle.std.specs.Prelude.{◌≡◌, IfOk, List, OnOk, Ok as Given, Some as There, length, true};
ghost use Rattle.checks.specs.Checks.{Comes};
ghost use Rattle.descriptors.specs.Described.{plain as plain_of};
ghost use Rattle.descriptors.specs.Steps.{AreOwnTypes};
ghost use Rattle.needs.specs.Needs.{Runs};
ghost use Rattle.tree_places.specs.Assigned.{assigned_in_block};
ghost use Rattle.type_model.specs.declared.atoms.AtomDef.{AtomDef as Atom};
ghost use Rattle.type_model.specs.Defined.{IsDefined, TyBelow};
ghost use Rattle.typed_tree.specs.Listed.{members, one};
ghost use Rattle.typed_tree.specs.SharedTypes.{Shared};
ghost use Rattle.expr_needs.specs.Needs.{HasItem, IsItemOfLoop, WidensItem};
ghost use Rattle.stmt_needs.specs.StmtTable.{is_among};
ghost use Rattle.check_words.specs.Branches.{has_item as has_item_of, is_item_of_loop as is_item_of_loop_of, item_type_at, widens_item as widens_item_of};
ghost use Rattle.check_words.specs.Meets.{meets};
ghost use Rattle.check_words.specs.Stands.{SharedBelow, Stands};
ghost use Rattle.check_words.specs.State.{IsLast};
ghost use Rattle.check_words.specs.Statements.{local_variable};
ghost use Rattle.check_work.specs.Views.{Holds, going, state_of};

use crate::counters::wanted;
use assigned_names::is_assigned_in_block;
use bal_base::{Fault, Memory, Name, Place, Stop};
use bal_tree::{Block, Word};
use check_kinds::widened;
use check_members::member_at;
use check_work::{
    Checker, Work, declare, has_stopped, keep, last, note, note_made, shared, take_want,
};
use checks::require_below;
use descriptors::{OwnTypes, plain};
use flow_narrowing::Variable;
use std::alloc::Global;
use std::rc::Rc;
use type_model::{Keys, SemType, Types};
use typed_tree::SharedTy;

/// The type of the items of the last part.
fn item_type<T: Types>(
    alloc: Global,
    types: &mut T,
    work: &Work<'_>,
    at: Place,
) -> Result<SemType, Stop<Fault>>
    requires { Stands (state_of (T.atoms types.old) work.now) }
    ensures atoms { T.atoms types.new ≡ T.atoms types.old }
    ensures defined { IfOk result (IsDefined (T.atoms types.old)) }
    ensures comes { Comes (item_type_at T.passes at) (state_of (T.atoms types.old) work.now) result (state_of (T.atoms types.new) work.now) }
{
    match last(work.found.as_slice()) {
        Some(e) => member_at(alloc, types, &e.ty().sem, &Keys::AnyIndex, at),
        None => Err(Stop::Memory),
    }
}

/// The items of the last part are of the type that is wanted last.
fn require_item<T: Types>(
    alloc: Global,
    types: &mut T,
    work: &Work<'_>,
    at: Place,
) -> Result<(), Stop<Fault>>
    requires { Stands (state_of (T.atoms types.old) work.now) }
    ensures atoms { T.atoms types.new ≡ T.atoms types.old }
    ensures comes { Comes (is_item_of_loop_of T.passes at) (state_of (T.atoms types.old) work.now) result (state_of (T.atoms types.new) work.now) }
{
    match item_type(alloc, types, work, at) {
        Ok(item) => match wanted(work.wants.as_slice()) {
            Some(t) => require_below(alloc, types, &item, &t.sem, Some(at)),
            None => Err(Stop::Memory),
        },
        Err(stop) => Err(stop),
    }
}

/// `foreach T a in e`: the items of the last part are of the type that is wanted ("Foreach statement"): else `NotSubtype` at the place,
/// with a shape that shows it. Two questions of the decider; `TypeLimit` at the place where one is too large.
pub fn is_item_of_loop<T: Types>(checker: &mut Checker<'_, T>, at: Place)
    requires { Holds (T.atoms checker.old.types) checker.old.names.now checker.old.work }
    ensures holds { Holds (T.atoms checker.new.types) checker.new.names.now checker.new.work }
    ensures names { checker.new.names.now ≡ checker.old.names.now }
    ensures met { Runs (meets T.passes checker.old.names.now) (one (IsItemOfLoop at)) (going (T.atoms checker.old.types) checker.old.work) (going (T.atoms checker.new.types) checker.new.work) }
{
    if has_stopped(&checker.work) {
        return;
    }
    let answer = require_item(checker.alloc, &mut checker.types, &checker.work, at);
    note(&checker.types, &mut checker.work, answer);
}

/// The type without choices, to be shared.
fn plain_shared(alloc: Global, sem: SemType) -> Result<SharedTy, Memory>
    ensures is { IfOk result (λ t. t.value ≡ plain_of sem) }
{
    Ok(Rc::new(alloc, plain(alloc, sem))?)
}

/// The type of the items of the last part, widened, is wanted.
fn widen_item<T: Types>(
    alloc: Global,
    types: &mut T,
    own: &OwnTypes,
    work: &mut Work<'_>,
    at: Place,
) -> Result<(), Stop<Fault>>
    requires own { AreOwnTypes (T.atoms types.old) own.now }
    requires stands { Stands (state_of (T.atoms types.old) work.old) }
    ensures atoms { T.atoms types.new ≡ T.atoms types.old }
    ensures stands { OnOk result (Stands (state_of (T.atoms types.old) work.new)) }
    ensures comes { Comes (widens_item_of T.passes at) (state_of (T.atoms types.old) work.old) result (state_of (T.atoms types.new) work.new) }
{
    let item = item_type(alloc, types, work, at)?;
    let narrow = plain_shared(alloc, item)?;
    let t = widened(alloc, types, own, narrow, at)?;
    work.wants.push(Some(t))?;
    Ok(())
}

/// `foreach var a in e`: the type of the items of the last part, widened, is wanted ("Foreach statement"). Four questions of the
/// decider at most; `TypeLimit` at the place where one is too large.
pub fn widens_item<T: Types>(checker: &mut Checker<'_, T>, at: Place)
    requires { Holds (T.atoms checker.old.types) checker.old.names.now checker.old.work }
    ensures holds { Holds (T.atoms checker.new.types) checker.new.names.now checker.new.work }
    ensures names { checker.new.names.now ≡ checker.old.names.now }
    ensures met { Runs (meets T.passes checker.old.names.now) (one (WidensItem at)) (going (T.atoms checker.old.types) checker.old.work) (going (T.atoms checker.new.types) checker.new.work) }
{
    if has_stopped(&checker.work) {
        return;
    }
    let answer = widen_item(
        checker.alloc,
        &mut checker.types,
        &checker.names.own,
        &mut checker.work,
        at,
    );
    note(&checker.types, &mut checker.work, answer);
}

/// The variable of a loop, which can't be assigned.
fn item(name: &Name, slot: u32, declared: SharedTy, assigned: bool) -> Variable
    ensures { result ≡ local_variable name.now slot declared true assigned }
{
    Variable {
        name: name.share(),
        slot,
        declared,
        narrowed: None,
        fixed: true,
        assigned,
        captured: false,
    }
}

/// The loop has a variable of the type that is wanted last.
fn add_item(work: &mut Work<'_>, name: &Name, assigned: bool) -> Result<(), Memory>
    ensures stands { (env : List Atom) → Stands (state_of env work.old) → OnOk result (Stands (state_of env work.new)) }
    ensures comes { (env : List Atom) → OnOk result (Comes (has_item_of name.now assigned) (state_of env work.old) (Given tt) (state_of env work.new)) }
{
    let declared = take_want(work)?;
    let kept = shared(&declared)?;
    let slot = keep(work, kept)?;
    declare(work, item(name, slot, declared, assigned))?;
    Ok(())
}

/// The same where the loop has this body.
fn add_item_of(alloc: Global, work: &mut Work<'_>, name: &Name, body: &Block) -> Result<(), Memory>
    ensures stands { (env : List Atom) → Stands (state_of env work.old) → OnOk result (Stands (state_of env work.new)) }
    ensures comes { (env : List Atom) → OnOk result (Comes (has_item_of name.now (is_among name.now (members (assigned_in_block body.now)))) (state_of env work.old) (Given tt) (state_of env work.new)) }
{
    let assigned = is_assigned_in_block(alloc, name, body)?;
    add_item(work, name, assigned)?;
    Ok(())
}

/// `foreach T a in e { .. }`: the loop with this body has a variable of the type that is wanted ("Foreach statement"). It costs by the
/// names that the body assigns.
pub fn has_item<T: Types>(checker: &mut Checker<'_, T>, name: &Word, body: &Block)
    requires { Holds (T.atoms checker.old.types) checker.old.names.now checker.old.work }
    ensures holds { Holds (T.atoms checker.new.types) checker.new.names.now checker.new.work }
    ensures names { checker.new.names.now ≡ checker.old.names.now }
    ensures met { Runs (meets T.passes checker.old.names.now) (one (HasItem name.now.name (is_among name.now.name (members (assigned_in_block body.now))))) (going (T.atoms checker.old.types) checker.old.work) (going (T.atoms checker.new.types) checker.new.work) }
{
    if has_stopped(&checker.work) {
        return;
    }
    let made = add_item_of(checker.alloc, &mut checker.work, &name.name, body);
    note_made(&checker.types, &mut checker.work, made);
}
