//! Branches, and loops on a condition.
#![tactic(auto, using(check_work::proofs::Noting::meeting))]

ghost use Rattle.std.specs.Prelude.{◌≡◌, IfOk, List, OnOk, Ok as Given, Result};
ghost use Rattle.bal_base.specs.declared.fault.Fault.{Fault as FaultOf};
ghost use Rattle.bal_base.specs.declared.stop.Stop.{Stop as StopOf};
ghost use Rattle.checks.specs.Checks.{Comes};
ghost use Rattle.needs.specs.Needs.{Runs};
ghost use Rattle.tree_places.specs.Assigned.{assigned_in_block};
ghost use Rattle.type_model.specs.declared.atoms.AtomDef.{AtomDef as Atom};
ghost use Rattle.typed_tree.specs.Listed.{members, one};
ghost use Rattle.expr_needs.specs.Needs.{Heads, MakesIf, MakesWhile};
ghost use Rattle.check_words.specs.Branches.{at_head, behind as behind_of, heads as heads_of, makes_if as makes_if_of, makes_while as makes_while_of};
ghost use Rattle.check_words.specs.Meets.{meets};
ghost use Rattle.check_words.specs.Stands.{Stands};
ghost use Rattle.check_words.specs.State.{State};
ghost use Rattle.check_work.specs.Views.{Holds, flow_of, going, state_of};
ghost use Rattle.needs_of_statements.specs.Parts.{builds_if, builds_while};

use crate::stmts::{branch, while_loop};
use bal_base::{Memory, Place};
use bal_tree::{Block, Word};
use check_work::{
    Checker, Here, Work, add_stmt, close_block, has_stopped, last_taken, note_made, take_part,
    taken,
};
use flow_joins::join_here;
use std::alloc::Global;
use tree_places::{WordList, names_assigned};
use type_model::Types;

/// Behind both ways of a branch is known what is known where they meet.
fn join_ways<T: Types>(alloc: Global, types: &mut T, work: &mut Work<'_>) -> Result<(), Memory>
    requires { Stands (state_of (T.atoms types.old) work.old) }
    ensures atoms { T.atoms types.new ≡ T.atoms types.old }
    ensures stands { OnOk result (Stands (state_of (T.atoms types.old) work.new)) }
    ensures comes { OnOk result ((at : Place) (r : Result (Unit {0}) (StopOf FaultOf)) (end : State) → Comes (builds_if at) (state_of (T.atoms types.old) work.new) r end → Comes (makes_if_of at) (state_of (T.atoms types.old) work.old) r end) }
{
    let mut unit = taken(&mut work.unit)?;
    let choice = last_taken(&mut work.choices)?;
    join_here(alloc, types, &choice.first, &mut unit.here)?;
    work.ways = None;
    work.unit = Some(unit);
    Ok(())
}

/// The last two blocks and the last part are a statement.
fn build_if(alloc: Global, work: &mut Work<'_>, at: Place) -> Result<(), Memory>
    ensures stands { (env : List Atom) → Stands (state_of env work.old) → OnOk result (Stands (state_of env work.new)) }
    ensures comes { (env : List Atom) → OnOk result (Comes (builds_if at) (state_of env work.old) (Given tt) (state_of env work.new)) }
{
    let second = close_block(work)?;
    let first = close_block(work)?;
    let condition = take_part(work)?;
    let stmt = branch(alloc, condition, first.stmts, second.stmts, at)?;
    add_stmt(&mut work.blocks, stmt)?;
    Ok(())
}

/// A branch ends: what is known behind it, and the statement.
fn end_branch<T: Types>(
    alloc: Global,
    types: &mut T,
    work: &mut Work<'_>,
    at: Place,
) -> Result<(), Memory>
    requires { Stands (state_of (T.atoms types.old) work.old) }
    ensures atoms { T.atoms types.new ≡ T.atoms types.old }
    ensures stands { OnOk result (Stands (state_of (T.atoms types.old) work.new)) }
    ensures comes { OnOk result (Comes (makes_if_of at) (state_of (T.atoms types.old) work.old) (Given tt) (state_of (T.atoms types.old) work.new)) }
{
    join_ways(alloc, types, work)?;
    build_if(alloc, work, at)?;
    Ok(())
}

/// The last two blocks are the ways of a branch (Ballerina specification, "If-else statement"): behind it each variable
/// has the union of its types on the ways that go on. It costs by the variables that are seen, and a type for each that is
/// narrowed on one of the ways.
pub fn makes_if<T: Types>(checker: &mut Checker<'_, T>, at: Place)
    requires { Holds (T.atoms checker.old.types) checker.old.names.now checker.old.work }
    ensures holds { Holds (T.atoms checker.new.types) checker.new.names.now checker.new.work }
    ensures names { checker.new.names.now ≡ checker.old.names.now }
    ensures met { Runs (meets T.passes checker.old.names.now) (one (MakesIf at)) (going (T.atoms checker.old.types) checker.old.work) (going (T.atoms checker.new.types) checker.new.work) }
{
    if has_stopped(&checker.work) {
        return;
    }
    let made = end_branch(checker.alloc, &mut checker.types, &mut checker.work, at);
    note_made(&checker.types, &mut checker.work, made);
}

/// The variables with these names have their declared types here.
fn widen(here: &mut Here, names: &[Word])
    ensures { flow_of here.new ≡ at_head names.now (flow_of here.old) }
{
    for name in names {
        here.retype(&name.name, None);
    }
}

/// The names of the variables that the block assigns.
#[tactic(auto, using(bal_tree::proofs::StmtLayers::stmt_layers))]
fn assigned_in(alloc: Global, body: &Block) -> Result<WordList, Memory>
    ensures { IfOk result (λ names. names ≡ members (assigned_in_block body.now)) }
{
    names_assigned(alloc, &body.stmts)
}

/// At the head of a loop with this body each variable that it assigns has its declared type.
fn head(alloc: Global, work: &mut Work<'_>, body: &Block) -> Result<(), Memory>
    ensures stands { (env : List Atom) → Stands (state_of env work.old) → OnOk result (Stands (state_of env work.new)) }
    ensures comes { (env : List Atom) → OnOk result (Comes (heads_of (members (assigned_in_block body.now))) (state_of env work.old) (Given tt) (state_of env work.new)) }
{
    let names = assigned_in(alloc, body)?;
    let mut unit = taken(&mut work.unit)?;
    widen(&mut unit.here, names.as_slice());
    work.ways = None;
    work.unit = Some(unit);
    Ok(())
}

/// A loop with this body begins: what the body assigns has its declared type at the head (Ballerina specification, "Type
/// narrowing"). It costs by the body, and a look through the variables for each name that is assigned there.
pub fn heads<T: Types>(checker: &mut Checker<'_, T>, body: &Block)
    requires { Holds (T.atoms checker.old.types) checker.old.names.now checker.old.work }
    ensures holds { Holds (T.atoms checker.new.types) checker.new.names.now checker.new.work }
    ensures names { checker.new.names.now ≡ checker.old.names.now }
    ensures met { Runs (meets T.passes checker.old.names.now) (one (Heads (members (assigned_in_block body.now)))) (going (T.atoms checker.old.types) checker.old.work) (going (T.atoms checker.new.types) checker.new.work) }
{
    if has_stopped(&checker.work) {
        return;
    }
    let made = head(checker.alloc, &mut checker.work, body);
    note_made(&checker.types, &mut checker.work, made);
}

/// The place is reached only if something leaves the loop.
fn go_on(here: &mut Here, leaves: bool)
    ensures { flow_of here.new ≡ behind_of leaves (flow_of here.old) }
{
    here.reached = here.reached && leaves;
}

/// Behind a loop is known what is known at its head.
fn leave_loop(alloc: Global, work: &mut Work<'_>, leaves: bool) -> Result<(), Memory>
    ensures stands { (env : List Atom) → Stands (state_of env work.old) → OnOk result (Stands (state_of env work.new)) }
    ensures comes { (env : List Atom) → OnOk result ((at : Place) (r : Result (Unit {0}) (StopOf FaultOf)) (end : State) → Comes (builds_while at) (state_of env work.new) r end → Comes (makes_while_of leaves at) (state_of env work.old) r end) }
{
    let mut unit = taken(&mut work.unit)?;
    let choice = last_taken(&mut work.choices)?;
    let _inside = unit.here.enter(alloc, &choice.before)?;
    go_on(&mut unit.here, leaves);
    work.ways = None;
    work.unit = Some(unit);
    Ok(())
}

/// The last block and the last part are a statement.
fn build_while(alloc: Global, work: &mut Work<'_>, at: Place) -> Result<(), Memory>
    ensures stands { (env : List Atom) → Stands (state_of env work.old) → OnOk result (Stands (state_of env work.new)) }
    ensures comes { (env : List Atom) → OnOk result (Comes (builds_while at) (state_of env work.old) (Given tt) (state_of env work.new)) }
{
    let body = close_block(work)?;
    let condition = take_part(work)?;
    let stmt = while_loop(alloc, condition, body.stmts, at)?;
    add_stmt(&mut work.blocks, stmt)?;
    Ok(())
}

/// A loop ends: what is known behind it, and the statement.
fn end_loop(alloc: Global, work: &mut Work<'_>, leaves: bool, at: Place) -> Result<(), Memory>
    ensures stands { (env : List Atom) → Stands (state_of env work.old) → OnOk result (Stands (state_of env work.new)) }
    ensures comes { (env : List Atom) → OnOk result (Comes (makes_while_of leaves at) (state_of env work.old) (Given tt) (state_of env work.new)) }
{
    leave_loop(alloc, work, leaves)?;
    build_while(alloc, work, at)?;
    Ok(())
}

/// The last block is the body of a loop with the last part as its condition (Ballerina specification, "While statement"):
/// behind it is known what was known at its head, and the place is reached only if something leaves the loop. It costs by
/// the variables that are seen.
pub fn makes_while<T: Types>(checker: &mut Checker<'_, T>, leaves: bool, at: Place)
    requires { Holds (T.atoms checker.old.types) checker.old.names.now checker.old.work }
    ensures holds { Holds (T.atoms checker.new.types) checker.new.names.now checker.new.work }
    ensures names { checker.new.names.now ≡ checker.old.names.now }
    ensures met { Runs (meets T.passes checker.old.names.now) (one (MakesWhile leaves at)) (going (T.atoms checker.old.types) checker.old.work) (going (T.atoms checker.new.types) checker.new.work) }
{
    if has_stopped(&checker.work) {
        return;
    }
    let made = end_loop(checker.alloc, &mut checker.work, leaves, at);
    note_made(&checker.types, &mut checker.work, made);
}
