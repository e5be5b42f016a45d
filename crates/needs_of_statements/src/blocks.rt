//! Blocks, and the ends of ways.
#![tactic(auto, using(check_work::proofs::Noting::meeting, typed_tree::proofs::StmtLayers::stmt_layers))]

ghost use Rattle.std.specs.Prelude.{◌≡◌, List, OnOk, Ok as Given};
ghost use Rattle.checks.specs.Checks.{Comes};
ghost use Rattle.needs.specs.Needs.{Runs};
ghost use Rattle.type_model.specs.declared.atoms.AtomDef.{AtomDef as Atom};
ghost use Rattle.typed_tree.specs.Listed.{one};
ghost use Rattle.expr_needs.specs.Needs.{BeginsBlock, Breaks, Continues, EndsBlock, MakesBlock, OpensLoop, Stops};
ghost use Rattle.check_words.specs.Branches.{opens_loop as opens_loop_of};
ghost use Rattle.check_words.specs.Meets.{meets};
ghost use Rattle.check_words.specs.Stands.{Stands};
ghost use Rattle.check_words.specs.Statements.{begins_block as begins_block_of, breaks as breaks_of, continues as continues_of, ends_block as ends_block_of, makes_block as makes_block_of, stops as stops_of};
ghost use Rattle.check_words.specs.StmtViews.{IsBreak, IsContinue};
ghost use Rattle.check_work.specs.Views.{Holds, going, state_of};

use crate::stmts::block_stmt;
use bal_base::{Memory, Place};
use check_work::{
    Block, Checker, Choice, Work, add_stmt, at_hand, close_block, has_stopped, note_made, scope_at,
    taken,
};
use std::alloc::Global;
use type_model::Types;
use typed_tree::TypedStmt;

/// No way goes on from here.
pub(crate) fn stop(work: &mut Work<'_>) -> Result<(), Memory>
    ensures stands { (env : List Atom) → Stands (state_of env work.old) → OnOk result (Stands (state_of env work.new)) }
    ensures comes { (env : List Atom) → OnOk result (Comes stops_of (state_of env work.old) (Given tt) (state_of env work.new)) }
{
    let mut unit = taken(&mut work.unit)?;
    unit.here.stop();
    work.ways = None;
    work.unit = Some(unit);
    Ok(())
}

/// No way goes on from here.
pub fn stops<T: Types>(checker: &mut Checker<'_, T>)
    requires { Holds (T.atoms checker.old.types) checker.old.names.now checker.old.work }
    ensures holds { Holds (T.atoms checker.new.types) checker.new.names.now checker.new.work }
    ensures names { checker.new.names.now ≡ checker.old.names.now }
    ensures met { Runs (meets T.passes checker.old.names.now) (one Stops) (going (T.atoms checker.old.types) checker.old.work) (going (T.atoms checker.new.types) checker.new.work) }
{
    if has_stopped(&checker.work) {
        return;
    }
    let made = stop(&mut checker.work);
    note_made(&checker.types, &mut checker.work, made);
}

/// A block begins.
fn begin_block(alloc: Global, work: &mut Work<'_>) -> Result<(), Memory>
    ensures stands { (env : List Atom) → Stands (state_of env work.old) → OnOk result (Stands (state_of env work.new)) }
    ensures comes { (env : List Atom) → OnOk result (Comes begins_block_of (state_of env work.old) (Given tt) (state_of env work.new)) }
{
    let scope = at_hand(&work.unit)?.here.variables.len();
    work.blocks.push(Block {
        stmts: Vec::new(alloc),
        scope,
    })?;
    Ok(())
}

/// A block begins: what is declared in it is seen to its end.
pub fn begins_block<T: Types>(checker: &mut Checker<'_, T>)
    requires { Holds (T.atoms checker.old.types) checker.old.names.now checker.old.work }
    ensures holds { Holds (T.atoms checker.new.types) checker.new.names.now checker.new.work }
    ensures names { checker.new.names.now ≡ checker.old.names.now }
    ensures met { Runs (meets T.passes checker.old.names.now) (one BeginsBlock) (going (T.atoms checker.old.types) checker.old.work) (going (T.atoms checker.new.types) checker.new.work) }
{
    if has_stopped(&checker.work) {
        return;
    }
    let made = begin_block(checker.alloc, &mut checker.work);
    note_made(&checker.types, &mut checker.work, made);
}

/// A block ends.
fn end_block(work: &mut Work<'_>) -> Result<(), Memory>
    ensures stands { (env : List Atom) → Stands (state_of env work.old) → OnOk result (Stands (state_of env work.new)) }
    ensures comes { (env : List Atom) → OnOk result (Comes ends_block_of (state_of env work.old) (Given tt) (state_of env work.new)) }
{
    let mut unit = taken(&mut work.unit)?;
    unit.here.end_block(scope_at(work.blocks.as_slice())?);
    work.ways = None;
    work.unit = Some(unit);
    Ok(())
}

/// A block ends: its variables are seen no more, and it waits for its construct.
pub fn ends_block<T: Types>(checker: &mut Checker<'_, T>)
    requires { Holds (T.atoms checker.old.types) checker.old.names.now checker.old.work }
    ensures holds { Holds (T.atoms checker.new.types) checker.new.names.now checker.new.work }
    ensures names { checker.new.names.now ≡ checker.old.names.now }
    ensures met { Runs (meets T.passes checker.old.names.now) (one EndsBlock) (going (T.atoms checker.old.types) checker.old.work) (going (T.atoms checker.new.types) checker.new.work) }
{
    if has_stopped(&checker.work) {
        return;
    }
    let made = end_block(&mut checker.work);
    note_made(&checker.types, &mut checker.work, made);
}

/// The last block is a statement.
fn make_block(work: &mut Work<'_>, at: Place) -> Result<(), Memory>
    ensures stands { (env : List Atom) → Stands (state_of env work.old) → OnOk result (Stands (state_of env work.new)) }
    ensures comes { (env : List Atom) → OnOk result (Comes (makes_block_of at) (state_of env work.old) (Given tt) (state_of env work.new)) }
{
    let inner = close_block(work)?;
    add_stmt(&mut work.blocks, block_stmt(inner.stmts, at))?;
    Ok(())
}

/// The last block is a statement of the one around it (Ballerina specification, "Block statement").
pub fn makes_block<T: Types>(checker: &mut Checker<'_, T>, at: Place)
    requires { Holds (T.atoms checker.old.types) checker.old.names.now checker.old.work }
    ensures holds { Holds (T.atoms checker.new.types) checker.new.names.now checker.new.work }
    ensures names { checker.new.names.now ≡ checker.old.names.now }
    ensures met { Runs (meets T.passes checker.old.names.now) (one (MakesBlock at)) (going (T.atoms checker.old.types) checker.old.work) (going (T.atoms checker.new.types) checker.new.work) }
{
    if has_stopped(&checker.work) {
        return;
    }
    let made = make_block(&mut checker.work, at);
    note_made(&checker.types, &mut checker.work, made);
}

/// The flow at the head of a loop is kept.
fn open_loop(alloc: Global, work: &mut Work<'_>) -> Result<(), Memory>
    ensures stands { (env : List Atom) → Stands (state_of env work.old) → OnOk result (Stands (state_of env work.new)) }
    ensures comes { (env : List Atom) → OnOk result (Comes opens_loop_of (state_of env work.old) (Given tt) (state_of env work.new)) }
{
    let unit = at_hand(&work.unit)?;
    let before = unit.here.flow(alloc)?;
    let other = unit.here.flow(alloc)?;
    let first = unit.here.flow(alloc)?;
    work.choices.push(Choice {
        before,
        other,
        first,
    })?;
    Ok(())
}

/// The flow at the head of a loop is remembered. It costs by the variables that are seen.
pub fn opens_loop<T: Types>(checker: &mut Checker<'_, T>)
    requires { Holds (T.atoms checker.old.types) checker.old.names.now checker.old.work }
    ensures holds { Holds (T.atoms checker.new.types) checker.new.names.now checker.new.work }
    ensures names { checker.new.names.now ≡ checker.old.names.now }
    ensures met { Runs (meets T.passes checker.old.names.now) (one OpensLoop) (going (T.atoms checker.old.types) checker.old.work) (going (T.atoms checker.new.types) checker.new.work) }
{
    if has_stopped(&checker.work) {
        return;
    }
    let made = open_loop(checker.alloc, &mut checker.work);
    note_made(&checker.types, &mut checker.work, made);
}

/// The statement.
fn break_stmt(at: Place) -> TypedStmt
    ensures { IsBreak at result }
{
    TypedStmt::Break { at }
}

/// The way ends by `break`.
fn break_here(work: &mut Work<'_>, at: Place) -> Result<(), Memory>
    ensures stands { (env : List Atom) → Stands (state_of env work.old) → OnOk result (Stands (state_of env work.new)) }
    ensures comes { (env : List Atom) → OnOk result (Comes (breaks_of at) (state_of env work.old) (Given tt) (state_of env work.new)) }
{
    let mut unit = taken(&mut work.unit)?;
    add_stmt(&mut work.blocks, break_stmt(at))?;
    unit.here.stop();
    work.ways = None;
    work.unit = Some(unit);
    Ok(())
}

/// `break;`
pub fn breaks<T: Types>(checker: &mut Checker<'_, T>, at: Place)
    requires { Holds (T.atoms checker.old.types) checker.old.names.now checker.old.work }
    ensures holds { Holds (T.atoms checker.new.types) checker.new.names.now checker.new.work }
    ensures names { checker.new.names.now ≡ checker.old.names.now }
    ensures met { Runs (meets T.passes checker.old.names.now) (one (Breaks at)) (going (T.atoms checker.old.types) checker.old.work) (going (T.atoms checker.new.types) checker.new.work) }
{
    if has_stopped(&checker.work) {
        return;
    }
    let made = break_here(&mut checker.work, at);
    note_made(&checker.types, &mut checker.work, made);
}

/// The statement.
fn continue_stmt(at: Place) -> TypedStmt
    ensures { IsContinue at result }
{
    TypedStmt::Continue { at }
}

/// The way ends by `continue`.
fn continue_here(work: &mut Work<'_>, at: Place) -> Result<(), Memory>
    ensures stands { (env : List Atom) → Stands (state_of env work.old) → OnOk result (Stands (state_of env work.new)) }
    ensures comes { (env : List Atom) → OnOk result (Comes (continues_of at) (state_of env work.old) (Given tt) (state_of env work.new)) }
{
    let mut unit = taken(&mut work.unit)?;
    add_stmt(&mut work.blocks, continue_stmt(at))?;
    unit.here.stop();
    work.ways = None;
    work.unit = Some(unit);
    Ok(())
}

/// `continue;`
pub fn continues<T: Types>(checker: &mut Checker<'_, T>, at: Place)
    requires { Holds (T.atoms checker.old.types) checker.old.names.now checker.old.work }
    ensures holds { Holds (T.atoms checker.new.types) checker.new.names.now checker.new.work }
    ensures names { checker.new.names.now ≡ checker.old.names.now }
    ensures met { Runs (meets T.passes checker.old.names.now) (one (Continues at)) (going (T.atoms checker.old.types) checker.old.work) (going (T.atoms checker.new.types) checker.new.work) }
{
    if has_stopped(&checker.work) {
        return;
    }
    let made = continue_here(&mut checker.work, at);
    note_made(&checker.types, &mut checker.work, made);
}
