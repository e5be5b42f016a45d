//! Loops over lists and over ranges, put together.
#![tactic(auto, using(check_work::proofs::Noting::meeting, typed_tree::proofs::StmtLayers::stmt_layers))]

ghost use Rattle.std.specs.Prelude.{◌≡◌, ◌++◌, ◌∷◌, [], IfOk, List, OnOk, Ok as Given, length};
ghost use Rattle.checks.specs.Checks.{Comes};
ghost use Rattle.descriptors.specs.Steps.{AreOwnTypes};
ghost use Rattle.flow_narrowing.specs.declared.flow.Variable.{Variable as VariableOf};
ghost use Rattle.needs.specs.Needs.{Runs};
ghost use Rattle.type_model.specs.declared.atoms.AtomDef.{AtomDef as Atom};
ghost use Rattle.typed_tree.specs.Listed.{one};
ghost use Rattle.expr_needs.specs.Needs.{MakesForeach, MakesRange};
ghost use Rattle.check_words.specs.Branches.{item_variable, kind_slot, makes_foreach as makes_foreach_of, makes_range as makes_range_of, range_end as range_end_of};
ghost use Rattle.check_words.specs.Meets.{meets};
ghost use Rattle.check_words.specs.Stands.{PartBelow, Stands};
ghost use Rattle.check_words.specs.Statements.{takes_part};
ghost use Rattle.check_words.specs.StmtViews.{IsForeach, IsListSource, IsRangeSource};
ghost use Rattle.check_work.specs.Views.{Holds, going, state_of};
ghost use Rattle.needs_of_loops.specs.Loops.{adds_foreach, adds_range};

use bal_base::{Memory, Place};
use bal_tree::RangeOp;
use check_kinds::kind_shared;
use check_work::{
    Checker, Work, add_stmt, at_hand, close_block, forget_choice, has_stopped, keep, last,
    last_taken, note_made, shared, take_part,
};
use descriptors::OwnTypes;
use expr_needs::Kind;
use std::alloc::Global;
use type_model::Types;
use typed_tree::{RangeEnd, Source, TypedExpr, TypedStmt};

/// The slot of the variable of the loop, which is the last one behind its body.
fn item_slot(work: &Work<'_>) -> Result<u32, Memory>
    ensures { (env : List Atom) → IfOk result (λ slot. (v : VariableOf) × (v.slot ≡ slot) × Comes item_variable (state_of env work.now) (Given v) (state_of env work.now)) }
{
    let unit = at_hand(&work.unit)?;
    match last(unit.here.variables.as_slice()) {
        Some(v) => Ok(v.slot),
        None => Err(Memory),
    }
}

/// A slot more of the kind.
fn keep_kind(alloc: Global, own: &OwnTypes, work: &mut Work<'_>, kind: Kind) -> Result<u32, Memory>
    ensures stands { (env : List Atom) → AreOwnTypes env own.now → Stands (state_of env work.old) → OnOk result (Stands (state_of env work.new)) }
    ensures comes { (env : List Atom) → AreOwnTypes env own.now → IfOk result (λ slot. Comes (kind_slot kind) (state_of env work.old) (Given slot) (state_of env work.new)) }
{
    let ty = kind_shared(alloc, own, kind)?;
    let slot = keep(work, ty)?;
    Ok(slot)
}

/// The items of a list.
fn list_source(own: u32, list: Box<TypedExpr>) -> Source
    ensures { IsListSource own list.value result }
{
    Source::List { own, list }
}

/// The ints of a range.
fn range_source(own: u32, end: RangeEnd, from: Box<TypedExpr>, to: Box<TypedExpr>) -> Source
    ensures { IsRangeSource own end from.value to.value result }
{
    Source::Range { own, end, from, to }
}

/// The last part is taken, in a box.
fn popped(alloc: Global, found: &mut Vec<TypedExpr>) -> Result<Box<TypedExpr>, Memory>
    ensures { IfOk result (λ b. found.old.items ≡ found.new.items ++ b.value ∷ []) }
{
    let part = last_taken(found)?;
    let boxed = Box::new(alloc, part)?;
    Ok(boxed)
}

/// The loop.
fn foreach_stmt(slot: u32, source: Source, body: Vec<TypedStmt>, at: Place) -> TypedStmt
    ensures { IsForeach slot source body.items at result }
{
    TypedStmt::Foreach {
        slot,
        source,
        body,
        at,
    }
}

/// The last part is taken, in a box. Where there is none it is as if memory were wanted.
pub fn take_boxed(alloc: Global, work: &mut Work<'_>) -> Result<Box<TypedExpr>, Memory>
    ensures stands { (env : List Atom) → Stands (state_of env work.old) → OnOk result (Stands (state_of env work.new)) }
    ensures below { (env : List Atom) → Stands (state_of env work.old) → IfOk result (λ b. PartBelow (length env) b.value) }
    ensures comes { (env : List Atom) → IfOk result (λ b. Comes takes_part (state_of env work.old) (Given b.value) (state_of env work.new)) }
{
    let part = take_part(work)?;
    let boxed = Box::new(alloc, part)?;
    Ok(boxed)
}

/// The last block becomes the body of a loop over the last part, whose variable has this slot.
fn add_foreach(
    alloc: Global,
    own: &OwnTypes,
    work: &mut Work<'_>,
    slot: u32,
    at: Place,
) -> Result<(), Memory>
    ensures stands { (env : List Atom) → AreOwnTypes env own.now → Stands (state_of env work.old) → OnOk result (Stands (state_of env work.new)) }
    ensures comes { (env : List Atom) → AreOwnTypes env own.now → OnOk result (Comes (adds_foreach slot at) (state_of env work.old) (Given tt) (state_of env work.new)) }
{
    let body = close_block(work)?;
    let list = take_boxed(alloc, work)?;
    let kept = shared(list.ty())?;
    let first = keep(work, kept)?;
    let _index = keep_kind(alloc, own, work, Kind::Integer)?;
    let source = list_source(first, list);
    add_stmt(&mut work.blocks, foreach_stmt(slot, source, body.stmts, at))?;
    Ok(())
}

/// The loop ends.
fn make_foreach(alloc: Global, own: &OwnTypes, work: &mut Work<'_>, at: Place) -> Result<(), Memory>
    ensures stands { (env : List Atom) → AreOwnTypes env own.now → Stands (state_of env work.old) → OnOk result (Stands (state_of env work.new)) }
    ensures comes { (env : List Atom) → AreOwnTypes env own.now → OnOk result (Comes (makes_foreach_of at) (state_of env work.old) (Given tt) (state_of env work.new)) }
{
    let slot = item_slot(work)?;
    forget_choice(alloc, work)?;
    add_foreach(alloc, own, work, slot, at)?;
    Ok(())
}

/// `foreach T a in e { .. }`: the last block is the body of a loop over the last part, which is kept with an index in two slots
/// ("Foreach statement"). What was known before the loop is known behind it. It costs by the variables that are seen.
pub fn makes_foreach<T: Types>(checker: &mut Checker<'_, T>, at: Place)
    requires { Holds (T.atoms checker.old.types) checker.old.names.now checker.old.work }
    ensures holds { Holds (T.atoms checker.new.types) checker.new.names.now checker.new.work }
    ensures names { checker.new.names.now ≡ checker.old.names.now }
    ensures met { Runs (meets T.passes checker.old.names.now) (one (MakesForeach at)) (going (T.atoms checker.old.types) checker.old.work) (going (T.atoms checker.new.types) checker.new.work) }
{
    if has_stopped(&checker.work) {
        return;
    }
    let made = make_foreach(checker.alloc, &checker.names.own, &mut checker.work, at);
    note_made(&checker.types, &mut checker.work, made);
}

/// Whether the range has its end.
fn range_end(op: RangeOp) -> RangeEnd
    ensures { result ≡ range_end_of op }
{
    match op {
        RangeOp::Through => RangeEnd::Included,
        RangeOp::Below => RangeEnd::Excluded,
    }
}

/// The last block becomes the body of a loop over the ints between the last two parts, whose variable has this slot.
fn add_range(
    alloc: Global,
    own: &OwnTypes,
    work: &mut Work<'_>,
    op: RangeOp,
    slot: u32,
    at: Place,
) -> Result<(), Memory>
    ensures stands { (env : List Atom) → AreOwnTypes env own.now → Stands (state_of env work.old) → OnOk result (Stands (state_of env work.new)) }
    ensures comes { (env : List Atom) → AreOwnTypes env own.now → OnOk result (Comes (adds_range op slot at) (state_of env work.old) (Given tt) (state_of env work.new)) }
{
    let body = close_block(work)?;
    let to = popped(alloc, &mut work.found)?;
    let from = popped(alloc, &mut work.found)?;
    work.ways = None;
    let first = keep_kind(alloc, own, work, Kind::Integer)?;
    let _last = keep_kind(alloc, own, work, Kind::Integer)?;
    let _left = keep_kind(alloc, own, work, Kind::Truth)?;
    let source = range_source(first, range_end(op), from, to);
    add_stmt(&mut work.blocks, foreach_stmt(slot, source, body.stmts, at))?;
    Ok(())
}

/// The loop ends.
fn make_range(
    alloc: Global,
    own: &OwnTypes,
    work: &mut Work<'_>,
    op: RangeOp,
    at: Place,
) -> Result<(), Memory>
    ensures stands { (env : List Atom) → AreOwnTypes env own.now → Stands (state_of env work.old) → OnOk result (Stands (state_of env work.new)) }
    ensures comes { (env : List Atom) → AreOwnTypes env own.now → OnOk result (Comes (makes_range_of op at) (state_of env work.old) (Given tt) (state_of env work.new)) }
{
    let slot = item_slot(work)?;
    forget_choice(alloc, work)?;
    add_range(alloc, own, work, op, slot, at)?;
    Ok(())
}

/// `foreach T a in b ... c { .. }`: the last block is the body of a loop over the ints between the last two parts; the next one, the
/// last one and whether one is left are kept in three slots ("Foreach statement"). It costs by the variables that are seen.
pub fn makes_range<T: Types>(checker: &mut Checker<'_, T>, op: RangeOp, at: Place)
    requires { Holds (T.atoms checker.old.types) checker.old.names.now checker.old.work }
    ensures holds { Holds (T.atoms checker.new.types) checker.new.names.now checker.new.work }
    ensures names { checker.new.names.now ≡ checker.old.names.now }
    ensures met { Runs (meets T.passes checker.old.names.now) (one (MakesRange op at)) (going (T.atoms checker.old.types) checker.old.work) (going (T.atoms checker.new.types) checker.new.work) }
{
    if has_stopped(&checker.work) {
        return;
    }
    let made = make_range(checker.alloc, &checker.names.own, &mut checker.work, op, at);
    note_made(&checker.types, &mut checker.work, made);
}
