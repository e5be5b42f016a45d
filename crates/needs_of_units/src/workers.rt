//! Workers: where they begin, and where they end.
#![tactic(auto, using(check_work::proofs::Noting::meeting))]

ghost use Rattle.std.specs.Prelude.{◌≡◌, ℕ, IfOk, List, OnOk, Ok as Given, Some as There, length, pred, take};
ghost use Rattle.std.specs.List.{list_any};
ghost use Rattle.bal_base.specs.declared.fault.FaultCode.TheVariants.{Duplicate};
ghost use Rattle.bal_base.specs.declared.fault.Kept.TheVariants.{Nothing};
ghost use Rattle.bal_tree.specs.declared.stmt.Block.{out-Block};
ghost use Rattle.checks.specs.Checks.{Comes};
ghost use Rattle.checks.specs.Questions.{IsFault};
ghost use Rattle.descriptors.specs.Steps.{AreOwnTypes};
ghost use Rattle.needs.specs.Needs.{Runs};
ghost use Rattle.tree_places.specs.UsedInStmts.{used_in_block};
ghost use Rattle.type_model.specs.declared.atoms.AtomDef.{AtomDef as Atom};
ghost use Rattle.type_model.specs.Places.{is_same_text};
ghost use Rattle.typed_tree.specs.Listed.{members, one};
ghost use Rattle.typed_tree.specs.SharedTypes.{Shared};
ghost use Rattle.expr_needs.specs.Needs.{BeginsWorker, EndsWorker};
ghost use Rattle.check_words.specs.Calls.{captures as captures_of};
ghost use Rattle.check_words.specs.Meets.{meets};
ghost use Rattle.check_words.specs.Sharing.{SameShared, SameUnit};
ghost use Rattle.check_words.specs.Stands.{FlowBelow, SharedBelow, Stands, UnitBelow};
ghost use Rattle.check_words.specs.Units.{begins_worker as begins_worker_of, ends_worker as ends_worker_of, is_worker_new, typed_worker as typed_worker_of, worker_unit as worker_unit_of};
ghost use Rattle.check_work.specs.Views.{Holds, going, state_of, unit_of};
ghost use Rattle.needs_of_units.specs.Parts.{GivesShared, IsKnown, IsSameStop, adds_worker, is_taken as is_taken_of, opens_worker};

use crate::captures::{capture_all, find_captures};
use crate::endings::end_by;
use crate::units::{close_unit, empty_unit, finished, new_number, open_unit, small};
use bal_base::{Fault, FaultCode, Kept, Memory, Name, Place, Stop};
use bal_tree::{Block, Word, Worker};
use check_work::{Checker, Unit, Work, at_hand, close_block, has_stopped, note, shared};
use descriptors::{OwnTypes, lift};
use std::alloc::Global;
use tree_places::{WordList, names_in_stmts};
use type_model::Types;
use typed_tree::{SharedTy, TypedStmt, TypedWorker};

/// The number before it, or 0.
fn before(number: usize) -> usize
    ensures { result ≡ pred number }
{
    if number == 0 { 0 } else { number - 1 }
}

/// The first so many names, or all.
fn first(names: &[Name], count: usize) -> &[Name]
    ensures { result.now ≡ take count names.now }
{
    if count < names.len() {
        &names[..count]
    } else {
        names
    }
}

fn among(names: &[Name], name: &Name) -> bool
    ensures { result ≡ list_any (is_same_text name.now) names.now }
{
    names.iter().any(|n| *name == *n)
}

fn has_variable(unit: &Unit, name: &Name) -> bool
    ensures { result ≡ list_any (λ v. is_same_text v.name name.now) (unit_of unit.now).flow.variables }
{
    unit.here.variables.iter().any(|v| v.name == *name)
}

/// Whether a variable of the unit has the name, or a worker before the one with this number.
fn is_taken(unit: &Unit, workers: &[Name], name: &Name, number: usize) -> bool
    ensures { result ≡ is_taken_of (unit_of unit.now) workers.now name.now number }
{
    let seen = has_variable(unit, name);
    let earlier = among(first(workers, before(number)), name);
    seen || earlier
}

fn duplicate(at: Place) -> Fault
    ensures { IsFault Duplicate (There at) Nothing result }
{
    Fault {
        code: FaultCode::Duplicate,
        at: Some(at),
        kept: Kept::Nothing,
    }
}

/// The name of the worker is new: else `Duplicate` at it.
fn new_worker(work: &Work<'_>, w: &Worker, number: usize) -> Result<(), Stop<Fault>>
    ensures { (env : List Atom) → Comes (is_worker_new w.now number) (state_of env work.now) result (state_of env work.now) }
{
    let unit = at_hand(&work.unit)?;
    let names = work.site.workers.as_slice();
    match is_taken(unit, names, &w.name.name, number) {
        true => Err(Stop::Fault(duplicate(w.name.at))),
        false => Ok(()),
    }
}

/// The fault once more, if it shows nothing, as those of descriptors do. Any other one is as if memory were wanted.
fn same_fault(fault: &Fault) -> Stop<Fault>
    ensures { IsSameStop fault.now result }
{
    match &fault.kept {
        Kept::Nothing => Stop::Fault(Fault {
            code: fault.code,
            at: fault.at,
            kept: Kept::Nothing,
        }),
        _ => Stop::Memory,
    }
}

/// The type by another handle, or the fault.
fn known(found: &Result<SharedTy, Fault>) -> Result<SharedTy, Stop<Fault>>
    ensures { IsKnown found.now result }
{
    match found {
        Ok(t) => Ok(shared(t)?),
        Err(fault) => Err(same_fault(fault)),
    }
}

/// What the worker with this number gives, or the fault of the descriptor that says so. A number that none has is as if memory were wanted.
fn worker_result(work: &Work<'_>, number: usize) -> Result<SharedTy, Stop<Fault>>
    ensures gives { (env : List Atom) → GivesShared number (state_of env work.now) result }
    ensures below { (env : List Atom) → Stands (state_of env work.now) → IfOk result (SharedBelow (length env)) }
{
    match work.site.results.get(number) {
        Some(found) => known(found),
        None => Err(Stop::Memory),
    }
}

/// The names that the block uses.
fn names_in_block(alloc: Global, block: &Block) -> Result<WordList, Memory>
    ensures { IfOk result (λ names. names ≡ members (used_in_block block.now)) }
{
    names_in_stmts(alloc, &block.stmts)
}

/// The unit of a worker, which captures the variables around it that the words use.
fn worker_unit(
    alloc: Global,
    around: &Unit,
    number: u32,
    worker: usize,
    gives: SharedTy,
    uses: &[Word],
) -> Result<Unit, Memory>
    ensures is { (t : Shared) → SameShared t gives → IfOk result (λ u. SameUnit (worker_unit_of number worker t (unit_of around.now).flow.reached (captures_of (unit_of around.now).flow.variables uses.now)) (unit_of u)) }
    ensures below { (n : ℕ) → SharedBelow n gives → FlowBelow n (unit_of around.now).flow → IfOk result (λ u. UnitBelow n (unit_of u)) }
{
    let own = small(worker)?;
    let variables = around.here.variables.as_slice();
    let found = find_captures(alloc, variables, uses)?;
    let mut unit = empty_unit(alloc, number, own, gives, around.here.reached);
    let all = found.as_slice();
    capture_all(&mut unit, all, true)?;
    Ok(unit)
}

/// The unit of the worker is opened.
fn open_worker(
    alloc: Global,
    work: &mut Work<'_>,
    w: &Worker,
    number: usize,
    gives: SharedTy,
) -> Result<(), Memory>
    ensures stands { (env : List Atom) → SharedBelow (length env) gives → Stands (state_of env work.old) → OnOk result (Stands (state_of env work.new)) }
    ensures comes { (env : List Atom) (t : Shared) → SameShared t gives → OnOk result (Comes (opens_worker number t (members (used_in_block w.now.body))) (state_of env work.old) (Given tt) (state_of env work.new)) }
{
    let uses = names_in_block(alloc, &w.body)?;
    let own = new_number(work)?;
    let words = uses.as_slice();
    let around = at_hand(&work.unit)?;
    let unit = worker_unit(alloc, around, own, number, gives, words)?;
    open_unit(work, unit)?;
    Ok(())
}

/// A worker with this number begins.
fn begin_worker(
    alloc: Global,
    work: &mut Work<'_>,
    w: &Worker,
    number: usize,
) -> Result<(), Stop<Fault>>
    ensures stands { (env : List Atom) → Stands (state_of env work.old) → OnOk result (Stands (state_of env work.new)) }
    ensures comes { (env : List Atom) → Comes (begins_worker_of w.now number (members (used_in_block w.now.body))) (state_of env work.old) result (state_of env work.new) }
{
    new_worker(work, w, number)?;
    let gives = worker_result(work, number)?;
    lift(open_worker(alloc, work, w, number, gives))
}

/// A worker begins, by its number, the default one being 0: it captures the variables around it that it uses ("Named workers"). It costs by its body
/// and, for each name in it, by the variables that are seen.
///
/// - `Duplicate` at its name: a variable that is seen or a worker before it has it.
/// - The fault of the descriptor of its result, if that has one.
pub fn begins_worker<T: Types>(checker: &mut Checker<'_, T>, worker: &Worker, number: usize)
    requires { Holds (T.atoms checker.old.types) checker.old.names.now checker.old.work }
    ensures holds { Holds (T.atoms checker.new.types) checker.new.names.now checker.new.work }
    ensures names { checker.new.names.now ≡ checker.old.names.now }
    ensures met { Runs (meets T.passes checker.old.names.now) (one (BeginsWorker worker.now number (members (used_in_block worker.now.body)))) (going (T.atoms checker.old.types) checker.old.work) (going (T.atoms checker.new.types) checker.new.work) }
{
    if has_stopped(&checker.work) {
        return;
    }
    let answer = begin_worker(checker.alloc, &mut checker.work, worker, number);
    note(&checker.types, &mut checker.work, answer);
}

/// The worker as typed trees have it.
fn typed_worker(w: &Worker, unit: Unit, stmts: Vec<TypedStmt>) -> TypedWorker
    ensures worker { typed_worker_of w.now (unit_of unit) (unit_of unit).flow.reached result }
    ensures stmts { result.stmts ≡ stmts }
    ensures close { result.close ≡ (out-Block w.now.body).close }
{
    let ends = unit.here.reached;
    let (made, captured) = finished(unit, 0, 0);
    TypedWorker {
        name: w.name.name.share(),
        unit: made,
        captured,
        stmts,
        ends,
        close: w.body.close,
        at: w.name.at,
    }
}

/// The worker is done with the block that is open.
fn add_worker(work: &mut Work<'_>, w: &Worker, unit: Unit) -> Result<(), Memory>
    ensures stands { (env : List Atom) → Stands (state_of env work.old) → OnOk result (Stands (state_of env work.new)) }
    ensures comes { (env : List Atom) → OnOk result (Comes (adds_worker w.now (unit_of unit) (out-Block w.now.body).close) (state_of env work.old) (Given tt) (state_of env work.new)) }
{
    let block = close_block(work)?;
    let made = typed_worker(w, unit, block.stmts);
    work.done.workers.push(made)?;
    Ok(())
}

/// The worker ends at its brace.
fn end_worker<T: Types>(
    alloc: Global,
    types: &mut T,
    own: &OwnTypes,
    work: &mut Work<'_>,
    w: &Worker,
) -> Result<(), Stop<Fault>>
    requires own { AreOwnTypes (T.atoms types.old) own.now }
    requires stands { Stands (state_of (T.atoms types.old) work.old) }
    ensures atoms { T.atoms types.new ≡ T.atoms types.old }
    ensures stands { OnOk result (Stands (state_of (T.atoms types.old) work.new)) }
    ensures comes { Comes (ends_worker_of T.passes w.now (out-Block w.now.body).close) (state_of (T.atoms types.old) work.old) result (state_of (T.atoms types.new) work.new) }
{
    let unit = close_unit(work)?;
    end_by(alloc, types, own, &unit, w.body.close)?;
    lift(add_worker(work, w, unit))
}

/// The worker ends at its brace ("Named workers"). It costs one question where its end is reached.
///
/// - `MissingReturn` at the brace: its end is reached, and nil isn't of its result.
/// - `TypeLimit` there: the question is too large.
pub fn ends_worker<T: Types>(checker: &mut Checker<'_, T>, worker: &Worker)
    requires { Holds (T.atoms checker.old.types) checker.old.names.now checker.old.work }
    ensures holds { Holds (T.atoms checker.new.types) checker.new.names.now checker.new.work }
    ensures names { checker.new.names.now ≡ checker.old.names.now }
    ensures met { Runs (meets T.passes checker.old.names.now) (one (EndsWorker worker.now (out-Block worker.now.body).close)) (going (T.atoms checker.old.types) checker.old.work) (going (T.atoms checker.new.types) checker.new.work) }
{
    if has_stopped(&checker.work) {
        return;
    }
    let answer = end_worker(
        checker.alloc,
        &mut checker.types,
        &checker.names.own,
        &mut checker.work,
        worker,
    );
    note(&checker.types, &mut checker.work, answer);
}
