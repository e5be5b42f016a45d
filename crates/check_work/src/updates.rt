//! Assignments with an operator: what is wanted for them, and their operator.
#![tactic(auto, using(crate::proofs::Noting::meeting))]

ghost use Rattle.std.specs.Prelude.{◌≡◌, IfOk, IfSome, List, Ok as Given, OnOk, Some, length};
ghost use Rattle.checks.specs.Checks.{Comes, gives, ◌▷◌};
ghost use Rattle.checks.specs.Questions.{below};
ghost use Rattle.type_model.specs.Defined.{IsDefined, TyBelow};
ghost use Rattle.type_model.specs.declared.atoms.AtomDef.{AtomDef as Atom};
ghost use Rattle.typed_tree.specs.SharedTypes.{sem_of};
ghost use Rattle.check_words.specs.Stands.{Stands};
ghost use Rattle.check_words.specs.State.{State};
ghost use Rattle.check_words.specs.Statements.{result_fits as result_fits_of, takes_operator, update_operator};
ghost use Rattle.check_words.specs.Values.{operator_of};
ghost use Rattle.check_words.specs.Words.{asking};
ghost use Rattle.check_work.specs.Updates.{AreTaken, IsTaken};
ghost use Rattle.check_work.specs.Views.{state_of};

use crate::parts::{last_taken, taken};
use crate::work::Work;
use bal_base::{Fault, Memory, Place, Stop};
use bal_tree::AssignOp;
use checks::require_below;
use std::alloc::Global;
use type_model::{SemType, Types};
use typed_tree::{Operator, SharedTy};

/// What `+` is on ints, and on strings.
fn sum_operator(ints: bool) -> Operator
    ensures { result ≡ operator_of ints }
{
    match ints {
        true => Operator::Add,
        false => Operator::Concat,
    }
}

/// The operator, on ints or on strings, of an assignment that has one.
fn operator(op: AssignOp, ints: bool) -> Option<Operator>
    ensures { IfSome result (update_operator op ints) }
{
    match op {
        AssignOp::Set => None,
        AssignOp::Add => Some(sum_operator(ints)),
        AssignOp::Subtract => Some(Operator::Subtract),
        AssignOp::Multiply => Some(Operator::Multiply),
        AssignOp::Divide => Some(Operator::Divide),
    }
}

/// The operator of an assignment, whose sort of operands is taken. Where none waits, or the assignment has none, it is as if memory
/// were wanted.
pub fn take_operator(work: &mut Work<'_>, op: AssignOp) -> Result<Operator, Memory>
    ensures stands { (env : List Atom) → Stands (state_of env work.old) → OnOk result (Stands (state_of env work.new)) }
    ensures comes { (env : List Atom) → IfOk result (λ o. Comes (takes_operator op) (state_of env work.old) (Given o) (state_of env work.new)) }
{
    let ints = last_taken(&mut work.sorts)?;
    match operator(op, ints) {
        Some(operator) => Ok(operator),
        None => Err(Memory),
    }
}

/// What an assignment with an operator wants: the type of what is stored, of what was read there before, and of the result.
#[derive(Drop)]
struct Wanted {
    stored: SharedTy,
    read: SharedTy,
    result: SharedTy,
}

/// What is wanted last is taken, where something is.
fn want_taken(wants: &mut Vec<Option<SharedTy>>) -> Result<SharedTy, Memory>
    ensures { IfOk result (λ t. IsTaken t wants.old.items wants.new.items) }
{
    let mut want = last_taken(wants)?;
    taken(&mut want)
}

/// What an assignment with an operator wants is taken.
fn take_wanted(wants: &mut Vec<Option<SharedTy>>) -> Result<Wanted, Memory>
    ensures { IfOk result (λ w. AreTaken w.stored w.read w.result wants.old.items wants.new.items) }
{
    let result = want_taken(wants)?;
    let read = want_taken(wants)?;
    let stored = want_taken(wants)?;
    Ok(Wanted {
        stored,
        read,
        result,
    })
}

/// The type as a set of shapes.
fn shapes_in(t: &SharedTy) -> &SemType
    ensures { result.now ≡ sem_of t.now }
{
    &t.sem
}

/// The type of what was read, where the result is below what is stored.
fn fitting<T: Types>(
    alloc: Global,
    types: &mut T,
    wanted: Wanted,
    at: Place,
) -> Result<SharedTy, Stop<Fault>>
    requires stored { TyBelow (length (T.atoms types.old)) wanted.stored.value }
    requires result { TyBelow (length (T.atoms types.old)) wanted.result.value }
    ensures atoms { T.atoms types.new ≡ T.atoms types.old }
    ensures read { IfOk result (λ t. t ≡ wanted.read) }
    ensures comes { (s : State) → s.atoms ≡ T.atoms types.old → Comes (asking (below T.passes (sem_of wanted.result) (sem_of wanted.stored) (Some at)) ▷ λ u. gives wanted.read) s result (record s { atoms = T.atoms types.new }) }
{
    match require_below(
        alloc,
        types,
        shapes_in(&wanted.result),
        shapes_in(&wanted.stored),
        Some(at),
    ) {
        Ok(()) => Ok(wanted.read),
        Err(stop) => Err(stop),
    }
}

/// The type of what was read, of an assignment with an operator: all that it wants is taken, and its result has to be below what is
/// stored. One question of the decider.
///
/// - `NotSubtype` at the place, with a shape that shows it: a result can't be stored.
/// - `TypeLimit` at the place: the question is too large.
///
/// Where less is wanted, it is as if memory were wanted.
pub fn result_fits<T: Types>(
    alloc: Global,
    types: &mut T,
    work: &mut Work<'_>,
    at: Place,
) -> Result<SharedTy, Stop<Fault>>
    requires { Stands (state_of (T.atoms types.old) work.old) }
    ensures atoms { T.atoms types.new ≡ T.atoms types.old }
    ensures stands { OnOk result (Stands (state_of (T.atoms types.old) work.new)) }
    ensures below { IfOk result (λ t. TyBelow (length (T.atoms types.old)) t.value) }
    ensures comes { Comes (result_fits_of T.passes at) (state_of (T.atoms types.old) work.old) result (state_of (T.atoms types.new) work.new) }
{
    match take_wanted(&mut work.wants) {
        Ok(wanted) => fitting(alloc, types, wanted, at),
        Err(Memory) => Err(Stop::Memory),
    }
}
