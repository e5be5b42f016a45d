//! Where matches end.
#![tactic(auto, using(check_work::proofs::Noting::meeting, typed_tree::proofs::StmtLayers::stmt_layers))]

ghost use Rattle.std.specs.Prelude.{◌≡◌, ◌∷◌, [], IfOk, List, MatchOption, OnOk, Ok as Given, false, length, true};
ghost use Rattle.checks.specs.Checks.{Comes};
ghost use Rattle.flow_narrowing.specs.declared.flow.Flow.{Flow as FlowOf};
ghost use Rattle.needs.specs.Needs.{Runs};
ghost use Rattle.type_model.specs.declared.atoms.AtomDef.{AtomDef as Atom};
ghost use Rattle.type_model.specs.Defined.{TyBelow};
ghost use Rattle.typed_tree.specs.Listed.{one};
ghost use Rattle.expr_needs.specs.Needs.{MakesMatch};
ghost use Rattle.check_words.specs.Branches.{closes_match as closes_match_of, makes_match as makes_match_of, matched_as, some_is_left};
ghost use Rattle.check_words.specs.Meets.{meets};
ghost use Rattle.check_words.specs.Sharing.{SameFlow};
ghost use Rattle.check_words.specs.Stands.{FlowBelow, MatchBelow, Stands};
ghost use Rattle.check_words.specs.State.{stopped};
ghost use Rattle.check_words.specs.StmtViews.{IsMatch};
ghost use Rattle.check_words.specs.Words.{sets_flow};
ghost use Rattle.check_kinds.specs.Over.{ComesOver};
ghost use Rattle.check_work.specs.Views.{Holds, going, match_of, state_of};
ghost use Rattle.needs_of_matches.specs.Ends.{JoinsAll, adds_match, ends_match, knows_behind};

use crate::clauses::enter_as;
use bal_base::{Fault, Memory, Place, Stop};
use check_work::{
    Checker, Here, Match, Work, add_stmt, copy_flow, has_stopped, keep, last_taken, note, shared,
    taken,
};
use checks::has_some;
use descriptors::lift;
use flow_joins::{join, join_all};
use flow_narrowing::{Flow, VariableList};
use needs_of_loops::take_boxed;
use std::alloc::Global;
use type_model::Types;
use typed_tree::{SharedTy, TypedClause, TypedExpr, TypedStmt};

/// The match at hand is closed. Where none is open it is as if memory were wanted.
fn close_match(work: &mut Work<'_>) -> Result<Match, Memory>
    ensures stands { (env : List Atom) → Stands (state_of env work.old) → OnOk result (Stands (state_of env work.new)) }
    ensures below { (env : List Atom) → Stands (state_of env work.old) → IfOk result (λ m. MatchBelow (length env) (match_of m)) }
    ensures comes { (env : List Atom) → IfOk result (λ m. Comes closes_match_of (state_of env work.old) (Given (match_of m)) (state_of env work.new)) }
{
    let held = last_taken(&mut work.matches)?;
    Ok(held)
}

/// Whether some value is taken by no clause.
fn some_left<T: Types>(
    alloc: Global,
    types: &mut T,
    any: bool,
    t: &SharedTy,
    at: Place,
) -> Result<bool, Stop<Fault>>
    requires { TyBelow (length (T.atoms types.old)) t.now.value }
    ensures atoms { T.atoms types.new ≡ T.atoms types.old }
    ensures comes { ComesOver (some_is_left T.passes any t.now at) (T.atoms types.old) result (T.atoms types.new) }
{
    match any {
        true => Ok(false),
        false => has_some(alloc, types, &t.sem, Some(at)),
    }
}

/// What was known before a match, where its variable has the type that is left.
fn left_flow(alloc: Global, held: &Match) -> Result<Flow, Memory>
    ensures { IfOk result (SameFlow (matched_as held.now.on held.now.left held.now.before)) }
{
    let mut here = Here {
        variables: Vec::new(alloc),
        reached: false,
    };
    enter_as(alloc, &mut here, &held.before, &held.on, &held.left)?;
    Ok(Flow {
        variables: VariableList::of(here.variables),
        reached: here.reached,
    })
}

/// The same flow once more, but that no way goes on.
fn stopped_flow(alloc: Global, flow: &Flow) -> Result<Flow, Memory>
    ensures { IfOk result (SameFlow (stopped flow.now)) }
{
    let copy = copy_flow(alloc, flow)?;
    Ok(Flow {
        variables: copy.variables,
        reached: false,
    })
}

/// The first one and the others.
fn parted(flows: &[Flow]) -> Option<(&Flow, &[Flow])>
    ensures { MatchOption result (flows.now ≡ []) (λ p. flows.now ≡ p.0.now ∷ p.1.now) }
{
    match flows {
        [first, others @ ..] => Some((first, others)),
        [] => None,
    }
}

/// Where the clauses meet; without clauses no way goes on.
fn clauses_met<T: Types>(alloc: Global, types: &mut T, held: &Match) -> Result<Flow, Memory>
    requires { MatchBelow (length (T.atoms types.old)) (match_of held.now) }
    ensures atoms { T.atoms types.new ≡ T.atoms types.old }
    ensures below { IfOk result (FlowBelow (length (T.atoms types.old))) }
    ensures is { IfOk result (JoinsAll (T.atoms types.old) (match_of held.now) false) }
{
    match parted(held.ends.as_slice()) {
        Some((first, others)) => join_all(alloc, types, first, others),
        None => stopped_flow(alloc, &held.before),
    }
}

/// Where the clauses meet the way on which none of them is taken.
fn all_met<T: Types>(alloc: Global, types: &mut T, held: &Match) -> Result<Flow, Memory>
    requires { MatchBelow (length (T.atoms types.old)) (match_of held.now) }
    ensures atoms { T.atoms types.new ≡ T.atoms types.old }
    ensures below { IfOk result (FlowBelow (length (T.atoms types.old))) }
    ensures is { IfOk result (JoinsAll (T.atoms types.old) (match_of held.now) true) }
{
    let left = left_flow(alloc, held)?;
    match parted(held.ends.as_slice()) {
        Some((first, others)) => {
            let met = join_all(alloc, types, first, others)?;
            join(alloc, types, &met, &left)
        }
        None => Ok(left),
    }
}

/// What is known behind the match.
fn met<T: Types>(alloc: Global, types: &mut T, held: &Match, left: bool) -> Result<Flow, Memory>
    requires { MatchBelow (length (T.atoms types.old)) (match_of held.now) }
    ensures atoms { T.atoms types.new ≡ T.atoms types.old }
    ensures below { IfOk result (FlowBelow (length (T.atoms types.old))) }
    ensures is { IfOk result (JoinsAll (T.atoms types.old) (match_of held.now) left) }
{
    match left {
        true => all_met(alloc, types, held),
        false => clauses_met(alloc, types, held),
    }
}

/// This is known from now on.
fn enter_flow(alloc: Global, work: &mut Work<'_>, flow: &Flow) -> Result<(), Memory>
    ensures stands { (env : List Atom) → FlowBelow (length env) flow.now → Stands (state_of env work.old) → OnOk result (Stands (state_of env work.new)) }
    ensures comes { (env : List Atom) (f : FlowOf) → SameFlow f flow.now → OnOk result (Comes (sets_flow f) (state_of env work.old) (Given tt) (state_of env work.new)) }
{
    let mut unit = taken(&mut work.unit)?;
    let _was = unit.here.enter(alloc, flow)?;
    work.ways = None;
    work.unit = Some(unit);
    Ok(())
}

/// The match.
fn match_stmt(own: u32, subject: Box<TypedExpr>, clauses: Vec<TypedClause>, at: Place) -> TypedStmt
    ensures { IsMatch own subject.value clauses.items at result }
{
    TypedStmt::Match {
        own,
        subject,
        clauses,
        at,
    }
}

/// The last part becomes the value of a match with these clauses.
fn add_match(
    alloc: Global,
    work: &mut Work<'_>,
    clauses: Vec<TypedClause>,
    at: Place,
) -> Result<(), Memory>
    ensures stands { (env : List Atom) → Stands (state_of env work.old) → OnOk result (Stands (state_of env work.new)) }
    ensures comes { (env : List Atom) → OnOk result (Comes (adds_match clauses.items at) (state_of env work.old) (Given tt) (state_of env work.new)) }
{
    let subject = take_boxed(alloc, work)?;
    let kept = shared(subject.ty())?;
    let own = keep(work, kept)?;
    add_stmt(&mut work.blocks, match_stmt(own, subject, clauses, at))?;
    Ok(())
}

/// What is known behind the match is known from now on.
fn know_behind<T: Types>(
    alloc: Global,
    types: &mut T,
    work: &mut Work<'_>,
    held: &Match,
    left: bool,
) -> Result<(), Memory>
    requires below { MatchBelow (length (T.atoms types.old)) (match_of held.now) }
    requires stands { Stands (state_of (T.atoms types.old) work.old) }
    ensures atoms { T.atoms types.new ≡ T.atoms types.old }
    ensures stands { OnOk result (Stands (state_of (T.atoms types.old) work.new)) }
    ensures comes { OnOk result (Comes (knows_behind (match_of held.now) left) (state_of (T.atoms types.old) work.old) (Given tt) (state_of (T.atoms types.old) work.new)) }
{
    let flow = met(alloc, types, held, left)?;
    enter_flow(alloc, work, &flow)?;
    Ok(())
}

/// The match ends, and whether some value is taken by no clause.
fn end_match<T: Types>(
    alloc: Global,
    types: &mut T,
    work: &mut Work<'_>,
    held: Match,
    left: bool,
    at: Place,
) -> Result<(), Memory>
    requires below { MatchBelow (length (T.atoms types.old)) (match_of held) }
    requires stands { Stands (state_of (T.atoms types.old) work.old) }
    ensures atoms { T.atoms types.new ≡ T.atoms types.old }
    ensures stands { OnOk result (Stands (state_of (T.atoms types.old) work.new)) }
    ensures comes { OnOk result (Comes (ends_match (match_of held) left at) (state_of (T.atoms types.old) work.old) (Given tt) (state_of (T.atoms types.old) work.new)) }
{
    know_behind(alloc, types, work, &held, left)?;
    add_match(alloc, work, held.clauses, at)?;
    Ok(())
}

/// The match ends, and whether a clause takes all that is left.
fn make_match<T: Types>(
    alloc: Global,
    types: &mut T,
    work: &mut Work<'_>,
    any: bool,
    at: Place,
) -> Result<(), Stop<Fault>>
    requires { Stands (state_of (T.atoms types.old) work.old) }
    ensures atoms { T.atoms types.new ≡ T.atoms types.old }
    ensures stands { OnOk result (Stands (state_of (T.atoms types.old) work.new)) }
    ensures comes { Comes (makes_match_of T.passes any at) (state_of (T.atoms types.old) work.old) result (state_of (T.atoms types.new) work.new) }
{
    match close_match(work) {
        Ok(held) => match some_left(alloc, types, any, &held.left, held.at) {
            Ok(left) => lift(end_match(alloc, types, work, held, left, at)),
            Err(stop) => Err(stop),
        },
        Err(Memory) => Err(Stop::Memory),
    }
}

/// `match e { .. }`: the last part is the value of a match, which is kept in a slot, with the clauses that are done ("Match statement").
/// Behind it is known what is known where its clauses meet, and where no clause has `_` and some value is left, also where none is
/// taken. It costs a join for each clause, and a question of the decider; `TypeLimit` at the place of the value where that is too large.
pub fn makes_match<T: Types>(checker: &mut Checker<'_, T>, any: bool, at: Place)
    requires { Holds (T.atoms checker.old.types) checker.old.names.now checker.old.work }
    ensures holds { Holds (T.atoms checker.new.types) checker.new.names.now checker.new.work }
    ensures names { checker.new.names.now ≡ checker.old.names.now }
    ensures met { Runs (meets T.passes checker.old.names.now) (one (MakesMatch any at)) (going (T.atoms checker.old.types) checker.old.work) (going (T.atoms checker.new.types) checker.new.work) }
{
    if has_stopped(&checker.work) {
        return;
    }
    let answer = make_match(
        checker.alloc,
        &mut checker.types,
        &mut checker.work,
        any,
        at,
    );
    note(&checker.types, &mut checker.work, answer);
}
