//! Clauses of matches: what is known where they begin.
#![tactic(auto, using(check_work::proofs::Noting::meeting))]

ghost use Rattle.std.specs.Prelude.{◌≡◌, ◌⊎◌, ◌↔◌, ℕ, IfOk, List, OnOk, Ok as Given, false, length, map};
ghost use Rattle.bal_base.specs.declared.shape.Shape.{Shape};
ghost use Rattle.checks.specs.Checks.{Comes};
ghost use Rattle.flow_narrowing.specs.declared.flow.Flow.{Flow as FlowOf};
ghost use Rattle.needs.specs.Needs.{Runs};
ghost use Rattle.operations.specs.Rows.{shape_of};
ghost use Rattle.type_model.specs.declared.atoms.AtomDef.{AtomDef as Atom};
ghost use Rattle.type_model.specs.Defined.{NamesBelow};
ghost use Rattle.type_model.specs.Membership.{In};
ghost use Rattle.typed_tree.specs.Listed.{one};
ghost use Rattle.expr_needs.specs.Needs.{BeginsClause};
ghost use Rattle.check_words.specs.Branches.{IsOneOf, begins_clause as begins_clause_of, matched_as};
ghost use Rattle.check_words.specs.Meets.{meets};
ghost use Rattle.check_words.specs.Sharing.{SameFlow};
ghost use Rattle.check_words.specs.Stands.{MatchBelow, SharedBelow, Stands};
ghost use Rattle.check_words.specs.State.{IsLast, MatchAtWork};
ghost use Rattle.check_kinds.specs.Over.{ComesOver};
ghost use Rattle.check_work.specs.Views.{Holds, flow_of, going, match_of, state_of};
ghost use Rattle.needs_of_matches.specs.Clauses.{AreFirst, IsOf, enters_left, narrows_match, takes_clause};

use bal_base::{Fault, Memory, Name, Stop};
use check_kinds::{constant_set, narrowed};
use check_work::{Checker, Here, Match, Work, has_stopped, last, last_taken, note, shared, taken};
use descriptors::{lift, plain};
use flow_narrowing::Flow;
use operations::Constant;
use std::alloc::Global;
use std::rc::Rc;
use type_model::{BasicSet, SemType, Types};
use typed_tree::{SharedTy, TypedPattern};

/// The variable of a match, if it is on one, has this type.
fn retype_if(here: &mut Here, on: &Option<Name>, t: &SharedTy) -> Result<(), Memory>
    ensures { OnOk result ((f : FlowOf) → SameFlow f (flow_of here.old) → SameFlow (matched_as on.now t.now f) (flow_of here.new)) }
{
    match on {
        Some(name) => {
            let t = shared(t)?;
            here.retype(name, Some(t));
            Ok(())
        }
        None => Ok(()),
    }
}

/// A way is entered that begins with this flow, but that the variable of the match has this type.
pub(crate) fn enter_as(
    alloc: Global,
    here: &mut Here,
    before: &Flow,
    on: &Option<Name>,
    t: &SharedTy,
) -> Result<(), Memory>
    ensures { OnOk result (SameFlow (matched_as on.now t.now before.now) (flow_of here.new)) }
{
    let _was = here.enter(alloc, before)?;
    retype_if(here, on, t)?;
    Ok(())
}

/// The match at hand. Where none is open it is as if memory were wanted.
fn match_at_hand(matches: &[Match]) -> Result<&Match, Memory>
    ensures { IfOk result (λ m. IsLast matches.now m.now) }
{
    match last(matches) {
        Some(held) => Ok(held),
        None => Err(Memory),
    }
}

/// A clause begins that takes all that is left.
fn enter_left(alloc: Global, work: &mut Work<'_>) -> Result<(), Memory>
    ensures stands { (env : List Atom) → Stands (state_of env work.old) → OnOk result (Stands (state_of env work.new)) }
    ensures comes { (env : List Atom) → OnOk result (Comes enters_left (state_of env work.old) (Given tt) (state_of env work.new)) }
{
    let mut unit = taken(&mut work.unit)?;
    let held = match_at_hand(work.matches.as_slice())?;
    enter_as(alloc, &mut unit.here, &held.before, &held.on, &held.left)?;
    work.ways = None;
    work.unit = Some(unit);
    Ok(())
}

/// The shapes of the type, and that of the pattern's constant.
fn with_pattern(alloc: Global, sem: SemType, p: &TypedPattern) -> Result<SemType, Memory>
    ensures shapes { IfOk result (λ u. (env : List Atom) (x : Shape) → In env x u ↔ (In env x sem ⊎ IsOf p.now x)) }
    ensures defined { IfOk result (λ u. (n : ℕ) → NamesBelow n sem → NamesBelow n u) }
{
    match &p.value {
        Some(c) => with_constant(alloc, sem, c),
        None => Ok(sem),
    }
}

/// The shapes of the type, and that of the constant.
fn with_constant(alloc: Global, sem: SemType, c: &Constant) -> Result<SemType, Memory>
    ensures shapes { IfOk result (λ u. (env : List Atom) (x : Shape) → In env x u ↔ (In env x sem ⊎ (x ≡ shape_of c.now))) }
    ensures defined { IfOk result (λ u. (n : ℕ) → NamesBelow n sem → NamesBelow n u) }
{
    let sem = Box::new(alloc, sem)?;
    let set = Box::new(alloc, SemType::Basic(constant_set(c)))?;
    Ok(SemType::Or(sem, set))
}

/// The shapes of the patterns' constants.
fn shapes_of(alloc: Global, patterns: &[TypedPattern]) -> Result<SemType, Memory>
    ensures shapes { IfOk result (AreFirst patterns.now (length patterns.now)) }
    ensures defined { IfOk result (λ u. (n : ℕ) → NamesBelow n u) }
{
    let mut sem = SemType::Basic(BasicSet::Never);
    for p in patterns {
        sem = with_pattern(alloc, sem, p)?;
    }
    Ok(sem)
}

/// The type of the patterns' constants, to be shared.
fn listed(alloc: Global, patterns: &[TypedPattern]) -> Result<SharedTy, Memory>
    ensures is { IfOk result (λ t. (env : List Atom) → IsOneOf patterns.now env t.value) }
    ensures below { IfOk result (λ t. (n : ℕ) → SharedBelow n t) }
{
    let sem = shapes_of(alloc, patterns)?;
    Ok(Rc::new(alloc, plain(alloc, sem))?)
}

/// What the patterns leave of the type that is left: where one of them is met, and where none is.
fn narrow_match<T: Types>(
    alloc: Global,
    types: &mut T,
    held: &Match,
) -> Result<(SharedTy, SharedTy), Stop<Fault>>
    requires { MatchBelow (length (T.atoms types.old)) (match_of held.now) }
    ensures atoms { T.atoms types.new ≡ T.atoms types.old }
    ensures yes { IfOk result (λ both. SharedBelow (length (T.atoms types.old)) both.0) }
    ensures no { IfOk result (λ both. SharedBelow (length (T.atoms types.old)) both.1) }
    ensures comes { ComesOver (narrows_match T.passes (match_of held.now)) (T.atoms types.old) result (T.atoms types.new) }
{
    match listed(alloc, held.patterns.as_slice()) {
        Ok(t) => narrowed(alloc, types, &held.left, &t, held.at),
        Err(Memory) => Err(Stop::Memory),
    }
}

/// The values of the patterns are taken of what is left.
fn take_clause(alloc: Global, work: &mut Work<'_>, both: (SharedTy, SharedTy)) -> Result<(), Memory>
    ensures stands { (env : List Atom) → SharedBelow (length env) both.0 → SharedBelow (length env) both.1 → Stands (state_of env work.old) → OnOk result (Stands (state_of env work.new)) }
    ensures comes { (env : List Atom) (m : MatchAtWork) → IsLast (map match_of work.old.matches.items) m → OnOk result (Comes (takes_clause m both) (state_of env work.old) (Given tt) (state_of env work.new)) }
{
    let mut unit = taken(&mut work.unit)?;
    let mut held = last_taken(&mut work.matches)?;
    enter_as(alloc, &mut unit.here, &held.before, &held.on, &both.0)?;
    held.left = both.1;
    work.matches.push(held)?;
    work.ways = None;
    work.unit = Some(unit);
    Ok(())
}

/// A clause begins that takes the values of its patterns.
fn enter_listed<T: Types>(
    alloc: Global,
    types: &mut T,
    work: &mut Work<'_>,
) -> Result<(), Stop<Fault>>
    requires { Stands (state_of (T.atoms types.old) work.old) }
    ensures atoms { T.atoms types.new ≡ T.atoms types.old }
    ensures stands { OnOk result (Stands (state_of (T.atoms types.old) work.new)) }
    ensures comes { Comes (begins_clause_of T.passes false) (state_of (T.atoms types.old) work.old) result (state_of (T.atoms types.new) work.new) }
{
    match last(work.matches.as_slice()) {
        Some(held) => match narrow_match(alloc, types, held) {
            Ok(both) => lift(take_clause(alloc, work, both)),
            Err(stop) => Err(stop),
        },
        None => Err(Stop::Memory),
    }
}

/// A clause begins.
fn begin_clause<T: Types>(
    alloc: Global,
    types: &mut T,
    work: &mut Work<'_>,
    any: bool,
) -> Result<(), Stop<Fault>>
    requires { Stands (state_of (T.atoms types.old) work.old) }
    ensures atoms { T.atoms types.new ≡ T.atoms types.old }
    ensures stands { OnOk result (Stands (state_of (T.atoms types.old) work.new)) }
    ensures comes { Comes (begins_clause_of T.passes any) (state_of (T.atoms types.old) work.old) result (state_of (T.atoms types.new) work.new) }
{
    match any {
        true => lift(enter_left(alloc, work)),
        false => enter_listed(alloc, types, work),
    }
}

/// The clause with the patterns so far begins, and whether it has `_`, which takes all that is left ("Match statement"). In it the
/// variable of the match, if it is on one, has what is taken; behind it less is left. It costs by the patterns and by the variables
/// that are seen, and four questions of the decider at most; `TypeLimit` at the place of the match's value where one is too large.
pub fn begins_clause<T: Types>(checker: &mut Checker<'_, T>, any: bool)
    requires { Holds (T.atoms checker.old.types) checker.old.names.now checker.old.work }
    ensures holds { Holds (T.atoms checker.new.types) checker.new.names.now checker.new.work }
    ensures names { checker.new.names.now ≡ checker.old.names.now }
    ensures met { Runs (meets T.passes checker.old.names.now) (one (BeginsClause any)) (going (T.atoms checker.old.types) checker.old.work) (going (T.atoms checker.new.types) checker.new.work) }
{
    if has_stopped(&checker.work) {
        return;
    }
    let answer = begin_clause(checker.alloc, &mut checker.types, &mut checker.work, any);
    note(&checker.types, &mut checker.work, answer);
}
