//! Conditions that are put together of others.
#![tactic(auto, using(check_work::proofs::Noting::meeting, check_words::proofs::Same::sharing))]

ghost use Rattle.std.specs.Prelude.{◌≡◌, IfOk, List, OnOk, Ok as Given, map, option_map};
ghost use Rattle.checks.specs.Checks.{Comes};
ghost use Rattle.descriptors.specs.Steps.{AreOwnTypes};
ghost use Rattle.needs.specs.Needs.{Runs};
ghost use Rattle.type_model.specs.declared.atoms.AtomDef.{AtomDef as Atom};
ghost use Rattle.typed_tree.specs.Listed.{one};
ghost use Rattle.typed_tree.specs.Views.{IsAnd, IsOr};
ghost use Rattle.expr_needs.specs.Needs.{Conjoins, Disjoins, Turns};
ghost use Rattle.check_words.specs.Meets.{meets};
ghost use Rattle.check_words.specs.Stands.{Stands};
ghost use Rattle.check_words.specs.Values.{conjoins as conjoins_of, disjoins as disjoins_of, turns as turns_of};
ghost use Rattle.check_work.specs.Views.{Holds, choice_of, going, state_of, ways_of};
ghost use Rattle.needs_of_values.specs.Leaving.{IsLeft};
ghost use Rattle.needs_of_values.specs.Parts.{MadeOfTwo};

use crate::conditions::ways_now;
use bal_base::{Memory, Place};
use check_kinds::kind_shared;
use check_words::{and, or};
use check_work::{
    Checker, Choice, Unit, Ways, Work, at_hand, gather, has_stopped, last_taken, note_made,
    take_two, taken,
};
use descriptors::OwnTypes;
use expr_needs::Kind;
use flow_joins::join;
use flow_narrowing::Flow;
use std::alloc::Global;
use std::mem;
use type_model::Types;
use typed_tree::{Operator, SharedTy, StrictForm, TypedExpr};

/// The last part becomes the operand of `!`.
fn turn(alloc: Global, own: &OwnTypes, work: &mut Work<'_>, at: Place) -> Result<(), Memory>
    ensures stands { (env : List Atom) → AreOwnTypes env own.now → Stands (state_of env work.old) → OnOk result (Stands (state_of env work.new)) }
    ensures comes { (env : List Atom) → AreOwnTypes env own.now → OnOk result (Comes (turns_of at) (state_of env work.old) (Given tt) (state_of env work.new)) }
{
    let unit = at_hand(&work.unit)?;
    let ways = ways_now(alloc, &unit.here, mem::replace(&mut work.ways, None))?;
    let ty = kind_shared(alloc, own, Kind::Truth)?;
    let form = StrictForm::Operator(Operator::Not);
    gather(&mut work.found, form, 1, ty, at)?;
    work.ways = Some(Ways {
        yes: ways.no,
        no: ways.yes,
    });
    Ok(())
}

/// The last part is the operand of `!` (Ballerina specification, section 6.25): where it holds, the whole doesn't. It costs by the
/// variables that are seen, unless the last part is a condition.
pub fn turns<T: Types>(checker: &mut Checker<'_, T>, at: Place)
    requires { Holds (T.atoms checker.old.types) checker.old.names.now checker.old.work }
    ensures holds { Holds (T.atoms checker.new.types) checker.new.names.now checker.new.work }
    ensures names { checker.new.names.now ≡ checker.old.names.now }
    ensures met { Runs (meets T.passes checker.old.names.now) (one (Turns at)) (going (T.atoms checker.old.types) checker.old.work) (going (T.atoms checker.new.types) checker.new.work) }
{
    if has_stopped(&checker.work) {
        return;
    }
    let made = turn(checker.alloc, &checker.names.own, &mut checker.work, at);
    note_made(&checker.types, &mut checker.work, made);
}

/// The choice of a condition is closed, and what was known before it is known again. Gives what the last part says of variables, and the
/// way that wasn't entered.
fn leave(
    alloc: Global,
    unit: &mut Option<Unit>,
    choices: &mut Vec<Choice>,
    ways: Option<Ways>,
) -> Result<(Ways, Flow), Memory>
    ensures { IfOk result (λ p. IsLeft (option_map ways_of ways) unit.old unit.new (map choice_of choices.old.items) (map choice_of choices.new.items) (ways_of p.0) p.1) }
{
    let mut own = taken(unit)?;
    let ways = ways_now(alloc, &own.here, ways)?;
    let choice = last_taken(choices)?;
    let _after = own.here.enter(alloc, &choice.before)?;
    *unit = Some(own);
    Ok((ways, choice.other))
}

/// The last two parts become the operands of `&&`.
fn both(alloc: Global, found: &mut Vec<TypedExpr>, ty: SharedTy, at: Place) -> Result<(), Memory>
    ensures { OnOk result (MadeOfTwo (λ a b e. IsAnd a b ty at e) found.old.items found.new.items) }
{
    let (left, right) = take_two(found)?;
    let whole = and(alloc, left, right, ty, at)?;
    found.push(whole)?;
    Ok(())
}

/// `a && b`
fn conjoin<T: Types>(
    alloc: Global,
    types: &mut T,
    own: &OwnTypes,
    work: &mut Work<'_>,
    at: Place,
) -> Result<(), Memory>
    requires own { AreOwnTypes (T.atoms types.old) own.now }
    requires stands { Stands (state_of (T.atoms types.old) work.old) }
    ensures atoms { T.atoms types.new ≡ T.atoms types.old }
    ensures stands { OnOk result (Stands (state_of (T.atoms types.old) work.new)) }
    ensures comes { OnOk result (Comes (conjoins_of at) (state_of (T.atoms types.old) work.old) (Given tt) (state_of (T.atoms types.old) work.new)) }
{
    let ways = mem::replace(&mut work.ways, None);
    let (ways, other) = leave(alloc, &mut work.unit, &mut work.choices, ways)?;
    let no = join(alloc, types, &other, &ways.no)?;
    let ty = kind_shared(alloc, own, Kind::Truth)?;
    both(alloc, &mut work.found, ty, at)?;
    work.ways = Some(Ways { yes: ways.yes, no });
    Ok(())
}

/// The last two parts are the operands of `&&` (Ballerina specification, section 6.32). It costs by the variables that are seen, and a
/// type for each that is narrowed.
pub fn conjoins<T: Types>(checker: &mut Checker<'_, T>, at: Place)
    requires { Holds (T.atoms checker.old.types) checker.old.names.now checker.old.work }
    ensures holds { Holds (T.atoms checker.new.types) checker.new.names.now checker.new.work }
    ensures names { checker.new.names.now ≡ checker.old.names.now }
    ensures met { Runs (meets T.passes checker.old.names.now) (one (Conjoins at)) (going (T.atoms checker.old.types) checker.old.work) (going (T.atoms checker.new.types) checker.new.work) }
{
    if has_stopped(&checker.work) {
        return;
    }
    let made = conjoin(
        checker.alloc,
        &mut checker.types,
        &checker.names.own,
        &mut checker.work,
        at,
    );
    note_made(&checker.types, &mut checker.work, made);
}

/// The last two parts become the operands of `||`.
fn one_of(alloc: Global, found: &mut Vec<TypedExpr>, ty: SharedTy, at: Place) -> Result<(), Memory>
    ensures { OnOk result (MadeOfTwo (λ a b e. IsOr a b ty at e) found.old.items found.new.items) }
{
    let (left, right) = take_two(found)?;
    let whole = or(alloc, left, right, ty, at)?;
    found.push(whole)?;
    Ok(())
}

/// `a || b`
fn disjoin<T: Types>(
    alloc: Global,
    types: &mut T,
    own: &OwnTypes,
    work: &mut Work<'_>,
    at: Place,
) -> Result<(), Memory>
    requires own { AreOwnTypes (T.atoms types.old) own.now }
    requires stands { Stands (state_of (T.atoms types.old) work.old) }
    ensures atoms { T.atoms types.new ≡ T.atoms types.old }
    ensures stands { OnOk result (Stands (state_of (T.atoms types.old) work.new)) }
    ensures comes { OnOk result (Comes (disjoins_of at) (state_of (T.atoms types.old) work.old) (Given tt) (state_of (T.atoms types.old) work.new)) }
{
    let ways = mem::replace(&mut work.ways, None);
    let (ways, other) = leave(alloc, &mut work.unit, &mut work.choices, ways)?;
    let yes = join(alloc, types, &other, &ways.yes)?;
    let ty = kind_shared(alloc, own, Kind::Truth)?;
    one_of(alloc, &mut work.found, ty, at)?;
    work.ways = Some(Ways { yes, no: ways.no });
    Ok(())
}

/// The last two parts are the operands of `||` (Ballerina specification, section 6.32). It costs by the variables that are seen, and a
/// type for each that is narrowed.
pub fn disjoins<T: Types>(checker: &mut Checker<'_, T>, at: Place)
    requires { Holds (T.atoms checker.old.types) checker.old.names.now checker.old.work }
    ensures holds { Holds (T.atoms checker.new.types) checker.new.names.now checker.new.work }
    ensures names { checker.new.names.now ≡ checker.old.names.now }
    ensures met { Runs (meets T.passes checker.old.names.now) (one (Disjoins at)) (going (T.atoms checker.old.types) checker.old.work) (going (T.atoms checker.new.types) checker.new.work) }
{
    if has_stopped(&checker.work) {
        return;
    }
    let made = disjoin(
        checker.alloc,
        &mut checker.types,
        &checker.names.own,
        &mut checker.work,
        at,
    );
    note_made(&checker.types, &mut checker.work, made);
}
