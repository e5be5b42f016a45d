//! Conditions: one way is entered, and then the other one.
#![tactic(auto, using(check_work::proofs::Noting::meeting, check_words::proofs::Same::sharing))]

ghost use Rattle.std.specs.Prelude.{◌≡◌, IfOk, List, OnOk, Ok as Given, not, option_map};
ghost use Rattle.checks.specs.Checks.{Comes};
ghost use Rattle.needs.specs.Needs.{Runs};
ghost use Rattle.type_model.specs.declared.atoms.AtomDef.{AtomDef as Atom};
ghost use Rattle.typed_tree.specs.Listed.{one};
ghost use Rattle.expr_needs.specs.Needs.{Splits, Switches};
ghost use Rattle.check_words.specs.Meets.{meets};
ghost use Rattle.check_words.specs.Sharing.{SameWays};
ghost use Rattle.check_words.specs.Stands.{Stands};
ghost use Rattle.check_words.specs.Values.{splits as splits_of, switches as switches_of, way_of};
ghost use Rattle.check_words.specs.State.{ways_or_same};
ghost use Rattle.check_work.specs.Views.{Holds, flow_of, going, state_of, ways_of};

use bal_base::Memory;
use check_work::{
    Checker, Choice, Here, Ways, Work, copy_flow, has_stopped, last_taken, note_made, taken,
};
use flow_narrowing::Flow;
use std::alloc::Global;
use std::mem;
use type_model::Types;

/// What the last part says of variables: the same both times unless it is a condition.
pub(crate) fn ways_now(alloc: Global, here: &Here, ways: Option<Ways>) -> Result<Ways, Memory>
    ensures { IfOk result (λ w. SameWays (ways_or_same (option_map ways_of ways) (flow_of here.now)) (ways_of w)) }
{
    match ways {
        Some(ways) => Ok(ways),
        None => {
            let yes = here.flow(alloc)?;
            let no = here.flow(alloc)?;
            Ok(Ways { yes, no })
        }
    }
}

/// The way that is entered first, and the other one.
fn by_side(ways: Ways, way: bool) -> (Flow, Flow)
    ensures first { result.0 ≡ way_of way (ways_of ways) }
    ensures other { result.1 ≡ way_of (not way) (ways_of ways) }
{
    match way {
        true => (ways.yes, ways.no),
        false => (ways.no, ways.yes),
    }
}

/// One way of the last part is entered, and the other one is kept.
fn split(alloc: Global, work: &mut Work<'_>, way: bool) -> Result<(), Memory>
    ensures stands { (env : List Atom) → Stands (state_of env work.old) → OnOk result (Stands (state_of env work.new)) }
    ensures comes { (env : List Atom) → OnOk result (Comes (splits_of way) (state_of env work.old) (Given tt) (state_of env work.new)) }
{
    let mut unit = taken(&mut work.unit)?;
    let ways = ways_now(alloc, &unit.here, mem::replace(&mut work.ways, None))?;
    let (entered, other) = by_side(ways, way);
    let before = unit.here.enter(alloc, &entered)?;
    let first = copy_flow(alloc, &before)?;
    work.choices.push(Choice {
        before,
        other,
        first,
    })?;
    work.ways = None;
    work.unit = Some(unit);
    Ok(())
}

/// The last part is a condition, one way of which is entered: where it holds, or where it doesn't. It costs by the
/// variables that are seen.
pub fn splits<T: Types>(checker: &mut Checker<'_, T>, holds: bool)
    requires { Holds (T.atoms checker.old.types) checker.old.names.now checker.old.work }
    ensures holds { Holds (T.atoms checker.new.types) checker.new.names.now checker.new.work }
    ensures names { checker.new.names.now ≡ checker.old.names.now }
    ensures met { Runs (meets T.passes checker.old.names.now) (one (Splits holds)) (going (T.atoms checker.old.types) checker.old.work) (going (T.atoms checker.new.types) checker.new.work) }
{
    if has_stopped(&checker.work) {
        return;
    }
    let made = split(checker.alloc, &mut checker.work, holds);
    note_made(&checker.types, &mut checker.work, made);
}

/// The other way is entered, and where the first one has come to is kept.
fn switch(alloc: Global, work: &mut Work<'_>) -> Result<(), Memory>
    ensures stands { (env : List Atom) → Stands (state_of env work.old) → OnOk result (Stands (state_of env work.new)) }
    ensures comes { (env : List Atom) → OnOk result (Comes switches_of (state_of env work.old) (Given tt) (state_of env work.new)) }
{
    let mut unit = taken(&mut work.unit)?;
    let mut choice = last_taken(&mut work.choices)?;
    choice.first = unit.here.enter(alloc, &choice.other)?;
    work.choices.push(choice)?;
    work.ways = None;
    work.unit = Some(unit);
    Ok(())
}

/// The other way of the condition is entered. It costs by the variables that are seen.
pub fn switches<T: Types>(checker: &mut Checker<'_, T>)
    requires { Holds (T.atoms checker.old.types) checker.old.names.now checker.old.work }
    ensures holds { Holds (T.atoms checker.new.types) checker.new.names.now checker.new.work }
    ensures names { checker.new.names.now ≡ checker.old.names.now }
    ensures met { Runs (meets T.passes checker.old.names.now) (one Switches) (going (T.atoms checker.old.types) checker.old.work) (going (T.atoms checker.new.types) checker.new.work) }
{
    if has_stopped(&checker.work) {
        return;
    }
    let made = switch(checker.alloc, &mut checker.work);
    note_made(&checker.types, &mut checker.work, made);
}
