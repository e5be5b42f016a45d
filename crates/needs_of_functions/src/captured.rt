//! Anonymous functions: where their values begin, with what they capture.
#![tactic(auto, using(check_work::proofs::Noting::meeting))]

ghost use Rattle.std.specs.Prelude.{◌≡◌, IfOk, List, OnOk, Ok as Given, Some as There};
ghost use Rattle.checks.specs.Checks.{Comes};
ghost use Rattle.needs.specs.Needs.{Runs};
ghost use Rattle.tree_places.specs.UsedInExprs.{used_in_expr};
ghost use Rattle.type_model.specs.declared.atoms.AtomDef.{AtomDef as Atom};
ghost use Rattle.typed_tree.specs.Listed.{members, one};
ghost use Rattle.typed_tree.specs.SharedTypes.{Shared};
ghost use Rattle.expr_needs.specs.ExprTable.{read_expr};
ghost use Rattle.expr_needs.specs.Needs.{BeginsValue};
ghost use Rattle.check_words.specs.Calls.{begins_value as begins_value_of, captures as captures_of, with_captured};
ghost use Rattle.check_words.specs.Meets.{meets};
ghost use Rattle.check_words.specs.Sharing.{SameShared, SameUnit};
ghost use Rattle.check_words.specs.Stands.{Stands};
ghost use Rattle.check_words.specs.State.{IsLast};
ghost use Rattle.check_work.specs.Views.{Holds, going, state_of, unit_of};
ghost use Rattle.needs_of_functions.specs.Anonymous.{IsLastWanted, IsWantedAs};

use bal_base::Memory;
use bal_tree::{Expr, Word};
use check_work::{Checker, Unit, Work, has_stopped, last, note_made, shared, taken};
use needs_of_units::{capture_all, find_captures};
use std::alloc::Global;
use tree_places::names_in_expr;
use type_model::Types;
use typed_tree::SharedTy;

/// The type by another handle. Where nothing is known of it it is as if memory were wanted.
fn known(want: &Option<SharedTy>) -> Result<SharedTy, Memory>
    ensures { IfOk result (IsWantedAs want.now) }
{
    match want {
        Some(t) => {
            let u = shared(t)?;
            Ok(u)
        }
        None => Err(Memory),
    }
}

/// The type that is wanted last, by another handle. Where none is wanted it is as if memory were.
fn last_wanted(wants: &[Option<SharedTy>]) -> Result<SharedTy, Memory>
    ensures { IfOk result (IsLastWanted wants.now) }
{
    let Some(want) = last(wants) else {
        return Err(Memory);
    };
    let t = known(want)?;
    Ok(t)
}

/// The last of the units around. Where there is none it is as if memory were wanted.
fn unit_around(around: &[Unit]) -> Result<&Unit, Memory>
    ensures { IfOk result (λ u. IsLast around.now u.now) }
{
    match last(around) {
        Some(unit) => Ok(unit),
        None => Err(Memory),
    }
}

/// The unit captures what the words use of the variables around it, and gives this.
fn fill_unit(
    alloc: Global,
    around: &Unit,
    unit: &mut Unit,
    uses: &[Word],
    gives: SharedTy,
) -> Result<(), Memory>
    ensures { (t : Shared) → SameShared t gives → OnOk result (SameUnit (with_captured (captures_of (unit_of around.now).flow.variables uses.now) t (unit_of unit.old)) (unit_of unit.new)) }
{
    let variables = around.here.variables.as_slice();
    let found = find_captures(alloc, variables, uses)?;
    let none = Vec::new(alloc);
    unit.captured = none;
    let all = found.as_slice();
    capture_all(unit, all, false)?;
    unit.result = gives;
    Ok(())
}

/// The value of the anonymous function begins.
fn begin_value(alloc: Global, work: &mut Work<'_>, value: &Expr) -> Result<(), Memory>
    ensures stands { (env : List Atom) → Stands (state_of env work.old) → OnOk result (Stands (state_of env work.new)) }
    ensures comes { (env : List Atom) → OnOk result (Comes (begins_value_of (members (used_in_expr value.now))) (state_of env work.old) (Given tt) (state_of env work.new)) }
{
    let uses = names_in_expr(alloc, value)?;
    let words = uses.as_slice();
    let wants = work.wants.as_slice();
    let gives = last_wanted(wants)?;
    let mut unit = taken(&mut work.unit)?;
    let units = work.around.as_slice();
    let around = unit_around(units)?;
    fill_unit(alloc, around, &mut unit, words, gives)?;
    work.unit = Some(unit);
    Ok(())
}

/// The value of the anonymous function, which is this expression, begins: it has to be of the wanted type, which is the function's result, and
/// captures the variables around it that it uses ("Anonymous function expression"). It costs by the value and, for each name in it, by the
/// variables that are seen around it.
pub fn begins_value<T: Types>(checker: &mut Checker<'_, T>, value: &Expr)
    requires { Holds (T.atoms checker.old.types) checker.old.names.now checker.old.work }
    ensures holds { Holds (T.atoms checker.new.types) checker.new.names.now checker.new.work }
    ensures names { checker.new.names.now ≡ checker.old.names.now }
    ensures met { Runs (meets T.passes checker.old.names.now) (one (BeginsValue (members (read_expr value.now).used))) (going (T.atoms checker.old.types) checker.old.work) (going (T.atoms checker.new.types) checker.new.work) }
{
    if has_stopped(&checker.work) {
        return;
    }
    let made = begin_value(checker.alloc, &mut checker.work, value);
    note_made(&checker.types, &mut checker.work, made);
}
