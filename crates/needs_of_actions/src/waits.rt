//! Waits for workers and futures.
#![tactic(auto, using(check_work::proofs::Noting::meeting))]

ghost use Rattle.std.specs.Prelude.{◌≡◌, ◌<◌, List, OnOk, Ok as Given, length, map};
ghost use Rattle.checks.specs.Checks.{Comes};
ghost use Rattle.needs.specs.Needs.{Runs};
ghost use Rattle.type_model.specs.declared.atoms.AtomDef.{AtomDef as Atom};
ghost use Rattle.type_model.specs.Calls.{KeepsTypes};
ghost use Rattle.typed_tree.specs.Listed.{one};
ghost use Rattle.expr_needs.specs.Needs.{WaitsForAll, WaitsForAny};
ghost use Rattle.check_words.specs.Actions.{waits_for_all as waits_for_all_of, waits_for_any as waits_for_any_of};
ghost use Rattle.check_words.specs.Meets.{meets};
ghost use Rattle.check_words.specs.Stands.{Stands};
ghost use Rattle.check_work.specs.Views.{Holds, going, state_of};
ghost use Rattle.needs_of_actions.specs.Awaited.{puts_wait};

use crate::wanted::{awaited, awaited_members, futures, of_any, record_atom, take_last};
use bal_base::{Fault, Memory, Place, Row, Stop};
use bal_tree::{QualifiedName, WaitMember};
use check_work::{Checker, Work, gather, has_stopped, last_taken, note, note_made};
use descriptors::{lift, plain};
use std::alloc::Global;
use std::rc::Rc;
use type_model::{SemType, Types};
use typed_tree::StrictForm;

/// What is known of the names is no more wanted, and the futures among them become the operands of a wait.
fn wait_for_any<T: Types>(
    alloc: Global,
    types: &mut T,
    work: &mut Work<'_>,
    names: &[QualifiedName],
    at: Place,
) -> Result<(), Memory>
    requires { Stands (state_of (T.atoms types.old) work.old) }
    ensures atoms { T.atoms types.new ≡ T.atoms types.old }
    ensures stands { OnOk result (Stands (state_of (T.atoms types.old) work.new)) }
    ensures comes { OnOk result (Comes (waits_for_any_of names.now at) (state_of (T.atoms types.old) work.old) (Given tt) (state_of (T.atoms types.old) work.new)) }
{
    let known = take_last(&mut work.wants, names.len())?;
    let numbers = awaited(alloc, work.site.workers.as_slice(), names)?;
    let count = futures(numbers.as_slice());
    let ty = of_any(alloc, types, known.as_slice())?;
    let form = StrictForm::WaitAny(Row::of(numbers));
    gather(&mut work.found, form, count, ty, at)?;
    work.ways = None;
    Ok(())
}

/// One of the names is waited for: what one of them gives (Ballerina specification, "Single wait action", "Alternate wait action"). A
/// type is written anew with each of several names.
pub fn waits_for_any<T: Types>(checker: &mut Checker<'_, T>, names: &[QualifiedName], at: Place)
    requires { Holds (T.atoms checker.old.types) checker.old.names.now checker.old.work }
    ensures holds { Holds (T.atoms checker.new.types) checker.new.names.now checker.new.work }
    ensures names { checker.new.names.now ≡ checker.old.names.now }
    ensures met { Runs (meets T.passes checker.old.names.now) (one (WaitsForAny names.now at)) (going (T.atoms checker.old.types) checker.old.work) (going (T.atoms checker.new.types) checker.new.work) }
{
    if has_stopped(&checker.work) {
        return;
    }
    let made = wait_for_any(
        checker.alloc,
        &mut checker.types,
        &mut checker.work,
        names,
        at,
    );
    note_made(&checker.types, &mut checker.work, made);
}

/// The futures among the names become the operands of a wait for all of them.
fn put_wait(
    alloc: Global,
    work: &mut Work<'_>,
    atom: u32,
    numbers: Vec<Option<u32>>,
    at: Place,
) -> Result<(), Memory>
    ensures stands { (env : List Atom) → atom < length env → Stands (state_of env work.old) → OnOk result (Stands (state_of env work.new)) }
    ensures comes { (env : List Atom) → OnOk result (Comes (puts_wait atom numbers.items at) (state_of env work.old) (Given tt) (state_of env work.new)) }
{
    let count = futures(numbers.as_slice());
    let ty = Rc::new(alloc, plain(alloc, SemType::Atom(atom)))?;
    let form = StrictForm::WaitAll {
        atom,
        awaited: Row::of(numbers),
    };
    gather(&mut work.found, form, count, ty, at)?;
    work.ways = None;
    Ok(())
}

/// The names are closed, and what is known of them is no more wanted: a closed record of it is what a wait for all of them gives.
fn wait_for_all<T: Types>(
    alloc: Global,
    types: &mut T,
    work: &mut Work<'_>,
    members: &[WaitMember],
    at: Place,
) -> Result<(), Stop<Fault>>
    requires { Stands (state_of (T.atoms types.old) work.old) }
    ensures kept { KeepsTypes (T.atoms types.old) (T.atoms types.new) }
    ensures stands { OnOk result (Stands (state_of (T.atoms types.new) work.new)) }
    ensures comes { Comes (waits_for_all_of (map (λ m. m.name) members.now) at) (state_of (T.atoms types.old) work.old) result (state_of (T.atoms types.new) work.new) }
{
    let open = last_taken(&mut work.constructors)?;
    let known = take_last(&mut work.wants, members.len())?;
    let numbers = awaited_members(alloc, work.site.workers.as_slice(), members)?;
    match record_atom(alloc, types, open.keys, known.as_slice(), at) {
        Ok(atom) => lift(put_wait(alloc, work, atom, numbers, at)),
        Err(stop) => Err(stop),
    }
}

/// All of the names are waited for: a record of what they give (Ballerina specification, "Multiple wait action"). `AtomLimit` at the
/// place where there would be too many atoms. Types are copied, and it costs by the number of pairs of names.
pub fn waits_for_all<T: Types>(checker: &mut Checker<'_, T>, members: &[WaitMember], at: Place)
    requires { Holds (T.atoms checker.old.types) checker.old.names.now checker.old.work }
    ensures holds { Holds (T.atoms checker.new.types) checker.new.names.now checker.new.work }
    ensures names { checker.new.names.now ≡ checker.old.names.now }
    ensures met { Runs (meets T.passes checker.old.names.now) (one (WaitsForAll (map (λ m. m.name) members.now) at)) (going (T.atoms checker.old.types) checker.old.work) (going (T.atoms checker.new.types) checker.new.work) }
{
    if has_stopped(&checker.work) {
        return;
    }
    let answer = wait_for_all(
        checker.alloc,
        &mut checker.types,
        &mut checker.work,
        members,
        at,
    );
    note(&checker.types, &mut checker.work, answer);
}
