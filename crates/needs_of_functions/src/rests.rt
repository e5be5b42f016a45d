//! The rest parameter of an anonymous function.
#![tactic(auto, using(check_work::proofs::Noting::meeting, check_kinds::proofs::Over::overs))]

ghost use Rattle.std.specs.Prelude.{◌≡◌, ◌<◌, ℕ, IfOk, List, OnOk, Ok as Given, Some as There, length};
ghost use Rattle.checks.specs.Checks.{Comes};
ghost use Rattle.checks.specs.Questions.{adds};
ghost use Rattle.needs.specs.Needs.{Runs};
ghost use Rattle.type_model.specs.declared.atoms.AtomDef.{AtomDef as Atom};
ghost use Rattle.type_model.specs.Calls.{KeepsTypes};
ghost use Rattle.type_model.specs.Defined.{DefBelow, TyBelow};
ghost use Rattle.type_model.specs.Places.{HasDistinctFields};
ghost use Rattle.typed_tree.specs.Listed.{one};
ghost use Rattle.expr_needs.specs.Needs.{HasRest};
ghost use Rattle.check_words.specs.Calls.{has_rest as has_rest_of, with_rest};
ghost use Rattle.check_words.specs.Meets.{meets};
ghost use Rattle.check_words.specs.Sharing.{SameUnit};
ghost use Rattle.check_words.specs.Stands.{SharedBelow, Stands};
ghost use Rattle.check_work.specs.Views.{Holds, going, state_of, unit_of};
ghost use Rattle.needs_of_functions.specs.Rests.{AreListsOf, IsListsOf, puts_rest};

use crate::copies::list_type;
use bal_base::{Fault, Memory, Name, Place, Stop};
use bal_tree::Word;
use check_work::{Checker, Unit, Work, has_stopped, new_name, note, take_want, taken};
use descriptors::{copy, lift};
use made_atoms::add_one;
use needs_of_units::put_parameter;
use std::alloc::Global;
use type_model::{AtomDef, Ty, TyList, Types};
use typed_tree::SharedTy;

/// Lists of any number of the type.
fn lists_def(alloc: Global, member: &Ty) -> Result<AtomDef, Memory>
    ensures is { IfOk result (IsListsOf member.now) }
    ensures below { (n : ℕ) → TyBelow n member.now → IfOk result (DefBelow n) }
    ensures distinct { IfOk result HasDistinctFields }
{
    let rest = copy(alloc, member)?;
    let none = Vec::new(alloc);
    let fixed = TyList::of(none);
    Ok(AtomDef::List {
        fixed,
        rest: Some(rest),
    })
}

/// The atom of the lists of any number of the type: `AtomLimit` at the place where there would be too many atoms.
fn lists_atom<T: Types>(
    alloc: Global,
    types: &mut T,
    member: &SharedTy,
    at: Place,
) -> Result<u32, Stop<Fault>>
    requires { SharedBelow (length (T.atoms types.old)) member.now }
    ensures kept { KeepsTypes (T.atoms types.old) (T.atoms types.new) }
    ensures there { IfOk result (λ atom. atom < length (T.atoms types.new)) }
    ensures comes { Comes (adds (λ env. AreListsOf member.now.value) (There at)) (T.atoms types.old) result (T.atoms types.new) }
{
    match lists_def(alloc, member) {
        Ok(def) => add_one(alloc, types, def, at),
        Err(Memory) => Err(Stop::Memory),
    }
}

/// One parameter more, which takes the rest.
fn rest_parameter(
    unit: &mut Unit,
    name: &Name,
    lists: SharedTy,
    atom: u32,
    member: SharedTy,
) -> Result<(), Memory>
    ensures { OnOk result (SameUnit (with_rest name.now lists atom member (unit_of unit.old)) (unit_of unit.new)) }
{
    put_parameter(unit, name, lists)?;
    unit.rest = Some(atom);
    unit.rest_member = Some(member);
    Ok(())
}

/// The parameter that takes the rest is the next one of the unit.
fn put_rest(
    alloc: Global,
    work: &mut Work<'_>,
    name: &Name,
    atom: u32,
    member: SharedTy,
) -> Result<(), Memory>
    ensures stands { (env : List Atom) → atom < length env → SharedBelow (length env) member → Stands (state_of env work.old) → OnOk result (Stands (state_of env work.new)) }
    ensures comes { (env : List Atom) → OnOk result (Comes (puts_rest name.now atom member) (state_of env work.old) (Given tt) (state_of env work.new)) }
{
    let lists = list_type(alloc, atom)?;
    let mut unit = taken(&mut work.unit)?;
    rest_parameter(&mut unit, name, lists, atom, member)?;
    work.unit = Some(unit);
    Ok(())
}

/// The parameter that takes the rest has this name.
fn add_rest<T: Types>(
    alloc: Global,
    types: &mut T,
    work: &mut Work<'_>,
    name: &Word,
) -> Result<(), Stop<Fault>>
    requires { Stands (state_of (T.atoms types.old) work.old) }
    ensures kept { KeepsTypes (T.atoms types.old) (T.atoms types.new) }
    ensures stands { OnOk result (Stands (state_of (T.atoms types.new) work.new)) }
    ensures comes { Comes (has_rest_of name.now) (state_of (T.atoms types.old) work.old) result (state_of (T.atoms types.new) work.new) }
{
    new_name(work, name)?;
    let member = take_want(work)?;
    let atom = lists_atom(alloc, types, &member, name.at)?;
    lift(put_rest(alloc, work, &name.name, atom, member))
}

/// The anonymous function has a parameter of this name that takes the rest, as lists of the wanted type ("Function signature"). It costs by the
/// variables that are seen and by the size of the type.
///
/// - `Duplicate` at its name: a variable that is seen or a worker has it.
/// - `AtomLimit` there: there would be too many atoms.
pub fn has_rest<T: Types>(checker: &mut Checker<'_, T>, name: &Word)
    requires { Holds (T.atoms checker.old.types) checker.old.names.now checker.old.work }
    ensures holds { Holds (T.atoms checker.new.types) checker.new.names.now checker.new.work }
    ensures names { checker.new.names.now ≡ checker.old.names.now }
    ensures met { Runs (meets T.passes checker.old.names.now) (one (HasRest name.now)) (going (T.atoms checker.old.types) checker.old.work) (going (T.atoms checker.new.types) checker.new.work) }
{
    if has_stopped(&checker.work) {
        return;
    }
    let answer = add_rest(checker.alloc, &mut checker.types, &mut checker.work, name);
    note(&checker.types, &mut checker.work, answer);
}
