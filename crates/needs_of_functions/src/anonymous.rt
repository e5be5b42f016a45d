//! Anonymous functions: where they end, as values.
#![tactic(auto, using(check_work::proofs::Noting::meeting))]

ghost use Rattle.std.specs.Prelude.{◌≡◌, ◌+◌, ◌<◌, ℕ, Bool, IfOk, List, OnOk, Ok as Given, length};
ghost use Rattle.checks.specs.Checks.{Comes};
ghost use Rattle.descriptors.specs.Described.{plain as plain_of};
ghost use Rattle.needs.specs.Needs.{Runs};
ghost use Rattle.type_model.specs.declared.atoms.AtomDef.{AtomDef as Atom};
ghost use Rattle.type_model.specs.declared.basic.SemType.{Atom as OfAtom};
ghost use Rattle.type_model.specs.Calls.{KeepsTypes};
ghost use Rattle.typed_tree.specs.Listed.{one};
ghost use Rattle.expr_needs.specs.Needs.{MakesAnonymous};
ghost use Rattle.check_words.specs.Calls.{makes_anonymous as makes_anonymous_of};
ghost use Rattle.check_words.specs.Meets.{meets};
ghost use Rattle.check_words.specs.Stands.{SharedBelow, Stands};
ghost use Rattle.check_words.specs.State.{UnitAtWork};
ghost use Rattle.check_work.specs.Views.{Holds, going, state_of, unit_of};
ghost use Rattle.needs_of_functions.specs.Anonymous.{function_of as function_with, makes_function};

use crate::own_atoms::own_atoms;
use bal_base::{Fault, Memory, Place, Stop};
use check_words::function;
use check_work::{Checker, Unit, Work, drop_last, has_stopped, note, take_one};
use descriptors::{lift, plain};
use needs_of_units::{close_unit, finished};
use std::alloc::Global;
use std::rc::Rc;
use type_model::{SemType, Types};
use typed_tree::{AnonymousFunction, SharedTy};

/// The type of the atom, to be shared.
fn atom_type(alloc: Global, atom: u32) -> Result<SharedTy, Memory>
    ensures { IfOk result (λ t. t.value ≡ plain_of (OfAtom atom)) }
{
    let t = plain(alloc, SemType::Atom(atom));
    Ok(Rc::new(alloc, t)?)
}

/// The unit, which is done, as a function with its own atoms from this one on. A number that none has is as if memory were wanted.
fn function_of(unit: Unit, isolated: bool, first: u32) -> Result<AnonymousFunction, Memory>
    ensures { IfOk result (λ f. f ≡ function_with isolated (unit_of unit) first) }
{
    if first > u32::MAX - 2 {
        return Err(Memory);
    }
    let (made, captured) = finished(unit, first + 1, first + 2);
    Ok(AnonymousFunction {
        isolated,
        unit: made,
        args: first,
        captured,
    })
}

/// The last part becomes the function with this value.
fn put_function(
    alloc: Global,
    work: &mut Work<'_>,
    f: AnonymousFunction,
    ty: SharedTy,
    at: Place,
) -> Result<(), Memory>
    ensures stands { (env : List Atom) → SharedBelow (length env) ty → Stands (state_of env work.old) → OnOk result (Stands (state_of env work.new)) }
    ensures comes { (env : List Atom) (isolated : Bool) (u : UnitAtWork) (first : ℕ) → f ≡ function_with isolated u first → ty.value ≡ plain_of (OfAtom (first + 1)) → OnOk result (Comes (makes_function isolated u first at) (state_of env work.old) (Given tt) (state_of env work.new)) }
{
    let value = take_one(&mut work.found)?;
    let e = function(alloc, f, value, ty, at)?;
    work.found.push(e)?;
    work.ways = None;
    Ok(())
}

/// The last part is the value of the function with this unit, whose atoms begin with this one.
fn make_function(
    alloc: Global,
    work: &mut Work<'_>,
    unit: Unit,
    isolated: bool,
    first: u32,
    at: Place,
) -> Result<(), Memory>
    ensures stands { (env : List Atom) → first + 1 < length env → Stands (state_of env work.old) → OnOk result (Stands (state_of env work.new)) }
    ensures comes { (env : List Atom) → OnOk result (Comes (makes_function isolated (unit_of unit) first at) (state_of env work.old) (Given tt) (state_of env work.new)) }
{
    let f = function_of(unit, isolated, first)?;
    let ty = atom_type(alloc, f.unit.arrow)?;
    put_function(alloc, work, f, ty, at)
}

/// The unit at hand is done, and is the function's.
fn make_anonymous<T: Types>(
    alloc: Global,
    types: &mut T,
    work: &mut Work<'_>,
    isolated: bool,
    at: Place,
) -> Result<(), Stop<Fault>>
    requires { Stands (state_of (T.atoms types.old) work.old) }
    ensures kept { KeepsTypes (T.atoms types.old) (T.atoms types.new) }
    ensures stands { OnOk result (Stands (state_of (T.atoms types.new) work.new)) }
    ensures comes { Comes (makes_anonymous_of isolated at) (state_of (T.atoms types.old) work.old) result (state_of (T.atoms types.new) work.new) }
{
    drop_last(&mut work.wants);
    let unit = close_unit(work)?;
    let first = own_atoms(alloc, types, &unit, isolated, at)?;
    lift(make_function(alloc, work, unit, isolated, first, at))
}

/// The last part is the value of the anonymous function, which becomes a value of its own type ("Anonymous function expression"): `AtomLimit` at the
/// place where there would be too many atoms. It costs by the types of its parameters and its result.
pub fn makes_anonymous<T: Types>(checker: &mut Checker<'_, T>, isolated: bool, at: Place)
    requires { Holds (T.atoms checker.old.types) checker.old.names.now checker.old.work }
    ensures holds { Holds (T.atoms checker.new.types) checker.new.names.now checker.new.work }
    ensures names { checker.new.names.now ≡ checker.old.names.now }
    ensures met { Runs (meets T.passes checker.old.names.now) (one (MakesAnonymous isolated at)) (going (T.atoms checker.old.types) checker.old.work) (going (T.atoms checker.new.types) checker.new.work) }
{
    if has_stopped(&checker.work) {
        return;
    }
    let answer = make_anonymous(
        checker.alloc,
        &mut checker.types,
        &mut checker.work,
        isolated,
        at,
    );
    note(&checker.types, &mut checker.work, answer);
}
