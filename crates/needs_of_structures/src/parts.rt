//! Parts that are made: values alone, and what so many of the last parts become.
#![tactic(auto, using(check_work::proofs::Noting::meeting))]

ghost use Rattle.std.specs.Prelude.{◌≡◌, ◌≤◌, ◌*◌, ◌^◌, IfOk, List, OnOk, Ok as Given, length};
ghost use Rattle.checks.specs.Checks.{Comes};
ghost use Rattle.type_model.specs.declared.atoms.AtomDef.{AtomDef as Atom};
ghost use Rattle.type_model.specs.Defined.{TyBelow};
ghost use Rattle.check_words.specs.Stands.{SharedBelow, Stands};
ghost use Rattle.check_words.specs.Values.{SingleOf};
ghost use Rattle.check_work.specs.Views.{state_of};
ghost use Rattle.needs_of_structures.specs.Making.{gives_implied, makes_so};

use bal_base::{Memory, Place};
use check_kinds::single_type;
use check_words::implied;
use check_work::{Work, gather};
use operations::Constant;
use std::alloc::Global;
use std::rc::Rc;
use type_model::Ty;
use typed_tree::{SharedTy, StrictForm};

/// The type of this value alone, to be shared.
fn value_type(alloc: Global, value: &Constant) -> Result<SharedTy, Memory>
    ensures is { IfOk result (λ t. (env : List Atom) → SingleOf value.now env t.value) }
    ensures below { IfOk result (λ t. (env : List Atom) → SharedBelow (length env) t) }
{
    Ok(Rc::new(alloc, single_type(alloc, value))?)
}

/// A part more, which is the value and stands for no expression.
pub(crate) fn give_implied(
    alloc: Global,
    work: &mut Work<'_>,
    value: Constant,
    at: Place,
) -> Result<(), Memory>
    ensures stands { (env : List Atom) → Stands (state_of env work.old) → OnOk result (Stands (state_of env work.new)) }
    ensures comes { (env : List Atom) → OnOk result (Comes (gives_implied value at) (state_of env work.old) (Given tt) (state_of env work.new)) }
{
    let ty = value_type(alloc, &value)?;
    work.found.push(implied(value, ty, at))?;
    work.ways = None;
    Ok(())
}

/// So many of the last parts become the operands of one expression of this form and type.
pub(crate) fn make_strict(
    alloc: Global,
    work: &mut Work<'_>,
    form: StrictForm,
    count: usize,
    ty: Ty,
    at: Place,
) -> Result<(), Memory>
    ensures stands { (env : List Atom) → TyBelow (length env) ty → Stands (state_of env work.old) → OnOk result (Stands (state_of env work.new)) }
    ensures comes { (env : List Atom) → OnOk result (Comes (makes_so count form ty at) (state_of env work.old) (Given tt) (state_of env work.new)) }
{
    let ty = Rc::new(alloc, ty)?;
    gather(&mut work.found, form, count, ty, at)?;
    work.ways = None;
    Ok(())
}

/// Twice so many. Where there are more than a program has it is as if memory were wanted.
pub(crate) fn twice(count: usize) -> Result<usize, Memory>
    ensures is { IfOk result (λ n. n ≡ 2 * count) }
    ensures small { IfOk result (λ n. n ≤ 2 ^ 33) }
{
    if count > u32::MAX as usize {
        return Err(Memory);
    }
    Ok(2 * count)
}
