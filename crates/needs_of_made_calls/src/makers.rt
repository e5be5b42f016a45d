//! Parts that become the operands of a call.
#![tactic(auto, using(check_work::proofs::Noting::meeting))]

ghost use Rattle.std.specs.Prelude.{◌≡◌, IfOk, List, OnOk, Ok as Given, length, option_map};
ghost use Rattle.checks.specs.Checks.{Comes};
ghost use Rattle.type_model.specs.declared.atoms.AtomDef.{AtomDef as Atom};
ghost use Rattle.type_model.specs.Defined.{TyBelow};
ghost use Rattle.check_words.specs.Calls.{callee_unit};
ghost use Rattle.check_words.specs.Stands.{Stands};
ghost use Rattle.check_work.specs.Views.{state_of};
ghost use Rattle.needs_of_made_calls.specs.Making.{makes_so};

use bal_base::{Memory, Place};
use check_work::{Work, gather};
use descriptors::Signature;
use std::alloc::Global;
use std::rc::Rc;
use type_model::Ty;
use typed_tree::{Callee, StrictForm};

/// So many of the last parts become the operands of one expression of this form and type, which says nothing of variables.
pub(crate) fn make_strict(
    alloc: Global,
    work: &mut Work<'_>,
    form: StrictForm,
    count: usize,
    ty: Ty,
    at: Place,
) -> Result<(), Memory>
    ensures stands { (env : List Atom) → TyBelow (length env) ty → Stands (state_of env work.old) → OnOk result (Stands (state_of env work.new)) }
    ensures comes { (env : List Atom) → OnOk result (Comes (makes_so count form ty at) (state_of env work.old) (Given tt) (state_of env work.new)) }
{
    let ty = Rc::new(alloc, ty)?;
    gather(&mut work.found, form, count, ty, at)?;
    work.ways = None;
    Ok(())
}

/// The atom of the list of the arguments behind the parameters, where the function takes a rest.
fn rest_of(f: &Signature) -> Option<u32>
    ensures { result ≡ option_map (λ t. f.now.lists) f.now.rest }
{
    match &f.rest {
        Some(_) => Some(f.lists),
        None => None,
    }
}

/// The function as it is called. Where it has more parameters than a program has it is as if memory were wanted.
pub(crate) fn callee_of(f: &Signature) -> Result<Callee, Memory>
    ensures { IfOk result (λ callee. callee ≡ callee_unit f.now) }
{
    let fixed = f.params.as_slice().len();
    if fixed > u32::MAX as usize {
        return Err(Memory);
    }
    Ok(Callee::Unit {
        unit: f.unit,
        fixed: fixed as u32,
        rest: rest_of(f),
    })
}
