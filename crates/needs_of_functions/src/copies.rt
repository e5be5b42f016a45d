//! Types once more, to be shared, and units by other handles.
#![tactic(auto)]

ghost use Rattle.std.specs.Prelude.{◌≡◌, ◌∷◌, [], ℕ, IfOk, OnOk, true};
ghost use Rattle.std.specs.List.{AllZip};
ghost use Rattle.descriptors.specs.Described.{IsCopy, choice_of, list_of};
ghost use Rattle.type_model.specs.Defined.{TyBelow};
ghost use Rattle.check_words.specs.Sharing.{SameShared, SameUnit};
ghost use Rattle.check_words.specs.Stands.{SharedBelow};
ghost use Rattle.check_work.specs.Views.{unit_of};

use bal_base::Memory;
use check_work::{Here, Unit, shared, shared_if};
use descriptors::copy;
use std::alloc::Global;
use std::rc::Rc;
use type_model::{Choice, ChoiceList, SemType, Ty};
use typed_tree::SharedTy;

/// The same type, to be shared. It costs by its size.
pub(crate) fn copied(alloc: Global, t: &Ty) -> Result<SharedTy, Memory>
    ensures is { IfOk result (λ u. IsCopy t.now u.value) }
    ensures below { (n : ℕ) → TyBelow n t.now → IfOk result (SharedBelow n) }
{
    let t = copy(alloc, t)?;
    Ok(Rc::new(alloc, t)?)
}

/// The types by other handles.
fn shared_all(alloc: Global, types: &[SharedTy]) -> Result<Vec<SharedTy>, Memory>
    ensures { IfOk result (λ ts. AllZip SameShared types.now ts.items) }
{
    let mut handles = Vec::new(alloc);
    for t in types {
        handles.push(shared(t)?)?;
    }
    Ok(handles)
}

/// Whether there is nothing.
fn is_nothing<T>(items: &[T]) -> bool
    ensures { result ≡ true → items.now ≡ [] }
{
    match items {
        [] => true,
        [..] => false,
    }
}

/// Nothing is captured in the unit, and no variable is seen. Where it isn't so it is as if memory were wanted.
fn is_bare(unit: &Unit) -> Result<(), Memory>
    ensures captured { OnOk result ((unit_of unit.now).captured ≡ []) }
    ensures variables { OnOk result ((unit_of unit.now).flow.variables ≡ []) }
{
    let captured = unit.captured.as_slice();
    let variables = unit.here.variables.as_slice();
    if !is_nothing(captured) {
        return Err(Memory);
    }
    if !is_nothing(variables) {
        return Err(Memory);
    }
    Ok(())
}

/// The unit by other handles of its types. One that captures something, or in which variables are seen, is as if memory were wanted. It costs by
/// its slots.
pub(crate) fn copy_unit(alloc: Global, unit: &Unit) -> Result<Unit, Memory>
    ensures { IfOk result (λ u. SameUnit (unit_of unit.now) (unit_of u)) }
{
    is_bare(unit)?;
    let types = unit.slots.as_slice();
    let slots = shared_all(alloc, types)?;
    let rest_member = shared_if(&unit.rest_member)?;
    let gives = shared(&unit.result)?;
    let captured = Vec::new(alloc);
    let variables = Vec::new(alloc);
    Ok(Unit {
        number: unit.number,
        worker: unit.worker,
        slots,
        params: unit.params,
        rest: unit.rest,
        rest_member,
        result: gives,
        arrow: unit.arrow,
        future: unit.future,
        captured,
        here: Here {
            variables,
            reached: unit.here.reached,
        },
    })
}

/// The choice of the atom.
fn one_choice(alloc: Global, atom: u32) -> Result<ChoiceList, Memory>
    ensures { IfOk result (λ choices. choices ≡ choice_of atom ∷ []) }
{
    let mut choices = Vec::new(alloc);
    choices.push(Choice {
        atom,
        immutable: false,
    })?;
    Ok(ChoiceList::of(choices))
}

/// The type of the lists of the atom.
fn lists_of(alloc: Global, atom: u32) -> Result<Ty, Memory>
    ensures { IfOk result (λ t. t ≡ list_of atom) }
{
    let lists = one_choice(alloc, atom)?;
    Ok(Ty {
        sem: SemType::Atom(atom),
        lists,
        maps: ChoiceList::of(Vec::new(alloc)),
    })
}

/// The type of the lists of the atom, to be shared.
pub(crate) fn list_type(alloc: Global, atom: u32) -> Result<SharedTy, Memory>
    ensures { IfOk result (λ t. t.value ≡ list_of atom) }
{
    let t = lists_of(alloc, atom)?;
    Ok(Rc::new(alloc, t)?)
}
