//! The atoms of an anonymous function: of the lists of its arguments, of its own type, and of the futures of its result.
#![tactic(auto)]

ghost use Rattle.std.specs.Prelude.{◌≡◌, ◌+◌, ◌<◌, IfOk, Some as There, length, take};
ghost use Rattle.checks.specs.Checks.{Comes};
ghost use Rattle.checks.specs.Questions.{adds};
ghost use Rattle.type_model.specs.Calls.{KeepsTypes};
ghost use Rattle.type_model.specs.SameType.{IsSameType};
ghost use Rattle.typed_tree.specs.SharedTypes.{sem_of};
ghost use Rattle.check_words.specs.Calls.{AreCopiesOf, AreOwnAtoms, IsRestOf, fixed_types as fixed_types_of};
ghost use Rattle.check_words.specs.Stands.{UnitBelow};
ghost use Rattle.check_words.specs.State.{all_but};
ghost use Rattle.check_work.specs.Views.{unit_of};
ghost use Rattle.needs_of_functions.specs.Anonymous.{AreArgumentsOf, AreAtomsAt};

use bal_base::{Fault, Memory, Place, Stop};
use check_work::Unit;
use checks::add;
use descriptors::copy;
use std::alloc::Global;
use type_model::{AtomDef, SemType, Ty, TyList, Types};
use typed_tree::SharedTy;

/// The first so many, or all.
fn first<T>(items: &[T], count: usize) -> &[T]
    ensures { result.now ≡ take count items.now }
{
    if count < items.len() {
        &items[..count]
    } else {
        items
    }
}

/// All but the last one.
fn without_last<T>(items: &[T]) -> &[T]
    ensures { result.now ≡ all_but 1 items.now }
{
    match items {
        [kept @ .., _] => kept,
        [] => items,
    }
}

/// The types of its parameters, but for the one that takes the rest.
fn fixed_types(unit: &Unit) -> &[SharedTy]
    ensures { result.now ≡ fixed_types_of (unit_of unit.now) }
{
    let slots = unit.slots.as_slice();
    let params = first(slots, unit.params as usize);
    match &unit.rest {
        Some(_) => without_last(params),
        None => params,
    }
}

/// The types once more.
fn copies(alloc: Global, types: &[SharedTy]) -> Result<Vec<Ty>, Memory>
    ensures { IfOk result (λ ts. AreCopiesOf types.now ts.items) }
{
    let mut made = Vec::new(alloc);
    for t in types {
        made.push(copy(alloc, t)?)?;
    }
    Ok(made)
}

/// The type of what takes the rest once more, if something does.
fn rest_copy(alloc: Global, member: &Option<SharedTy>) -> Result<Option<Ty>, Memory>
    ensures { IfOk result (IsRestOf member.now) }
{
    match member {
        Some(t) => {
            let t = copy(alloc, t)?;
            Ok(Some(t))
        }
        None => Ok(None),
    }
}

/// The atom of the lists of its arguments.
fn list_def(alloc: Global, unit: &Unit) -> Result<AtomDef, Memory>
    ensures { IfOk result (AreArgumentsOf (unit_of unit.now)) }
{
    let params = fixed_types(unit);
    let fixed = copies(alloc, params)?;
    let rest = rest_copy(alloc, &unit.rest_member)?;
    Ok(AtomDef::List {
        fixed: TyList::of(fixed),
        rest,
    })
}

/// The shapes of the type once more.
fn sem_copy(alloc: Global, t: &SharedTy) -> Result<SemType, Memory>
    ensures { IfOk result (IsSameType (sem_of t.now)) }
{
    let sem = &t.sem;
    Ok(sem.copy(alloc)?)
}

/// The definitions of its atoms, the first of which has this number.
fn own_defs(alloc: Global, unit: &Unit, isolated: bool, first: u32) -> Result<Vec<AtomDef>, Memory>
    ensures { IfOk result (λ defs. AreAtomsAt isolated (unit_of unit.now) first defs.items) }
{
    let result = sem_copy(alloc, &unit.result)?;
    let future = sem_copy(alloc, &unit.result)?;
    let list = list_def(alloc, unit)?;
    let args = SemType::Atom(first);
    let mut defs = Vec::new(alloc);
    defs.push(list)?;
    defs.push(AtomDef::Arrow {
        args,
        result,
        isolated,
    })?;
    defs.push(AtomDef::Future { result: future })?;
    Ok(defs)
}

/// How many atoms there are.
fn how_many<T: Types>(types: &T) -> u32
    ensures { result ≡ length (T.atoms types.now) }
{
    types.env().defs().len() as u32
}

/// The atoms of the anonymous function with this unit: gives the number of that of the lists of its arguments, behind which stand that of its own
/// type and that of the futures of its result. `AtomLimit` at the place where there would be too many atoms.
pub(crate) fn own_atoms<T: Types>(
    alloc: Global,
    types: &mut T,
    unit: &Unit,
    isolated: bool,
    at: Place,
) -> Result<u32, Stop<Fault>>
    requires { UnitBelow (length (T.atoms types.old)) (unit_of unit.now) }
    ensures kept { KeepsTypes (T.atoms types.old) (T.atoms types.new) }
    ensures there { IfOk result (λ first. first + 2 < length (T.atoms types.new)) }
    ensures comes { Comes (adds (AreOwnAtoms isolated (unit_of unit.now)) (There at)) (T.atoms types.old) result (T.atoms types.new) }
{
    match own_defs(alloc, unit, isolated, how_many(types)) {
        Ok(defs) => add(alloc, types, defs, Some(at)),
        Err(Memory) => Err(Stop::Memory),
    }
}
