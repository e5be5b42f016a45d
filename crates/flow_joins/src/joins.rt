//! Joins of two ways and of several.
ghost use Rattle.std.specs.Prelude.{◌≡◌, All, IfOk, OnOk, length};
ghost use Rattle.flow_narrowing.specs.Flows.{IsJoin, VariablesBelow};
ghost use Rattle.check_words.specs.Stands.{FlowBelow};
ghost use Rattle.check_work.specs.Views.{flow_of};
ghost use Rattle.flow_joins.specs.Joined.{JoinsFrom};

use bal_base::Memory;
use check_work::{Here, copy_flow};
use flow_narrowing::{Flow, VariableList};
use std::alloc::Global;
use std::mem;
use type_model::Types;

/// What is known where two ways meet: of each variable the union of its types on those of the two that go on, or on both
/// where neither does, with the constructor choices of both. It costs by the variables, and a type for each that is
/// narrowed on one of the two.
pub fn join<T: Types>(
    alloc: Global,
    types: &mut T,
    first: &Flow,
    second: &Flow,
) -> Result<Flow, Memory>
    requires first { VariablesBelow (length (T.atoms types.old)) first.now.variables }
    requires second { VariablesBelow (length (T.atoms types.old)) second.now.variables }
    ensures atoms { T.atoms types.new ≡ T.atoms types.old }
    ensures below { IfOk result (λ f. VariablesBelow (length (T.atoms types.old)) f.variables) }
    ensures is { IfOk result (IsJoin (T.atoms types.old) first.now second.now) }
{
    if second.variables.as_slice().len() != first.variables.as_slice().len() {
        return Err(Memory);
    }
    Flow::join(alloc, types, first, second)
}

/// What is known here, where nothing is known from now on.
fn left(alloc: Global, here: &mut Here) -> Flow
    ensures { result ≡ flow_of here.old }
{
    let variables = mem::replace(&mut here.variables, Vec::new(alloc));
    Flow {
        variables: VariableList::of(variables),
        reached: here.reached,
    }
}

/// One way has come to this flow, and the other one to the place at hand, where from now on is known what is known where
/// they meet. It costs as [`join`] does.
pub fn join_here<T: Types>(
    alloc: Global,
    types: &mut T,
    first: &Flow,
    here: &mut Here,
) -> Result<(), Memory>
    requires first { VariablesBelow (length (T.atoms types.old)) first.now.variables }
    requires here { FlowBelow (length (T.atoms types.old)) (flow_of here.old) }
    ensures atoms { T.atoms types.new ≡ T.atoms types.old }
    ensures below { OnOk result (FlowBelow (length (T.atoms types.old)) (flow_of here.new)) }
    ensures is { OnOk result (IsJoin (T.atoms types.old) first.now (flow_of here.old) (flow_of here.new)) }
{
    let second = left(alloc, here);
    let joined = join(alloc, types, first, &second)?;
    let _nothing = here.enter(alloc, &joined)?;
    Ok(())
}

/// What is known where the first way meets the others, one after another. It costs a join for each of the others.
pub fn join_all<T: Types>(
    alloc: Global,
    types: &mut T,
    first: &Flow,
    others: &[Flow],
) -> Result<Flow, Memory>
    requires first { FlowBelow (length (T.atoms types.old)) first.now }
    requires others { All (FlowBelow (length (T.atoms types.old))) others.now }
    ensures atoms { T.atoms types.new ≡ T.atoms types.old }
    ensures below { IfOk result (FlowBelow (length (T.atoms types.old))) }
    ensures is { IfOk result (JoinsFrom (T.atoms types.old) first.now others.now) }
{
    let mut joined = copy_flow(alloc, first)?;
    for other in others {
        joined = join(alloc, types, &joined, other)?;
    }
    Ok(joined)
}
