//! Descriptors as they stand in a file, as types that are shared.
#![tactic(auto, using(check_kinds::proofs::Over::overs))]

ghost use Rattle.std.specs.Prelude.{◌≡◌, IfOk, length};
ghost use Rattle.checks.specs.Checks.{Comes};
ghost use Rattle.check_kinds.specs.Over.{ComesOver};
ghost use Rattle.descriptors.specs.Described.{described_whole};
ghost use Rattle.descriptors.specs.Descriptors.{descriptor_of};
ghost use Rattle.descriptors.specs.Steps.{AreNames, scope_of};
ghost use Rattle.type_model.specs.Calls.{KeepsTypes};
ghost use Rattle.type_model.specs.Defined.{TyBelow};
ghost use Rattle.check_words.specs.Stands.{SharedBelow};
ghost use Rattle.needs_of_functions.specs.Constants.{described_as};

use bal_base::{Fault, Memory, Stop};
use bal_tree::TypeTree;
use descriptors::{Names, Scope, describe};
use std::alloc::Global;
use std::rc::Rc;
use type_model::{Ty, Types};
use typed_tree::SharedTy;

/// The number as names have it. One that is too large is as if memory were wanted.
fn small(number: usize) -> Result<u32, Memory>
    ensures { IfOk result (λ n. n ≡ number) }
{
    if number > u32::MAX as usize {
        return Err(Memory);
    }
    Ok(number as u32)
}

/// The number, where there is one.
fn small_if(number: Option<usize>) -> Result<Option<u32>, Memory>
    ensures { IfOk result (λ n. n ≡ number) }
{
    match number {
        Some(number) => Ok(Some(small(number)?)),
        None => Ok(None),
    }
}

/// The numbers of a module and of its file.
fn numbers(scope: Scope) -> Result<(u32, Option<u32>), Memory>
    ensures { IfOk result (λ numbers. scope_of numbers.0 numbers.1 ≡ scope) }
{
    let home = small(scope.module)?;
    let file = small_if(scope.file)?;
    Ok((home, file))
}

/// The type of the descriptor, as it stands there.
fn described_type<T: Types>(
    alloc: Global,
    types: &mut T,
    names: &Names,
    scope: Scope,
    tree: &TypeTree,
) -> Result<Ty, Stop<Fault>>
    requires { AreNames (T.atoms types.old) names.now }
    ensures comes { Comes (described_whole names.now scope (descriptor_of tree.now)) (T.atoms types.old) result (T.atoms types.new) }
    ensures defined { IfOk result (TyBelow (length (T.atoms types.new))) }
    ensures kept { KeepsTypes (T.atoms types.old) (T.atoms types.new) }
    ensures names { AreNames (T.atoms types.new) names.now }
{
    match numbers(scope) {
        Ok((home, file)) => describe(alloc, types, names, home, file, tree),
        Err(Memory) => Err(Stop::Memory),
    }
}

/// The type of the descriptor, as it stands there, to be shared. Refusals and cost are those of `describe`.
pub(crate) fn described<T: Types>(
    alloc: Global,
    types: &mut T,
    names: &Names,
    scope: Scope,
    tree: &TypeTree,
) -> Result<SharedTy, Stop<Fault>>
    requires { AreNames (T.atoms types.old) names.now }
    ensures comes { ComesOver (described_as names.now scope tree.now) (T.atoms types.old) result (T.atoms types.new) }
    ensures below { IfOk result (SharedBelow (length (T.atoms types.new))) }
    ensures kept { KeepsTypes (T.atoms types.old) (T.atoms types.new) }
    ensures names { AreNames (T.atoms types.new) names.now }
{
    let t = described_type(alloc, types, names, scope, tree)?;
    Ok(Rc::new(alloc, t)?)
}
