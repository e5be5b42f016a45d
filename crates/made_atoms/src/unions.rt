//! Unions of any number of types.
#![tactic(auto)]

ghost use Rattle.std.specs.Prelude.{◌≡◌, All, IfOk, length};
ghost use Rattle.type_model.specs.Defined.{TyBelow};
ghost use Rattle.made_atoms.specs.Defs.{AnyOf};

use bal_base::Memory;
use check_kinds::union_of;
use descriptors::plain;
use std::alloc::Global;
use type_model::{BasicSet, SemType, Ty, Types};

/// The shapes of any of the types, without constructor choices. It is written anew with each of them, so it costs by their number and
/// by how much is written of what they have together.
pub fn any_of<T: Types>(alloc: Global, types: &mut T, all: &[Ty]) -> Result<Ty, Memory>
    requires { All (TyBelow (length (T.atoms types.old))) all.now }
    ensures atoms { T.atoms types.new ≡ T.atoms types.old }
    ensures below { IfOk result (TyBelow (length (T.atoms types.old))) }
    ensures is { IfOk result (AnyOf all.now (T.atoms types.old)) }
{
    let mut union = plain(alloc, SemType::Basic(BasicSet::Never));
    for t in all {
        union = union_of(alloc, types, &union.sem, &t.sem)?;
    }
    Ok(union)
}
