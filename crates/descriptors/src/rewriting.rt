//! Types that are written again.
ghost use Rattle.std.specs.Prelude.{length};
ghost use Rattle.type_model.specs.Defined.{TyBelow};
ghost use Rattle.descriptors.specs.Described.{rewritten as rewritten_of};
ghost use Rattle.descriptors.specs.Steps.{Yields};

use bal_base::{Fault, Memory, Stop};
use std::alloc::Global;
use type_model::{Ty, Types};

/// A type with the same shapes and the same choices, written anew: what was put together of equal parts doesn't grow.
pub fn rewritten<T: Types>(alloc: Global, types: &mut T, t: Ty) -> Result<Ty, Stop<Fault>>
    requires { TyBelow (length (T.atoms types.old)) t }
    ensures { Yields TyBelow (rewritten_of t) (T.atoms types.old) result (T.atoms types.new) }
{
    let _atoms = types.env().defs();
    match types.compact(alloc, &t.sem) {
        Ok(sem) => Ok(Ty {
            sem,
            lists: t.lists,
            maps: t.maps,
        }),
        Err(Memory) => Err(Stop::Memory),
    }
}
