//! Copies.
ghost use Rattle.std.specs.Prelude.{IfOk};
ghost use Rattle.operations.specs.declared.library.LibraryCall.TheVariants as call;
ghost use Rattle.plain_structures.specs.Rows.{RowStays};
ghost use Rattle.plain_library.specs.Calls.{IsCalled};

use bal_base::Memory;
use plain_copies::{clones, freezes};
use plain_run::{Came, World};
use std::alloc::Global;
use value_model::Value;

/// `v.clone()`
pub fn clone(alloc: Global, operands: &[Value], world: &mut World) -> Result<Option<Came>, Memory>
    ensures row { IfOk result (IsCalled call.Clone operands.now world.old world.new) }
    ensures stays { IfOk result (RowStays world.old world.new) }
{
    match operands {
        [v] => {
            let came = clones(alloc, world, v)?;
            Ok(Some(came))
        }
        _ => Ok(None),
    }
}

/// `v.cloneReadOnly()`
pub fn clone_read_only(
    alloc: Global,
    operands: &[Value],
    world: &mut World,
) -> Result<Option<Came>, Memory>
    ensures row { IfOk result (IsCalled call.CloneReadOnly operands.now world.old world.new) }
    ensures stays { IfOk result (RowStays world.old world.new) }
{
    match operands {
        [v] => {
            let came = freezes(alloc, world, v)?;
            Ok(Some(came))
        }
        _ => Ok(None),
    }
}
