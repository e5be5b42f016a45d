//! Whether the one shape of a value is in a type.
ghost use Rattle.std.specs.Prelude.{IfOk};
ghost use Rattle.plain_run.specs.Held.{heap_of};
ghost use Rattle.plain_tests.specs.Shapes.{TellsOne};

use crate::shapes::one_shape;
use bal_base::Memory;
use plain_run::Heap;
use std::alloc::Global;
use subtype_decider::holds;
use type_model::{SemType, TypeEnv};
use value_model::Value;

/// Whether the one shape of a value, if it has one, is in the type.
pub(crate) fn by_shape(
    alloc: Global,
    env: &TypeEnv,
    heap: &Heap,
    v: &Value,
    t: &SemType,
) -> Result<bool, Memory>
    ensures { IfOk result (TellsOne (heap_of heap.now) env.now v.now t.now) }
{
    match one_shape(alloc, heap, v)? {
        None => Ok(true),
        Some(shape) => Ok(holds(env, &shape, t)),
    }
}
