//! Errors.
ghost use Rattle.std.specs.Prelude.{◌≡◌, ◌∷◌, [], IfOk, option_copied, option_map, slice_get};
ghost use Rattle.plain_run.specs.Held.{error_of, heap_of};
ghost use Rattle.operations.specs.declared.library.LibraryCall.TheVariants as call;
ghost use Rattle.value_model.specs.declared.value.Value.TheVariants.{Error};
ghost use Rattle.op_model.specs.Library.{cause_value as cause_value_of};
ghost use Rattle.plain_library.specs.Calls.{IsCalled};

use bal_base::Memory;
use plain_run::{Came, ErrorObject, Heap, World};
use value_model::Value;

/// The error with this number, where it is there.
#[tactic(auto, using(crate::proofs::Given::held_errors))]
fn error_at(heap: &Heap, n: u32) -> Option<&ErrorObject>
    ensures { option_map error_of (option_copied result) ≡ slice_get (heap_of heap.now).errors n }
{
    heap.errors.get(n as usize)
}

/// The message of the error with this number.
fn message_of(world: &World, n: u32) -> Result<Option<Came>, Memory>
    ensures { IfOk result (IsCalled call.Message (Error n ∷ []) world.now world.now) }
{
    match error_at(&world.heap, n) {
        None => Ok(None),
        Some(e) => Ok(Some(Came::Gave(Some(Value::Str(e.message.share()))))),
    }
}

/// `e.message()`
pub fn message(operands: &[Value], world: &World) -> Result<Option<Came>, Memory>
    ensures { IfOk result (IsCalled call.Message operands.now world.now world.now) }
{
    match operands {
        [Value::Error(n)] => message_of(world, *n),
        _ => Ok(None),
    }
}

/// The cause as a value.
fn cause_value(cause: Option<u32>) -> Value
    ensures { result ≡ cause_value_of cause }
{
    match cause {
        Some(n) => Value::Error(n),
        None => Value::Nil,
    }
}

/// The cause of the error with this number.
fn cause_of(world: &World, n: u32) -> Result<Option<Came>, Memory>
    ensures { IfOk result (IsCalled call.Cause (Error n ∷ []) world.now world.now) }
{
    match error_at(&world.heap, n) {
        None => Ok(None),
        Some(e) => Ok(Some(Came::Gave(Some(cause_value(e.cause))))),
    }
}

/// `e.cause()`
pub fn cause(operands: &[Value], world: &World) -> Result<Option<Came>, Memory>
    ensures { IfOk result (IsCalled call.Cause operands.now world.now world.now) }
{
    match operands {
        [Value::Error(n)] => cause_of(world, *n),
        _ => Ok(None),
    }
}

/// The detail of the error with this number.
fn detail_of(world: &World, n: u32) -> Result<Option<Came>, Memory>
    ensures { IfOk result (IsCalled call.Detail (Error n ∷ []) world.now world.now) }
{
    match error_at(&world.heap, n) {
        None => Ok(None),
        Some(e) => Ok(Some(Came::Gave(Some(Value::Struct(e.detail))))),
    }
}

/// `e.detail()`
pub fn detail(operands: &[Value], world: &World) -> Result<Option<Came>, Memory>
    ensures { IfOk result (IsCalled call.Detail operands.now world.now world.now) }
{
    match operands {
        [Value::Error(n)] => detail_of(world, *n),
        _ => Ok(None),
    }
}
