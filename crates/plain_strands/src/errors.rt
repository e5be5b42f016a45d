//! Errors that the language names.
#![tactic(auto)]

ghost use Rattle.std.specs.Prelude.{◌≡◌, IfOk};
ghost use Rattle.value_model.specs.PanicName.{future_taken as future_taken_chars};
ghost use Rattle.op_model.specs.Rows.{gives_error};
ghost use Rattle.plain_run.specs.Came.{WorldStays, came_of};
ghost use Rattle.plain_run.specs.Held.{world_of};

use bal_base::{Memory, Text};
use plain_run::{Came, Entries, World, make_error};
use std::alloc::Global;
use value_model::Value;

/// The message of an error that stands for a result that was taken before.
pub(crate) fn future_taken(alloc: Global) -> Result<Text, Memory>
    ensures { IfOk result (λ t. t ≡ future_taken_chars) }
{
    Text::new(alloc, "{ballerina}FutureTaken")
}

/// An error with this message is given.
pub(crate) fn error_given(alloc: Global, world: &mut World, message: Text) -> Result<Came, Memory>
    ensures row { IfOk result (λ came. came_of came world.new ≡ gives_error (world_of world.old) message) }
    ensures stays { IfOk result (WorldStays world.old world.new) }
{
    match make_error(world, message, None, Entries::new(alloc))? {
        Some(number) => Ok(Came::Gave(Some(Value::Error(number)))),
        None => Ok(Came::PassesCells),
    }
}
