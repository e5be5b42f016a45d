//! Ints, and values of any kind.
ghost use Rattle.std.specs.Prelude.{IfOk, pos, unsigned_abs};
ghost use Rattle.operations.specs.declared.library.LibraryCall.TheVariants as call;
ghost use Rattle.op_model.specs.Library.{ParsesInt};
ghost use Rattle.op_model.specs.Rows.{GivesInt};
ghost use Rattle.op_model.specs.Strings as strings;
ghost use Rattle.plain_run.specs.Came.{WorldStays, came_of};
ghost use Rattle.plain_run.specs.Held.{world_of};
ghost use Rattle.plain_structures.specs.Rows.{RowStays};
ghost use Rattle.plain_library.specs.Calls.{IsCalled};
ghost use Rattle.plain_library.specs.Ints.{IsIntOf};

use bal_base::{Memory, Text};
use plain_run::{Came, Entries, World, gives_text, panics};
use plain_structures::gives_error;
use plain_texts::text_of;
use std::alloc::Global;
use value_model::{PanicName, Value};

/// The int without its sign.
fn gives_abs(alloc: Global, world: &mut World, n: i64) -> Result<Came, Memory>
    ensures row { IfOk result (λ came. GivesInt (world_of world.old) (pos (unsigned_abs n)) (came_of came world.new)) }
    ensures stays { IfOk result (WorldStays world.old world.new) }
{
    match n.checked_abs() {
        Some(n) => Ok(Came::Gave(Some(Value::Int(n)))),
        None => panics(alloc, world, PanicName::NumberOverflow),
    }
}

/// `n.abs()`
pub fn abs(alloc: Global, operands: &[Value], world: &mut World) -> Result<Option<Came>, Memory>
    ensures row { IfOk result (IsCalled call.Abs operands.now world.old world.new) }
    ensures stays { IfOk result (RowStays world.old world.new) }
{
    match operands {
        [Value::Int(n)] => {
            let came = gives_abs(alloc, world, *n)?;
            Ok(Some(came))
        }
        _ => Ok(None),
    }
}

/// The int that the text writes, where it writes one and there is such an int.
fn int_in(text: &Text) -> Option<i64>
    ensures { IsIntOf (strings.int_in text.now) result }
{
    match text.as_str().parse::<i64>() {
        Ok(n) => Some(n),
        Err(_) => None,
    }
}

/// The message of the error for a text that is no int.
const NUMBER_PARSING_ERROR: &str = "{ballerina}NumberParsingError";

/// The int that the text writes, or an error.
fn parses_int(alloc: Global, world: &mut World, text: &Text) -> Result<Came, Memory>
    ensures row { IfOk result (λ came. ParsesInt (world_of world.old) (strings.int_in text.now) (came_of came world.new)) }
    ensures stays { IfOk result (WorldStays world.old world.new) }
{
    match int_in(text) {
        Some(n) => Ok(Came::Gave(Some(Value::Int(n)))),
        None => {
            let message = Text::new(alloc, NUMBER_PARSING_ERROR)?;
            gives_error(world, message, None, Entries::new(alloc))
        }
    }
}

/// `int:fromString(s)`
pub fn from_string(
    alloc: Global,
    operands: &[Value],
    world: &mut World,
) -> Result<Option<Came>, Memory>
    ensures row { IfOk result (IsCalled call.FromString operands.now world.old world.new) }
    ensures stays { IfOk result (RowStays world.old world.new) }
{
    match operands {
        [Value::Str(text)] => {
            let came = parses_int(alloc, world, text)?;
            Ok(Some(came))
        }
        _ => Ok(None),
    }
}

/// `v.toString()`
pub fn to_string(
    alloc: Global,
    operands: &[Value],
    world: &mut World,
) -> Result<Option<Came>, Memory>
    ensures row { IfOk result (IsCalled call.ToString operands.now world.old world.new) }
    ensures stays { IfOk result (RowStays world.old world.new) }
{
    match operands {
        [v] => {
            let text = text_of(alloc, &world.heap, v)?;
            let came = gives_text(alloc, world, text)?;
            Ok(Some(came))
        }
        _ => Ok(None),
    }
}
