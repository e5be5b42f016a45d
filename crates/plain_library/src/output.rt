//! Output.
ghost use Rattle.std.specs.Prelude.{◌≡◌, ℕ, IfOk, length, nat_lt, true};
ghost use Rattle.std.specs.List.{list_all};
ghost use Rattle.std.specs.Char.{is_ascii};
ghost use Rattle.operations.specs.declared.library.LibraryCall.TheVariants as call;
ghost use Rattle.value_model.specs.declared.value.Value.TheVariants.{Nil};
ghost use Rattle.text_forms.specs.Forms.{written};
ghost use Rattle.op_model.specs.Rows.{gives};
ghost use Rattle.op_model.specs.Library as library;
ghost use Rattle.op_model.specs.Limits.{most_code_points};
ghost use Rattle.plain_run.specs.Came.{WorldStays, came_of};
ghost use Rattle.plain_run.specs.Held.{world_of};
ghost use Rattle.plain_structures.specs.Rows.{RowStays};
ghost use Rattle.plain_library.specs.Calls.{IsCalled};

use bal_base::Memory;
use plain_run::{Came, MOST_CODE_POINTS, World, panics};
use plain_texts::texts_of;
use std::alloc::Global;
use text_forms::add_word;
use value_model::{PanicName, Value};

/// Whether a string may not be as long.
pub fn is_long(text: &String) -> bool
    ensures { result ≡ nat_lt most_code_points (length (written text.now)) }
{
    text.as_str().chars().count() > MOST_CODE_POINTS
}

/// The bytes of the text are written.
fn writes(world: &mut World, text: &String) -> Result<Came, Memory>
    ensures row { IfOk result (λ came. came_of came world.new ≡ gives (library.written (world_of world.old) (written text.now)) Nil) }
    ensures stays { IfOk result (WorldStays world.old world.new) }
{
    world.output.extend_from_slice(text.as_bytes())?;
    Ok(Came::Gave(Some(Value::Nil)))
}

/// The texts of the values are written, and then the end.
fn prints(alloc: Global, world: &mut World, values: &[Value], end: &str) -> Result<Came, Memory>
    requires { list_all is_ascii end.now ≡ true }
    ensures row { IfOk result (λ came. library.Prints (world_of world.old) (library.texts_of (world_of world.old) values.now) end.now (came_of came world.new)) }
    ensures stays { IfOk result (WorldStays world.old world.new) }
{
    let mut text = texts_of(alloc, &world.heap, values)?;
    if is_long(&text) {
        return panics(alloc, world, PanicName::TooLong);
    }
    add_word(&mut text, end)?;
    writes(world, &text)
}

/// `io:println(v, w)`
pub fn println(alloc: Global, operands: &[Value], world: &mut World) -> Result<Option<Came>, Memory>
    ensures row { IfOk result (IsCalled call.Println operands.now world.old world.new) }
    ensures stays { IfOk result (RowStays world.old world.new) }
{
    let came = prints(alloc, world, operands, "\n")?;
    Ok(Some(came))
}

/// `io:print(v, w)`
pub fn print(alloc: Global, operands: &[Value], world: &mut World) -> Result<Option<Came>, Memory>
    ensures row { IfOk result (IsCalled call.Print operands.now world.old world.new) }
    ensures stays { IfOk result (RowStays world.old world.new) }
{
    let came = prints(alloc, world, operands, "")?;
    Ok(Some(came))
}
