//! Input.
ghost use Rattle.std.specs.Prelude.{◌≡◌, ◌≤◌, ℕ, [], IfOk, OnOk, chars, drop, length, position};
ghost use Rattle.std.specs.List.{position_or_len};
ghost use Rattle.bal_io.specs.Content as content;
ghost use Rattle.operations.specs.declared.library.LibraryCall.TheVariants as call;
ghost use Rattle.text_forms.specs.Forms.{written};
ghost use Rattle.op_model.specs.Library as library;
ghost use Rattle.op_model.specs.Texts.{text_of};
ghost use Rattle.plain_run.specs.declared.held.World.{World as WorldOf};
ghost use Rattle.plain_run.specs.Came.{WorldStays, came_of};
ghost use Rattle.plain_run.specs.Held.{world_of};
ghost use Rattle.plain_structures.specs.Rows.{RowStays};
ghost use Rattle.plain_library.specs.Calls.{IsCalled};
ghost use Rattle.plain_library.specs.Input.{IsTextIn, behind as behind_of, came_behind};

use crate::output::is_long;
use bal_base::{Memory, Text};
use plain_run::{Came, World, gives_text, panics};
use plain_texts::texts_of;
use std::alloc::Global;
use std::str;
use value_model::{PanicName, Value};

/// The most bytes of a line of input.
const MOST_LINE_BYTES: usize = 67_108_864;

/// Where the first line feed stands.
fn line_feed_at(bytes: &[u8]) -> Option<usize>
    ensures { result ≡ position content.is_line_feed bytes.now }
{
    bytes.iter().position(|b| *b == b'\n')
}

/// How many bytes the first line has, without its end.
fn line_size(bytes: &[u8]) -> usize
    ensures size { result ≡ position_or_len content.is_line_feed bytes.now }
    ensures within { result ≤ length bytes.now }
{
    match line_feed_at(bytes) {
        Some(at) => at,
        None => bytes.len(),
    }
}

/// The line without a carriage return at its end.
fn without_return(line: &[u8]) -> &[u8]
    ensures { result.now ≡ content.without_return line.now }
{
    match line {
        [text @ .., b'\r'] => text,
        _ => line,
    }
}

/// The first line as it is given.
fn line_text(bytes: &[u8]) -> &[u8]
    ensures { result.now ≡ content.line_text bytes.now }
{
    let size = line_size(bytes);
    if size < bytes.len() {
        without_return(&bytes[..size])
    } else {
        bytes
    }
}

/// The text of these bytes, where they are one.
fn text_in(alloc: Global, bytes: &[u8]) -> Result<Option<Text>, Memory>
    ensures { IfOk result (IsTextIn bytes.now) }
{
    match str::from_utf8(bytes) {
        Ok(text) => {
            let copy = Text::new(alloc, text)?;
            Ok(Some(copy))
        }
        Err(_) => Ok(None),
    }
}

/// The first line of the input, which isn't taken yet.
fn gives_line(alloc: Global, world: &mut World) -> Result<Came, Memory>
    ensures row { IfOk result (λ came. library.ReadsAs (world_of world.old) (content.line_text (world_of world.old).input) (came_of came world.new)) }
    ensures stays { IfOk result (WorldStays world.old world.new) }
{
    match text_in(alloc, line_text(world.input.as_slice()))? {
        Some(text) => gives_text(alloc, world, text),
        None => panics(alloc, world, PanicName::BadInput),
    }
}

/// Takes so many bytes of the input, or all where there are fewer.
fn take_input(world: &mut World, count: usize)
    ensures { world_of world.new ≡ library.with_input (world_of world.old) (drop count (world_of world.old).input) }
{
    let size = world.input.as_slice().len();
    let count = if count < size { count } else { size };
    world.input.drain(..count);
}

/// Takes so many bytes of the input, and writes this.
fn take_and_write(world: &mut World, count: usize, prompt: &String) -> Result<(), Memory>
    ensures { OnOk result (world_of world.new ≡ behind_of count (written prompt.now) (world_of world.old)) }
{
    take_input(world, count);
    world.output.extend_from_slice(prompt.as_bytes())?;
    Ok(())
}

/// What came, where so many bytes of the input are taken behind it and this is written. Where it passes the cells neither is
/// done, so it has to be known before.
fn behind(world: &mut World, came: Came, count: usize, prompt: &String) -> Result<Came, Memory>
    ensures row { IfOk result (λ new. came_of new world.new ≡ came_behind count (written prompt.now) (came_of came world.old)) }
    ensures stays { (old : WorldOf) → WorldStays old world.old came → IfOk result (WorldStays old world.new) }
{
    match came {
        Came::PassesCells => Ok(Came::PassesCells),
        Came::Gave(v) => {
            take_and_write(world, count, prompt)?;
            Ok(Came::Gave(v))
        }
        Came::Threw(e) => {
            take_and_write(world, count, prompt)?;
            Ok(Came::Threw(e))
        }
    }
}

/// The next line of the input, where this is written before it is read.
fn reads(alloc: Global, world: &mut World, prompt: &String) -> Result<Came, Memory>
    ensures row { IfOk result (λ came. library.Reads (library.written (world_of world.old) (written prompt.now)) (came_of came world.new)) }
    ensures stays { IfOk result (WorldStays world.old world.new) }
{
    let size = line_size(world.input.as_slice());
    if size > MOST_LINE_BYTES {
        let came = panics(alloc, world, PanicName::TooLong)?;
        return behind(world, came, MOST_LINE_BYTES, prompt);
    }
    let came = gives_line(alloc, world)?;
    behind(world, came, size + 1, prompt)
}

/// The next line of the input behind a prompt, which may be too long.
fn reads_after(alloc: Global, world: &mut World, values: &[Value]) -> Result<Came, Memory>
    ensures row { IfOk result (λ came. library.ReadsAfter (world_of world.old) (library.texts_of (world_of world.old) values.now) (came_of came world.new)) }
    ensures stays { IfOk result (WorldStays world.old world.new) }
{
    let prompt = texts_of(alloc, &world.heap, values)?;
    if is_long(&prompt) {
        return panics(alloc, world, PanicName::TooLong);
    }
    reads(alloc, world, &prompt)
}

/// `io:readln()` and `io:readln(p)`
pub fn readln(alloc: Global, operands: &[Value], world: &mut World) -> Result<Option<Came>, Memory>
    ensures row { IfOk result (IsCalled call.Readln operands.now world.old world.new) }
    ensures stays { IfOk result (RowStays world.old world.new) }
{
    if operands.len() > 1 {
        return Ok(None);
    }
    let came = reads_after(alloc, world, operands)?;
    Ok(Some(came))
}
