//! Reading an input to its end.
ghost use Rattle.std.specs.Prelude.{◌≡◌, ◌++◌, IfOk, OnErr, OnOk};
ghost use Rattle.bal_io.specs.Content.{LosesFront, Told};
ghost use Rattle.bal_io.specs.Faults.{CountsFaults};
ghost use Rattle.whole_input.specs.Lines.{IsReadWhole};
ghost use Rattle.whole_input.specs.inner.Ends.{TakesMore, ends_with_return as has_return, ended_by, line_end as end_of, shown};

use bal_base::{Failed, Memory, Stop};
use bal_io::{Line, Source};
use std::alloc::Global;

/// The most bytes of a line of input.
const MOST_LINE_BYTES: u64 = 67_108_864;

/// Reads what is left of the input, and gives bytes that give the same lines: a program that asks for lines of at most 67,108,864 bytes
/// is given the same by both, call by call. They are the bytes of the lines, each with a line end of its own, since an input doesn't
/// tell how a line ended; a line that is cut goes on behind its first bytes.
///
/// `Failed` where a call on the input failed. Where it doesn't succeed, some first part of the input was taken. It takes time and room
/// that grow with the input, and comes back only where the input ends.
pub fn read_whole<S: Source>(alloc: Global, source: &mut S) -> Result<Vec<u8>, Stop<Failed>>
    ensures faults { CountsFaults (S.faults source.old) (S.faults source.new) result }
    ensures lines { IfOk result (λ bytes. Told (IsReadWhole bytes.items) (S.rest source.old) (S.rest source.new)) }
    ensures err { OnErr result (Told LosesFront (S.rest source.old) (S.rest source.new)) }
{
    let mut bytes = Vec::new(alloc);
    for _ in 0..u64::MAX {
        match read_more(alloc, source, &mut bytes) {
            Ok(true) => {}
            Ok(false) => return Ok(bytes),
            Err(stop) => return Err(stop),
        }
    }
    Err(Stop::Memory)
}

/// Reads one more line, where one is left, and puts it behind the bytes.
fn read_more<S: Source>(
    alloc: Global,
    source: &mut S,
    bytes: &mut Vec<u8>,
) -> Result<bool, Stop<Failed>>
    ensures faults { CountsFaults (S.faults source.old) (S.faults source.new) result }
    ensures more { IfOk result (λ more. Told (TakesMore more bytes.old.items bytes.new.items) (S.rest source.old) (S.rest source.new)) }
    ensures err { OnErr result (Told LosesFront (S.rest source.old) (S.rest source.new)) }
{
    match source.read_line(alloc, MOST_LINE_BYTES) {
        Ok(Some(line)) => {
            match push_line(bytes, &line) {
                Ok(()) => Ok(true),
                Err(Memory) => Err(Stop::Memory),
            }
        }
        Ok(None) => Ok(false),
        Err(stop) => Err(stop),
    }
}

/// Puts a line behind the bytes, with its end.
fn push_line(bytes: &mut Vec<u8>, line: &Line) -> Result<(), Memory>
    ensures { OnOk result (bytes.new.items ≡ bytes.old.items ++ shown line.now) }
{
    bytes.extend_from_slice(line.bytes.as_slice())?;
    bytes.extend_from_slice(line_end(line))?;
    Ok(())
}

/// The end that a line is given.
fn line_end(line: &Line) -> &'static [u8]
    ensures { result.now ≡ end_of line.now }
{
    if line.whole {
        return whole_end(line.bytes.as_slice());
    }
    b""
}

/// That of a whole line.
fn whole_end(text: &[u8]) -> &'static [u8]
    ensures { result.now ≡ ended_by text.now }
{
    if (text.len() as u64) < MOST_LINE_BYTES {
        return b"\r\n";
    }
    if ends_with_return(text) {
        return b"";
    }
    b"\n"
}

fn ends_with_return(text: &[u8]) -> bool
    ensures { result ≡ has_return text.now }
{
    match text {
        [.., b'\r'] => true,
        _ => false,
    }
}
