//! The standard input as an input.
ghost use Rattle.std.specs.Prelude.{◌≡◌, ◌≤◌, length, vec_len, IfOk, IfSome, OnErr};
ghost use Rattle.bal_io.specs.Content.{ReadsLine, LosesFront};
ghost use Rattle.bal_io.specs.Fronts.{ReadsMore};
ghost use Rattle.bal_io.specs.Streams.{IfKnown};

use crate::fault_count::{FaultCount, stop_of};
use crate::fronts::{Extent, LineFront, front_of_line, without_return};
use crate::outside::{Line, Source};
use bal_base::{Bytes, Failed, Stop};
use std::alloc::Global;
use std::io::{BufRead, BufReader, ErrorKind};
use std::marker::Model;

/// The standard input, seen as its count of failed calls. It tells nothing of what is still to be read. It
/// reads ahead, so nothing else may read the same input meanwhile.
#[derive(Drop)]
pub struct StdSource<R: Input> {
    rt: R,
    reader: Option<BufReader<R::Reader>>,
    faults: FaultCount,
}

impl<R: Input> Model for StdSource<R> {
    ghost use Rattle.std.specs.Prelude.{ℕ};

    ghost Value = { ℕ };

    ghost view = { λ s. s.faults };
}

impl<R: Input> StdSource<R> {
    /// The standard input of the runtime. Takes no memory.
    pub fn new(rt: R) -> StdSource<R>
        ensures { result ≡ 0 }
    {
        StdSource {
            rt,
            reader: None,
            faults: FaultCount::new(),
        }
    }

    /// The reader, which is made where it isn't there yet.
    fn take_reader(&mut self, alloc: Global) -> Result<BufReader<R::Reader>, Stop<Failed>>
        ensures { self.new ≡ self.old }
    {
        match self.reader.take() {
            Some(reader) => Ok(reader),
            None => BufReader::new(alloc, self.rt.reader()).map_err(stop_of),
        }
    }
}

impl<R: Input> Source for StdSource<R> {
    ghost use Rattle.std.specs.Prelude.{None};

    ghost faults = { λ s. s };

    ghost rest = { λ _. None };

    fn read_line(&mut self, alloc: Global, max: u64) -> Result<Option<Line>, Stop<Failed>> {
        let answer = match self.take_reader(alloc) {
            Ok(mut reader) => {
                let line = next_line(&mut reader, alloc, max);
                self.reader = Some(reader);
                line
            }
            Err(stop) => Err(stop),
        };
        self.faults.counted(answer)
    }
}

/// How far a line was read.
#[derive(Clone, Copy)]
enum Progress {
    /// To its line feed, which isn't among its bytes.
    Ended,
    /// To as many bytes as are asked for, and more follow.
    Cut,
    /// To the end of the input.
    AtEnd,
    /// Not yet to any of these.
    GoesOn,
}

/// The next line of a reader, as `read_line` gives it.
fn next_line<B: BufRead>(
    reader: &mut B,
    alloc: Global,
    max: u64,
) -> Result<Option<Line>, Stop<Failed>>
    ensures line { IfOk result
        (λ line. IfKnown (ReadsLine max line) (B.remaining reader.old) (B.remaining reader.new)) }
    ensures bound { IfOk result (λ line. IfSome line (λ l. length l.bytes ≤ max)) }
    ensures err { OnErr result (IfKnown LosesFront (B.remaining reader.old) (B.remaining reader.new)) }
{
    let mut bytes = Vec::new(alloc);
    for _ in 0..u64::MAX {
        match read_more(reader, &mut bytes, max)? {
            Progress::Ended => {
                let size = without_return(bytes.as_slice()).len();
                bytes.truncate(size);
                return Ok(Some(line_of(bytes, true)));
            }
            Progress::Cut => return Ok(Some(line_of(bytes, false))),
            Progress::AtEnd if bytes.is_empty() => return Ok(None),
            Progress::AtEnd => return Ok(Some(line_of(bytes, true))),
            Progress::GoesOn => {}
        }
    }
    Err(Stop::Fault(Failed))
}

fn line_of(bytes: Vec<u8>, whole: bool) -> Line
    ensures { result ≡ record { bytes = bytes.items; whole = whole } }
{
    Line {
        bytes: Bytes::of(bytes),
        whole,
    }
}

/// Moves what one call of the reader gives of a line to the line's bytes, of which there are at most `max`.
fn read_more<B: BufRead>(
    reader: &mut B,
    line: &mut Vec<u8>,
    max: u64,
) -> Result<Progress, Stop<Failed>>
    requires { vec_len line.old ≤ max }
    ensures bound { vec_len line.new ≤ max }
    ensures ok { IfOk result (λ progress. IfKnown (ReadsMore max progress line.old.items line.new.items)
        (B.remaining reader.old) (B.remaining reader.new)) }
    ensures err { OnErr result
        (IfKnown (λ old new. new ≡ old) (B.remaining reader.old) (B.remaining reader.new)) }
{
    let bytes = match reader.fill_buf() {
        Ok(bytes) => bytes,
        Err(error) if error.kind() == ErrorKind::Interrupted => return Ok(Progress::GoesOn),
        Err(error) => return Err(stop_of(error)),
    };
    if bytes.is_empty() {
        return Ok(Progress::AtEnd);
    }
    let LineFront { text, extent } = front_of_line(bytes, max - line.len() as u64);
    line.extend_from_slice(text)?;
    let size = text.len();
    match extent {
        Extent::LineFeed => {
            reader.consume(size + 1);
            Ok(Progress::Ended)
        }
        Extent::Full => {
            reader.consume(size);
            Ok(Progress::Cut)
        }
        Extent::AllTaken => {
            reader.consume(size);
            Ok(Progress::GoesOn)
        }
    }
}
