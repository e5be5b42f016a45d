//! The standard output and the standard error as outputs.
ghost use Rattle.std.specs.Prelude.{◌≡◌, true, false, ◌<◌, ◌≤◌, length, take, IfOk, OnOk, OnErr, MatchResult};
ghost use Rattle.bal_io.specs.Content.{Appends, AppendsFront};
ghost use Rattle.bal_io.specs.Streams.{IfKnown, stream_contents};

use crate::fault_count::{FaultCount, stop_of};
use crate::fronts::after;
use crate::outside::Sink;
use bal_base::{Failed, Stop};
use std::io::{ErrorKind, Stderr, Stdout, Write};
use std::marker::Model;

/// The standard output or the standard error, seen as which of the two it is and its count of failed calls.
/// It tells nothing of what was written. Each piece reaches the system before the call that writes it
/// returns.
///
/// The type parameters are the two streams.
#[derive(Drop)]
pub struct StdSink<O = Stdout, D = Stderr> {
    stream: Stream<O, D>,
    faults: FaultCount,
}

/// One of the two streams.
#[derive(Drop)]
pub(crate) enum Stream<O, D> {
    Output(O),
    Diagnostics(D),
}

impl<O, D> Model for StdSink<O, D> {
    ghost use Rattle.bal_io.specs.Faults.{StreamFaults};
    ghost use Rattle.bal_io.specs.Streams.{is_diagnostics};

    ghost Value = { StreamFaults };

    ghost view = { λ s. record { diagnostics = is_diagnostics s.stream; faults = s.faults } };
}

impl StdSink {
    /// The standard error where `diagnostics`, and else the standard output. Takes no memory.
    pub fn new(rt: &HostRuntime, diagnostics: bool) -> StdSink
        ensures { result ≡ record { diagnostics = diagnostics; faults = 0 } }
    {
        let stream = if diagnostics {
            Stream::Diagnostics(rt.stderr())
        } else {
            Stream::Output(rt.stdout())
        };
        StdSink {
            stream,
            faults: FaultCount::new(),
        }
    }
}

impl<O, D> StdSink<O, D> {
    /// An output to the stream. Takes no memory.
    pub fn to_output(stream: O) -> StdSink<O, D>
        ensures { result ≡ record { diagnostics = false; faults = 0 } }
    {
        StdSink {
            stream: Stream::Output(stream),
            faults: FaultCount::new(),
        }
    }

    /// An output for diagnostics to the stream. Takes no memory.
    pub fn to_diagnostics(stream: D) -> StdSink<O, D>
        ensures { result ≡ record { diagnostics = true; faults = 0 } }
    {
        StdSink {
            stream: Stream::Diagnostics(stream),
            faults: FaultCount::new(),
        }
    }
}

impl<O: Write, D: Write> Sink for StdSink<O, D> {
    ghost use Rattle.std.specs.Prelude.{None};

    ghost faults = { λ s. s.faults };

    ghost written = { λ _. None };

    fn write(&mut self, bytes: &[u8]) -> Result<(), Stop<Failed>> {
        let answer = self.stream.write_whole(bytes);
        self.faults.counted(answer)
    }
}

impl<O: Write, D: Write> Stream<O, D> {
    /// Writes all of the bytes to the stream, or fails after some of them.
    fn write_whole(&mut self, bytes: &[u8]) -> Result<(), Stop<Failed>>
        ensures ok { OnOk result (IfKnown (Appends bytes.now)
            (stream_contents O.contents D.contents self.old)
            (stream_contents O.contents D.contents self.new)) }
        ensures err { OnErr result (IfKnown (AppendsFront bytes.now)
            (stream_contents O.contents D.contents self.old)
            (stream_contents O.contents D.contents self.new)) }
    {
        match self {
            Stream::Output(stream) => write_whole(stream, bytes),
            Stream::Diagnostics(stream) => write_whole(stream, bytes),
        }
    }
}

/// Writes all of the bytes, or fails after some of them: where the stream does, and where it takes nothing
/// of what is left.
fn write_whole<W: Write>(stream: &mut W, bytes: &[u8]) -> Result<(), Stop<Failed>>
    ensures ok { OnOk result (IfKnown (Appends bytes.now) (W.contents stream.old) (W.contents stream.new)) }
    ensures err { OnErr result
        (IfKnown (AppendsFront bytes.now) (W.contents stream.old) (W.contents stream.new)) }
{
    let mut rest = bytes;
    for _ in 0..u64::MAX {
        if rest.is_empty() {
            return Ok(());
        }
        let size = write_some(stream, rest)?;
        rest = after(rest, size);
    }
    Err(Stop::Fault(Failed))
}

/// Writes a first part of the bytes, which are not none, and tells how many: none where the stream was
/// interrupted. It fails where the stream does, and where it takes nothing.
fn write_some<W: Write>(stream: &mut W, bytes: &[u8]) -> Result<usize, Stop<Failed>>
    ensures bound { IfOk result (λ size. size ≤ length bytes.now) }
    ensures ok { IfOk result (λ size.
        IfKnown (Appends (take size bytes.now)) (W.contents stream.old) (W.contents stream.new)) }
    ensures err { OnErr result (IfKnown (λ old new. new ≡ old) (W.contents stream.old) (W.contents stream.new)) }
{
    match stream.write(bytes) {
        Ok(0) => Err(Stop::Fault(Failed)),
        Ok(size) => Ok(size),
        Err(error) if error.kind() == ErrorKind::Interrupted => Ok(0),
        Err(error) => Err(stop_of(error)),
    }
}
