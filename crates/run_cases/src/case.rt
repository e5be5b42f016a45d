//! A case: a call of the top on objects in memory, and what is wanted of it.
ghost use Rattle.std.specs.Prelude.{◌≡◌};
ghost use Rattle.run_cases.specs.Came.{nothing_told, sink_told};

use crate::misread::{Misread, Read, refuse};
use bal_base::{Bytes, Memory, Name};
use bal_io::MemSink;
use std::alloc::Global;

/// A call of the top, and what is wanted of it.
#[derive(Drop)]
pub struct Case {
    pub call: Call,
    pub wanted: Wanted,
}

/// A call of the top on objects in memory.
#[derive(Drop)]
pub struct Call {
    /// The words of the command.
    pub words: Vec<String>,
    pub files: Vec<(Name, Bytes)>,
    /// The numbers of the calls on the folder that fail.
    pub folder_fails: Vec<u64>,
    pub input: Vec<u8>,
    /// The numbers of the calls on the input that fail.
    pub input_fails: Vec<u64>,
    pub stdout: SinkFaults,
    pub stderr: SinkFaults,
}

/// Which calls on an output fail.
#[derive(Drop)]
pub enum SinkFaults {
    /// Those with these numbers, which take nothing.
    Listed(Vec<u64>),
    /// One alone, which takes so many bytes.
    Cut { call: u64, taken: u64 },
}

/// What is wanted.
#[derive(Drop)]
pub struct Wanted {
    /// The status as a number.
    pub status: u64,
    pub stdout: WantedText,
    pub stderr: WantedText,
    pub dir: WantedDir,
    pub counts: WantedCounts,
}

/// What stands on an output.
#[derive(Drop)]
pub enum WantedText {
    /// This and nothing else.
    Whole(Vec<u8>),
    /// This, and whatever stands behind it.
    Front(Vec<u8>),
}

/// Which folder the words are to name.
#[derive(Drop)]
pub enum WantedDir {
    /// Nothing is said of it.
    Any,
    /// None, since they are no good command.
    Missing,
    /// The one of this name.
    Named(String),
}

/// What is wanted of the counts of a run, of each only where the case says it.
#[derive(Clone, Copy)]
pub struct WantedCounts {
    /// How many ticks were spent.
    pub spent: Option<u64>,
    pub turns: Option<u64>,
}

/// What stands before the statements of `main` and behind them, where a case tells these alone.
const BEFORE_MAIN: &str = "import ballerina/io;\npublic function main() {\n";

const AFTER_MAIN: &str = "}\n";

impl Call {
    /// The call with no words on an empty folder and an empty input, where nothing fails.
    pub fn new(alloc: Global) -> Call {
        Call {
            words: Vec::new(alloc),
            files: Vec::new(alloc),
            folder_fails: Vec::new(alloc),
            input: Vec::new(alloc),
            input_fails: Vec::new(alloc),
            stdout: SinkFaults::Listed(Vec::new(alloc)),
            stderr: SinkFaults::Listed(Vec::new(alloc)),
        }
    }

    /// Adds a file to the folder.
    pub fn add_file(&mut self, alloc: Global, name: &str, text: Vec<u8>) -> Result<(), Memory> {
        self.files.push((Name::new(alloc, name)?, Bytes::of(text)))?;
        Ok(())
    }

    /// Adds the file `main.bal` whose `main` has these statements.
    pub fn add_main(&mut self, alloc: Global, statements: &[u8]) -> Result<(), Memory> {
        let mut text = Vec::from_slice(alloc, BEFORE_MAIN.as_bytes())?;
        text.extend_from_slice(statements)?;
        text.extend_from_slice(AFTER_MAIN.as_bytes())?;
        self.add_file(alloc, "main.bal", text)
    }
}

impl WantedText {
    /// The text.
    pub fn text(&self) -> &[u8] {
        match self {
            WantedText::Whole(text) | WantedText::Front(text) => text.as_slice(),
        }
    }
}

impl SinkFaults {
    /// Lets further calls fail.
    pub fn list(&mut self, calls: &[u64]) -> Read<()> {
        match self {
            SinkFaults::Listed(all) => {
                all.extend_from_slice(calls)?;
                Ok(())
            }
            SinkFaults::Cut { .. } => refuse(Misread::Twice),
        }
    }

    /// Lets this one call fail, having taken so many bytes.
    pub fn cut(&mut self, call: u64, taken: u64) -> Read<()> {
        match self {
            SinkFaults::Listed(all) if all.is_empty() => {
                *self = SinkFaults::Cut { call, taken };
                Ok(())
            }
            _ => refuse(Misread::Twice),
        }
    }

    /// The output.
    pub fn into_sink(self, alloc: Global) -> MemSink
        ensures { sink_told result ≡ nothing_told }
    {
        match self {
            SinkFaults::Listed(calls) => MemSink::new(alloc, calls),
            SinkFaults::Cut { call, taken } => MemSink::cut(alloc, call, taken),
        }
    }
}
