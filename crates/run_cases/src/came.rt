//! What comes of a call, and whether it is what is wanted.
ghost use Rattle.std.specs.Prelude.{◌≡◌, ◌↔◌, IfOk, IsTrue};
ghost use Rattle.run_cases.specs.Came.{IsCameOf, IsSeenOf};
ghost use Rattle.run_cases.specs.Wanted.{AsWanted, AreCountsWanted, IsCountWanted, IsDirWanted, IsTextWanted};
ghost use Rattle.bal_io.specs.Content.{IsPrefixOf};

use crate::case::{Call, Wanted, WantedCounts, WantedDir, WantedText};
use bal_base::Memory;
use bal_io::{MemFolder, MemSink, MemSource};
use bal_run::{Run, bal_run, dir_of, status_number};
use std::alloc::Global;

/// What came of a call.
#[derive(Drop)]
pub struct Came {
    /// The status as a number.
    pub status: u64,
    pub stdout: Vec<u8>,
    pub stderr: Vec<u8>,
    /// The folder that the words name.
    pub dir: Option<String>,
    pub counts: Counts,
}

/// The counts of a run.
#[derive(Clone, Copy)]
pub struct Counts {
    /// How many ticks were spent.
    pub spent: u64,
    pub turns: u64,
}

/// Makes the call.
pub fn came_of(alloc: Global, call: Call) -> Result<Came, Memory>
    ensures { IfOk result (IsCameOf call) }
{
    let dir = dir_of(alloc, call.words.as_slice())?;
    let mut folder = MemFolder::new(call.files, call.folder_fails);
    let mut input = MemSource::new(call.input, call.input_fails);
    let mut out = call.stdout.into_sink(alloc);
    let mut diag = call.stderr.into_sink(alloc);
    let run = bal_run(
        alloc,
        call.words.as_slice(),
        &mut folder,
        &mut input,
        &mut out,
        &mut diag,
    );
    seen(alloc, dir, &run, &out, &diag)
}

/// What is to be seen of a run and of the outputs after it, beside the folder that the words name.
fn seen(
    alloc: Global,
    dir: Option<String>,
    run: &Run,
    out: &MemSink,
    diag: &MemSink,
) -> Result<Came, Memory>
    ensures seen { IfOk result (IsSeenOf run.now out.now diag.now) }
    ensures dir { IfOk result (λ came. came.dir ≡ dir) }
{
    Ok(Came {
        status: u64::from(status_number(&run.status)),
        stdout: Vec::from_slice(alloc, out.written())?,
        stderr: Vec::from_slice(alloc, diag.written())?,
        dir,
        counts: Counts {
            spent: run.spent,
            turns: run.turns,
        },
    })
}

/// Whether all is as it is wanted.
pub fn is_as_wanted(wanted: &Wanted, came: &Came) -> bool
    ensures { IsTrue result ↔ AsWanted wanted.now came.now }
{
    came.status == wanted.status
        && is_text_wanted(&wanted.stdout, came.stdout.as_slice())
        && is_text_wanted(&wanted.stderr, came.stderr.as_slice())
        && is_dir_wanted(&wanted.dir, &came.dir)
        && are_counts_as_wanted(wanted.counts, came.counts)
}

/// Whether an output is the text that is wanted, or begins with it.
pub fn is_text_wanted(wanted: &WantedText, came: &[u8]) -> bool
    ensures { IsTrue result ↔ IsTextWanted wanted.now came.now }
{
    match wanted {
        WantedText::Whole(text) => came == text.as_slice(),
        WantedText::Front(text) => begins_with(came, text.as_slice()),
    }
}

/// Whether a text begins with another one.
fn begins_with(text: &[u8], front: &[u8]) -> bool
    ensures { IsTrue result ↔ IsPrefixOf front.now text.now }
{
    text.starts_with(front)
}

/// Whether the words name the folder that they are to name.
pub fn is_dir_wanted(wanted: &WantedDir, came: &Option<String>) -> bool
    ensures { IsTrue result ↔ IsDirWanted wanted.now came.now }
{
    match wanted {
        WantedDir::Any => true,
        WantedDir::Missing => came.is_none(),
        WantedDir::Named(name) => match came {
            Some(dir) => dir == name,
            None => false,
        },
    }
}

/// Whether the counts are as they are wanted.
fn are_counts_as_wanted(wanted: WantedCounts, came: Counts) -> bool
    ensures { IsTrue result ↔ AreCountsWanted wanted came }
{
    is_wanted(wanted.spent, came.spent) && is_wanted(wanted.turns, came.turns)
}

/// Whether a count is as it is wanted, which it is where nothing is said of it.
fn is_wanted(wanted: Option<u64>, came: u64) -> bool
    ensures { IsTrue result ↔ IsCountWanted wanted came }
{
    match wanted {
        Some(wanted) => came == wanted,
        None => true,
    }
}
