//! How a call of the top ends, and what it keeps.
ghost use Rattle.std.specs.Prelude.{◌≡◌};
ghost use Rattle.status_texts.specs.Status.{exit_status};

use bal_base::{LimitKind, Refusal, Ring, Text};
use bal_tree::Package;

/// What a call of the top came to.
#[derive(Drop)]
pub struct Run {
    /// How it ended.
    pub status: Status,
    /// The package that was compiled, if compiling succeeded.
    pub built: Option<Package>,
    /// How often a strand was picked to run, modulo 2 to the power 64, and 0 where no run came to an outcome.
    pub turns: u64,
    /// How many ticks were spent, and 0 where no run came to an outcome.
    pub spent: u64,
}

/// How a call of the top ended.
#[derive(Drop)]
pub enum Status {
    /// Main returned nil, and no strand can run; or what is told of a program that isn't run was written, or a question was answered.
    Done,
    /// Main or an initialiser returned an error with this message.
    ErrorReturned(Text),
    /// Main's strand ended by a panic with this message.
    Panicked(Text),
    /// The source program is refused.
    Refused(Refusal),
    /// So many ticks were spent, and the next step needs one.
    GoesOn { ticks: u64 },
    /// No strand is ready, and main has not ended: these wait for one another.
    Stalled { ring: Ring },
    /// The folder could not be read.
    FolderFault,
    /// The input could not be read.
    InputFault,
    /// The output could not be written.
    OutFault,
    /// Memory ran out.
    Memory,
    /// The words are no good command.
    Words,
    /// A step would pass a limit.
    Limit(LimitKind),
    /// The diagnostics could not be written.
    DiagFault,
}

/// The exit status of a program that ends so, from 0 to 12. Takes no memory.
pub fn status_number(status: &Status) -> u8
    ensures { result ≡ exit_status status.now }
{
    match status {
        Status::Done => 0,
        Status::ErrorReturned(_) => 1,
        Status::Panicked(_) => 2,
        Status::Refused(_) => 3,
        Status::GoesOn { .. } => 4,
        Status::Stalled { .. } => 5,
        Status::FolderFault => 6,
        Status::InputFault => 7,
        Status::OutFault => 8,
        Status::Memory => 9,
        Status::Words => 10,
        Status::Limit(_) => 11,
        Status::DiagFault => 12,
    }
}
