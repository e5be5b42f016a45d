//! What is told of a program that was compiled and doesn't run.
ghost use Rattle.std.specs.Prelude.{◌≡◌, Some};
ghost use Rattle.status_texts.specs.Outside.{sink_tells};
ghost use Rattle.status_texts.specs.Report.{CanReport};
ghost use Rattle.folder_programs.specs.Texts.{IsTextOf};
ghost use Rattle.bal_run.specs.Due.{IsTextTold, IsWritten};
ghost use Rattle.bal_run.specs.Work.{IsMadeWritten};

use bal_base::{Failed, Memory, Stop};
use bal_io::Sink;
use folder_programs::{Ready, Telling, program_text, source_of};
use status_texts::{Run, Status};
use std::alloc::Global;

/// Tells the text of a program.
pub fn told<O: Sink>(alloc: Global, telling: Telling, ready: Ready, out: &mut O) -> Run
    ensures kept { result.built ≡ Some ready.built.source }
    ensures counts { (result.turns ≡ 0) × (result.spent ≡ 0) }
    ensures told { IsTextTold (IsTextOf telling ready.types.atoms ready.built)
        (sink_tells (O.faults out.old) (O.written out.old)) (sink_tells (O.faults out.new) (O.written out.new)) result.status }
    ensures text { CanReport result.status }
{
    let status = tell_made(program_text(alloc, telling, &ready), out);
    Run {
        status,
        built: Some(source_of(ready)),
        turns: 0,
        spent: 0,
    }
}

/// Writes the text by one call, if there was memory for it.
fn tell_made<O: Sink>(text: Result<String, Memory>, out: &mut O) -> Status
    ensures written { IsMadeWritten text
        (sink_tells (O.faults out.old) (O.written out.old)) (sink_tells (O.faults out.new) (O.written out.new)) result }
    ensures text { CanReport result }
{
    match text {
        Ok(text) => tell(text.as_str(), out),
        Err(Memory) => Status::Memory,
    }
}

/// Writes the text by one call.
pub fn tell<O: Sink>(text: &str, out: &mut O) -> Status
    ensures written { IsWritten text.now
        (sink_tells (O.faults out.old) (O.written out.old)) (sink_tells (O.faults out.new) (O.written out.new)) result }
    ensures text { CanReport result }
{
    match out.write(text.as_bytes()) {
        Ok(()) => Status::Done,
        Err(Stop::Fault(Failed)) => Status::OutFault,
        Err(Stop::Memory) => Status::Memory,
    }
}
