//! The top call.
ghost use Rattle.std.specs.Prelude.{◌≡◌, ◌≤◌, ℕ, List, None, length};
ghost use Rattle.bal_base.specs.declared.text.Text.{Text};
ghost use Rattle.command_words.specs.Commands as command;
ghost use Rattle.command_words.specs.Commands.{request_of};
ghost use Rattle.command_words.specs.declared.command.TheConstants.{MOST_WORD_BYTES};
ghost use Rattle.machine_model.specs.Runs.{AreWords};
ghost use Rattle.bal_tree.specs.declared.package.Module.{Module as ModuleOf};
ghost use Rattle.bal_run.specs.Due.{Obeyed, QuestionEnded, StatusIsDue, TellingEnded};
ghost use Rattle.bal_run.specs.OfChecks.{CheckIsTold};
ghost use Rattle.bal_run.specs.OfCode.{IsCodeTold};
ghost use Rattle.bal_run.specs.OfDiagnostics.{AreDiagnosticsTold};
ghost use Rattle.bal_run.specs.OfInput.{IsInputTold};
ghost use Rattle.bal_run.specs.OfPairs.{ArePairsTold};
ghost use Rattle.bal_run.specs.OfQuestions.{QuestionIsTold};
ghost use Rattle.bal_run.specs.OfRuns.{RunIsTold};
ghost use Rattle.bal_run.specs.OfWords.{AreJudged};
ghost use Rattle.status_texts.specs.Outside.{SourceTells, folder_tells, outside, sink_tells, source_tells};
ghost use Rattle.folder_programs.specs.Packages.{source_modules};
ghost use Rattle.status_texts.specs.Report.{CanReport, Reports};
ghost use Rattle.bal_run.specs.Words.{AsksFor};
ghost use Rattle.bal_run.specs.Work.{IsFit, IsStatusUnanswered, IsWorkOf};
ghost use Rattle.status_texts.specs.declared.status.Status.{Status as AnyStatus};

use crate::telling::{tell, told};
use bal_base::{Memory, Stop};
use bal_io::{Folder, Sink, Source};
use bal_tree::{Module, Package};
use command_words::{Command, Mode, command_of};
use folder_programs::{AnswerFault, CompileFault, Telling, answer, compile, execute};
use package_runs::Bounds;
use status_texts::{Run, Status, report};
use std::alloc::Global;

/// Compiles the folder's package and runs it, or only says that it is accepted, or tells its pairs or its code, or answers whether one
/// type is below another in it, as the words say.
///
/// The program's output goes to `out`, one call for each line that it prints, and so do the answer to a question and, of a program that
/// isn't run, the word `ok` or the text of its pairs or of its code, each by one call. The text of a status other than `Done` goes to
/// `diag`. The input is read to its end before the program runs, where that calls `io:readln`, and else it isn't touched. Each failure of
/// an object of the outside ends the call, and nothing is written to `out` after it.
pub fn bal_run<F: Folder, I: Source, O: Sink, E: Sink>(
    alloc: Global,
    words: &[String],
    folder: &mut F,
    input: &mut I,
    out: &mut O,
    diag: &mut E,
) -> Run
    // The whole: the status that is due, its cause, and how it became the answer.
    ensures answer { (due : AnyStatus) × (modules : List ModuleOf)
        × StatusIsDue words.now
        (outside (folder_tells (F.faults folder.old) (F.files folder.old)) (source_tells (I.faults input.old) (I.rest input.old)) (sink_tells (O.faults out.old) (O.written out.old)))
        (outside (folder_tells (F.faults folder.new) (F.files folder.new)) (source_tells (I.faults input.new) (I.rest input.new)) (sink_tells (O.faults out.new) (O.written out.new)))
        result modules due
        × Reports modules due result.status (sink_tells (E.faults diag.old) (E.written diag.old)) (sink_tells (E.faults diag.new) (E.written diag.new)) }

    // The words, both ways.
    ensures words { AreJudged words.now
        (outside (folder_tells (F.faults folder.old) (F.files folder.old)) (source_tells (I.faults input.old) (I.rest input.old)) (sink_tells (O.faults out.old) (O.written out.old)))
        (outside (folder_tells (F.faults folder.new) (F.files folder.new)) (source_tells (I.faults input.new) (I.rest input.new)) (sink_tells (O.faults out.new) (O.written out.new)))
        result }

    // A program that is run: its faults, its run, its output and its status.
    ensures run { (texts : List Text) (ticks seed : ℕ) → AsksFor words.now (command.Run texts) ticks seed → RunIsTold texts ticks seed
        (outside (folder_tells (F.faults folder.old) (F.files folder.old)) (source_tells (I.faults input.old) (I.rest input.old)) (sink_tells (O.faults out.old) (O.written out.old)))
        (outside (folder_tells (F.faults folder.new) (F.files folder.new)) (source_tells (I.faults input.new) (I.rest input.new)) (sink_tells (O.faults out.new) (O.written out.new)))
        result }

    // A program that is checked: its faults, or that it is accepted.
    ensures check { (ticks seed : ℕ) → AsksFor words.now command.Check ticks seed → CheckIsTold
        (outside (folder_tells (F.faults folder.old) (F.files folder.old)) (source_tells (I.faults input.old) (I.rest input.old)) (sink_tells (O.faults out.old) (O.written out.old)))
        (outside (folder_tells (F.faults folder.new) (F.files folder.new)) (source_tells (I.faults input.new) (I.rest input.new)) (sink_tells (O.faults out.new) (O.written out.new)))
        result }

    // A program whose pairs are told: its faults, or the text of its pairs.
    ensures pairs { (ticks seed : ℕ) → AsksFor words.now command.Pairs ticks seed → ArePairsTold
        (outside (folder_tells (F.faults folder.old) (F.files folder.old)) (source_tells (I.faults input.old) (I.rest input.old))
        (sink_tells (O.faults out.old) (O.written out.old)))
        (outside (folder_tells (F.faults folder.new) (F.files folder.new)) (source_tells (I.faults input.new) (I.rest input.new))
        (sink_tells (O.faults out.new) (O.written out.new)))
        result }

    // A program whose code is told: its faults, or the text of a code of it.
    ensures code { (ticks seed : ℕ) → AsksFor words.now command.Code ticks seed → IsCodeTold
        (outside (folder_tells (F.faults folder.old) (F.files folder.old)) (source_tells (I.faults input.old) (I.rest input.old))
        (sink_tells (O.faults out.old) (O.written out.old)))
        (outside (folder_tells (F.faults folder.new) (F.files folder.new)) (source_tells (I.faults input.new) (I.rest input.new))
        (sink_tells (O.faults out.new) (O.written out.new)))
        result }

    // A question of types: its answer, or why it has none.
    ensures subtype { (s t : List ℕ) (ticks seed : ℕ) → AsksFor words.now (command.Subtype s t) ticks seed → QuestionIsTold s t
        (outside (folder_tells (F.faults folder.old) (F.files folder.old)) (source_tells (I.faults input.old) (I.rest input.old)) (sink_tells (O.faults out.old) (O.written out.old)))
        (outside (folder_tells (F.faults folder.new) (F.files folder.new)) (source_tells (I.faults input.new) (I.rest input.new)) (sink_tells (O.faults out.new) (O.written out.new)))
        result }

    // What the diagnostics gained, and their count.
    ensures diag { AreDiagnosticsTold words.now (F.files folder.old) result.status (sink_tells (E.faults diag.old) (E.written diag.old)) (sink_tells (E.faults diag.new) (E.written diag.new)) }

    // The input is touched only where a program asks for it.
    ensures input { IsInputTold
        (outside (folder_tells (F.faults folder.old) (F.files folder.old)) (source_tells (I.faults input.old) (I.rest input.old)) (sink_tells (O.faults out.old) (O.written out.old)))
        (outside (folder_tells (F.faults folder.new) (F.files folder.new)) (source_tells (I.faults input.new) (I.rest input.new)) (sink_tells (O.faults out.new) (O.written out.new)))
        result }
{
    let Worked { run, source } = work(alloc, words, folder, input, out);
    let status = report(alloc, run.status, modules_of(&source), diag);
    Run {
        status,
        built: run.built,
        turns: run.turns,
        spent: run.spent,
    }
}

/// What was done, whose text is not written yet, and the package in whose files the events that it shows are found.
#[derive(Drop)]
struct Worked {
    run: Run,
    source: Option<Package>,
}

/// The modules of the package, where there is one.
fn modules_of(source: &Option<Package>) -> &[Module]
    ensures { result.now ≡ source_modules source.now }
{
    match source {
        Some(source) => source.modules.as_slice(),
        None => &[],
    }
}

/// Does what the words say. The status is the one that is due.
fn work<F: Folder, I: Source, O: Sink>(
    alloc: Global,
    words: &[String],
    folder: &mut F,
    input: &mut I,
    out: &mut O,
) -> Worked
    ensures due { StatusIsDue words.now
        (outside (folder_tells (F.faults folder.old) (F.files folder.old)) (source_tells (I.faults input.old) (I.rest input.old)) (sink_tells (O.faults out.old) (O.written out.old)))
        (outside (folder_tells (F.faults folder.new) (F.files folder.new)) (source_tells (I.faults input.new) (I.rest input.new)) (sink_tells (O.faults out.new) (O.written out.new)))
        result.run (source_modules result.source) result.run.status }
    ensures text { CanReport result.run.status }
{
    match command_of(alloc, words) {
        Ok(Some(command)) => obey(alloc, &command, folder, input, out),
        Ok(None) => work_of(not_run(Status::Words)),
        Err(Memory) => work_of(not_run(Status::Memory)),
    }
}

/// Does what a good command asks for.
fn obey<F: Folder, I: Source, O: Sink>(
    alloc: Global,
    command: &Command<'_>,
    folder: &mut F,
    input: &mut I,
    out: &mut O,
) -> Worked
    requires { IsFit (request_of command.now).purpose }
    ensures due { Obeyed (request_of command.now).purpose command.now.ticks command.now.seed
        (outside (folder_tells (F.faults folder.old) (F.files folder.old)) (source_tells (I.faults input.old) (I.rest input.old)) (sink_tells (O.faults out.old) (O.written out.old)))
        (outside (folder_tells (F.faults folder.new) (F.files folder.new)) (source_tells (I.faults input.new) (I.rest input.new)) (sink_tells (O.faults out.new) (O.written out.new)))
        result.run (source_modules result.source) result.run.status }
    ensures text { CanReport result.run.status }
{
    match &command.mode {
        Mode::Run { words } => {
            let bounds = Bounds {
                words: words.as_slice(),
                ticks: command.ticks,
                seed: command.seed,
            };
            compile_and_run(alloc, bounds, folder, input, out)
        }
        Mode::Check => compile_and_tell(alloc, Telling::Accepted, folder, out),
        Mode::Pairs => compile_and_tell(alloc, Telling::Pairs, folder, out),
        Mode::Code => compile_and_tell(alloc, Telling::Code, folder, out),
        Mode::Subtype { left, right } => work_of(not_run(ask(alloc, left, right, folder, out))),
    }
}

/// Compiles and runs.
fn compile_and_run<F: Folder, I: Source, O: Sink>(
    alloc: Global,
    bounds: Bounds<'_>,
    folder: &mut F,
    input: &mut I,
    out: &mut O,
) -> Worked
    requires words { AreWords bounds.words.now }
    ensures due { Obeyed (command.Run bounds.entry.words.now) bounds.entry.ticks bounds.entry.seed
        (outside (folder_tells (F.faults folder.old) (F.files folder.old)) (source_tells (I.faults input.old) (I.rest input.old)) (sink_tells (O.faults out.old) (O.written out.old)))
        (outside (folder_tells (F.faults folder.new) (F.files folder.new)) (source_tells (I.faults input.new) (I.rest input.new)) (sink_tells (O.faults out.new) (O.written out.new)))
        result.run (source_modules result.source) result.run.status }
    ensures text { CanReport result.run.status }
{
    match compile(alloc, folder) {
        Ok(ready) => work_of(execute(alloc, ready, bounds, input, out)),
        Err(stop) => not_compiled(stop),
    }
}

/// Compiles, and tells this of the program. The input, whatever it tells, isn't touched.
fn compile_and_tell<F: Folder, O: Sink>(
    alloc: Global,
    telling: Telling,
    folder: &mut F,
    out: &mut O,
) -> Worked
    ensures due { (i : SourceTells) → TellingEnded telling
        (outside (folder_tells (F.faults folder.old) (F.files folder.old)) i (sink_tells (O.faults out.old) (O.written out.old)))
        (outside (folder_tells (F.faults folder.new) (F.files folder.new)) i (sink_tells (O.faults out.new) (O.written out.new)))
        result.run (source_modules result.source) result.run.status }
    ensures text { CanReport result.run.status }
{
    match compile(alloc, folder) {
        Ok(ready) => work_of(told(alloc, telling, ready, out)),
        Err(stop) => not_compiled(stop),
    }
}

/// What was done of a folder that does not compile.
fn not_compiled(stop: Stop<CompileFault>) -> Worked
    ensures { IsWorkOf stop result }
{
    match stop {
        Stop::Memory => work_of(not_run(Status::Memory)),
        Stop::Fault(CompileFault::Folder) => work_of(not_run(Status::FolderFault)),
        Stop::Fault(CompileFault::Source(refusing)) => Worked {
            run: not_run(Status::Refused(refusing.refusal)),
            source: refusing.source,
        },
    }
}

/// The run as what was done, which shows nothing of a package.
fn work_of(run: Run) -> Worked
    ensures { result ≡ record { run = run; source = None } }
{
    Worked { run, source: None }
}

/// Answers the question whether every shape of `s` is one of `t`.
fn ask<F: Folder, O: Sink>(alloc: Global, s: &str, t: &str, folder: &mut F, out: &mut O) -> Status
    requires left { length s.now ≤ MOST_WORD_BYTES }
    requires right { length t.now ≤ MOST_WORD_BYTES }
    ensures ended { (i j : SourceTells) → QuestionEnded s.now t.now
        (outside (folder_tells (F.faults folder.old) (F.files folder.old)) i (sink_tells (O.faults out.old) (O.written out.old)))
        (outside (folder_tells (F.faults folder.new) (F.files folder.new)) j (sink_tells (O.faults out.new) (O.written out.new)))
        result }
    ensures text { CanReport result }
{
    match answer(alloc, folder, s, t) {
        Ok(text) => tell(text.as_str(), out),
        Err(stop) => unanswered_status(stop),
    }
}

/// The run of a call that compiled nothing.
fn not_run(status: Status) -> Run
    ensures { result ≡ record { status = status; built = None; turns = 0; spent = 0 } }
{
    Run {
        status,
        built: None,
        turns: 0,
        spent: 0,
    }
}

/// The status of a folder in which a question has no answer.
fn unanswered_status(stop: Stop<AnswerFault>) -> Status
    ensures { IsStatusUnanswered stop result }
{
    match stop {
        Stop::Memory => Status::Memory,
        Stop::Fault(AnswerFault::Folder) => Status::FolderFault,
        Stop::Fault(AnswerFault::Source(refusal)) => Status::Refused(refusal),
    }
}
