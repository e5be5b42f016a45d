//! The texts of the statuses, and how the status that is due becomes the answer.
ghost use Rattle.std.specs.Prelude.{◌≡◌, ◌≢◌, ◌⊎◌, ℕ, List, [], IfOk, OnOk, OnErr, decimal, string_bytes};
ghost use Rattle.bal_io.specs.Content.{Told, Appends, AppendsFront};
ghost use Rattle.bal_io.specs.Faults.{CountsFaults, Rises};
ghost use Rattle.status_texts.specs.Outside.{sink_tells};
ghost use Rattle.status_texts.specs.Report.{CanReport, HasFixedText, HasMadeText, Reports, WroteFrontOfText};
ghost use Rattle.status_texts.specs.Status.{HasText, goes_on_text, ring_text, stalled_text};
ghost use Rattle.text_forms.specs.Forms.{Adds, written};

use crate::status::Status;
use bal_base::{Failed, LimitKind, Memory, Refusal, Ring, Stop, Text};
use bal_io::Sink;
use bal_report::refusal_text;
use bal_tree::Module;
use std::alloc::Global;
use text_forms::{add_if, add_number, add_word};

/// Tells the status that is due by one call, and gives the one that it comes to: itself, `DiagFault` where the call failed, or `Memory`,
/// which is told by a call of its own. Events are found in the files of the modules. Time and room grow with the text,
/// and for each event with its file and the number of files.
pub fn report<E: Sink>(alloc: Global, due: Status, modules: &[Module], diag: &mut E) -> Status
    requires { CanReport due }
    ensures { Reports modules.now due result
        (sink_tells (E.faults diag.old) (E.written diag.old)) (sink_tells (E.faults diag.new) (E.written diag.new)) }
{
    match due {
        Status::Done => Status::Done,
        Status::Memory => report_memory(diag),
        due => report_text(alloc, due, modules, diag),
    }
}

/// Tells a status that has a text.
fn report_text<E: Sink>(alloc: Global, due: Status, modules: &[Module], diag: &mut E) -> Status
    requires text { CanReport due }
    requires not_done { due ≢ Status.Done }
    requires no_memory { due ≢ Status.Memory }
    ensures { Reports modules.now due result
        (sink_tells (E.faults diag.old) (E.written diag.old)) (sink_tells (E.faults diag.new) (E.written diag.new)) }
{
    match write_text(alloc, &due, modules, diag) {
        Ok(()) => due,
        Err(Stop::Fault(Failed)) => Status::DiagFault,
        Err(Stop::Memory) => report_memory(diag),
    }
}

/// Tells that memory ran out, as far as it can be told.
fn report_memory<E: Sink>(diag: &mut E) -> Status
    ensures memory { result ≡ Status.Memory }
    ensures front { WroteFrontOfText [] Status.Memory (E.written diag.old) (E.written diag.new) }
    ensures faults { (E.faults diag.new ≡ E.faults diag.old) ⊎ Rises (E.faults diag.old) (E.faults diag.new) }
{
    let _ = diag.write(fixed_text(&Status::Memory));
    Status::Memory
}

/// Writes the text of the status by one call.
fn write_text<E: Sink>(
    alloc: Global,
    status: &Status,
    modules: &[Module],
    diag: &mut E,
) -> Result<(), Stop<Failed>>
    requires { CanReport status.now }
    ensures faults { CountsFaults (E.faults diag.old) (E.faults diag.new) result }
    ensures ok { (text : List ℕ) → HasText modules.now status.now text → OnOk result (Told (Appends text) (E.written diag.old) (E.written diag.new)) }
    ensures err { (text : List ℕ) → HasText modules.now status.now text → OnErr result (Told (AppendsFront text) (E.written diag.old) (E.written diag.new)) }
{
    match status {
        Status::ErrorReturned(_)
        | Status::Panicked(_)
        | Status::Refused(_)
        | Status::GoesOn { .. }
        | Status::Stalled { .. } => diag.write(made_text(alloc, status, modules)?.as_bytes()),
        other => diag.write(fixed_text(other)),
    }
}

/// The text of a status that says what came.
fn made_text(alloc: Global, status: &Status, modules: &[Module]) -> Result<String, Memory>
    requires { HasMadeText status.now }
    ensures { IfOk result (λ text. HasText modules.now status.now (string_bytes text)) }
{
    match status {
        Status::ErrorReturned(message) => error_text(alloc, message),
        Status::Panicked(message) => panic_text(alloc, message),
        Status::Refused(refusal) => refused_text(alloc, refusal, modules),
        Status::GoesOn { ticks } => goes_on_text(alloc, *ticks),
        Status::Stalled { ring } => stalled_text(alloc, ring),
        Status::Done | Status::FolderFault | Status::InputFault | Status::OutFault =>
            unreachable!(),
        Status::Memory | Status::Words | Status::Limit(_) | Status::DiagFault => unreachable!(),
    }
}

/// The text of an error with this message that was returned.
fn error_text(alloc: Global, message: &Text) -> Result<String, Memory>
    ensures { IfOk result (λ text. HasText [] (Status.ErrorReturned message.now) (string_bytes text)) }
{
    let message = message.as_str();
    Ok(format!(in alloc; "error: {message}\n")?)
}

/// The text of a panic with this message.
fn panic_text(alloc: Global, message: &Text) -> Result<String, Memory>
    ensures { IfOk result (λ text. HasText [] (Status.Panicked message.now) (string_bytes text)) }
{
    let message = message.as_str();
    Ok(format!(in alloc; "panic: {message}\n")?)
}

/// The text of a refusal: its place, where it has one, its code and what that says.
fn refused_text(alloc: Global, refusal: &Refusal, modules: &[Module]) -> Result<String, Memory>
    ensures { IfOk result (λ text. HasText modules.now (Status.Refused refusal.now) (string_bytes text)) }
{
    refusal_text(alloc, refusal, modules)
}

/// The text of a run that would go on after so many ticks.
fn goes_on_text(alloc: Global, ticks: u64) -> Result<String, Memory>
    ensures { IfOk result (λ text. HasText [] (Status.GoesOn ticks) (string_bytes text)) }
{
    let mut out = String::new(alloc);
    add_goes_on(&mut out, ticks)?;
    Ok(out)
}

/// Adds that text.
fn add_goes_on(out: &mut String, ticks: u64) -> Result<(), Memory>
    ensures { OnOk result (Adds (written out.old) (goes_on_text ticks) (written out.new)) }
{
    add_word(out, "goes on after ")?;
    add_number(out, ticks)?;
    add_word(out, " ticks\n")
}

/// The text of a run in which these strands wait for one another.
fn stalled_text(alloc: Global, ring: &Ring) -> Result<String, Memory>
    ensures { IfOk result (λ text. HasText [] (Status.Stalled ring.now) (string_bytes text)) }
{
    let mut out = String::new(alloc);
    add_stalled(&mut out, ring)?;
    Ok(out)
}

/// Adds that text.
fn add_stalled(out: &mut String, ring: &Ring) -> Result<(), Memory>
    ensures { OnOk result (Adds (written out.old) (stalled_text ring.now) (written out.new)) }
{
    add_word(out, "stalled: ")?;
    add_ring(out, ring.as_slice())?;
    add_word(out, "\n")
}

/// Adds the numbers of the strands, each behind the one before.
fn add_ring(out: &mut String, ring: &[u32]) -> Result<(), Memory>
    ensures { OnOk result (Adds (written out.old) (ring_text ring.now) (written out.new)) }
{
    for (i, strand) in ring.iter().enumerate() {
        add_if(out, i > 0, " -> ")?;
        add_strand(out, strand)?;
    }
    Ok(())
}

/// Adds the number of a strand.
fn add_strand(out: &mut String, strand: &u32) -> Result<(), Memory>
    ensures { OnOk result (Adds (written out.old) (decimal strand.now) (written out.new)) }
{
    add_number(out, *strand as u64)
}

/// The text of a status that says the same each time.
fn fixed_text(status: &Status) -> &'static [u8]
    requires { HasFixedText status.now }
    ensures { HasText [] status.now result.now }
{
    match status {
        Status::Done => b"",
        Status::FolderFault => b"cannot read the folder\n",
        Status::InputFault => b"cannot read the input\n",
        Status::OutFault => b"cannot write the output\n",
        Status::Memory => b"out of memory\n",
        Status::Words => USAGE,
        Status::Limit(LimitKind::Cells) => b"limit: heap cells\n",
        Status::Limit(LimitKind::Strands) => b"limit: strands\n",
        Status::ErrorReturned(_) | Status::Panicked(_) | Status::Refused(_) => unreachable!(),
        Status::GoesOn { .. } | Status::Stalled { .. } | Status::DiagFault => unreachable!(),
    }
}

const USAGE: &[u8] =
    b"usage: bal_run DIR [WORDS] [--mode run|check|pairs|code|subtype|make] [--ticks N] [--seed N]\n";
