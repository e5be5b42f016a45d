//! The texts of refusals.
#![tactic(auto, using(crate::proofs::ShapeRules::in_a_row))]

ghost use Rattle.std.specs.Prelude.{◌≡◌, IfOk, OnOk, nat_eq, true};
ghost use Rattle.std.specs.Cmp.Lexicographic.{pointwise};
ghost use Rattle.std.specs.List.{list_all};
ghost use Rattle.std.specs.Char.{is_ascii};
ghost use Rattle.bal_report.specs.RefusalText.{fault_text, is_argument, kept_text, missing_words, name_text, on_the_way, place_text, refusal_text, says as code_says, shows as code_shows, whole_words};
ghost use Rattle.text_forms.specs.Forms.{Adds, written};

use crate::events::add_events;
use crate::shapes::add_shape;
use bal_base::{Fault, FaultCode, Kept, Memory, Name, Refusal};
use bal_tree::Module;
use std::alloc::Global;
use text_forms::{add_if, add_number, add_text, add_word};

/// The text of a refusal, `FILE:LINE:COLUMN: CODE WORDS` or `CODE WORDS` with a line end. The modules are those of the
/// package, in whose files events are found by the numbers of the files. Takes time linear in the text and, for each event, in its file
/// and in the number of files.
pub fn refusal_text(alloc: Global, r: &Refusal, modules: &[Module]) -> Result<String, Memory>
    ensures { IfOk result (λ text. written text ≡ refusal_text modules.now r.now) }
{
    let mut out = String::new(alloc);
    add_refusal(&mut out, r, modules)?;
    Ok(out)
}

/// Adds the text of the refusal.
fn add_refusal(out: &mut String, r: &Refusal, modules: &[Module]) -> Result<(), Memory>
    ensures { OnOk result (Adds (written out.old) (refusal_text modules.now r.now) (written out.new)) }
{
    add_place(out, r)?;
    add_fault(out, is_argument(&r.file), &r.fault, modules)?;
    add_word(out, "\n")
}

/// Adds the place, where there is one.
fn add_place(out: &mut String, r: &Refusal) -> Result<(), Memory>
    ensures { OnOk result (Adds (written out.old) (place_text r.now r.now.fault.at) (written out.new)) }
{
    match r.fault.at {
        Some(_) => {
            add_text(out, r.file.as_str())?;
            add_word(out, ":")?;
            add_number(out, r.line as u64)?;
            add_word(out, ":")?;
            add_number(out, r.column as u64)?;
            add_word(out, ": ")
        }
        None => Ok(()),
    }
}

/// Whether the name stands for a word of the command.
fn is_argument(name: &Name) -> bool
    ensures { result ≡ is_argument name.now }
{
    is_word(name, "argument 1") || is_word(name, "argument 2")
}

fn is_word(name: &Name, word: &str) -> bool
    requires { list_all is_ascii word.now ≡ true }
    ensures { result ≡ pointwise nat_eq name.now word.now }
{
    name.as_str() == word
}

/// Adds the code, its words and what shows the fault.
fn add_fault(
    out: &mut String,
    in_word: bool,
    fault: &Fault,
    modules: &[Module],
) -> Result<(), Memory>
    ensures { OnOk result (Adds (written out.old) (fault_text modules.now in_word fault.now) (written out.new)) }
{
    add_number(out, fault.code.number() as u64)?;
    add_word(out, " ")?;
    add_word(out, says(in_word, &fault.kept, fault.code))?;
    if shows(fault.code) {
        return add_kept(out, &fault.kept, modules);
    }
    Ok(())
}

/// What doesn't begin where something has to, where nothing more is known.
fn whole(in_word: bool) -> &'static str
    ensures words { result.now ≡ whole_words in_word }
    ensures ascii { list_all is_ascii result.now ≡ true }
{
    if in_word {
        "not a type"
    } else {
        "not a definition"
    }
}

/// What doesn't begin where something has to.
fn missing(in_word: bool, kept: &Kept) -> &'static str
    ensures words { result.now ≡ missing_words in_word kept.now }
    ensures ascii { list_all is_ascii result.now ≡ true }
{
    match kept {
        Kept::Nothing | Kept::Shape(_) | Kept::Names(_) | Kept::Events(_) | Kept::Counts(_, _) =>
            whole(in_word),
        Kept::Count(_) => "not a statement",
    }
}

/// What the code says, by what is kept.
fn says(in_word: bool, kept: &Kept, code: FaultCode) -> &'static str
    ensures words { result.now ≡ code_says in_word kept.now code }
    ensures ascii { list_all is_ascii result.now ≡ true }
{
    match code {
        FaultCode::NotUtf8 => "not UTF-8",
        FaultCode::BadToken => "not a token",
        FaultCode::Syntax => missing(in_word, kept),
        FaultCode::Depth => "nested too deeply",
        FaultCode::LeftOut => "left out of this profile",
        FaultCode::NotBuilt => "not built yet",
        FaultCode::NoModule => "no such module",
        FaultCode::ImportCycle => "import cycle: ",
        FaultCode::Duplicate => "name used twice",
        FaultCode::Unknown => "unknown name",
        FaultCode::NotPublic => "not public",
        FaultCode::IllFounded => "type is its own part: ",
        FaultCode::TypeLimit => "type question too large",
        FaultCode::AtomLimit => "too many types",
        FaultCode::NoMain => "no public function main",
        FaultCode::FileTooLong => "file too long",
        FaultCode::BadManifest => "bad manifest",
        FaultCode::TooLarge => "package too large",
        FaultCode::NotSubtype => "not a subtype: ",
        FaultCode::Arity => "wrong number of arguments",
        FaultCode::NoField => "no such member",
        FaultCode::AssignFinal => "cannot be assigned",
        FaultCode::Captured => "captured variable is assigned",
        FaultCode::MissingReturn => "missing return",
        FaultCode::BadBreak => "not in a loop",
        FaultCode::Ignored => "value is ignored",
        FaultCode::BadMain => "main has a wrong signature",
        FaultCode::NotIsolated => "not isolated: ",
        FaultCode::ReadOnlyHolds => "must be immutable anydata",
        FaultCode::NoChoice => "no type fits",
        FaultCode::NeedsType => "receive needs a type",
        FaultCode::Conditional => "conditional worker action",
        FaultCode::Unpaired => "unpaired messages: ",
        FaultCode::SuccessBefore => "success before a message",
        FaultCode::WaitCycle => "workers wait in a ring: ",
        FaultCode::NameAsValue => "worker is no value",
        FaultCode::NoPeer => "no such peer",
        FaultCode::BadMessage => "message is outside the type: ",
        FaultCode::WorkerLimit => "too many workers or events",
        FaultCode::CodeLimit => "program too large",
        FaultCode::TestLimit => "too many type tests",
    }
}

/// Whether the words of the code end in what shows the fault.
fn shows(code: FaultCode) -> bool
    ensures { result ≡ code_shows code }
{
    matches!(
        code,
        FaultCode::ImportCycle
            | FaultCode::IllFounded
            | FaultCode::NotSubtype
            | FaultCode::NotIsolated
            | FaultCode::Unpaired
            | FaultCode::WaitCycle
            | FaultCode::BadMessage
    )
}

/// Adds what shows a fault.
fn add_kept(out: &mut String, kept: &Kept, modules: &[Module]) -> Result<(), Memory>
    ensures { OnOk result (Adds (written out.old) (kept_text modules.now kept.now) (written out.new)) }
{
    match kept {
        Kept::Nothing | Kept::Count(_) => Ok(()),
        Kept::Shape(s) => add_shape(out, s),
        Kept::Names(names) => add_names(out, names.as_slice()),
        Kept::Events(events) => add_events(out, events.as_slice(), modules),
        Kept::Counts(sent, received) => {
            add_number(out, *sent)?;
            add_word(out, " sent, ")?;
            add_number(out, *received)?;
            add_word(out, " received")
        }
    }
}

/// Adds the names, each behind the one before.
fn add_names(out: &mut String, names: &[Name]) -> Result<(), Memory>
    ensures { OnOk result (Adds (written out.old) (on_the_way name_text names.now) (written out.new)) }
{
    for (i, name) in names.iter().enumerate() {
        add_if(out, i > 0, " -> ")?;
        add_text(out, name.as_str())?;
    }
    Ok(())
}
