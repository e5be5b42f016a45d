//! The texts of workers' events.
#![tactic(auto, using(crate::proofs::ShapeRules::in_a_row))]

ghost use Rattle.std.specs.Prelude.{◌≡◌, OnOk, Some};
ghost use Rattle.bal_report.specs.EventText.{begins, begins_by, definition_around, event_in, event_text, position_at, worker_name, workers_in, workers_of_body};
ghost use Rattle.bal_report.specs.RefusalText.{on_the_way};
ghost use Rattle.text_forms.specs.Forms.{Adds, written};

use bal_base::{Event, Memory, line_column};
use bal_tree::{Body, Def, FileTree, Module, SourceFile, Worker, file_in};
use text_forms::{add_if, add_number, add_text, add_word};

/// Adds the events, each behind the one that it follows or needs.
pub(crate) fn add_events(
    out: &mut String,
    events: &[Event],
    modules: &[Module],
) -> Result<(), Memory>
    ensures { OnOk result (Adds (written out.old) (on_the_way (event_text modules.now) events.now) (written out.new)) }
{
    for (i, event) in events.iter().enumerate() {
        add_if(out, i > 0, " -> ")?;
        add_event(out, event, modules)?;
    }
    Ok(())
}

/// Adds an event: its worker, and where it stands.
fn add_event(out: &mut String, event: &Event, modules: &[Module]) -> Result<(), Memory>
    ensures { OnOk result (Adds (written out.old) (event_text modules.now event.now) (written out.new)) }
{
    match file_in(modules, event.at.file) {
        Some(file) => add_event_in(out, event, file),
        None => {
            add_worker(out, &[], event.worker)?;
            add_word(out, " ")
        }
    }
}

/// Adds an event of this file.
fn add_event_in(out: &mut String, event: &Event, file: &SourceFile) -> Result<(), Memory>
    ensures { OnOk result (Adds (written out.old) (event_in event.now (Some file.now)) (written out.new)) }
{
    let workers = workers_around(&file.tree, event.at.at);
    add_worker(out, workers, event.worker)?;
    add_word(out, " ")?;
    add_position(out, file.text.as_str(), event.at.at)
}

/// Adds the name of the worker, where it is there.
fn add_worker(out: &mut String, workers: &[Worker], number: u32) -> Result<(), Memory>
    ensures { OnOk result (Adds (written out.old) (worker_name workers.now number) (written out.new)) }
{
    if number == 0 {
        return add_word(out, "function");
    }
    match workers.get(number as usize - 1) {
        Some(worker) => add_text(out, worker.name.name.as_str()),
        None => Ok(()),
    }
}

/// The named workers of the function that the place stands in.
fn workers_around(tree: &FileTree, at: u32) -> &[Worker]
    ensures { result.now ≡ workers_in (definition_around tree.now.defs.items at) }
{
    let mut around: &[Worker] = &[];
    for def in tree.defs.iter() {
        if begins_by(def, at) {
            around = workers_of(def);
        }
    }
    around
}

/// Whether this is a function that begins at the place or before it.
fn begins_by(def: &Def, at: u32) -> bool
    ensures { result ≡ begins_by at def.now }
{
    match def {
        Def::Function(f) => f.at.at <= at,
        Def::Type(_) | Def::Const(_) | Def::Variable(_) => false,
    }
}

/// The named workers of a definition.
fn workers_of(def: &Def) -> &[Worker]
    ensures { result.now ≡ workers_in (Some def.now) }
{
    match def {
        Def::Function(f) => workers_of_body(&f.body),
        Def::Type(_) | Def::Const(_) | Def::Variable(_) => &[],
    }
}

fn workers_of_body(body: &Body) -> &[Worker]
    ensures { result.now ≡ workers_of_body body.now }
{
    match body {
        Body::Block { workers, .. } => workers.as_slice(),
        Body::Expr { .. } => &[],
    }
}

/// Adds the line and the column of a place in this text, where it is one.
fn add_position(out: &mut String, text: &str, at: u32) -> Result<(), Memory>
    ensures { OnOk result (Adds (written out.old) (position_at text.now at) (written out.new)) }
{
    if !begins(text, at) || at == u32::MAX {
        return Ok(());
    }
    let (line, column) = line_column(text, at);
    add_number(out, line as u64)?;
    add_word(out, ":")?;
    add_number(out, column as u64)
}

/// Whether a character begins there, or the text ends.
fn begins(text: &str, at: u32) -> bool
    ensures { result ≡ begins text.now at }
{
    text.is_char_boundary(at as usize)
}
