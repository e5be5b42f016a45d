//! Where events stand.
#![tactic(auto, using(crate::proofs::Adding::in_a_row))]

ghost use Rattle.std.specs.Prelude.{◌≡◌, ◌≤◌, ◌<◌, ℕ, List, IsCharBoundary, OnOk, Some as There, encode_utf8_all};
ghost use Rattle.bal_report.specs.EventText.{begins, position_at};
ghost use Rattle.bal_tree.specs.declared.package.Module.{Module as ModuleOf};
ghost use Rattle.pair_texts.specs.PairText.{place_in, place_text};
ghost use Rattle.pair_texts.specs.inner.Spots.{Stands, StandsIn};
ghost use Rattle.text_forms.specs.Forms.{Adds, written};

use bal_base::{Memory, Place, line_column};
use bal_tree::{Module, SourceFile, file_in};
use text_forms::{add_number, add_word};

/// A place of a file with its line and its column, from which places behind it are counted on.
#[derive(Clone, Copy)]
pub(crate) struct Spot {
    pub file: u32,
    pub at: u32,
    pub line: u32,
    pub column: u32,
}

/// The start of the file with this number.
pub(crate) fn start(file: u32) -> Spot
    ensures file { result.file ≡ file }
    ensures at { result.at ≡ 0 }
    ensures stands { (bytes : List ℕ) → StandsIn bytes result }
    ensures everywhere { (modules : List ModuleOf) → Stands modules result }
{
    Spot {
        file,
        at: 0,
        line: 1,
        column: 1,
    }
}

/// The place, where a character begins there; else the start of its file, or a place in front. It is counted on from the spot, where
/// that stands in front.
pub(crate) fn reached(modules: &[Module], spot: Spot, at: Place) -> Spot
    requires { Stands modules.now spot }
    ensures { Stands modules.now result }
{
    match file_in(modules, at.file) {
        Some(file) => reached_in(file, spot, at),
        None => spot,
    }
}

/// The same in this file.
fn reached_in(file: &SourceFile, spot: Spot, at: Place) -> Spot
    requires { spot.file ≡ at.file → StandsIn (encode_utf8_all file.now.text) spot }
    ensures file { result.file ≡ at.file }
    ensures stands { StandsIn (encode_utf8_all file.now.text) result }
{
    let text = file.text.as_str();
    let from = base(text, spot, at);
    if !begins(text, at.at) || at.at == u32::MAX {
        return from;
    }
    counted(text, from, at.at)
}

/// From where a place is counted on: the spot, where that stands in front, or the start of the file.
fn base(text: &str, spot: Spot, at: Place) -> Spot
    requires { spot.file ≡ at.file → StandsIn text.now spot }
    ensures file { result.file ≡ at.file }
    ensures front { result.at ≤ at.at }
    ensures stands { StandsIn text.now result }
{
    if spot.file == at.file && spot.at <= at.at {
        return spot;
    }
    start(at.file)
}

/// The place, counted on from one in front.
fn counted(text: &str, from: Spot, at: u32) -> Spot
    requires stands { StandsIn text.now from }
    requires front { from.at ≤ at }
    requires boundary { IsCharBoundary text.now at }
    requires small { at < 4294967295 }
    ensures file { result.file ≡ from.file }
    ensures stands { StandsIn text.now result }
    ensures at { result.at ≡ at }
{
    let between = &text[from.at as usize..at as usize];
    let (line, column) = line_column(between, at - from.at);
    Spot {
        file: from.file,
        at,
        line: from.line + (line - 1),
        column: if line == 1 {
            from.column + (column - 1)
        } else {
            column
        },
    }
}

/// Adds the line and the column of a place, where it is one of a file. It is counted on from the spot, where that stands in front.
pub(crate) fn add_place(
    out: &mut String,
    at: Place,
    modules: &[Module],
    spot: Spot,
) -> Result<(), Memory>
    requires { Stands modules.now spot }
    ensures { OnOk result (Adds (written out.old) (place_text modules.now at) (written out.new)) }
{
    match file_in(modules, at.file) {
        Some(file) => add_place_in(out, file, spot, at),
        None => Ok(()),
    }
}

/// The same in this file.
fn add_place_in(out: &mut String, file: &SourceFile, spot: Spot, at: Place) -> Result<(), Memory>
    requires { spot.file ≡ at.file → StandsIn (encode_utf8_all file.now.text) spot }
    ensures { OnOk result (Adds (written out.old) (place_in (There file.now) at.at) (written out.new)) }
{
    add_position(out, file.text.as_str(), spot, at)
}

/// Adds the line and the column of a place in this text, where it is one.
fn add_position(out: &mut String, text: &str, spot: Spot, at: Place) -> Result<(), Memory>
    requires { spot.file ≡ at.file → StandsIn text.now spot }
    ensures { OnOk result (Adds (written out.old) (position_at text.now at.at) (written out.new)) }
{
    if !begins(text, at.at) || at.at == u32::MAX {
        return Ok(());
    }
    let found = counted(text, base(text, spot, at), at.at);
    add_number(out, found.line as u64)?;
    add_word(out, ":")?;
    add_number(out, found.column as u64)
}

/// Whether a character begins there, or the text ends.
fn begins(text: &str, at: u32) -> bool
    ensures { result ≡ begins text.now at }
{
    text.is_char_boundary(at as usize)
}
