//! Faults with their places as people read them.
ghost use Rattle.std.specs.Prelude.{◌≡◌, IfOk, Some, encode_utf8_all, true};
ghost use Rattle.std.specs.Char.{is_ascii};
ghost use Rattle.std.specs.List.{list_all};
ghost use Rattle.type_questions.specs.Refusals.{placed_in, refusal_of, source, unplaced};

use bal_base::{Fault, Memory, Name, Refusal, line_column};
use bal_tree::{Module, SourceFile, file_in};
use std::alloc::Global;

/// The fault as a refusal: a place is in the file of these modules that has its number, or else in one of the words `s` and `t`, whose
/// numbers are `first` and the next one and whose names are `argument 1` and `argument 2`. A place that is none of its text is want of
/// memory: no fault of the package or of a word has one. Its cost grows with the text and with the number of files.
pub fn refusal_of(
    alloc: Global,
    fault: Fault,
    modules: &[Module],
    first: u32,
    s: &str,
    t: &str,
) -> Result<Refusal, Memory>
    ensures { IfOk result (λ r. r ≡ refusal_of modules.now first s.now t.now fault) }
{
    match fault.at {
        Some(place) => {
            let number = place.file;
            if let Some(file) = file_in(modules, number) {
                return placed(fault, place.at, &file.name, text_of(file));
            }
            if number == first {
                return placed(fault, place.at, &named(alloc, "argument 1")?, s);
            }
            if number as u64 == first as u64 + 1 {
                return placed(fault, place.at, &named(alloc, "argument 2")?, t);
            }
            unplaced(alloc, fault)
        }
        None => unplaced(alloc, fault),
    }
}

/// The fault at this place of the text that stands under the name.
fn placed(fault: Fault, at: u32, name: &Name, text: &str) -> Result<Refusal, Memory>
    ensures { IfOk result (λ r. r ≡ placed_in fault at (Some (source name.now text.now))) }
{
    if !text.is_char_boundary(at as usize) || at == u32::MAX {
        return Err(Memory);
    }
    let (line, column) = line_column(text, at);
    Ok(Refusal {
        fault,
        file: name.share(),
        line,
        column,
    })
}

/// The fault without a place.
fn unplaced(alloc: Global, fault: Fault) -> Result<Refusal, Memory>
    ensures { IfOk result (λ r. r ≡ unplaced fault) }
{
    Ok(Refusal {
        fault,
        file: named(alloc, "")?,
        line: 0,
        column: 0,
    })
}

/// The text of the file.
fn text_of(file: &SourceFile) -> &str
    ensures { result.now ≡ encode_utf8_all file.now.text }
{
    file.text.as_str()
}

/// The name that is this word.
fn named(alloc: Global, word: &str) -> Result<Name, Memory>
    requires { list_all is_ascii word.now ≡ true }
    ensures { IfOk result (λ name. name ≡ word.now) }
{
    Ok(Name::new(alloc, word)?)
}
