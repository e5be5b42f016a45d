//! Faults with their places as people read them.
ghost use Rattle.std.specs.Prelude.{◌≡◌, IfOk, Some, encode_utf8_all};
ghost use Rattle.folder_programs.specs.Refusals.{fault_of, refusal_in};
ghost use Rattle.type_questions.specs.Refusals.{placed_in, source, unplaced};

use bal_base::{Fault, FaultCode, Kept, Memory, Name, Refusal, line_column};
use bal_tree::{Module, SourceFile, file_in};
use std::alloc::Global;

/// The refusal for a fault of these modules: its place is told in the file that has its number. A place in no file of them, or that is none
/// of its text, is want of memory: no fault of a package has one. Its cost grows with the text and with the number of files.
pub fn refusal_in(alloc: Global, modules: &[Module], fault: Fault) -> Result<Refusal, Memory>
    ensures { IfOk result (λ r. r ≡ refusal_in modules.now fault) }
{
    match fault.at {
        Some(place) => {
            if let Some(file) = file_in(modules, place.file) {
                return placed(fault, place.at, file);
            }
            Err(Memory)
        }
        None => unplaced(alloc, fault),
    }
}

/// The fault at this place of the file.
fn placed(fault: Fault, at: u32, file: &SourceFile) -> Result<Refusal, Memory>
    ensures { IfOk result (λ r. r ≡ placed_in fault at (Some (source file.now.name (encode_utf8_all file.now.text)))) }
{
    let text = text_of(file);
    if !text.is_char_boundary(at as usize) || at == u32::MAX {
        return Err(Memory);
    }
    let (line, column) = line_column(text, at);
    Ok(Refusal {
        fault,
        file: file.name.share(),
        line,
        column,
    })
}

/// The text of the file.
fn text_of(file: &SourceFile) -> &str
    ensures { result.now ≡ encode_utf8_all file.now.text }
{
    file.text.as_str()
}

/// The refusal for a fault without a place.
pub fn unplaced(alloc: Global, fault: Fault) -> Result<Refusal, Memory>
    ensures { IfOk result (λ r. r ≡ unplaced fault) }
{
    let file = Name::new(alloc, "")?;
    Ok(Refusal {
        fault,
        file,
        line: 0,
        column: 0,
    })
}

/// The fault with this code, which has no place.
pub fn fault_of(code: FaultCode) -> Fault
    ensures { result ≡ fault_of code }
{
    Fault {
        code,
        at: None,
        kept: Kept::Nothing,
    }
}
