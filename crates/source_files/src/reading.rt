//! Source files, read.
ghost use Rattle.std.specs.Prelude.{◌≡◌, ◌⊎◌, IfOk, IfErr};
ghost use Rattle.source_files.specs.Sources.{IsText, IsTreeReading, NotText, TooLong, fault_at};

use bal_base::{Fault, FaultCode, Kept, MOST_FILE_BYTES, Place, Stop};
use bal_lexer::lex;
use bal_tree::FileTree;
use parse_stmt::parse_file;
use std::alloc::Global;

/// The text of the file with this number among those of its package and with these bytes, which may be one more than a file may have.
///
/// `FileTooLong` is answered for a file that is too long, and `NotUtf8` for one that is no text, both at its start.
pub fn text_of(file: u32, bytes: &[u8]) -> Result<&str, Fault>
    ensures same { IfOk result (λ text. text.now ≡ bytes.now) }
    ensures text { IfOk result (λ text. IsText bytes.now) }
    ensures refused { IfErr result (λ fault. TooLong file bytes.now fault ⊎ NotText file bytes.now fault) }
{
    if bytes.len() > MOST_FILE_BYTES {
        return Err(at_start(file, FaultCode::FileTooLong));
    }
    match str::from_utf8(bytes) {
        Ok(text) => Ok(text),
        Err(_) => Err(at_start(file, FaultCode::NotUtf8)),
    }
}

/// The tree of the file with this number and this text, or the fault of `lex` or of `parse_file`.
pub fn tree_of(alloc: Global, file: u32, text: &str) -> Result<FileTree, Stop<Fault>>
    requires { IsText text.now }
    ensures { IsTreeReading file text.now result }
{
    let tokens = lex(alloc, file, text)?;
    parse_file(alloc, file, tokens.as_slice())
}

/// The fault with this code at the start of the file.
fn at_start(file: u32, code: FaultCode) -> Fault
    ensures { result ≡ fault_at file code 0 }
{
    Fault {
        code,
        at: Some(Place { file, at: 0 }),
        kept: Kept::Nothing,
    }
}
