//! The folder that the words of the command name.
ghost use Rattle.std.specs.Prelude.{◌↔◌, IfOk, IfSome, IsSome, string_bytes};
ghost use Rattle.command_words.specs.Commands.{IsGood};
ghost use Rattle.bal_run.specs.Words.{IsOfFolder};

use bal_base::Memory;
use command_words::command_of;
use std::alloc::Global;

/// The folder's word of a good command, and `None` exactly for words that are none. `Memory` says that there was none. Time grows with
/// the bytes of the words.
pub fn dir_of(alloc: Global, words: &[String]) -> Result<Option<String>, Memory>
    ensures dir { IfOk result (λ dir. IfSome dir (λ d. IsOfFolder words.now (string_bytes d))) }
    ensures good { IfOk result (λ dir. IsSome dir ↔ IsGood words.now) }
{
    match command_of(alloc, words)? {
        Some(command) => Ok(Some(String::from_str(alloc, command.dir)?)),
        None => Ok(None),
    }
}
