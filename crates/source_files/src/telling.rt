//! Faults with their places as people read them.
ghost use Rattle.std.specs.Prelude.{◌≡◌, IfOk};
ghost use Rattle.source_files.specs.Sources.{IsPlaced};
ghost use Rattle.source_files.specs.Told.{refusal_of};

use bal_base::{Fault, Memory, Name, Refusal, line_column};
use std::alloc::Global;

/// The refusal for a fault. Its place, if it has one, is one in the file with this name and this text.
pub fn refusal(alloc: Global, name: &Name, text: &str, fault: Fault) -> Result<Refusal, Memory>
    requires { IsPlaced text.now fault }
    ensures { IfOk result (λ r. r ≡ refusal_of name.now text.now fault) }
{
    match fault.at {
        Some(place) => {
            let (line, column) = line_column(text, place.at);
            Ok(Refusal {
                fault,
                file: name.share(),
                line,
                column,
            })
        }
        None => Ok(Refusal {
            fault,
            file: Name::new(alloc, "")?,
            line: 0,
            column: 0,
        }),
    }
}
