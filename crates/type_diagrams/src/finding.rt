//! What a table of questions tells.
ghost use Rattle.std.specs.Prelude.{IfOk};
ghost use Rattle.type_diagrams.specs.Finding.{IsFinding};

use crate::turn::Member;
use bal_base::Memory;
use witness::Witness;

/// What a table tells of a question.
#[derive(Drop)]
pub enum Finding {
    /// A shape of it, shared with the table.
    Part(Witness),
    /// It is held to be empty.
    Held,
    /// The table doesn't know it.
    Unknown,
}

/// What the table tells of the question. Takes no time but for finding it, and no memory; refused only where a
/// kept shape has more owners than can be counted.
pub fn look_up<M: Member>(m: &M, question: u32) -> Result<Finding, Memory>
    ensures { IfOk result (IsFinding (M.kept m.now) question) }
{
    match m.seen(question) {
        Some(Some(part)) => Ok(Finding::Part(part.share()?)),
        Some(None) => Ok(Finding::Held),
        None => Ok(Finding::Unknown),
    }
}
