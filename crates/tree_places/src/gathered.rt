//! Names with their places, gathered one behind another.
ghost use Rattle.std.specs.Prelude.{◌≡◌, OnOk};
ghost use Rattle.typed_tree.specs.Listed.{run};
ghost use Rattle.tree_places.specs.Gathered.{gather};
ghost use Rattle.tree_places.specs.UsedInExprs.{local_name};

use bal_base::{Memory, Row};
use bal_tree::{QualifiedName, Word};

/// Names with their places, in the order of the text.
pub type WordList = Row<Word>;

/// The name behind those that are there, if it has no prefix.
pub(crate) fn gather_local(names: &mut Vec<Word>, q: &QualifiedName) -> Result<(), Memory>
    ensures { OnOk result (names.new.items ≡ run gather (local_name q.now) names.old.items) }
{
    match &q.prefix {
        None => names.push(Word {
            name: q.word.name.share(),
            at: q.word.at,
        })?,
        Some(_) => {}
    }
    Ok(())
}
