//! Prefixes that are used twice.
ghost use Rattle.std.specs.Prelude.{◌≡◌, [], IfOk};
ghost use Rattle.package_imports.specs.Imports.{last_word as last_word_of, prefix_of};
ghost use Rattle.package_imports.specs.Repeats.{first_repeat as repeat_among};

use crate::targets::or_word;
use bal_base::{Memory, Name, Place, Text};
use bal_tree::{Import, Word};
use std::alloc::Global;
use std::collections::BTreeSet;

/// The place of the first import whose prefix an import before it has. Its cost grows with the number of imports, and little more.
pub fn first_repeat(alloc: Global, imports: &[Import]) -> Result<Option<Place>, Memory>
    ensures { IfOk result (λ at. at ≡ repeat_among [] imports.now) }
{
    let mut known: BTreeSet<Text> = BTreeSet::new(alloc);
    for import in imports {
        let word = prefix(import).as_text();
        if known.contains(word) {
            return Ok(Some(import.at));
        }
        known.insert(word.share())?;
    }
    Ok(None)
}

/// The prefix of an import: the word behind `as`, or else the last word.
pub fn prefix(import: &Import) -> &Name
    ensures { result.now ≡ prefix_of import.now }
{
    &or_word(&import.prefix, last_word(import)).name
}

fn last_word(import: &Import) -> &Word
    ensures { result.now ≡ last_word_of import.now }
{
    match import.more.last() {
        Some(word) => word,
        None => or_word(&import.second, &import.first),
    }
}
