//! What the words of the command say, from left to right.
ghost use Rattle.std.specs.Prelude.{◌≡◌, [], ◌∷◌, IfOk, OnOk, map, string_bytes};
ghost use Rattle.command_words.specs.Words.{only, option_word};
ghost use Rattle.command_words.specs.inner.Reading.{AreParts, GoesOn, IsSet, IsSetOnce, awaited, joined, said_by};

use crate::word::{Setting, Word, begins_with_dash, kind_of};
use bal_base::Memory;
use std::alloc::Global;

/// The words that stand for themselves, and the values of the options.
#[derive(Drop)]
pub(crate) struct WordParts<'w> {
    pub positional: Vec<&'w str>,
    pub mode: Option<&'w str>,
    pub ticks: Option<&'w str>,
    pub seed: Option<&'w str>,
}

/// How the next word is read.
#[derive(Clone, Copy)]
pub(crate) enum Awaits {
    /// By itself.
    Word,
    /// As the value of this option.
    Value(Setting),
    /// As one that stands for itself, since it is behind `--`.
    Rest,
}

/// What the words say, and `None` where they say nothing that gives each option at most once.
pub(crate) fn parts_of(alloc: Global, words: &[String]) -> Result<Option<WordParts<'_>>, Memory>
    ensures { IfOk result (λ found. AreParts (map string_bytes words.now) found) }
{
    let mut parts = WordParts {
        positional: Vec::new(alloc),
        mode: None,
        ticks: None,
        seed: None,
    };
    let mut awaits = Awaits::Word;
    for word in words {
        match parts.read(awaits, word.as_str())? {
            Some(next) => awaits = next,
            None => return Ok(None),
        }
    }
    match awaits {
        Awaits::Value(_) => Ok(None),
        Awaits::Word => Ok(Some(parts)),
        Awaits::Rest => Ok(Some(parts)),
    }
}

impl<'w> WordParts<'w> {
    /// Reads a further word, and says how the one behind it is read. `None` says that these words are no command.
    fn read(&mut self, awaits: Awaits, word: &'w str) -> Result<Option<Awaits>, Memory>
        ensures { IfOk result (λ next. GoesOn (said_by self.old) (awaited awaits) word.entry.now (said_by self.new) next) }
    {
        match awaits {
            Awaits::Word => self.read_word(word),
            Awaits::Value(setting) => Ok(self.read_value(setting, word)),
            Awaits::Rest => {
                self.add(word)?;
                Ok(Some(Awaits::Rest))
            }
        }
    }

    /// The same of a word that is read by itself.
    fn read_word(&mut self, word: &'w str) -> Result<Option<Awaits>, Memory>
        ensures { IfOk result (λ next. GoesOn (said_by self.old) [] word.entry.now (said_by self.new) next) }
    {
        match kind_of(word) {
            Word::Positional => {
                self.add(word)?;
                Ok(Some(Awaits::Word))
            }
            Word::Dashes => Ok(Some(Awaits::Rest)),
            Word::Alone(setting) => Ok(Some(Awaits::Value(setting))),
            Word::Joined(setting, value) => Ok(self.set(setting, value)),
            Word::Bad => Ok(None),
        }
    }

    /// The same of a word that is the value of this option.
    fn read_value(&mut self, setting: Setting, word: &'w str) -> Option<Awaits>
        ensures { GoesOn (said_by self.old) (option_word setting ∷ []) word.entry.now (said_by self.new) result }
    {
        if begins_with_dash(word) {
            return None;
        }
        self.set(setting, word)
    }

    /// Adds a word that stands for itself.
    fn add(&mut self, word: &'w str) -> Result<(), Memory>
        ensures { OnOk result (said_by self.new ≡ joined (said_by self.old) (only (word.entry.now ∷ []))) }
    {
        self.positional.push(word)?;
        Ok(())
    }

    /// Gives the option its value, behind which a word is read by itself; `None` where it has one already.
    fn set(&mut self, setting: Setting, value: &'w str) -> Option<Awaits>
        ensures { IsSet setting value.entry.now (said_by self.old) (said_by self.new) result }
    {
        match setting {
            Setting::Mode => set_once(&mut self.mode, value),
            Setting::Ticks => set_once(&mut self.ticks, value),
            Setting::Seed => set_once(&mut self.seed, value),
        }
    }
}

/// Gives one option its value.
fn set_once<'w>(place: &mut Option<&'w str>, value: &'w str) -> Option<Awaits>
    ensures { IsSetOnce place.old value.entry place.new result }
{
    if place.is_some() {
        return None;
    }
    *place = Some(value);
    Some(Awaits::Word)
}
