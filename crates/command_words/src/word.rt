//! Single words: whether one stands for itself, ends the options, or is an option.
ghost use Rattle.std.specs.Prelude.{◌≡◌, ◌↔◌, IsTrue, MatchOption, ℕ};
ghost use Rattle.command_words.specs.Words.{BeginsWithDash, option_word};
ghost use Rattle.command_words.specs.inner.Kinds.{HasKind, IsOptionKind, NamesNone};

/// The options of the command.
#[derive(Clone, Copy)]
pub enum Setting {
    Mode,
    Ticks,
    Seed,
}

/// What a word is, where it is read by itself.
#[derive(Clone, Copy)]
pub(crate) enum Word<'w> {
    /// It stands for itself.
    Positional,
    /// `--`, behind which all words stand for themselves.
    Dashes,
    /// An option, whose value is the next word.
    Alone(Setting),
    /// An option with its value.
    Joined(Setting, &'w str),
    /// It is none of these.
    Bad,
}

/// What the word is.
pub(crate) fn kind_of(word: &str) -> Word<'_>
    ensures { HasKind word.now result }
{
    if word == "--" {
        return Word::Dashes;
    }
    if word == "-" || !begins_with_dash(word) {
        return Word::Positional;
    }
    option_in(word)
}

/// Whether the word begins with `-`.
pub(crate) fn begins_with_dash(word: &str) -> bool
    ensures { IsTrue result ↔ BeginsWithDash word.now }
{
    word.as_bytes().first() == Some(&b'-')
}

/// Which option the word is, perhaps with its value behind `=`.
fn option_in(word: &str) -> Word<'_>
    ensures { IsOptionKind word.now result }
{
    match word.split_once('=') {
        Some((name, value)) => match setting_of(name) {
            Some(setting) => Word::Joined(setting, value),
            None => Word::Bad,
        },
        None => match setting_of(word) {
            Some(setting) => Word::Alone(setting),
            None => Word::Bad,
        },
    }
}

/// The option with this name.
fn setting_of(name: &str) -> Option<Setting>
    ensures { MatchOption result (NamesNone name.now) (λ setting. name.now ≡ option_word setting) }
{
    match name {
        "--mode" => Some(Setting::Mode),
        "--ticks" => Some(Setting::Ticks),
        "--seed" => Some(Setting::Seed),
        _ => None,
    }
}
