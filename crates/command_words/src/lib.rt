//! The words of the command: which are good, and what a good command asks for.
//!
//! - [`command_of`]: what good words ask for, as a [`Command`]; and that others are no command.
//! - [`MOST_WORDS`], [`MOST_WORD_BYTES`], [`MOST_DIGITS`]: how much the words may be. [`DEFAULT_TICKS`] and [`DEFAULT_SEED`]: what
//!   stands for an option that isn't given.
//! - [`words_say_one_thing`]: the same words never ask for two things. [`words_of_cases`]: some words, and whether they are a command.
//!
//! `specs/Words.antt` says what words say, `specs/Commands.antt` which of them are a command, and for what;
//! `specs/Cases.antt` has some.
#![tactic(auto)]

mod command;
mod laws;
mod mode;
mod number;
mod parts;
mod word;

pub use command::{
    Command, DEFAULT_SEED, DEFAULT_TICKS, MOST_DIGITS, MOST_WORD_BYTES, MOST_WORDS, Mode,
    command_of,
};
pub use laws::{words_of_cases, words_say_one_thing};
