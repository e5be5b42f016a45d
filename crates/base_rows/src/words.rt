//! The words and strings of a line, and what questions come to.

use bal_base::Stop;
use row_lines::{escaped, number, quoted, unescaped};
use std::alloc::{AllocError, Global};

/// Why a line has no answer.
#[derive(Clone, Copy)]
pub enum Misread {
    NotALine,
    /// A call on the folder of the system that the row needs for itself.
    Outside,
}

impl Misread {
    pub fn text(self) -> &'static str {
        match self {
            Misread::NotALine => "it isn't of the form of a line",
            Misread::Outside => "the system refuses what the row needs",
        }
    }
}

/// What is read, or why it isn't.
pub type Read<T> = Result<T, Stop<Misread>>;

/// A line that isn't read.
pub fn refuse<T>(why: Misread) -> Read<T> {
    Err(Stop::Fault(why))
}

/// The words of a line that are still to be read.
#[derive(Clone, Copy)]
pub struct Words<'a> {
    pub alloc: Global,
    rest: &'a str,
}

impl<'a> Words<'a> {
    pub fn of(alloc: Global, line: &'a str) -> Words<'a> {
        Words { alloc, rest: line }
    }

    pub fn is_done(&self) -> bool {
        self.rest.is_empty()
    }

    /// Whether a string is next.
    pub fn has_string(&self) -> bool {
        self.rest.starts_with('"')
    }

    /// The next word, which is empty at the end.
    pub fn word(&mut self) -> &'a str {
        let (word, rest) = match self.rest.split_once(' ') {
            Some(parts) => parts,
            None => (self.rest, ""),
        };
        self.rest = rest;
        word
    }

    /// Takes the word if it is the next one.
    pub fn takes(&mut self, word: &str) -> bool {
        let mut behind = *self;
        if behind.word() != word {
            return false;
        }
        self.rest = behind.rest;
        true
    }

    pub fn number(&mut self) -> Read<u64> {
        match number(self.word()) {
            Some(n) => Ok(n),
            None => refuse(Misread::NotALine),
        }
    }

    /// What a string stands for.
    pub fn bytes(&mut self) -> Read<Vec<u8>> {
        let Some((inside, rest)) = quoted(self.rest) else {
            return refuse(Misread::NotALine);
        };
        self.rest = rest.trim_ascii_start();
        match unescaped(self.alloc, inside)? {
            Some(bytes) => Ok(bytes),
            None => refuse(Misread::NotALine),
        }
    }

    /// The text for which a string stands.
    pub fn text(&mut self) -> Read<String> {
        let bytes = self.bytes()?;
        match str::from_utf8(&bytes) {
            Ok(text) => Ok(String::from_str(self.alloc, text)?),
            Err(_) => refuse(Misread::NotALine),
        }
    }

    /// The numbers of the calls that fail, behind `fails`, and none where it doesn't stand.
    pub fn fails(&mut self) -> Read<Vec<u64>> {
        let mut fails = Vec::new(self.alloc);
        if self.takes("fails") {
            fails.push(self.number()?)?;
        }
        Ok(fails)
    }
}

/// Answers, with spaces between them.
#[derive(Drop)]
pub struct Answers {
    alloc: Global,
    text: String,
}

impl Answers {
    pub fn new(alloc: Global) -> Answers {
        Answers {
            alloc,
            text: String::new(alloc),
        }
    }

    pub fn word(&mut self, word: &str) -> Result<(), AllocError> {
        if !self.text.is_empty() {
            self.text.push(' ')?;
        }
        self.text.push_str(word)
    }

    /// Bytes as a string.
    pub fn bytes(&mut self, bytes: &[u8]) -> Result<(), AllocError> {
        let text = string_of(self.alloc, bytes)?;
        self.word(text.as_str())
    }

    pub fn finish(self) -> String {
        self.text
    }
}

/// Bytes as a string.
pub fn string_of(alloc: Global, bytes: &[u8]) -> Result<String, AllocError> {
    let inside = escaped(alloc, bytes)?;
    format!(in alloc; "\"{inside}\"")
}

/// What a call that failed is written as.
pub fn failure<F>(stop: &Stop<F>) -> &'static str {
    match stop {
        Stop::Memory => "memory",
        Stop::Fault(_) => "fails",
    }
}
