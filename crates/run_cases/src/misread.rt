//! Why a case isn't read.

use bal_base::Stop;

/// Why a line of a case isn't read.
#[derive(Clone, Copy)]
pub enum Misread {
    NotALine,
    NoText,
    NotANumber,
    NotAString,
    NoSize,
    Twice,
    NoStatus,
}

impl Misread {
    pub fn text(self) -> &'static str {
        match self {
            Misread::NotALine => "it isn't of the form of a line",
            Misread::NoText => "no text is open that it could go on with",
            Misread::NotANumber => "a number isn't written as one",
            Misread::NotAString => "a string isn't written as one",
            Misread::NoSize => "no number of repetitions brings the text to this size",
            Misread::Twice => "a line above says it already",
            Misread::NoStatus => "it doesn't say which status is wanted",
        }
    }
}

/// What is read, or why it isn't.
pub type Read<T> = Result<T, Stop<Misread>>;

/// A line that isn't read.
pub fn refuse<T>(why: Misread) -> Read<T> {
    Err(Stop::Fault(why))
}
