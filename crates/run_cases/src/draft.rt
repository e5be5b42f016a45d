//! Cases as they are written, a line each for:
//!
//! - `case TITLE`, with which a case begins
//! - `words A B C`: words of the command; `word WORD`: one that may have spaces. Where neither stands, the
//!   one word `.`
//! - `file NAME`: a file of the folder, whose text follows
//! - `main`: the file `main.bal`, which imports `ballerina/io`, and in whose function `main` the text that
//!   follows stands
//! - `stdin`: the input, whose text follows
//! - `fails OBJECT N ..`: the numbers, from 0, of the calls that fail on `folder`, `stdin`, `stdout` or `stderr`
//! - `cut OBJECT N COUNT`: the call on `stdout` or `stderr` that fails, having taken so many bytes
//! - `status N`: the status that is wanted
//! - `stdout` and `stderr`: the outputs that are wanted, whose texts follow. Where they don't stand, nothing
//! - `begins stdout` and `begins stderr`: the same of what an output is to begin with
//! - `dir NAME`: the folder that the words name, or `nodir` where they name none. Where neither stands, any
//! - `spent N` and `turns N`: the ticks that were spent, and how often a strand was picked. Where they don't
//!   stand, any
//! - `ask S <: T => yes`, or `no SHAPE`: the question whether the type S is below T, in the scope of the files, whose
//!   answer is on standard output; `no` alone stands for any shape that shows it. A case that has such lines is a call
//!   for each of them, and says no other words, statuses or outputs
//!
//! A text is lines that the module `piece` tells; one that is opened again goes on.

use crate::case::{Call, Case, Wanted, WantedCounts, WantedDir, WantedText};
use crate::misread::{Misread, Read, refuse};
use crate::piece::{add_piece, is_piece};
use row_lines::{first_word, number, numbers};
use std::alloc::Global;
use std::mem;

/// A case that is being read.
#[derive(Drop)]
pub struct Draft {
    alloc: Global,
    has_words: bool,
    call: Call,
    status: Option<u64>,
    stdout: Vec<u8>,
    stderr: Vec<u8>,
    /// Whether more may stand behind these.
    stdout_goes_on: bool,
    stderr_goes_on: bool,
    dir: WantedDir,
    counts: WantedCounts,
    open: Part,
    text: Vec<u8>,
}

/// What the text is that lines add to.
#[derive(Drop)]
enum Part {
    Nothing,
    File(String),
    Main,
    Stdin,
    Stdout,
    Stderr,
}

impl Draft {
    /// Nothing was read.
    pub fn new(alloc: Global) -> Draft {
        Draft {
            alloc,
            has_words: false,
            call: Call::new(alloc),
            status: None,
            stdout: Vec::new(alloc),
            stderr: Vec::new(alloc),
            stdout_goes_on: false,
            stderr_goes_on: false,
            dir: WantedDir::Any,
            counts: WantedCounts {
                spent: None,
                turns: None,
            },
            open: Part::Nothing,
            text: Vec::new(alloc),
        }
    }

    /// Reads the next line.
    pub fn line(&mut self, line: &str) -> Read<()> {
        if is_piece(line) {
            return self.go_on(line);
        }
        self.close()?;
        let (word, rest) = first_word(line);
        self.begin(word, rest)
    }

    /// Asks whether one type is below another one, with the answer that is wanted.
    fn ask(&mut self, question: &str) -> Read<()> {
        let Some((types, answer)) = question.split_once(" => ") else {
            return refuse(Misread::NotALine);
        };
        let Some((s, t)) = types.split_once(" <: ") else {
            return refuse(Misread::NotALine);
        };
        for word in [".", s, t, "--mode", "subtype"] {
            self.word(word)?;
        }
        self.answer(answer)
    }

    /// Wants this answer to a question.
    fn answer(&mut self, answer: &str) -> Read<()> {
        self.stdout_goes_on = answer == "no";
        self.stdout.extend_from_slice(answer.as_bytes())?;
        let end = if self.stdout_goes_on { b' ' } else { b'\n' };
        self.stdout.push(end)?;
        set_once(&mut self.status, 0)
    }

    /// The case, once all its lines are read.
    pub fn finish(self) -> Read<Case> {
        let mut draft = self;
        draft.close()?;
        if !draft.has_words {
            draft.word(".")?;
        }
        let Some(status) = draft.status else {
            return refuse(Misread::NoStatus);
        };
        let Draft {
            call,
            stdout,
            stderr,
            stdout_goes_on,
            stderr_goes_on,
            dir,
            counts,
            ..
        } = draft;
        Ok(Case {
            call,
            wanted: Wanted {
                status,
                stdout: wanted_text(stdout, stdout_goes_on),
                stderr: wanted_text(stderr, stderr_goes_on),
                dir,
                counts,
            },
        })
    }

    /// Adds a line to the text that is open.
    fn go_on(&mut self, line: &str) -> Read<()> {
        match self.open {
            Part::Nothing => refuse(Misread::NoText),
            _ => add_piece(self.alloc, &mut self.text, line),
        }
    }

    /// Puts the text that is open where it belongs.
    fn close(&mut self) -> Read<()> {
        let open = mem::replace(&mut self.open, Part::Nothing);
        let text = mem::replace(&mut self.text, Vec::new(self.alloc));
        match open {
            Part::Nothing => {}
            Part::File(name) => self.call.add_file(self.alloc, name.as_str(), text)?,
            Part::Main => self.call.add_main(self.alloc, text.as_slice())?,
            Part::Stdin => self.call.input.extend_from_slice(text.as_slice())?,
            Part::Stdout => self.stdout.extend_from_slice(text.as_slice())?,
            Part::Stderr => self.stderr.extend_from_slice(text.as_slice())?,
        }
        Ok(())
    }

    /// Reads a line that adds to no text.
    fn begin(&mut self, word: &str, rest: &str) -> Read<()> {
        match word {
            "words" => self.words(rest),
            "word" => self.word(rest),
            "fails" => self.fails(rest),
            "cut" => self.cut(rest),
            "file" | "main" | "stdin" | "stdout" | "stderr" => self.open(word, rest),
            "begins" => self.begins(rest),
            "ask" => self.ask(rest),
            "dir" => self.dir(WantedDir::Named(String::from_str(self.alloc, rest)?)),
            "nodir" => self.dir(WantedDir::Missing),
            "status" | "spent" | "turns" => self.count(word, rest),
            _ => refuse(Misread::NotALine),
        }
    }

    fn words(&mut self, rest: &str) -> Read<()> {
        self.has_words = true;
        for word in rest.split_ascii_whitespace() {
            self.word(word)?;
        }
        Ok(())
    }

    fn word(&mut self, word: &str) -> Read<()> {
        self.has_words = true;
        self.call.words.push(String::from_str(self.alloc, word)?)?;
        Ok(())
    }

    fn fails(&mut self, rest: &str) -> Read<()> {
        let (object, rest) = first_word(rest);
        let calls = some_numbers(self.alloc, rest)?;
        match object {
            "folder" => self.call.folder_fails.extend_from_slice(calls.as_slice())?,
            "stdin" => self.call.input_fails.extend_from_slice(calls.as_slice())?,
            "stdout" => self.call.stdout.list(calls.as_slice())?,
            "stderr" => self.call.stderr.list(calls.as_slice())?,
            _ => return refuse(Misread::NotALine),
        }
        Ok(())
    }

    fn cut(&mut self, rest: &str) -> Read<()> {
        let (object, rest) = first_word(rest);
        let (call, taken) = two_numbers(rest)?;
        match object {
            "stdout" => self.call.stdout.cut(call, taken),
            "stderr" => self.call.stderr.cut(call, taken),
            _ => refuse(Misread::NotALine),
        }
    }

    /// Opens a text.
    fn open(&mut self, word: &str, rest: &str) -> Read<()> {
        self.open = match word {
            "file" => Part::File(String::from_str(self.alloc, rest)?),
            "main" => Part::Main,
            "stdin" => Part::Stdin,
            "stdout" => Part::Stdout,
            _ => Part::Stderr,
        };
        Ok(())
    }

    /// Opens the front of an output.
    fn begins(&mut self, output: &str) -> Read<()> {
        match output {
            "stdout" => self.stdout_goes_on = true,
            "stderr" => self.stderr_goes_on = true,
            _ => return refuse(Misread::NotALine),
        }
        self.open(output, "")
    }

    fn dir(&mut self, dir: WantedDir) -> Read<()> {
        match self.dir {
            WantedDir::Any => {
                self.dir = dir;
                Ok(())
            }
            _ => refuse(Misread::Twice),
        }
    }

    fn count(&mut self, word: &str, rest: &str) -> Read<()> {
        let count = one_number(rest)?;
        match word {
            "status" => set_once(&mut self.status, count),
            "spent" => set_once(&mut self.counts.spent, count),
            _ => set_once(&mut self.counts.turns, count),
        }
    }
}

fn wanted_text(text: Vec<u8>, goes_on: bool) -> WantedText {
    if goes_on {
        WantedText::Front(text)
    } else {
        WantedText::Whole(text)
    }
}

fn set_once(known: &mut Option<u64>, count: u64) -> Read<()> {
    if known.is_some() {
        return refuse(Misread::Twice);
    }
    *known = Some(count);
    Ok(())
}

fn one_number(word: &str) -> Read<u64> {
    match number(word) {
        Some(count) => Ok(count),
        None => refuse(Misread::NotANumber),
    }
}

/// Two numbers.
fn two_numbers(rest: &str) -> Read<(u64, u64)> {
    let (first, second) = first_word(rest);
    Ok((one_number(first)?, one_number(second)?))
}

/// The numbers of a line, of which there is at least one.
fn some_numbers(alloc: Global, rest: &str) -> Read<Vec<u64>> {
    match numbers(alloc, rest)? {
        Some(all) if !all.is_empty() => Ok(all),
        _ => refuse(Misread::NotANumber),
    }
}
