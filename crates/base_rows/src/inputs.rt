//! `input KIND TEXT N ..`: the next lines of an input with these bytes, where at most N bytes of each are asked for. KIND is
//! `memory`, with `fails N` behind it where a call fails, or `drips` or `broken` for one that comes byte by byte and ends or fails
//! behind its last byte. A line is a string, with `...` behind it where it isn't whole; there may be `none`, or the call `fails`.

use crate::drips::{Drips, Given};
use crate::words::{Answers, Misread, Read, Words, failure, refuse, string_of};
use bal_base::{Failed, Stop};
use bal_io::{Line, MemSource, Source, StdSource};
use std::alloc::{AllocError, Global};

pub fn input(words: &mut Words<'_>) -> Read<String> {
    match words.word() {
        "memory" => {
            let fails = words.fails()?;
            let bytes = words.bytes()?;
            lines(&mut MemSource::new(bytes, fails), words)
        }
        "drips" => dripping(false, words),
        "broken" => dripping(true, words),
        _ => refuse(Misread::NotALine),
    }
}

fn dripping(fails: bool, words: &mut Words<'_>) -> Read<String> {
    let bytes = words.bytes()?;
    match Drips::new(&bytes, fails) {
        Some(drips) => lines(&mut StdSource::new(Given(drips)), words),
        None => refuse(Misread::NotALine),
    }
}

fn lines<S: Source>(source: &mut S, words: &mut Words<'_>) -> Read<String> {
    let mut answers = Answers::new(words.alloc);
    for _ in 0..u64::MAX {
        if words.is_done() {
            break;
        }
        let max = words.number()?;
        let line = source.read_line(words.alloc, max);
        answers.word(shown(words.alloc, &line)?.as_str())?;
    }
    Ok(answers.finish())
}

fn shown(alloc: Global, line: &Result<Option<Line>, Stop<Failed>>) -> Result<String, AllocError> {
    match line {
        Ok(Some(line)) => shown_line(alloc, line),
        Ok(None) => String::from_str(alloc, "none"),
        Err(stop) => String::from_str(alloc, failure(stop)),
    }
}

fn shown_line(alloc: Global, line: &Line) -> Result<String, AllocError> {
    let mut text = string_of(alloc, line.bytes.as_slice())?;
    if !line.whole {
        text.push_str("...")?;
    }
    Ok(text)
}
