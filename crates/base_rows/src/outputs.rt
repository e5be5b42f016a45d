//! `output KIND TEXT ..`: what each write of these texts comes to, `ok`, `fails` or `memory`, and then all that is written. KIND is
//!
//! - `memory`, with `fails N` behind it where a call fails
//! - `cut N COUNT`: in memory, where the call N fails having taken so many bytes
//! - `stream ROOM END` and `diagnostics ROOM END`: each of the two streams, one that takes byte by byte, and ROOM of them; then
//!   it takes nothing (`full`), or there is an error (`closed`), or want of memory (`memory`)

use crate::narrow::Narrow;
use crate::words::{Answers, Misread, Read, Words, failure, refuse};
use bal_io::{MemSink, Sink, StdSink};
use std::io::ErrorKind;

pub fn output(words: &mut Words<'_>) -> Read<String> {
    match words.word() {
        "memory" => {
            let fails = words.fails()?;
            in_memory(MemSink::new(words.alloc, fails), words)
        }
        "cut" => {
            let call = words.number()?;
            let taken = words.number()?;
            in_memory(MemSink::cut(words.alloc, call, taken), words)
        }
        "stream" => to_stream(words),
        "diagnostics" => to_diagnostics(words),
        _ => refuse(Misread::NotALine),
    }
}

fn in_memory(sink: MemSink, words: &mut Words<'_>) -> Read<String> {
    let mut sink = sink;
    let mut answers = Answers::new(words.alloc);
    writes(&mut sink, words, &mut answers)?;
    answers.bytes(sink.written())?;
    Ok(answers.finish())
}

fn to_stream(words: &mut Words<'_>) -> Read<String> {
    let mut narrow = narrow(words)?;
    let mut answers = Answers::new(words.alloc);
    let mut sink: StdSink<&mut Narrow, &mut Narrow> = StdSink::to_output(&mut narrow);
    writes(&mut sink, words, &mut answers)?;
    answers.bytes(&narrow.bytes)?;
    Ok(answers.finish())
}

fn to_diagnostics(words: &mut Words<'_>) -> Read<String> {
    let mut narrow = narrow(words)?;
    let mut answers = Answers::new(words.alloc);
    let mut sink: StdSink<&mut Narrow, &mut Narrow> = StdSink::to_diagnostics(&mut narrow);
    writes(&mut sink, words, &mut answers)?;
    answers.bytes(&narrow.bytes)?;
    Ok(answers.finish())
}

fn narrow(words: &mut Words<'_>) -> Read<Narrow> {
    Ok(Narrow {
        bytes: Vec::new(words.alloc),
        room: words.number()?,
        end: end_of(words.word())?,
        is_ready: false,
    })
}

fn end_of(word: &str) -> Read<Option<ErrorKind>> {
    match word {
        "full" => Ok(None),
        "closed" => Ok(Some(ErrorKind::BrokenPipe)),
        "memory" => Ok(Some(ErrorKind::OutOfMemory)),
        _ => refuse(Misread::NotALine),
    }
}

/// Writes all texts that are left.
fn writes<S: Sink>(sink: &mut S, words: &mut Words<'_>, answers: &mut Answers) -> Read<()> {
    for _ in 0..u64::MAX {
        if words.is_done() {
            break;
        }
        let text = words.bytes()?;
        answers.word(written(sink, &text))?;
    }
    Ok(())
}

fn written<S: Sink>(sink: &mut S, text: &[u8]) -> &'static str {
    match sink.write(text) {
        Ok(()) => "ok",
        Err(stop) => failure(&stop),
    }
}
