//! `folder NAME TEXT .. CALL ..`: a folder in memory of files with these names and texts, and the calls on it, with `fails N`
//! before the files where a call fails. CALL is
//!
//! - `count`: how many files there are
//! - `name I` and `read I N`: how many there are, a call of its own, and then the name of a file, or its front where at most N
//!   bytes are asked for; `none` where there is no such file

use crate::words::{Answers, Misread, Read, Words, failure, refuse, string_of};
use bal_base::{Bytes, Failed, Name, Stop};
use bal_io::{Folder, MemFolder};
use std::alloc::Global;

pub fn folder(words: &mut Words<'_>) -> Read<String> {
    let fails = words.fails()?;
    let files = files(words)?;
    let mut folder = MemFolder::new(files, fails);
    let mut answers = Answers::new(words.alloc);
    for _ in 0..u64::MAX {
        if words.is_done() {
            break;
        }
        let answer = call(&mut folder, words)?;
        answers.word(answer.as_str())?;
    }
    Ok(answers.finish())
}

fn files(words: &mut Words<'_>) -> Read<Vec<(Name, Bytes)>> {
    let mut files = Vec::new(words.alloc);
    for _ in 0..u64::MAX {
        if !words.has_string() {
            break;
        }
        let name = words.text()?;
        let bytes = words.bytes()?;
        files.push((Name::new(words.alloc, name.as_str())?, Bytes::of(bytes)))?;
    }
    Ok(files)
}

fn call(folder: &mut MemFolder, words: &mut Words<'_>) -> Read<String> {
    match words.word() {
        "count" => counted(folder, words.alloc),
        "name" => {
            let i = index(words)?;
            named(folder, words.alloc, i)
        }
        "read" => {
            let i = index(words)?;
            let max = words.number()?;
            read(folder, words.alloc, i, max)
        }
        _ => refuse(Misread::NotALine),
    }
}

/// The number of a file.
pub fn index(words: &mut Words<'_>) -> Read<u32> {
    match u32::try_from(words.number()?) {
        Ok(i) => Ok(i),
        Err(_) => refuse(Misread::NotALine),
    }
}

fn counted(folder: &mut MemFolder, alloc: Global) -> Read<String> {
    count_shown(alloc, folder.count(alloc))
}

fn named(folder: &mut MemFolder, alloc: Global, i: u32) -> Read<String> {
    match folder.count(alloc) {
        Ok(count) if i < count => name_shown(alloc, folder.name(alloc, i)),
        Ok(_) => Ok(String::from_str(alloc, "none")?),
        Err(stop) => Ok(String::from_str(alloc, failure(&stop))?),
    }
}

fn read(folder: &mut MemFolder, alloc: Global, i: u32, max: u64) -> Read<String> {
    match folder.count(alloc) {
        Ok(count) if i < count => bytes_shown(alloc, folder.read(alloc, i, max)),
        Ok(_) => Ok(String::from_str(alloc, "none")?),
        Err(stop) => Ok(String::from_str(alloc, failure(&stop))?),
    }
}

/// What a call for the number of files comes to.
pub fn count_shown(alloc: Global, count: Result<u32, Stop<Failed>>) -> Read<String> {
    match count {
        Ok(count) => Ok(format!(in alloc; "{count}")?),
        Err(stop) => Ok(String::from_str(alloc, failure(&stop))?),
    }
}

/// What a call for a name comes to.
pub fn name_shown(alloc: Global, name: Result<Name, Stop<Failed>>) -> Read<String> {
    match name {
        Ok(name) => Ok(string_of(alloc, name.as_str().as_bytes())?),
        Err(stop) => Ok(String::from_str(alloc, failure(&stop))?),
    }
}

/// What a call for bytes comes to.
pub fn bytes_shown(alloc: Global, bytes: Result<Vec<u8>, Stop<Failed>>) -> Read<String> {
    match bytes {
        Ok(bytes) => Ok(string_of(alloc, &bytes)?),
        Err(stop) => Ok(String::from_str(alloc, failure(&stop))?),
    }
}
