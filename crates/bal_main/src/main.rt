//! The program `bal_run`: it makes the folder and the streams, and leaves all else to the top call.
#![tactic(auto)]

use bal_base::Memory;
use bal_io::{DirFolder, StdSink, StdSource};
use bal_run::{Status, bal_run, dir_of, status_number};
use std::env;
use std::io::ErrorKind;
use std::process::ExitCode;

fn main(rt: HostRuntime) -> ExitCode {
    let status = match words(&rt) {
        Ok(words) => run(&rt, words.as_slice()),
        Err(Memory) => Status::Memory,
    };
    ExitCode::from(status_number(&status))
}

/// Calls the top with the real folder and streams.
fn run(rt: &HostRuntime, words: &[String]) -> Status {
    let Ok(dir) = dir_of(rt.alloc(), words) else {
        return Status::Memory;
    };
    let path = match &dir {
        Some(dir) => dir.as_str(),
        None => ".",
    };
    let mut folder = DirFolder::new(rt, path);
    let mut input = StdSource::new(rt);
    let mut out = StdSink::new(rt, false);
    let mut diag = StdSink::new(rt, true);
    bal_run(
        rt.alloc(),
        words,
        &mut folder,
        &mut input,
        &mut out,
        &mut diag,
    )
    .status
}

/// The words behind the program's name. Where one is not UTF-8 there are none, which is no good command.
fn words(rt: &HostRuntime) -> Result<Vec<String>, Memory> {
    let mut words = Vec::new(rt.alloc());
    match env::args(rt) {
        Ok(all) => {
            for word in all.skip(1) {
                words.push(word)?;
            }
            Ok(words)
        }
        Err(error) if error.kind() == ErrorKind::OutOfMemory => Err(Memory),
        Err(_) => Ok(words),
    }
}
