//! `real NAME`, with which a row begins that makes a folder of the system in the folder for temporary files, and then, a line each:
//!
//! - `dir PATH`, `file PATH TEXT`, `link PATH TARGET`: what is made in it; with the first of these it is made itself
//! - `remove`: it is removed, and all that is in it
//! - `count => N`, `name I => NAME`, `read I N => BYTES`: the calls on the package in it, and what they come to

use crate::folders::{bytes_shown, count_shown, index, name_shown};
use crate::row::tell;
use crate::words::{Misread, Read, Words, refuse};
use bal_io::{DirFolder, Folder};
use row_lines::Told;
use std::os::unix::fs::symlink;
use std::{env, fs, io, process};

pub fn real_row(rt: &HostRuntime, name: &str, lines: &[String], told: &mut Told) {
    match no_folder(rt, name) {
        Ok(root) => {
            let mut folder = DirFolder::new(rt, root.as_str());
            for line in lines {
                step(rt, root.as_str(), &mut folder, line.as_str(), told);
            }
        }
        Err(_) => told.fails(Misread::Outside.text()),
    }
}

/// The path of a folder of its own for the row, which isn't there.
fn no_folder(rt: &HostRuntime, name: &str) -> io::Result<String> {
    let around = env::temp_dir(rt)?;
    let Some(around) = around.as_path().to_str() else {
        return Err(io::Error::from(io::ErrorKind::InvalidData));
    };
    let id = process::id(rt.process());
    let path = format!(in rt.alloc(); "{around}/base_rows_{name}_{id}")?;
    if fs::exists(rt, path.as_str())? {
        fs::remove_dir_all(rt, path.as_str())?;
    }
    Ok(path)
}

fn step(
    rt: &HostRuntime,
    root: &str,
    folder: &mut DirFolder<'_, &HostRuntime>,
    line: &str,
    told: &mut Told,
) {
    match line.rsplit_once(" => ") {
        Some((question, wanted)) => {
            let came = call(folder, Words::of(told.alloc(), question));
            tell(question, wanted, came, told);
        }
        None => {
            let made = make(rt, root, Words::of(told.alloc(), line));
            if made.is_err() {
                told.misread(line, Misread::Outside.text());
            }
        }
    }
}

fn call(folder: &mut DirFolder<'_, &HostRuntime>, question: Words<'_>) -> Read<String> {
    let mut words = question;
    let alloc = words.alloc;
    match words.word() {
        "count" => count_shown(alloc, folder.count(alloc)),
        "name" => {
            let i = index(&mut words)?;
            name_shown(alloc, folder.name(alloc, i))
        }
        "read" => {
            let i = index(&mut words)?;
            let max = words.number()?;
            bytes_shown(alloc, folder.read(alloc, i, max))
        }
        _ => refuse(Misread::NotALine),
    }
}

/// Makes or removes what a line says.
fn make(rt: &HostRuntime, root: &str, line: Words<'_>) -> io::Result<()> {
    let mut words = line;
    match words.word() {
        "dir" => {
            let path = below(rt, root, words.word())?;
            fs::create_dir_all(rt, path)
        }
        "file" => {
            let path = below(rt, root, words.word())?;
            fs::write(rt, path, words.word())
        }
        "link" => {
            let path = below(rt, root, words.word())?;
            symlink(rt, words.word(), path)
        }
        "remove" => fs::remove_dir_all(rt, root),
        _ => Err(io::Error::from(io::ErrorKind::InvalidInput)),
    }
}

fn below(rt: &HostRuntime, root: &str, path: &str) -> io::Result<String> {
    Ok(format!(in rt.alloc(); "{root}/{path}")?)
}
