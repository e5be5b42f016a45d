//! `entries N NAME`: how many files a package has whose folder has so many entries, all of this name, none of which is anything.
//! The name ends with a zero byte, as the system gives it.

use crate::folders::count_shown;
use crate::words::{Misread, Read, Words, refuse};
use bal_io::{DirFolder, Folder};
use std::alloc::Allocator;
use std::fs::{File, Metadata, OpenOptions};
use std::io;
use std::io::{Error, ErrorKind, Read as ReadBytes};
use std::rt::Files;

/// How many bytes the name may have.
const MOST_BYTES: usize = 16;

/// A system with one folder, all whose entries have the same name, and with nothing else.
#[derive(Clone, Copy)]
struct OneFolder {
    name: [u8; MOST_BYTES],
    len: usize,
    count: u64,
}

impl OneFolder {
    fn new(name: &[u8], count: u64) -> Option<OneFolder> {
        if name.len() > MOST_BYTES {
            return None;
        }
        let mut all = [0; MOST_BYTES];
        for (place, byte) in all.iter_mut().zip(name) {
            *place = *byte;
        }
        Some(OneFolder {
            name: all,
            len: name.len(),
            count,
        })
    }
}

/// The entries that are still to be listed.
#[derive(Clone, Copy)]
struct Names(OneFolder);

impl ReadBytes for Names {
    fn read(&mut self, buf: &mut [u8]) -> io::Result<usize> {
        let OneFolder { name, len, count } = self.0;
        if count == 0 {
            return Ok(0);
        }
        self.0.count = count - 1;
        for (place, byte) in buf.iter_mut().zip(name.as_slice()) {
            *place = *byte;
        }
        Ok(len.min(buf.len()))
    }
}

fn refused<T>() -> io::Result<T> {
    Err(Error::from(ErrorKind::Unsupported))
}

fn missing<T>() -> io::Result<T> {
    Err(Error::from(ErrorKind::NotFound))
}

impl Files for OneFolder {
    type File = File;

    type Dir = Names;

    fn open_file(&self, _how: &OpenOptions, _path: &str) -> io::Result<File> {
        missing()
    }

    fn open_dir(&self, _path: &str) -> io::Result<Names> {
        Ok(Names(*self))
    }

    fn metadata(&self, _path: &str) -> io::Result<Metadata> {
        missing()
    }

    fn symlink_metadata(&self, _path: &str) -> io::Result<Metadata> {
        missing()
    }

    fn copy(&self, _from: &str, _to: &str) -> io::Result<u64> {
        refused()
    }

    fn rename(&self, _from: &str, _to: &str) -> io::Result<()> {
        refused()
    }

    fn remove_file(&self, _path: &str) -> io::Result<()> {
        refused()
    }

    fn create_dir(&self, _path: &str) -> io::Result<()> {
        refused()
    }

    fn remove_dir(&self, _path: &str) -> io::Result<()> {
        refused()
    }

    fn remove_dir_all<B: Allocator>(&self, _alloc: B, _path: &str) -> io::Result<()> {
        refused()
    }
}

pub fn entries(words: &mut Words<'_>) -> Read<String> {
    let count = words.number()?;
    let name = words.bytes()?;
    match OneFolder::new(&name, count) {
        Some(folder) => {
            let files = (folder, words.alloc);
            count_shown(
                words.alloc,
                DirFolder::new(files, "folder").count(words.alloc),
            )
        }
        None => refuse(Misread::NotALine),
    }
}
