//! An input that comes byte by byte.

use std::alloc::Allocator;
use std::io;
use std::io::{BufRead, Error, ErrorKind, Input, Lines, Read};

/// How many bytes it may have.
const MOST_BYTES: usize = 32;

/// An input that gives one byte at each read, and ends or fails behind its last one.
#[derive(Clone, Copy)]
pub struct Drips {
    bytes: [u8; MOST_BYTES],
    len: usize,
    at: usize,
    fails: bool,
}

impl Drips {
    /// These bytes, of which there are at most 32.
    pub fn new(bytes: &[u8], fails: bool) -> Option<Drips> {
        if bytes.len() > MOST_BYTES {
            return None;
        }
        let mut all = [0; MOST_BYTES];
        for (place, byte) in all.iter_mut().zip(bytes) {
            *place = *byte;
        }
        Some(Drips {
            bytes: all,
            len: bytes.len(),
            at: 0,
            fails,
        })
    }

    /// The bytes that are still to be read.
    fn rest(&self) -> &[u8] {
        self.bytes.get(self.at..self.len).unwrap_or(&[])
    }
}

impl Read for Drips {
    fn read(&mut self, buf: &mut [u8]) -> io::Result<usize> {
        let next = self.rest().first().copied();
        match (next, buf) {
            (Some(byte), [place, ..]) => {
                *place = byte;
                self.at = self.at.saturating_add(1);
                Ok(1)
            }
            (None, [_, ..]) if self.fails => Err(Error::from(ErrorKind::PermissionDenied)),
            _ => Ok(0),
        }
    }
}

impl BufRead for Drips {
    fn fill_buf(&mut self) -> io::Result<&[u8]> {
        Ok(self.rest())
    }

    fn consume(&mut self, amount: usize) {
        self.at = self.at.saturating_add(amount);
    }
}

/// A runtime whose standard input is the given one.
#[derive(Clone, Copy)]
pub struct Given(pub Drips);

impl Input for Given {
    type Reader = Drips;

    fn read_line<A: Allocator + Clone>(&self, buf: &mut String<A>) -> io::Result<usize> {
        self.reader().read_line(buf)
    }

    fn lines<A: Allocator>(&self, alloc: A) -> Lines<Drips, A> {
        self.reader().lines(alloc)
    }

    fn reader(&self) -> Drips {
        self.0
    }
}
