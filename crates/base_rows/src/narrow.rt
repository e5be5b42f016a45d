//! A stream that takes byte by byte.

use std::io;
use std::io::{Error, ErrorKind, Write};

/// A stream that is interrupted at every other call, takes one byte at each of the others, and ends by an error or by taking
/// nothing once it took as many bytes as it has room for.
#[derive(Drop)]
pub struct Narrow {
    pub bytes: Vec<u8>,
    pub room: u64,
    pub end: Option<ErrorKind>,
    pub is_ready: bool,
}

impl Write for Narrow {
    fn write(&mut self, buf: &[u8]) -> io::Result<usize> {
        self.is_ready = !self.is_ready;
        if self.is_ready {
            return Err(Error::from(ErrorKind::Interrupted));
        }
        if self.bytes.len() as u64 >= self.room {
            return match self.end {
                Some(kind) => Err(Error::from(kind)),
                None => Ok(0),
            };
        }
        match buf {
            [] => Ok(0),
            [first, ..] => {
                self.bytes.push(*first)?;
                Ok(1)
            }
        }
    }

    fn flush(&mut self) -> io::Result<()> {
        Ok(())
    }
}
