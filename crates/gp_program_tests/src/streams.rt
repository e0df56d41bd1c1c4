//! Readers and writers that fail, as several of the tests use them.
use std::io::{self, ErrorKind, Read, Write};

/// Fails at each read.
#[derive(Drop)]
pub(crate) struct FailingReader;

impl Read for FailingReader {
    fn read(&mut self, _buffer: &mut [u8]) -> io::Result<usize> {
        Err(io::Error::from(ErrorKind::Other))
    }
}

/// Takes one octet a write, and once it took so many it fails, or takes nothing.
#[derive(Drop)]
pub(crate) struct ShortWriter {
    pub(crate) taken: Vec<u8>,
    pub(crate) room: usize,
    pub(crate) fails: bool,
}

impl Write for ShortWriter {
    fn write(&mut self, buffer: &[u8]) -> io::Result<usize> {
        if self.taken.len() >= self.room {
            return if self.fails {
                Err(io::Error::from(ErrorKind::Other))
            } else {
                Ok(0)
            };
        }
        match buffer.first() {
            Some(first) => {
                self.taken.push(*first)?;
                Ok(1)
            }
            None => Ok(0),
        }
    }

    fn flush(&mut self) -> io::Result<()> {
        Ok(())
    }
}
