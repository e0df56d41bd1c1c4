//! A writer that fails, as several of the tests use it.
use std::io;
use std::io::{ErrorKind, Write};

/// Takes so many octets, and then fails.
#[derive(Drop)]
pub(crate) struct ShortWriter {
    pub(crate) taken: Vec<u8>,
    pub(crate) room: usize,
}

impl Write for ShortWriter {
    fn write(&mut self, bytes: &[u8]) -> io::Result<usize> {
        if self.taken.len() >= self.room {
            return Err(io::Error::from(ErrorKind::Other));
        }
        let count = bytes.len().min(self.room - self.taken.len());
        match self.taken.extend_from_slice(&bytes[..count]) {
            Ok(()) => Ok(count),
            Err(_) => Err(io::Error::from(ErrorKind::OutOfMemory)),
        }
    }

    fn flush(&mut self) -> io::Result<()> {
        Ok(())
    }
}
