//! `Nowhere`, a writer that keeps nothing: for a trace of which only the counts are wanted.
use std::io;
use std::io::Write;

/// A writer that takes all octets and keeps none.
#[derive(Drop)]
pub struct Nowhere;

impl Write for Nowhere {
    fn write(&mut self, bytes: &[u8]) -> io::Result<usize> {
        Ok(bytes.len())
    }

    fn flush(&mut self) -> io::Result<()> {
        Ok(())
    }
}
