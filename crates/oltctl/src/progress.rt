//! Long work shows that it lives: how many lines went by is told on standard error, once a second.
ghost use Rattle.std.specs.Prelude.{◌≡◌};

use std::io;
use std::io::{Read, Write};
use std::rt::Clock;
use std::time::Instant;

/// How often it is told, in seconds.
const PERIOD: u64 = 1;

/// Counts lines, and tells their number once a second, unless it is silent: then it was told at no time.
#[derive(Drop)]
struct Ticker<'r, R> {
    rt: &'r R,
    lines: u64,
    expected: Option<u64>,
    told: Option<Instant>,
}

impl<R: Eprint + Clock> Ticker<'_, R> {
    /// Counts the line feeds of octets that went by, and tells how many lines there were, if it is time. Where nothing
    /// is to be told, nothing is counted.
    fn note(&mut self, octets: &[u8]) {
        if self.told.is_none() {
            return;
        }
        let count = octets.iter().filter(|octet| **octet == b'\n').count();
        self.lines = self.lines.saturating_add(count as u64);
        if self.is_due() {
            self.tell();
            self.told = Instant::now(self.rt).ok();
        }
    }

    /// Tells whether a second went by since it was told last.
    fn is_due(&self) -> bool {
        match &self.told {
            Some(told) => match told.elapsed(self.rt) {
                Ok(elapsed) => elapsed.as_secs() >= PERIOD,
                Err(_) => false,
            },
            None => false,
        }
    }

    /// Tells how many lines there were, and of how many, where that is known. Where standard error takes nothing,
    /// nothing is told.
    fn tell(&self) {
        let lines = self.lines;
        let _ = match self.expected {
            Some(expected) => eprintln!(self.rt; "oltctl: {lines} of {expected} lines"),
            None => eprintln!(self.rt; "oltctl: {lines} lines"),
        };
    }
}

/// A reader or a writer whose lines are counted, and told once a second.
#[derive(Drop)]
pub struct Counted<'r, R, T> {
    inner: T,
    ticker: Ticker<'r, R>,
}

impl<'r, R: Eprint + Clock, T> Counted<'r, R, T> {
    /// Counts the lines that go through this reader or writer where that is wanted; so many are expected, where that is
    /// known.
    pub fn new(rt: &'r R, inner: T, is_wanted: bool, expected: Option<u64>) -> Counted<'r, R, T>
        ensures { result.inner ≡ inner }
    {
        let told = if is_wanted {
            Instant::now(rt).ok()
        } else {
            None
        };
        Counted {
            inner,
            ticker: Ticker {
                rt,
                lines: 0,
                expected,
                told,
            },
        }
    }
}

impl<R: Eprint + Clock, W: Write> Write for Counted<'_, R, W> {
    ghost contents = { λ s. W.contents s.inner };

    fn write(&mut self, bytes: &[u8]) -> io::Result<usize> {
        let count = self.inner.write(bytes)?;
        self.ticker.note(&bytes[..count]);
        Ok(count)
    }

    fn flush(&mut self) -> io::Result<()> {
        self.inner.flush()
    }
}

impl<R: Eprint + Clock, T: Read> Read for Counted<'_, R, T> {
    ghost remaining = { λ s. T.remaining s.inner };

    fn read(&mut self, buffer: &mut [u8]) -> io::Result<usize> {
        let count = self.inner.read(buffer)?;
        self.ticker.note(&buffer[..count]);
        Ok(count)
    }
}
