//! A reader that counts its reads down and remembers whether one failed: so it tells whether one more may be made.
ghost use Rattle.std.specs.Prelude.{◌≡◌, ◌<◌, ◌↔◌, IsTrue, false};
ghost use Rattle.gp_stream.specs.Source.{Reads, max_reads};

use std::io;
use std::io::Read;
use std::marker::Model;

/// The most reads that are made of one source, unless it is endless.
pub const MAX_READS: u64 = 2_097_152;

/// A reader that counts its reads down and remembers whether one failed.
#[derive(Drop)]
pub struct Source<R: Read> {
    inner: R,
    left: u64,
    failed: bool,
}

impl<R: Read> Model for Source<R> {
    ghost use Rattle.gp_stream.specs.Source.{SourceState};

    ghost Value = { SourceState R };

    ghost view = { λ s. record {
      reader = s.inner;
      remaining = R.remaining s.inner;
      left = s.left;
      failed = s.failed;
    } };
}

impl<R: Read> Source<R> {
    /// Makes a source of which nothing was read, for [`MAX_READS`] reads.
    pub fn new(inner: R) -> Self
        ensures { result ≡ record { reader = inner; remaining = R.remaining inner; left = max_reads; failed = false } }
    {
        Source {
            inner,
            left: MAX_READS,
            failed: false,
        }
    }

    /// Makes a source of which nothing was read, for as many reads as there are.
    pub fn endless(inner: R) -> Self
        ensures { result ≡ record { reader = inner; remaining = R.remaining inner; left = u64.MAX; failed = false } }
    {
        Source {
            inner,
            left: u64::MAX,
            failed: false,
        }
    }

    /// Tells whether a read may still be made: none failed, and the bound of reads is not met.
    pub fn can_read(&self) -> bool
        ensures { IsTrue result ↔ ((0 < self.now.left) × (self.now.failed ≡ false)) }
    {
        self.left > 0 && !self.failed
    }

    /// Makes one read of those that are left.
    pub fn read(&mut self, buffer: &mut [u8]) -> io::Result<usize>
        requires { 0 < self.old.left }
        ensures { Reads self.old self.new buffer.new result }
    {
        self.left -= 1;
        let outcome = self.inner.read(buffer);
        if outcome.is_err() {
            self.failed = true;
        }
        outcome
    }
}
