//! A writer that remembers whether a write or a flush failed, and whether it was flushed since the last write. Nothing
//! outside this file sets that.
ghost use Rattle.std.specs.Prelude.{◌≡◌, ◌≢◌, ◌||◌, [], false, true, is_err, is_ok};
ghost use Rattle.std.specs.Io.KnownBytes.{Keeps, WriteAppends};
ghost use Rattle.std.specs.Io.{WritesAtMost};

use std::io;
use std::io::Write;

/// A writer that remembers whether a write failed or took nothing or a flush failed, and whether it
/// was flushed since the last write. Nothing outside this module sets that.
#[derive(Drop)]
pub struct Watched<W> {
    inner: W,
    stopped: bool,
    flushed: bool,
}

impl<W: Write> Watched<W> {
    ghost use Rattle.gp_stream.specs.Watched.{inner_of, is_stopped, is_flushed, took_nothing};

    /// Makes a watched writer that has not failed and has nothing to flush.
    pub(crate) fn new(inner: W) -> Self
        ensures inner { inner_of result ≡ inner }
        ensures stopped { is_stopped result ≡ false }
        ensures flushed { is_flushed result ≡ true }
    {
        Watched {
            inner,
            stopped: false,
            flushed: true,
        }
    }

    /// Returns the writer below.
    pub(crate) fn into_inner(self) -> W
        ensures { result ≡ inner_of self }
    {
        let Watched { inner, .. } = self;
        inner
    }

    /// Tells whether a write failed or took nothing, or a flush failed.
    pub(crate) fn is_stopped(&self) -> bool
        ensures { result ≡ is_stopped self.now }
    {
        self.stopped
    }

    /// Makes one write, if there is anything to write.
    pub(crate) fn write(&mut self, bytes: &[u8]) -> io::Result<usize>
        ensures bound { WritesAtMost result bytes.now }
        ensures bytes { WriteAppends (W.contents (inner_of self.old))
            (W.contents (inner_of self.new)) result bytes.now }
        ensures stopped { is_stopped self.new ≡ (is_stopped self.old || took_nothing bytes.now result) }
        ensures flushed { bytes.now ≢ [] → is_flushed self.new ≡ false }
    {
        if bytes.is_empty() {
            return Ok(0);
        }
        self.flushed = false;
        let outcome = self.inner.write(bytes);
        match &outcome {
            Ok(count) if *count > 0 => {}
            _ => self.stopped = true,
        }
        outcome
    }

    /// Has the writer hand on all that it took. A flush that fails counts as a failed write.
    pub(crate) fn flush(&mut self) -> io::Result<()>
        ensures bytes { Keeps (W.contents (inner_of self.old)) (W.contents (inner_of self.new)) }
        ensures stopped { is_stopped self.new ≡ (is_stopped self.old || is_err result) }
        ensures flushed { is_flushed self.new ≡ is_ok result }
    {
        let outcome = self.inner.flush();
        self.flushed = outcome.is_ok();
        if outcome.is_err() {
            self.stopped = true;
        }
        outcome
    }
}
