//! A writer that gathers bytes and hands them on in large pieces, each flushed; once a write or a flush failed nothing
//! more is written.
ghost use Rattle.std.specs.Prelude.{◌≡◌, ◌+◌, ◌<◌, ◌≤◌, ◌||◌, [], IfOk, OnOk, OnErr, IsOk, IsErr, IsTrue, ℕ, false, true, length, take, is_err};
ghost use Rattle.std.specs.Io.KnownBytes.{Appends};
ghost use Rattle.gp_stream.specs.Watched.{inner_of, is_flushed, is_stopped};
ghost use Rattle.gp_stream.specs.Sink.{Gives, Puts, Finishes, WritesWhole};

use crate::watched::Watched;
use std::alloc::{AllocError, Global};
use std::io::Write;
use std::marker::Model;
use thiserror::Error;

/// How many bytes a sink gathers before it writes them.
pub const GATHERED_BYTES: usize = 65_536;

/// A write failed or took nothing, or a flush failed, which counts as a failed write.
#[derive(Clone, Copy, Debug, PartialEq, Eq, Error)]
#[error("a write failed or took nothing")]
pub struct WriteStopped;

/// A writer that is given bytes in large pieces, each followed by a flush, and nothing more once a
/// write failed or took nothing, or a flush failed.
///
/// What is gathered when the sink goes is lost: call [`Sink::finish`] first.
#[derive(Drop)]
pub struct Sink<W: Write> {
    writer: Watched<W>,
    gathered: Vec<u8>,
}

impl<W: Write> Model for Sink<W> {
    ghost use Rattle.std.specs.Prelude.{vec_capacity};
    ghost use Rattle.gp_stream.specs.Sink.{SinkState};
    ghost use Rattle.gp_stream.specs.Watched.{inner_of, is_flushed, is_stopped};

    ghost Value = { SinkState W };

    ghost view = { λ s. record {
      writer = inner_of s.writer;
      held = W.contents (inner_of s.writer);
      gathered = s.gathered.items;
      stopped = is_stopped s.writer;
      flushed = is_flushed s.writer;
      room = vec_capacity s.gathered;
    } };
}

/// Writes all the bytes, in as many writes as it takes. Where one fails or takes nothing, those
/// before it stand and none comes after it.
fn write_all<W: Write>(writer: &mut Watched<W>, bytes: &[u8]) -> Result<(), WriteStopped>
    ensures ok { OnOk result (Appends (W.contents (inner_of writer.old)) (W.contents (inner_of writer.new)) bytes.now) }
    ensures err { OnErr result ((count : ℕ)
        × Appends (W.contents (inner_of writer.old)) (W.contents (inner_of writer.new)) (take count bytes.now)) }
    ensures stopped { is_stopped writer.new ≡ (is_stopped writer.old || is_err result) }
    ensures refused { IsTrue (is_stopped writer.old) → IsErr result × (writer.new ≡ writer.old) }
    ensures idle { is_stopped writer.old ≡ false → bytes.now ≡ [] → IsOk result × (writer.new ≡ writer.old) }
{
    if writer.is_stopped() {
        return Err(WriteStopped);
    }
    let mut at = 0;
    'writes: while at < bytes.len() {
        match writer.write(&bytes[at..]) {
            Ok(count) if count > 0 => at += count,
            _ => return Err(WriteStopped),
        }
    }
    Ok(())
}

/// Writes all the bytes and flushes the writer behind them, if there are any.
fn write_out<W: Write>(writer: &mut Watched<W>, bytes: &[u8]) -> Result<(), WriteStopped>
    ensures ok { OnOk result (Appends (W.contents (inner_of writer.old)) (W.contents (inner_of writer.new)) bytes.now) }
    ensures err { OnErr result ((count : ℕ)
        × Appends (W.contents (inner_of writer.old)) (W.contents (inner_of writer.new)) (take count bytes.now)) }
    ensures stopped { is_stopped writer.new ≡ (is_stopped writer.old || is_err result) }
    ensures refused { IsTrue (is_stopped writer.old) → IsErr result × (writer.new ≡ writer.old) }
    ensures idle { is_stopped writer.old ≡ false → bytes.now ≡ [] → IsOk result × (writer.new ≡ writer.old) }
    ensures flushed { is_flushed writer.old ≡ true → OnOk result (is_flushed writer.new ≡ true) }
{
    write_all(writer, bytes)?;
    if bytes.is_empty() {
        return Ok(());
    }
    writer.flush().map_err(|_| WriteStopped)
}

impl<W: Write> Sink<W> {
    /// Makes a sink with room for [`GATHERED_BYTES`] bytes.
    pub fn new(alloc: Global, inner: W) -> Result<Self, AllocError>
    where
        W: Drop,
        ensures { IfOk result (λ sink. sink ≡ record {
          writer = inner;
          held = W.contents inner;
          gathered = [];
          stopped = false;
          flushed = true;
          room = GATHERED_BYTES;
        }) }
    {
        let gathered = Vec::with_capacity(alloc, GATHERED_BYTES)?;
        let writer = Watched::new(inner);
        Ok(Sink { writer, gathered })
    }

    /// Returns the writer below, which holds what the sink says that it holds. What is gathered is lost.
    pub fn into_inner(self) -> W
        ensures writer { result ≡ self.writer }
        ensures held { W.contents result ≡ self.held }
    {
        let Sink { writer, .. } = self;
        writer.into_inner()
    }

    /// Writes out what is gathered, if anything is, and flushes the writer behind it. Once a write
    /// failed or took nothing, or a flush failed, nothing more is written.
    pub fn finish(&mut self) -> Result<(), WriteStopped>
        ensures { Finishes self.old self.new result }
    {
        write_out(&mut self.writer, self.gathered.as_slice())?;
        self.gathered.clear();
        Ok(())
    }

    /// Hands in bytes. Where there is room for them they are gathered, and nothing is written;
    /// else what was gathered goes out first. Once a write failed or took nothing, or a flush failed,
    /// nothing more is written.
    pub fn put(&mut self, bytes: &[u8]) -> Result<(), WriteStopped>
        ensures { Puts self.old self.new bytes.now result }
    {
        if self.writer.is_stopped() {
            return Err(WriteStopped);
        }
        if bytes.len() > self.gathered.capacity() - self.gathered.len() {
            return self.put_behind(bytes);
        }
        self.gathered.extend_from_slice(bytes).unwrap();
        Ok(())
    }

    /// Hands in bytes, and writes out all that is gathered then. Once a write failed or took nothing,
    /// or a flush failed, nothing more is written.
    pub fn write_whole(&mut self, bytes: &[u8]) -> Result<(), WriteStopped>
        ensures { WritesWhole self.old self.new bytes.now result }
    {
        self.put(bytes)?;
        self.finish()
    }

    /// Writes out what is gathered, and then gathers the bytes, or writes them too where there is
    /// never room for so many.
    fn put_behind(&mut self, bytes: &[u8]) -> Result<(), WriteStopped>
        requires { self.old.stopped ≡ false }
        ensures gives { Gives self.old self.new bytes.now result }
        ensures gathers { length bytes.now ≤ self.old.room → OnOk result (self.new.gathered ≡ bytes.now) }
    {
        self.finish()?;
        if bytes.len() > self.gathered.capacity() {
            return write_out(&mut self.writer, bytes);
        }
        self.gathered.extend_from_slice(bytes).unwrap();
        Ok(())
    }
}
