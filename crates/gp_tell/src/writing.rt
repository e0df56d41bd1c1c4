//! How a teller takes octets, in whatever pieces they come: a whole line is told where it stands, a part of one is
//! kept, and one that is too long is passed on.
ghost use Rattle.std.specs.Prelude.{◌≡◌, ◌∷◌, ◌++◌, [], Err, IfOk, MatchBool, None, OnErr, OnOk, false, vec_capacity};
ghost use Rattle.std.specs.List.{All};
ghost use Rattle.gp_lines.specs.Trace.{is_feed};
ghost use Rattle.gp_stream.specs.Sink.{Gives};
ghost use Rattle.gp_tell.specs.Ending.{EndsLine};

use crate::began::Began;
use crate::fault::TellFault;
use crate::teller::Teller;
use gp_explain::Telling;
use gp_flow::MAX_LINE_BYTES;
use gp_stream::{Sink, Taken, WriteStopped};
use memchr::memchr;
use std::io;
use std::io::{ErrorKind, Write};

/// The octet that ends a line.
const LINE_FEED: u8 = b'\n';

/// Hands on what was kept of a line, and then a part of it.
fn pass_on<W: Write>(below: &mut Sink<W>, kept: &[u8], part: &[u8]) -> Result<(), WriteStopped>
    ensures { Gives below.old below.new (kept.now ++ part.now) result }
{
    below.put(kept)?;
    below.put(part)
}

/// Hands on what is told of a line at its line feed: of one that was passed on, the line feed.
fn end_line<W: Write>(
    telling: &mut Telling,
    below: &mut Sink<W>,
    line: &[u8],
    long: bool,
    told: &mut Vec<u8>,
) -> Result<(), TellFault>
    ensures { EndsLine long line.now telling.old telling.new below.old below.new result }
{
    if long {
        below.put(b"\n")?;
        return Ok(());
    }
    if telling.tell(line, told).is_err() {
        return Err(TellFault::OutOfMemory);
    }
    below.put(told.as_slice())?;
    Ok(())
}

/// Begins a line behind a line feed.
fn begin_line(line: &mut Vec<u8>, long: &mut bool, taken: &mut Taken)
    ensures line { line.new.items ≡ [] }
    ensures capacity { vec_capacity line.new ≡ vec_capacity line.old }
    ensures long { long.new ≡ false }
    ensures taken { taken.new.octets ≡ taken.old.octets ++ 10 ∷ [] }
{
    line.clear();
    *long = false;
    taken.note(b"\n");
}

/// The error that a call of a writer gives for a fault.
fn error_of(fault: TellFault) -> io::Error {
    match fault {
        TellFault::Write => io::Error::from(ErrorKind::Other),
        TellFault::OutOfMemory => io::Error::from(ErrorKind::OutOfMemory),
    }
}

impl<B: Began, W: Write> Teller<B, W> {
    /// Takes octets of a line. They are kept, or passed on where the line is too long.
    fn keep(&mut self, part: &[u8])
        requires running { self.old.fault ≡ None }
        requires part { All (λ octet. is_feed octet ≡ false) part.now }
        ensures { self.new.taken ≡ self.old.taken ++ part.now }
    {
        self.taken.note(part);
        if !self.long && part.len() <= MAX_LINE_BYTES - self.line.len() {
            self.line.extend_from_slice(part).unwrap();
            return;
        }
        let passed = pass_on(&mut self.below, self.line.as_slice(), part);
        self.line.clear();
        self.long = true;
        if passed.is_err() {
            self.fault = Some(TellFault::Write);
        }
    }

    /// Takes a line that stands whole, and its line feed, if nothing of it was taken before and it is not too long: it
    /// is told where it stands. Tells whether it did. Where there is no memory for what is told of it, it is not taken,
    /// and what was told before is written out.
    fn take_whole(&mut self, line: &[u8]) -> Result<bool, TellFault>
        requires running { self.old.fault ≡ None }
        requires line { All (λ octet. is_feed octet ≡ false) line.now }
        ensures ok { IfOk result
            (λ whole. MatchBool whole (self.new.taken ≡ self.old.taken ++ line.now ++ 10 ∷ []) (self.new ≡ self.old)) }
        ensures err { OnErr result (self.new.taken ≡ self.old.taken) }
    {
        if self.long || !self.line.is_empty() || line.len() > MAX_LINE_BYTES {
            return Ok(false);
        }
        match end_line(
            &mut self.telling,
            &mut self.below,
            line,
            false,
            &mut self.told,
        ) {
            Ok(()) => {
                self.taken.note(line);
                self.taken.note(b"\n");
                Ok(true)
            }
            Err(TellFault::Write) => {
                self.taken.note(line);
                self.taken.note(b"\n");
                self.fault = Some(TellFault::Write);
                Ok(true)
            }
            Err(TellFault::OutOfMemory) => {
                let _ = self.below.finish();
                self.fault = Some(TellFault::OutOfMemory);
                Err(TellFault::OutOfMemory)
            }
        }
    }

    /// Takes a line feed, unless there is no memory for what is told of the line: then what was told before is written
    /// out.
    fn end(&mut self) -> Result<(), TellFault>
        requires { self.old.fault ≡ None }
        ensures ok { OnOk result (self.new.taken ≡ self.old.taken ++ 10 ∷ []) }
        ensures err { OnErr result (self.new.taken ≡ self.old.taken) }
    {
        match end_line(
            &mut self.telling,
            &mut self.below,
            self.line.as_slice(),
            self.long,
            &mut self.told,
        ) {
            Ok(()) => {
                begin_line(&mut self.line, &mut self.long, &mut self.taken);
                Ok(())
            }
            Err(TellFault::Write) => {
                begin_line(&mut self.line, &mut self.long, &mut self.taken);
                self.fault = Some(TellFault::Write);
                Ok(())
            }
            Err(TellFault::OutOfMemory) => {
                let _ = self.below.finish();
                self.fault = Some(TellFault::OutOfMemory);
                Err(TellFault::OutOfMemory)
            }
        }
    }
}

impl<B: Began, W: Write> Write for Teller<B, W> {
    ghost use Rattle.std.specs.Prelude.{Some};

    ghost contents = { λ s. Some s.taken };

    /// Takes the first line, with its line feed, where it stands whole; else the octets up to the first line feed, or
    /// that line feed alone.
    fn write(&mut self, bytes: &[u8]) -> io::Result<usize> {
        if let Some(fault) = self.fault() {
            return Err(error_of(fault));
        }
        let Some(count) = memchr(LINE_FEED, bytes) else {
            self.keep(bytes);
            return Ok(bytes.len());
        };
        let line = &bytes[..count];
        if self.take_whole(line).map_err(error_of)? {
            return Ok(count + 1);
        }
        if count == 0 {
            self.end().map_err(error_of)?;
            return Ok(1);
        }
        self.keep(line);
        Ok(count)
    }

    /// Writes out all that was told, and flushes the writer below behind it.
    fn flush(&mut self) -> io::Result<()> {
        self.finish().map_err(error_of)
    }
}
