//! The lines of a trace, one after another.
ghost use Rattle.std.specs.Prelude.{◌≡◌, IfOk};
ghost use Rattle.gp_transcribe.specs.Transcribing.{opened_state};

use gp_explain::NoLine;
use gp_lines::PORTS;
use gp_log::MAX_ENTRY;
use std::alloc::{AllocError, Global};
use std::marker::Model;

/// How much room the buffer of a line has at first: for what was said first and second.
const LINE_ROOM: usize = 2 * MAX_ENTRY;

/// Writes the lines of a trace as those of a log, one after another. The first line that is none of a trace ends it.
/// Contracts see how many frames each port has had, how many lines came, and what ended it.
#[derive(Drop)]
pub struct Transcriber {
    pub(crate) buffer: Vec<u8>,
    pub(crate) frames: [u64; PORTS],
    pub(crate) lines: u64,
    pub(crate) ended: Option<NoLine>,
}

impl Model for Transcriber {
    ghost use Rattle.gp_transcribe.specs.Transcribing.{TranscribeState};

    ghost Value = { TranscribeState };

    ghost view = { λ s. record { frames = s.frames; lines = s.lines; ended = s.ended } };
}

impl Transcriber {
    /// Makes one to which no line came. Its buffer has room for the two lines of a log that a line may be.
    pub fn new(alloc: Global) -> Result<Transcriber, AllocError>
        ensures { IfOk result (λ transcriber. transcriber ≡ opened_state) }
    {
        let buffer = Vec::with_capacity(alloc, LINE_ROOM)?;
        Ok(Transcriber {
            buffer,
            frames: [0; PORTS],
            lines: 0,
            ended: None,
        })
    }

    /// Why it ended, if it did: the line that came last is none of a trace.
    pub fn ended(&self) -> Option<NoLine>
        ensures { result ≡ self.now.ended }
    {
        self.ended
    }

    /// How many lines came, up to the one that ended it.
    pub fn lines(&self) -> u64
        ensures { result ≡ self.now.lines }
    {
        self.lines
    }
}
