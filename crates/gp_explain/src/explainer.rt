//! The lines of a trace, one after another.
ghost use Rattle.std.specs.Prelude.{◌≡◌, ◌+◌, Ok, Err, None, Some, IfOk, OnErr};
ghost use Rattle.gp_explain.specs.Explaining.{opened_explain};

use crate::fault::NoLine;
use crate::telling::Telling;
use std::alloc::{AllocError, Global};
use std::marker::Model;

/// How much room the buffer of a line has at first.
const LINE_ROOM: usize = 512;

/// Tells the lines of a trace, one after another. The first line that is none of a trace ends it. Contracts see what
/// the next line is told by, how many lines came, and what ended it.
#[derive(Drop)]
pub struct Explainer {
    pub(crate) telling: Telling,
    pub(crate) buffer: Vec<u8>,
    pub(crate) lines: u64,
    pub(crate) ended: Option<NoLine>,
}

impl Model for Explainer {
    ghost use Rattle.gp_explain.specs.Explaining.{ExplainState};

    ghost Value = { ExplainState };

    ghost view = { λ s. record { manner = s.telling; lines = s.lines; ended = s.ended } };
}

impl Explainer {
    /// Makes one to which no line came.
    pub fn new(alloc: Global, telling: Telling) -> Result<Explainer, AllocError>
        ensures { IfOk result (λ explainer. explainer ≡ opened_explain telling) }
    {
        let buffer = Vec::with_capacity(alloc, LINE_ROOM)?;
        Ok(Explainer {
            telling,
            buffer,
            lines: 0,
            ended: None,
        })
    }

    /// Why it ended, if it did: the line that came last is none of a trace.
    pub fn ended(&self) -> Option<NoLine>
        ensures { result ≡ self.now.ended }
    {
        self.ended
    }

    /// How many lines came, up to the one that ended it.
    pub fn lines(&self) -> u64
        ensures { result ≡ self.now.lines }
    {
        self.lines
    }
}
