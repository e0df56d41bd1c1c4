//! `Teller`, a writer that tells each line of a trace at its line feed to the writer below. After a fault every call
//! fails.
ghost use Rattle.std.specs.Prelude.{◌≡◌, [], None, IfOk, false, true};
ghost use Rattle.gp_stream.specs.declared.sink.TheConstants.{GATHERED_BYTES};
ghost use Rattle.gp_tell.specs.Teller.{Finishes};

use crate::began::Began;
use crate::fault::TellFault;
use gp_explain::Telling;
use gp_flow::MAX_LINE_BYTES;
use gp_stream::{Sink, Taken};
use std::alloc::{AllocError, Global};
use std::io::Write;
use std::marker::{Model, PhantomData};

/// How much room the buffer of what is told of a line has at first.
const TOLD_ROOM: usize = 512;

/// A writer that is handed the octets of a trace in any pieces, and writes what it tells of its lines to the writer
/// below, in large pieces.
///
/// A line is told at its line feed; of a line that is open at the end nothing is told. One of more than
/// [`MAX_LINE_BYTES`] octets is passed on as it comes. A fault below is told by the call behind it: what was taken
/// before stands, and from then on every call fails. Contracts see what it took, what the next line is told by, the
/// sink below, and the fault.
#[derive(Drop)]
pub struct Teller<B: Began, W: Write> {
    pub(crate) below: Sink<W>,
    pub(crate) telling: Telling,
    pub(crate) line: Vec<u8>,
    pub(crate) long: bool,
    pub(crate) told: Vec<u8>,
    pub(crate) fault: Option<TellFault>,
    pub(crate) taken: Taken,
    pub(crate) of: PhantomData<B>,
}

impl<B: Began, W: Write> Model for Teller<B, W> {
    ghost use Rattle.std.specs.Prelude.{◌≤◌, vec_capacity};
    ghost use Rattle.gp_flow.specs.Lines.{longest_line};
    ghost use Rattle.gp_tell.specs.Teller.{IsTelling, TellerState};

    ghost Value = { TellerState W };

    ghost view = { λ s. record { taken = s.taken.octets; manner = s.telling; below = s.below; fault = s.fault } };

    ghost invariant = { λ s. IsTelling B.manner B.held
        (record { taken = s.taken.octets; manner = s.telling; below = s.below; fault = s.fault }) s.long s.line.items
        × (longest_line ≤ vec_capacity s.line) };
}

impl<B: Began, W: Write> Teller<B, W> {
    /// Makes a teller that took nothing. Takes memory for a line and for what is told of lines.
    pub fn new(alloc: Global, telling: Telling, inner: W) -> Result<Self, AllocError>
    where
        W: Drop,
        requires manner { telling ≡ B.manner }
        requires held { W.contents inner ≡ B.held }
        ensures { IfOk result (λ teller. teller ≡ record {
          taken = [];
          manner = telling;
          below = record {
            writer = inner;
            held = W.contents inner;
            gathered = [];
            stopped = false;
            flushed = true;
            room = GATHERED_BYTES;
          };
          fault = None;
        }) }
    {
        let below = Sink::new(alloc, inner)?;
        let line = Vec::with_capacity(alloc, MAX_LINE_BYTES)?;
        let told = Vec::with_capacity(alloc, TOLD_ROOM)?;
        Ok(Teller {
            below,
            telling,
            line,
            long: false,
            told,
            fault: None,
            taken: Taken::new(),
            of: PhantomData,
        })
    }

    /// Why it tells no more, if it doesn't.
    pub fn fault(&self) -> Option<TellFault>
        ensures { result ≡ self.now.fault }
    {
        self.fault
    }

    /// Writes out all that was told, and flushes the writer below behind it.
    pub fn finish(&mut self) -> Result<(), TellFault>
        ensures { Finishes B.manner B.held self.old self.new result }
    {
        if let Some(fault) = self.fault {
            return Err(fault);
        }
        match self.below.finish() {
            Ok(()) => Ok(()),
            Err(_) => {
                self.fault = Some(TellFault::Write);
                Err(TellFault::Write)
            }
        }
    }

    /// Returns the writer below, which holds what the teller says that it holds. What was told and is not yet written
    /// is lost: call [`Teller::finish`] first.
    pub fn into_inner(self) -> W
        ensures writer { result ≡ self.below.writer }
        ensures held { W.contents result ≡ self.below.held }
    {
        let Teller { below, .. } = self;
        below.into_inner()
    }
}
