//! What is asked of a chassis, and what it answers.
ghost use Rattle.std.specs.Prelude.{◌≡◌};
ghost use Rattle.gp_c.specs.Outs as spec;

use crate::answer::AnswerNumbers;
use crate::counts::PortCounts;
use crate::fault::Fault;
use crate::kept::KeptEntry;
use crate::row::RowNumbers;
use gp_machine::Event;
use gp_ploam::Serial;

/// What is asked.
#[derive(Drop)]
pub enum Op {
    /// Serve an event at a port.
    Apply { port: u8, event: Event },
    /// Tell what a port knows of a unit.
    Show { port: u8, serial: Serial },
    /// Tell how many licences are free.
    Count,
    /// Tell what is counted of a port.
    Tally { port: u8 },
    /// Give an entry that a port's journal keeps.
    Entry { port: u8, number: u64 },
    /// Let go what a port's journal keeps.
    Cut { port: u8 },
    /// Close the chassis.
    Close,
}

/// What is answered.
#[derive(Drop)]
pub enum Out {
    /// There is no chassis.
    NotOpen,
    /// To opening one, or to `Close`, or to `Cut`.
    Done(Result<(), Fault>),
    /// To `Apply`.
    Answered(Result<AnswerNumbers, Fault>),
    /// To `Show`.
    Shown(Result<RowNumbers, Fault>),
    /// To `Count`.
    Counted(u32),
    /// To `Tally`.
    Tallied(Result<PortCounts, Fault>),
    /// To `Entry`.
    Kept(Result<KeptEntry, Fault>),
}

impl Out {
    /// Gives the answer to opening, `Close` or `Cut`.
    #[inline(always)]
    pub(crate) fn done(self) -> Result<(), Fault>
        ensures { result ≡ spec.done_of self }
    {
        match self {
            Out::Done(done) => done,
            _ => Err(Fault::NotOpen),
        }
    }

    /// Gives the answer to `Apply`.
    #[inline(always)]
    pub(crate) fn answered(self) -> Result<AnswerNumbers, Fault>
        ensures { result ≡ spec.answered_of self }
    {
        match self {
            Out::Answered(answered) => answered,
            _ => Err(Fault::NotOpen),
        }
    }

    /// Gives the answer to `Show`.
    #[inline(always)]
    pub(crate) fn shown(self) -> Result<RowNumbers, Fault>
        ensures { result ≡ spec.shown_of self }
    {
        match self {
            Out::Shown(shown) => shown,
            _ => Err(Fault::NotOpen),
        }
    }

    /// Gives the answer to `Count`.
    #[inline(always)]
    pub(crate) fn counted(self) -> Result<u32, Fault>
        ensures { result ≡ spec.counted_of self }
    {
        match self {
            Out::Counted(count) => Ok(count),
            _ => Err(Fault::NotOpen),
        }
    }

    /// Gives the answer to `Tally`.
    #[inline(always)]
    pub(crate) fn tallied(self) -> Result<PortCounts, Fault>
        ensures { result ≡ spec.tallied_of self }
    {
        match self {
            Out::Tallied(counts) => counts,
            _ => Err(Fault::NotOpen),
        }
    }

    /// Gives the answer to `Entry`.
    #[inline(always)]
    pub(crate) fn kept(self) -> Result<KeptEntry, Fault>
        ensures { result ≡ spec.kept_of self }
    {
        match self {
            Out::Kept(kept) => kept,
            _ => Err(Fault::NotOpen),
        }
    }
}
