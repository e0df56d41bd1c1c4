//! An input and what is remembered of it: why it was not read, and its octets.
ghost use Rattle.std.specs.Prelude.{◌≡◌};
ghost use Rattle.gp_report.specs.Report.{run_status};
ghost use Rattle.gp_report.specs.Words.{explain_status};

use crate::reporting::{report, report_at, tell_cause, tell_mistake};
use gp_check::Purpose;
use gp_explain::{ExplainFault, NoLine};
use gp_flow::LinesFault;
use gp_replay::RunFault;
use gp_report::{BAD_INPUT, explain_report, run_report};
use std::alloc::Global;
use std::io;
use std::io::Read;

/// Gives an error that says the same.
pub(crate) fn same_error(error: &io::Error) -> io::Error {
    match error.raw_os_error() {
        Some(code) => io::Error::from_raw_os_error(code),
        None => io::Error::from(error.kind()),
    }
}

/// An input: a file, or standard input where it has no name.
#[derive(Drop)]
pub(crate) struct Seen<'a> {
    name: Option<&'a str>,
    cause: Option<io::Error>,
    octets: Option<Vec<u8>>,
}

impl<'a> Seen<'a> {
    /// An input of which only why it was not read is remembered.
    pub(crate) fn new(name: Option<&'a str>) -> Seen<'a> {
        Seen {
            name,
            cause: None,
            octets: None,
        }
    }

    /// An input whose octets are remembered too.
    pub(crate) fn keeping(alloc: Global, name: Option<&'a str>) -> Seen<'a> {
        Seen {
            name,
            cause: None,
            octets: Some(Vec::new(alloc)),
        }
    }

    /// Remembers why a read failed, or why the file was not opened.
    pub(crate) fn failed(&mut self, error: &io::Error) {
        self.cause = Some(same_error(error));
    }

    /// Why the last read that failed did, or why the file was not opened.
    pub(crate) fn cause(&self) -> Option<&io::Error> {
        self.cause.as_ref()
    }

    /// Remembers octets that were read, where they are kept. Where memory for them is refused, none are kept any more.
    fn note(&mut self, octets: &[u8]) {
        let is_kept = match &mut self.octets {
            Some(kept) => kept.extend_from_slice(octets).is_ok(),
            None => return,
        };
        if !is_kept {
            self.octets = None;
        }
    }

    /// Says on standard error that the input was not read, and why, and answers the exit status.
    pub(crate) fn tell_unread<R: AllocGlobal + Eprint>(&self, rt: &R) -> u8
        ensures { result ≡ BAD_INPUT }
    {
        tell_cause(rt, self.name, self.cause.as_ref());
        BAD_INPUT
    }

    /// Says on standard error why the script was not read, or what is wrong with it and where, and answers the exit
    /// status.
    pub(crate) fn end_script<R: AllocGlobal + Eprint>(&self, rt: &R, fault: &RunFault) -> u8
        ensures { result ≡ run_status fault.now }
    {
        if *fault == RunFault::Read {
            return self.tell_unread(rt);
        }
        let status = report(rt, run_report(fault));
        // Of a script that was not read to its end for want of memory nothing can be said.
        if let RunFault::Script(_) = fault {
            self.tell_place(rt, Purpose::Replay);
        }
        status
    }

    /// Says on standard error why a log was not heard to its end, with the number of the line that is none, and answers
    /// the exit status.
    pub(crate) fn end_log<R: AllocGlobal + Eprint>(&self, rt: &R, fault: &ExplainFault) -> u8
        ensures { result ≡ explain_status fault.now }
    {
        match fault {
            ExplainFault::Refused {
                line,
                why: NoLine::NotALine,
            } => {
                report_at(
                    rt,
                    ("oltctl: no line of a log or a trace", BAD_INPUT),
                    *line,
                )
            }
            ExplainFault::Refused {
                line,
                why: NoLine::TooLong,
            } => { report_at(rt, explain_report(fault), *line) }
            ExplainFault::Lines(LinesFault::Read) => self.tell_unread(rt),
            ExplainFault::Lines(_) => report(rt, explain_report(fault)),
        }
    }

    /// Says on standard error where these octets, which came from it, are no script for this, if they are none.
    pub(crate) fn tell_mistake<R: AllocGlobal + Eprint>(
        &self,
        rt: &R,
        purpose: Purpose,
        octets: &[u8],
    ) {
        tell_mistake(rt, self.name, purpose, octets);
    }

    /// Says on standard error where the octets are no script for this, where they were kept and are none.
    pub(crate) fn tell_place<R: AllocGlobal + Eprint>(&self, rt: &R, purpose: Purpose) {
        if let Some(octets) = &self.octets {
            self.tell_mistake(rt, purpose, octets.as_slice());
        }
    }
}

/// A reader of an input that is remembered.
#[derive(Drop)]
pub(crate) struct Observed<'s, 'a, T> {
    inner: T,
    seen: &'s mut Seen<'a>,
}

impl<'s, 'a, T> Observed<'s, 'a, T> {
    pub(crate) fn new(inner: T, seen: &'s mut Seen<'a>) -> Observed<'s, 'a, T>
        ensures { result.inner ≡ inner }
    {
        Observed { inner, seen }
    }
}

impl<T: Read> Read for Observed<'_, '_, T> {
    ghost remaining = { λ s. T.remaining s.inner };

    fn read(&mut self, buffer: &mut [u8]) -> io::Result<usize> {
        match self.inner.read(buffer) {
            Ok(count) => {
                self.seen.note(&buffer[..count]);
                Ok(count)
            }
            Err(error) => {
                self.seen.failed(&error);
                Err(error)
            }
        }
    }
}
