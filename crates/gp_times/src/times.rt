//! The times of the ports, by the lines of a trace or a log that tell of them, and how many lines fell.
ghost use Rattle.std.specs.Prelude.{◌≡◌, replicate};
ghost use Rattle.gp_times.specs.Times as spec;

use crate::frames::{Frames, Outside};
use gp_lines::PORTS;
use gp_log::{FRAME_NANOSECONDS, LogLine};
use std::marker::Model;

/// The time of a port.
#[derive(Clone, Copy, Debug, PartialEq, Eq)]
pub struct PortTime {
    /// In nanoseconds.
    pub time: u64,
    /// The frame of the first line that told of it, if one did.
    pub first: Option<u64>,
}

/// A port of which no line told.
const UNTOLD: PortTime = PortTime {
    time: 0,
    first: None,
};

impl PortTime {
    /// How many frames it has had.
    pub fn frame(&self) -> u64
        ensures { result ≡ spec.frame_of self.now.time }
    {
        self.time / FRAME_NANOSECONDS
    }

    /// A line tells of it at this time.
    fn told_at(&self, time: u64) -> PortTime
        ensures { result ≡ spec.told_at time self.now }
    {
        PortTime {
            time,
            first: Some(self.first.unwrap_or(time / FRAME_NANOSECONDS)),
        }
    }

    /// A line of a log tells of it: its time is this one, or already a later one.
    fn logged(&self, time: u64) -> PortTime
        ensures { result ≡ spec.logged time self.now }
    {
        self.told_at(self.time.max(time))
    }

    /// A line of a trace tells of it: a frame begins, or doesn't.
    fn traced(&self, is_frame: bool) -> PortTime
        ensures { result ≡ spec.traced is_frame self.now }
    {
        if is_frame {
            self.told_at(self.time.saturating_add(FRAME_NANOSECONDS))
        } else {
            self.told_at(self.time)
        }
    }
}

/// The earlier one of two frames, where there are two.
fn earlier(one: Option<u64>, other: Option<u64>) -> Option<u64>
    ensures { result ≡ spec.earlier one other }
{
    match (one, other) {
        (Some(one), Some(other)) => Some(one.min(other)),
        (None, other) => other,
        (one, None) => one,
    }
}

/// The times of the ports, and how many lines fell: their time was before that of their port. Contracts see a list
/// of the times, and the count.
#[derive(Drop)]
pub struct PortTimes {
    ports: [PortTime; PORTS],
    fallen: u64,
}

impl Model for PortTimes {
    ghost use Rattle.std.specs.Prelude.{◌≡◌, length};
    ghost use Rattle.gp_machine.specs.Config.{max_ports};
    ghost use Rattle.gp_times.specs.Times.{TimesState};

    ghost Value = { TimesState };

    ghost view = { λ t. record { ports = t.ports; fallen = t.fallen } };

    ghost invariant = { λ t. length t.ports ≡ max_ports };
}

impl PortTimes {
    /// No line told of any of them.
    pub fn begin() -> PortTimes
        ensures { result ≡ spec.times_begun }
    {
        PortTimes {
            ports: [UNTOLD; PORTS],
            fallen: 0,
        }
    }

    /// The time of a port; of one that isn't there, that of one of which no line told.
    pub fn of(&self, port: u8) -> PortTime
        ensures { result ≡ spec.time_of self.now port }
    {
        self.ports.get(usize::from(port)).copied().unwrap_or(UNTOLD)
    }

    /// Hears a line: its port comes to its time. Tells whether that is before the time of the port, which stays then,
    /// and counts the line as one that fell.
    pub fn hear(&mut self, line: &LogLine) -> bool
        ensures times { self.new ≡ spec.times_after line.now self.old }
        ensures falls { result ≡ spec.falls line.now self.old }
    {
        match line {
            LogLine::Remark => false,
            LogLine::Log { port, time, .. } => {
                let before = self.of(*port);
                let falls = *time < before.time;
                self.set(*port, before.logged(*time));
                self.count(falls);
                falls
            }
            LogLine::Trace { port, is_frame, .. } => {
                let before = self.of(*port);
                self.set(*port, before.traced(*is_frame));
                false
            }
        }
    }

    /// Notes the time of a port, if it is there.
    fn set(&mut self, port: u8, time: PortTime)
        ensures ports { self.new.ports ≡ spec.ports_with self.old port time }
        ensures fallen { self.new.fallen ≡ self.old.fallen }
    {
        let place = usize::from(port);
        if place < PORTS {
            self.ports[place] = time;
        }
    }

    /// Counts a line, if it fell.
    fn count(&mut self, falls: bool)
        ensures ports { self.new.ports ≡ self.old.ports }
        ensures fallen { self.new.fallen ≡ spec.fallen_with falls self.old.fallen }
    {
        if falls {
            self.fallen = self.fallen.saturating_add(1);
        }
    }

    /// How many lines had a time before that of their port, as far as 64 bits go.
    pub fn fallen(&self) -> u64
        ensures { result ≡ self.now.fallen }
    {
        self.fallen
    }

    /// The first frame of which a line told, if one did of any port.
    pub fn first(&self) -> Option<u64>
        ensures { result ≡ spec.first_told self.now }
    {
        self.ports
            .iter()
            .fold(None, |first, port| earlier(first, port.first))
    }

    /// The last frame of any port.
    pub fn last(&self) -> u64
        ensures { result ≡ spec.last_told self.now }
    {
        self.ports
            .iter()
            .fold(0, |last: u64, port| last.max(port.frame()))
    }

    /// Gives where all that was heard is, if all of it is before the first of these frames, or all of it behind the last.
    pub fn outside(&self, frames: &Frames) -> Option<Outside>
        ensures { result ≡ spec.outside_of frames.now self.now }
    {
        let first = self.first()?;
        let last = self.last();
        if last < frames.from {
            Some(Outside::Before { last })
        } else if frames.to < first {
            Some(Outside::Behind { first })
        } else {
            None
        }
    }
}
