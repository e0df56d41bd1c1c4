//! What stands on a port for a frame, or while a window is open.

ghost use Rattle.std.specs.Prelude.{◌≡◌, None};
ghost use Rattle.gp_waves.specs.Pulses as spec;

use gp_log::FRAME_NANOSECONDS;

/// For how long a window is open, in nanoseconds: three frames.
const WINDOW_NANOSECONDS: u64 = 3 * FRAME_NANOSECONDS;

/// What stands on a port for a while.
#[derive(Clone, Copy, PartialEq, Eq)]
pub(crate) enum Pulse {
    /// The code that is sent.
    Sent,
    /// What is granted.
    Grant,
    /// The window that is open.
    Window,
    /// The burst.
    Burst,
    /// The alarm.
    Alarm,
}

/// When each ends, in nanoseconds, if it stands.
#[derive(Clone, Copy)]
pub(crate) struct Pulses {
    sent: Option<u64>,
    grant: Option<u64>,
    window: Option<u64>,
    burst: Option<u64>,
    alarm: Option<u64>,
}

impl Pulses {
    /// Nothing stands.
    pub(crate) fn none() -> Pulses
        ensures { result ≡ spec.no_pulses }
    {
        Pulses {
            sent: None,
            grant: None,
            window: None,
            burst: None,
            alarm: None,
        }
    }

    /// Gives when one ends.
    fn end(&self, pulse: Pulse) -> Option<u64>
        ensures { result ≡ spec.end_of self.now pulse }
    {
        match pulse {
            Pulse::Sent => self.sent,
            Pulse::Grant => self.grant,
            Pulse::Window => self.window,
            Pulse::Burst => self.burst,
            Pulse::Alarm => self.alarm,
        }
    }

    /// Notes when one ends.
    fn set_end(&mut self, pulse: Pulse, end: Option<u64>)
        ensures { self.new ≡ spec.with_end pulse end self.old }
    {
        match pulse {
            Pulse::Sent => self.sent = end,
            Pulse::Grant => self.grant = end,
            Pulse::Window => self.window = end,
            Pulse::Burst => self.burst = end,
            Pulse::Alarm => self.alarm = end,
        }
    }

    /// Begins one at this time: a window for three frames, any other for one.
    pub(crate) fn begin(&mut self, pulse: Pulse, time: u64)
        ensures { self.new ≡ spec.pulse_begun pulse time self.old }
    {
        let length = match pulse {
            Pulse::Window => WINDOW_NANOSECONDS,
            Pulse::Sent | Pulse::Grant | Pulse::Burst | Pulse::Alarm => FRAME_NANOSECONDS,
        };
        self.set_end(pulse, Some(time.saturating_add(length)));
    }

    /// Has a window that is open at this time end a frame later, unless it ends before that.
    pub(crate) fn shorten_window(&mut self, time: u64)
        ensures { self.new ≡ spec.window_shortened time self.old }
    {
        let last = time.saturating_add(FRAME_NANOSECONDS);
        self.window = match self.window {
            Some(end) => Some(end.min(last)),
            None => None,
        };
    }

    /// Gives the first of some and this one to end, if it does so before this time.
    fn sooner(&self, first: Option<(Pulse, u64)>, pulse: Pulse, time: u64) -> Option<(Pulse, u64)>
        ensures { result ≡ spec.sooner self.now first pulse time }
    {
        let limit = match first {
            Some((_, end)) => end,
            None => time,
        };
        match self.end(pulse) {
            Some(end) if end < limit => Some((pulse, end)),
            _ => first,
        }
    }

    /// Gives the one that ends first, if it does so before this time, and when.
    fn first_past(&self, time: u64) -> Option<(Pulse, u64)>
        ensures { result ≡ spec.first_past self.now time }
    {
        let first = self.sooner(None, Pulse::Sent, time);
        let first = self.sooner(first, Pulse::Grant, time);
        let first = self.sooner(first, Pulse::Window, time);
        let first = self.sooner(first, Pulse::Burst, time);
        self.sooner(first, Pulse::Alarm, time)
    }

    /// Takes the one that ends first, if it does so before this time, and gives when.
    pub(crate) fn take_past(&mut self, time: u64) -> Option<(Pulse, u64)>
        ensures first { result ≡ spec.first_past self.old time }
        ensures left { self.new ≡ spec.left_behind (spec.first_past self.old time) self.old }
    {
        let first = self.first_past(time);
        if let Some((pulse, _)) = first {
            self.set_end(pulse, None);
        }
        first
    }
}
